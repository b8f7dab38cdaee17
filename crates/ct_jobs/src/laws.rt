//! Laws of lists of graded jobs, as contracts of functions that do nothing.

ghost use Rattle.ct_jobs.specs.Laws.{JobsGrow, NextGradeIsOfAll, OneGradeIsListed};

/// Where moves are added at the end of a list, its jobs and the pairs with a new move are the jobs of the longer list.
/// The next grade among the jobs of a list, and the jobs of one grade in job order, are those of the list of all jobs.
pub fn graded_jobs_are_all_jobs()
    ensures grow { JobsGrow }
    ensures next { NextGradeIsOfAll }
    ensures grade { OneGradeIsListed }
{}
