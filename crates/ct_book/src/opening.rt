//! Opening a grade.
ghost use Rattle.std.specs.Prelude.{◌≡◌, ◌++◌, [], List, None, Some, IfOk};
ghost use Rattle.ct_instance.specs.Instance.{Problem};
ghost use Rattle.ct_instance.specs.TestSet.{Binomial};
ghost use Rattle.ct_instance.specs.Jobs.{jobs_at};
ghost use Rattle.ct_jobs.specs.GradedJobs.{next_grade, AreJobsOf};
ghost use Rattle.ct_version.specs.Editions.{level_seen, level_below};
ghost use Rattle.ct_book.specs.Insides.{fresh};
ghost use Rattle.ct_book.specs.Openings.{ListsJobs};

use crate::queue::Queue;
use ct_jobs::{Addition, Buckets};
use ct_version::Finished;
use std::alloc::{AllocError, Global};

// The level up to the grade that is opened, and the jobs of that grade.
#[derive(Drop)]
pub struct Opening {
    pub finished: Finished,
    pub queue: Queue,
}

// The next grade above this one, among the jobs and those of an addition.
pub fn opened_above(
    alloc: Global,
    buckets: &Buckets,
    more: &Addition,
    above: u64,
) -> Result<Opening, AllocError>
    ensures level { IfOk result (λ o. level_seen o.finished ≡ level_below (next_grade above (buckets.now.jobs ++ more.now))) }
    ensures jobs { IfOk result (λ o. ListsJobs (buckets.now.jobs ++ more.now) (next_grade above (buckets.now.jobs ++ more.now)) o.queue) }
{
    match buckets.next_with(above, more) {
        None => nothing_opened(alloc),
        Some(grade) => grade_opened(alloc, buckets, more, grade),
    }
}

// No grade is left.
fn nothing_opened(alloc: Global) -> Result<Opening, AllocError>
    ensures level { IfOk result (λ o. level_seen o.finished ≡ level_below None) }
    ensures jobs { IfOk result (λ o. o.queue ≡ fresh []) }
{
    let queue = Queue::new(alloc, Vec::new(alloc))?;
    Ok(Opening {
        finished: Finished::All,
        queue,
    })
}

// This grade.
fn grade_opened(
    alloc: Global,
    buckets: &Buckets,
    more: &Addition,
    grade: u64,
) -> Result<Opening, AllocError>
    ensures level { IfOk result (λ o. level_seen o.finished ≡ level_below (Some grade)) }
    ensures jobs { IfOk result (λ o. (i : Problem) → (ms : List Binomial) → AreJobsOf i ms (buckets.now.jobs ++ more.now) → o.queue ≡ fresh (jobs_at i ms grade)) }
{
    let jobs = buckets.jobs_with(alloc, grade, more)?;
    let queue = Queue::new(alloc, jobs)?;
    Ok(Opening {
        finished: Finished::below(Some(grade)),
        queue,
    })
}
