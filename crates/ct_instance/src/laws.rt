//! Laws of the definitions, as contracts of functions that do nothing.

ghost use Rattle.ct_instance.specs.Laws.{FiberIsListed, LeastPointIsLeast, SolutionsAreInFibers, AnswerIsLeastSolution, AnswerIsShort, ShortHasNoSolution, ImprovableIsTested, TestHeadIsTested, DividesIsTested, SameJobIsTested, ImprovableIsNotLeast, ImprovableAboveTestHead, TestHeadIsMinimal, TestMoveIsDisjoint, TestListIsOne, TestListsGrow, JobsAreListed, JobsOfGradeAreListed, JobsUpToAreListed, JobsAreCounted};

/// The listed fiber has exactly the points of its degree, and `least_of` is the one point that is below all others.
pub fn fiber_has_one_least_point()
    ensures listed { FiberIsListed }
    ensures least { LeastPointIsLeast }
{}

/// The answer to a right-hand side is the unique least solution with its costs; where there is none, it is the
/// smallest artificial total.
pub fn answer_is_least_solution()
    ensures fibers { SolutionsAreInFibers }
    ensures optimum { AnswerIsLeastSolution }
    ensures infeasible { AnswerIsShort }
    ensures exactly { ShortHasNoSolution }
{}

/// The tests `is_improvable`, `is_test_head`, `divides` and `is_same_job` agree with what they are named after, and a point is
/// improvable where it isn't the least of its fiber.
pub fn tests_agree()
    ensures improvable { ImprovableIsTested }
    ensures test_head { TestHeadIsTested }
    ensures divides { DividesIsTested }
    ensures same_job { SameJobIsTested }
    ensures not_least { ImprovableIsNotLeast }
{}

/// A point is improvable exactly above a test head; test heads are minimal, and share no variable with their tails.
pub fn test_heads_decide()
    ensures above { ImprovableAboveTestHead }
    ensures minimal { TestHeadIsMinimal }
    ensures disjoint { TestMoveIsDisjoint }
{}

/// The test list of a grade is the one list that is sound, complete and in order, and that of a greater grade begins
/// with it.
pub fn test_list_is_one()
    ensures one { TestListIsOne }
    ensures grows { TestListsGrow }
{}

/// The listed jobs are all jobs of a list of moves; those listed for a grade are all of that grade, in job order, and
/// those listed up to a grade are all up to it, by grade first.
pub fn jobs_are_listed()
    ensures all { JobsAreListed }
    ensures grade { JobsOfGradeAreListed }
    ensures up_to_grade { JobsUpToAreListed }
    ensures count { JobsAreCounted }
{}
