//! Laws of the k least solutions, as contracts of functions that do nothing.

ghost use Rattle.ct_best.specs.Laws.{SolutionsAreReached, BestListExists, BestListIsOne};

/// Each solution but the least is one move of the test list of the right-hand side's sum, taken backwards, above a
/// smaller solution.
pub fn solutions_are_reached()
    ensures reached { SolutionsAreReached }
{}

/// For each count and right-hand side there is exactly one list of the least solutions.
pub fn best_list_is_one()
    ensures some { BestListExists }
    ensures only { BestListIsOne }
{}
