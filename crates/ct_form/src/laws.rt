//! Laws of the definitions, as contracts of functions that do nothing.

ghost use Rattle.ct_form.specs.Laws.{SolutionsAreCut, SolutionsAreExtended, AnswerIsLeastFormSolution, NoneIsInfeasible, PlainIsItself, FormIsInEqual, ZeroColumnIsFree};

/// The solutions of the equality form, cut to the form's columns, are the solutions of the form, each of one.
pub fn equality_form_has_the_solutions()
    ensures cut { SolutionsAreCut }
    ensures extended { SolutionsAreExtended }
{}

/// The answer of a form is its unique least solution with the costs; where there is none it is infeasible.
pub fn answer_is_least_form_solution()
    ensures optimum { AnswerIsLeastFormSolution }
    ensures infeasible { NoneIsInfeasible }
{}

/// The form of an instance has that instance as its equality form.
pub fn plain_form_is_itself()
    ensures { PlainIsItself }
{}

/// A form is read from its equality form, whose first zero column is the least column of the form that is zero and whose
/// variable has no bound.
pub fn equality_form_keeps_the_form()
    ensures form { FormIsInEqual }
    ensures zero_column { ZeroColumnIsFree }
{}
