//! Laws of what is shown, as contracts of functions that do nothing.

ghost use Rattle.ct_best_report.specs.Laws.{AllColumnsAreShown};

/// Where all columns of an instance are shown, no solution is cut.
pub fn all_columns_are_shown()
    ensures { AllColumnsAreShown }
{}
