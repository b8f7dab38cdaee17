//! Laws of runs of forms, as contracts of functions that do nothing.

ghost use Rattle.ct_form_report.specs.Laws.{TrimmedIsLegal, TrimmedIsLegalAnswered, WidenedWithSolves, WidenedIsScript, ServedOfFormIsTrue, AnsweredOfFormIsTrue};

/// A legal report of the equality form for the widened script, cut to the form's columns, is legal for the form.
pub fn trimmed_reports_are_legal()
    ensures served { TrimmedIsLegal }
    ensures answered { TrimmedIsLegalAnswered }
{}

/// The widened script of a form is one of its equality form, and stays so with its asks taken as solves.
pub fn widened_scripts_are_scripts()
    ensures script { WidenedIsScript }
    ensures solves { WidenedWithSolves }
{}

/// Each line of a legal report of a form is true of its request: an answer is the form's least solution, or there is none;
/// walks, levels and full grades are those of the equality form.
pub fn legal_reports_of_forms_are_true()
    ensures served { ServedOfFormIsTrue }
    ensures answered { AnsweredOfFormIsTrue }
{}
