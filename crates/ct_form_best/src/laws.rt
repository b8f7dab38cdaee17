//! Laws of the k least solutions of a form, as contracts of functions that do nothing.

ghost use Rattle.ct_form_best.specs.Laws.{CutBestIsBest, ShownIsBest};

/// The k least solutions of the equality form, each cut to the form's columns, are the k least solutions of the form; so
/// what is shown of them are those, each with its costs.
pub fn cut_best_list_is_best()
    ensures cut { CutBestIsBest }
    ensures shown { ShownIsBest }
{}
