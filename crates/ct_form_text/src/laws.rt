//! Laws of the grammar of form texts.

ghost use Rattle.ct_form_text.specs.Laws.{FormFaultIsFirst, TextIsForm, InstanceTextIsPlain, CutFormHasFault, FormEndsWithEnd};

/// The tokens before a fault of a form text can go on to a text of the right tokens, and with the token at the fault
/// they can't.
pub fn form_fault_is_first()
    ensures { FormFaultIsFirst }
{}

/// A text that is accepted stands for a form, and an instance text for the form of its instance.
pub fn texts_are_forms()
    ensures form { TextIsForm }
    ensures plain { InstanceTextIsPlain }
{}

/// A form text ends with the word `end`, and a front of one that ends before the last byte of that word is refused.
pub fn cut_form_has_fault()
    ensures cut { CutFormHasFault }
    ensures last { FormEndsWithEnd }
{}
