//! Laws of the two grammars.

ghost use Rattle.ct_input.specs.Accepted.{TextIsInstance, TextIsScript};
ghost use Rattle.ct_input.specs.FirstFault.{InstanceFaultIsFirst, SessionFaultIsFirst};
ghost use Rattle.ct_input.specs.Cut.{CutInstanceHasFault, CutSessionsHaveFault, InstanceEndsWithEnd, SessionsEndWithEnd};

/// The tokens before a fault of an instance text can go on to a text of the right tokens, and with the token at the
/// fault they can't.
pub fn instance_fault_is_first()
    ensures { InstanceFaultIsFirst }
{}

/// The tokens before a fault of a session text can go on to a session text, and with the token at the fault they can't.
pub fn session_fault_is_first()
    ensures { SessionFaultIsFirst }
{}

/// An instance text ends with the word `end`, and a front of one that ends before the last byte of that word is refused:
/// no file that was cut short is taken for a whole one.
pub fn cut_instance_has_fault()
    ensures cut { CutInstanceHasFault }
    ensures last { InstanceEndsWithEnd }
{}

/// A session text ends with the word `end`, and a front of one that ends before the last byte of that word is refused.
pub fn cut_sessions_have_fault()
    ensures cut { CutSessionsHaveFault }
    ensures last { SessionsEndWithEnd }
{}

/// An instance text that is accepted stands for an instance, and a session text for a script of an instance with so many
/// rows, of at most 64 phases.
pub fn texts_are_inputs()
    ensures instance { TextIsInstance }
    ensures script { TextIsScript }
{}
