//! What a person is promised: one sentence on `answer` and `serve`, with what it says of lists of numbers.
//!
//! [`run`], [`run_batch`] and [`run_plain`] are the calls of `ct_run`, and their contract is the sentence: where they end as Done, the
//! files stand for a form and a script, and what was written is the text of one report, each line of which is true of
//! its request. `specs/Promise` has the sentence, `specs/Headline` of `ct_legal` what a line says, and
//! `specs/FormHeadline` of `ct_form_report` what it says of a form. The functions of `laws` say that the sentence
//! follows from what `run` of `ct_run` ensures, and what goes beside it.
#![tactic(auto)]

mod calls;
pub mod laws;

pub use calls::{run, run_batch, run_plain};
