//! Form texts: one grammar for both of their forms, its reader, and the first fault of a bad text.
//!
//! A text of form 1 is an instance text. One of form 2 says beside it of each row whether it is equal to its right-hand
//! side or at most it, and of each column whether it has a bound. [`read_form`] goes once over the tokens, and gives what
//! the grammar of `specs/FormText` gives or names the first fault.
#![tactic(auto)]

mod draft;
mod form_text;
pub mod laws;
#[cfg(test)]
mod tests;

pub use draft::FormDraft;
pub use form_text::read_form;
