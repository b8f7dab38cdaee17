//! Forms: integer programs whose rows may be at most their right-hand side, and whose variables may have a bound.
//!
//! A form is turned into an instance with slack columns, its equality form, and answers are cut to the form's columns.
//! `specs/Forms` says what a form and its solutions are, `specs/EqualityForms` what the equality form is, and `laws` that
//! both have the same solutions, so that what is told is the least solution of the form.
#![tactic(auto)]

mod forms;
pub mod laws;
mod making;
mod relation;

pub use forms::Form;
pub use relation::{Limits, Relation};
