//! Runs of forms: what goes between a form and its equality form, and that legal reports stay legal.
//!
//! A script of a form is widened: each right-hand side gets the bounds behind it. Then any run of an instance serves, and
//! the points of its report are cut to the form's columns. `specs/FormCases` says what a run of a form is of, and `laws`
//! that the cut report is legal for it.
#![tactic(auto)]

pub mod laws;
#[cfg(test)]
mod tests;
mod trimming;
mod widening;

pub use trimming::{trim, trim_report};
pub use widening::widen;
