//! The k least solutions of a form: what is shown of those of its equality form, cut to the form's columns.
//!
//! `specs/FormBest` says what the k least solutions of a form are, in the words of the form alone, and `laws` that they
//! are what a list of the k least of the equality form becomes.
#![tactic(auto)]

pub mod laws;
