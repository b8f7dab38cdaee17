//! What a completion hands on: the version that covers a grade with its level, or the mark that the move limit stands before it.
#![tactic(auto)]

mod handing;

pub use handing::{helped, marked, shared};
