//! Ledgers whose moves are the test list of their grade, and how to see that they are.
//!
//! An accepted ledger has moves that decide each fiber up to its grade. They are the test list of that grade exactly
//! where they are reduced: no head is divided by the head of another move, no head divides a tail, and heads stand in
//! order. `specs/` defines that, also as a test, `laws` says so, `first_unreduced` makes the test, and `resume` gives the
//! moves of a ledger that passes it, as far as a limit lets them.
#![tactic(auto)]

pub mod laws;
#[cfg(test)]
mod ledger_tests;
mod reduced;
mod resumed;
mod resuming;

pub use reduced::first_unreduced;
pub use resumed::{ResumeStop, Resumed};
pub use resuming::resume;
