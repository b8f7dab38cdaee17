//! The completion of a test set, grade by grade: what it may do, and what it leaves.
//!
//! `specs/` defines the completion machine, the journal of what a completion did with its replay, and the moves that
//! the remainders of a grade give. `laws` says that these moves make the next version's list, and that the state of a
//! completion is the replay of its journal. `Act` and `Entry` are the lines of a journal. The crate has no other code.
#![tactic(auto)]

mod journals;
pub mod laws;

pub use journals::{Act, Entry};
