//! The box: the part of a test list within a bound on degrees.
//!
//! A bound has a number for each row. The box has the test moves whose heads have a degree at most the bound in each row:
//! for right-hand sides within the bound it answers as the test list of the bound's sum does, and it may be far shorter.
//! `specs/` defines it, its moves up to a grade, and its completion grade by grade, and `complete_box` makes that. `laws`
//! says that such a completion ends with the box or below its full grade, and that walks by it end at the least point.
#![tactic(auto)]

mod filling;
pub mod laws;
mod reducing;
mod within;

pub use filling::{BoxDone, complete_box};
