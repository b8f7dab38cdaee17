//! Answering a script of a form by the box of its right-hand sides.
//!
//! The bound has in each row the greatest number that stands there in a right-hand side of the script, of asks and of
//! solves. One completion of its box serves the whole script, and each request costs one walk. `specs/BoxReport` says what
//! is told.
#![tactic(auto)]

mod answering;
mod bounding;
mod boxed;
mod reading;

pub use answering::box_report;
