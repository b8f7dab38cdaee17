//! The checked instance of an integer program, and the definitions of the whole subject.
//!
//! `Instance` keeps a matrix of natural numbers by columns, none of them zero, with one to eight rows of costs, and answers
//! degrees and grades of points. `specs/` defines what the crates above are about, from the fiber of a right-hand side
//! to the versions of a test set, and `laws` says what the definitions mean: the contract of each of its functions is
//! a law. `Job` names what a completion works on.
#![tactic(auto)]

mod instances;
mod jobs;
pub mod laws;
mod making;
mod refusals;
mod sums;

pub use instances::Instance;
pub use jobs::Job;
pub use refusals::{BadInstance, BadMatrix};
