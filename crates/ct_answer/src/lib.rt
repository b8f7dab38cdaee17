//! Answering a script in one thread, or with its answers found beforehand in several.
//!
//! One completion serves the whole script. It goes up to what each request needs, and up to what each level needs where
//! levels are asked for, and no further; a request that its version covers costs one walk. What comes out is the one legal
//! report of the script with each ask taken as a solve.
#![tactic(auto)]

mod answering;
mod batching;
mod counting;
mod extent;
mod gathering;
mod grades;
mod options;
mod prepared;
mod solver;

pub use answering::answer;
pub use batching::answer_batch_report;
pub use counting::answer_counted;
pub use extent::Extent;
pub use grades::raised;
pub use options::Options;
