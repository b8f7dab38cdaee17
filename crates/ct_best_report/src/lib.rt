//! What is told of the least solutions of each request of a script, and its text.
//!
//! One completion serves all requests, and goes up to the sum of each; its version then gives the least solutions
//! (`ct_best`), and each is told with its costs, by as many of its numbers as the caller wants shown.
#![tactic(auto)]

mod costs;
pub mod laws;
mod print;
mod reports;
mod rights;
mod telling;

pub use reports::{BestAnswer, BestReport, Solution};
pub use rights::rights_of;
pub use telling::best_report;
