//! An input made of a number, and the summary of what was answered to it.
//!
//! [`made`] draws an instance and a script of 1,000 requests by a linear congruential generator. [`Tally`] adds up what
//! the lines of a report say, and [`Summary`] is a tally with the number of moves and the level at the end, as text.
#![tactic(auto)]

mod draws;
pub mod laws;
mod making;
mod summary;
mod tally;

pub use making::made;
pub use summary::Summary;
pub use tally::Tally;
