//! Workers: each takes steps of a bench until a grade is covered. And any interleaving of their steps at one book, as a list
//! of turns.
#![tactic(auto)]

mod driving;
mod held;
#[cfg(test)]
mod tests;
mod turns;
mod working;

pub use driving::drive;
pub use turns::{Turn, Turned};
pub use working::work;
