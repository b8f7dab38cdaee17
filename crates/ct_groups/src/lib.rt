//! The new moves that the points of a grade's remainders give.
//!
//! A group is the points of one degree, and its moves take each other point of it to the least (`ct_completion` says so,
//! and that they make the next version's list). `new_moves` finds them.
#![tactic(auto)]

mod finding;
mod least;
mod pairs;

pub use finding::new_moves;
