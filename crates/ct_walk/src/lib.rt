//! Moves of an instance, and walks by a list of them.
//!
//! A `Move` takes its head away from a point and adds its tail, and so goes down in the refined order within one fiber.
//! `Moves` is a list of moves of one instance, numbered from 1. The walk of a point takes the first move whose head
//! fits, as many times as it fits, until none fits (Conti and Traverso 1991, read as Thomas 1995 reads it). Two walks that
//! come to one point go on alike, so `have_one_end` stops there. `laws` says what steps and walks do, and has the lemma on
//! critical pairs that makes it enough to look at those of small degree.
#![tactic(auto)]

mod degrees;
mod faults;
mod heights;
pub mod laws;
mod meeting;
mod move_list;
mod moves;
mod slabs;
mod walking;
mod walks;

pub use faults::MoveFault;
pub use heights::Height;
pub use meeting::have_one_end;
pub use move_list::Moves;
pub use moves::Move;
pub use walking::{follow, walk, walk_end};
pub use walks::Walk;
