//! A cell for the newest of a line of numbered values, which many threads read without waiting.
//!
//! One word is twice the number of the value at home, and one more while somebody holds the turn.
//! One slot holds the value. Who finds the word even by its one take has the turn and the slot
//! until it gives them back, as under a test-and-set lock; who finds it odd is told so at once.
//! Only `put` tries again.
//! Each thread steps with a pass of its own, which knows the greatest number that it has seen:
//! the number in the cell never falls, so no read gives less than what the pass had seen before.
//! Only the module `table` touches the shared word and slot, by one function for each kind of step.
//! The rule of the cell holds between any two atomic steps: `specs/Turn.antt` states it, and
//! `proofs/Steps.antt` has a lemma for each kind of step.
#![tactic(auto)]

mod cell;
mod held;
mod note;
mod numbered;
mod pass;
mod rule;
mod stops;
mod table;

pub use cell::TurnCell;
pub use held::Held;
pub use numbered::Numbered;
pub use pass::Pass;
pub use stops::{Busy, ReadStop};
