//! A lock round one value, whose passes count what they did to it.
//!
//! One word is 0 while the lock is free and 1 while somebody holds it, and one slot holds the value.
//! A value has a count for each pass, for instance how many entries of a journal are the pass's. Each thread
//! steps with a pass of its own, and only its holder can raise the count of its number. So the counts in
//! the passes and the counts of the value agree whenever the lock is free, with nothing compared at run time:
//! who closes the lock with all passes has a value with just the counts that the passes have.
//! A pass also knows what each value showed that it got.
//! Only the module `table` touches the shared word and slot, by one function for each kind of step.
//! The rule of the lock holds between any two atomic steps: `specs/Count.antt` states it, and
//! `proofs/Steps.antt` has a lemma for each kind of step.
#![tactic(auto)]

mod counted;
mod lock;
mod note;
mod pass;
mod rule;
mod table;

pub use counted::Counted;
pub use lock::CountLock;
pub use pass::LockPass;
