//! Versions of a test set, what they answer, and how the layers above hand versions on.
//!
//! A `Version` is one list of moves of the line of test lists of an instance, with the level up to which it is
//! finished. It answers each right-hand side whose sum that level covers by a walk. A `Desk` is where a session gets
//! versions: it pins the newest one, or asks for help until a grade is covered. A `Gate` is what a worker or a session
//! passes before each step.
#![tactic(auto)]

mod answers;
mod asking;
mod desks;
mod finished;
mod gates;
mod pins;
mod readings;
mod stops;
mod versions;

pub use answers::{Answer, AnswerKind, Answered};
pub use desks::Desk;
pub use finished::Finished;
pub use gates::{Gate, NoGate};
pub use pins::{FullMark, Helped, Pin, Stop};
pub use stops::{AskStop, NotYet};
pub use versions::Version;
