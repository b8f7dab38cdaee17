//! The commands: from the words and the files to the bytes that are written.
//!
//! [`run_plain`] fetches the files that the words name, reads them, answers, and writes one text: the report, or the
//! line of a refusal. Its clauses say for each [`Status`] when it comes and what was written, for every command alike,
//! since what a command does is a plan. The whole text is built before the first write. `specs/` has the words of a
//! command, its plan, what a plan comes to by what the files hold, the texts of an outcome, and how a run goes along
//! a plan.
#![tactic(auto)]

mod boxing;
mod calls;
mod certifying;
mod checking;
mod crew;
mod ending;
pub mod laws;
mod listing;
mod making;
mod plain;
mod reading;
mod resuming;
mod service;
mod serving;
mod sharing;
mod status;
mod stop;
mod telling;
mod words;
mod writing;

pub use calls::{run, run_batch, run_plain};
pub use status::Status;
