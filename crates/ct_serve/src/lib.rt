//! Serving a script: workers complete the test set while sessions answer from published versions.
//!
//! The workers and the sessions of a phase are the parts of one list that is run in parallel, each with a pass of its own of
//! one host. The main part runs the phases. It holds a version that has reached all that was worked for so far, and the grade
//! at which the host opened, from which the sessions of the next phase begin.
#![tactic(auto)]

mod collecting;
mod dealing;
mod parts;
mod phases;
mod reaching;
mod running;
mod serving;
mod shared;

pub use serving::{serve_report, serve_report_at};
