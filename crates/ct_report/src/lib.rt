//! The report of a run: phases, in each its sessions, in each a line for each request.
//!
//! A `Report` is printed as one text and read back from it: `read` gives a report exactly where the bytes are its text,
//! and names the first line at fault exactly where they are the text of none.
#![tactic(auto)]

pub mod laws;
mod print;
mod reading;
mod reports;
mod stage;

pub use ct_lines::TextStop as ReportStop;
pub use reports::{PhaseReport, Report};
