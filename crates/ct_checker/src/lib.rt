//! Who checks a ledger of critical pairs, and who makes one.
//!
//! A ledger lists moves, and for each of their jobs up to a grade two walks that meet, or that the pair is coprime.
//! Where it is accepted, its moves decide each fiber up to the grade, whoever made it: by the graded critical-pair
//! lemma each has exactly one point that no head divides, and it is the least (`laws`).
#![tactic(auto)]

mod certifying;
mod checking;
mod docket;
mod job_list;
pub mod laws;
mod ledger_entries;
mod ledger_moves;
mod stops;
mod verdicts;

pub use certifying::certify;
pub use checking::{check, checked};
pub use docket::{Docket, docket_of};
pub use stops::CheckStop;
pub use verdicts::{Reason, Verdict};
