//! The jobs of a list of moves, by grade: a generator for each column, and a critical pair for each two moves.
//!
//! `Buckets` holds the jobs of a list of moves as that grows. `prepare` lists the pairs with new moves, with their
//! grades; `reserve` makes room for them, and then `absorb` takes them in and can't fail. Before that an addition may
//! stand beside the buckets: `next_with` and `jobs_with` look at both. `ends`, `ends_into`, `job_grade` and `coprime` say
//! what a job is about, and `reduce_job` what it leaves. `laws` ties the lists of graded jobs to the list of all jobs, from
//! which the contracts speak.
#![tactic(auto)]

mod addition;
mod buckets;
mod by_grade;
mod critical;
mod graded;
mod heads;
pub mod laws;
mod one_grade;
mod reducing;
mod scans;
mod supports;

pub use addition::Addition;
pub use buckets::Buckets;
pub use critical::{coprime, ends, ends_into, job_grade};
pub use graded::GradedJob;
pub use reducing::reduce_job;
pub use supports::Supports;
