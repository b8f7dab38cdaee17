//! What a ledger says of one job.

use ct_instance::Job;
use ct_point::Seq;

/// An entry of a ledger.
#[derive(Debug, Drop)]
pub enum LedgerEntry {
    /// The job is a pair whose heads share no variable.
    Coprime(Job),
    /// Two walks from the ends of the job, the first end first, that meet. A step is the number of a move, from 1, and
    /// how many times it is made.
    Walks(Job, Seq<(u32, u64)>, Seq<(u32, u64)>),
}
