//! The lines of a completion's journal.

use ct_instance::Job;

/// What one step of a completion did.
#[derive(Clone, Copy, Debug, PartialEq, Eq)]
pub enum Act {
    /// The remainder of this job of the opened grade was stored.
    Stored(Job),
    /// The version with this number was published, and its next grade opened.
    Published(u64),
    /// The completion ended at this grade, whose test list has more moves than the limit.
    MarkedFull(u64),
}

/// One line of a journal: which pass did it, how many lines of the same pass stand before it, and what was done.
#[derive(Clone, Copy, Debug, PartialEq, Eq)]
pub struct Entry {
    pub pass: u32,
    pub serial: u64,
    pub act: Act,
}
