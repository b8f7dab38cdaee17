//! What the calls of a book answer.
use crate::tasks::Task;
use ct_version::{FullMark, Helped, Version};
use std::sync::Arc;

/// What is to be done next.
#[derive(Drop)]
pub enum Next {
    /// Reduce this job, which is handed out.
    Reduce(Task),
    /// Publish: all jobs of the opened grade are resolved.
    Publish,
    /// Nothing: the version covers the target.
    Reached(Helped),
    /// Nothing: the limit on the number of moves stands before the target.
    Full(FullMark),
}

/// What a step did or found.
#[derive(Drop)]
pub enum Step {
    /// This job was handed out.
    Reduce(Task),
    /// This version was published.
    Published(Arc<Version>),
    /// The version covers the target.
    Reached(Helped),
    /// The limit on the number of moves stands before the target.
    Full(FullMark),
}

/// Where a remainder went.
#[derive(Clone, Copy, Debug, PartialEq, Eq)]
pub enum Committed {
    /// It was stored, and written down at this place of the journal, from 0.
    Stored { place: u64 },
    /// It isn't needed: the book has the version with this number, which is another than the remainder's, or the job is
    /// resolved.
    Already { number: u64 },
}

/// What publishing came to.
#[derive(Drop)]
pub enum Published {
    /// The next version.
    New(Arc<Version>),
    /// The next list has more moves than the limit: the book is marked full.
    Full(FullMark),
}
