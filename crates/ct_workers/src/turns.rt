//! What passes do at a book, one after the other, and what each is answered.
use ct_instance::Job;

/// What a pass does.
#[derive(Clone, Copy, Debug, PartialEq, Eq)]
pub enum Turn {
    /// It takes a step; a job that is handed out it reduces, and keeps what the job leaves.
    Take(u32),
    /// It commits the oldest of what it keeps.
    Commit(u32),
    /// It loses the oldest of what it keeps, as a worker that ends.
    Lose(u32),
}

/// What a turn came to.
#[derive(Clone, Copy, Debug, PartialEq, Eq)]
pub enum Turned {
    /// This job was handed out and reduced.
    Took(Job),
    /// The version with this number was published.
    Published(u64),
    /// The version covers the target.
    Reached,
    /// The limit on the number of moves stands before the target, at this grade.
    Full(u64),
    /// What was kept is stored, and written down at this place of the journal, from 0.
    Stored(u64),
    /// What was kept isn't needed: the book has the version with this number.
    Already(u64),
    /// What was kept is lost.
    Lost,
    /// The pass keeps nothing.
    Nothing,
}
