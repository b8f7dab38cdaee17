//! What is handed on with a version.
use crate::finished::Finished;
use crate::versions::Version;
use std::sync::Arc;

/// A version that covers what was asked for.
#[derive(Drop)]
pub struct Helped {
    /// The version.
    pub version: Arc<Version>,
    /// The first level that covers what was asked for, which a later version than the first to cover it has passed.
    pub level: Finished,
}

/// The mark that the move limit is reached: the test list of this grade has more moves.
#[derive(Drop)]
pub struct FullMark {
    /// The least such grade.
    pub grade: u64,
    /// The version that is finished up to the grade before.
    pub version: Arc<Version>,
}

/// Why no version is given that covers a grade.
#[derive(Drop)]
pub enum Stop {
    /// The move limit stands before it.
    Full(FullMark),
    /// Want of memory.
    Memory,
}

/// What a pin found.
#[derive(Drop)]
pub enum Pin {
    /// A version with a number above the one that was held.
    Newer(Arc<Version>),
    /// The newest version has this number, which isn't above the one that was held.
    NotNewer { number: u64 },
    /// Another has the turn: the odd word that was found.
    Busy { word: u64 },
    /// Want of memory in sharing a newer version.
    Memory,
}
