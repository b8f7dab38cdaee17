//! What a caller asks of a run.

/// What a caller asks of a run.
#[derive(Clone, Copy, Debug, PartialEq, Eq)]
pub struct Options {
    /// The most moves that a test list may have, 1 to 4,096.
    pub limit: u32,
    /// Whether each answer is told with its walk.
    pub walks: bool,
    /// Whether each phase is told with its level.
    pub levels: bool,
}
