//! How far the moves come, and how many they are.

use ct_version::Finished;

/// How far the moves of a run come, and how many they are.
#[derive(Clone, Copy, Debug, PartialEq, Eq)]
pub struct Extent {
    /// The number of moves.
    pub moves: u32,
    /// The level up to which they are whole.
    pub level: Finished,
}
