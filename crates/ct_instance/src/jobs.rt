//! What a completion works on.

/// A unit of work of the completion: what one column, or one pair of moves, may add to the list of moves.
///
/// Numbers count from 1. In their derived order generators come before pairs, generators by column, and pairs
/// by their first and then by their second number: the order in which the jobs of one grade are taken.
#[derive(Clone, Copy, Debug, PartialEq, Eq, PartialOrd, Ord)]
pub enum Job {
    /// The column with this number: that `x_j` and its column in artificials have one degree.
    Generator(u32),
    /// The critical pair of two moves, the smaller number first.
    Pair(u32, u32),
}
