//! Why a solve gives no answer.

/// Why a solve gives no answer.
#[derive(Clone, Copy, Debug, PartialEq, Eq)]
pub enum SolveStop {
    /// The list of moves is full at this grade, which is at most the sum of the right-hand side.
    Full { grade: u64 },
    /// Want of memory.
    Memory,
}
