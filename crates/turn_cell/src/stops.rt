//! Why a call has no value.

/// Another pass held the turn. It carries the word that the take found, which is odd.
#[derive(Clone, Copy, PartialEq, Eq, Debug)]
pub struct Busy {
    pub word: u64,
}

/// Why `try_read` has no value.
#[derive(Clone, Copy, PartialEq, Eq, Debug)]
pub enum ReadStop {
    /// Another pass held the turn: the word that the take found, which is odd.
    Busy { word: u64 },
    /// The value at home refused to be shared. The turn is given back.
    Memory,
}
