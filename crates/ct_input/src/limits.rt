//! The limits of the two texts, each in one place: bodies, contracts and definitions cite them by name.

/// The most bytes of an instance file.
pub const INSTANCE_FILE_LIMIT: usize = 1_048_576;

/// The most bytes of a session file.
pub const SESSION_FILE_LIMIT: usize = 16_777_216;

/// The most bytes of a ledger file.
pub const LEDGER_FILE_LIMIT: usize = 67_108_864;

/// The most phases of a session file.
pub const PHASE_LIMIT: usize = 64;

/// The most requests of a session file.
pub const REQUEST_LIMIT: usize = 100_000;
