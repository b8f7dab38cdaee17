//! The limits of the subject, each in one place: bodies, contracts and definitions cite them by name.

/// The greatest number of rows of an instance.
pub const ROW_LIMIT: usize = 16;

/// The greatest number of columns of an instance.
pub const COLUMN_LIMIT: usize = 64;

/// The greatest width of a point: a coordinate a column and an artificial one a row.
pub const WIDTH_LIMIT: usize = COLUMN_LIMIT + ROW_LIMIT;

/// The greatest number of rows of costs.
pub const COST_ROW_LIMIT: usize = 8;

/// The greatest entry of a matrix.
pub const ENTRY_LIMIT: u64 = 1_000_000;

/// The greatest size of a cost, of either sign.
pub const COST_LIMIT: u64 = 1_000_000_000_000;

/// The greatest number of a right-hand side.
pub const RIGHT_LIMIT: u64 = 1_000_000_000_000;

/// The greatest grade of a walk, a target or a ledger: the sum of a right-hand side is at most this.
pub const GRADE_LIMIT: u64 = ROW_LIMIT as u64 * RIGHT_LIMIT;

/// The greatest grade of a job, and the greatest coordinate that may come up.
pub const JOB_GRADE_LIMIT: u64 = 2 * GRADE_LIMIT;

/// The greatest number of moves that a list keeps.
pub const MOVE_LIMIT: usize = 4_096;

/// The greatest number of workers that complete a test set beside each other.
pub const WORKER_LIMIT: u64 = 16;

/// The most sessions of a phase.
pub const SESSION_LIMIT: usize = 16;

/// The most passes of a host: one for each worker and for each session of a phase, and one for the main part.
pub const PASS_LIMIT: u32 = 1 + WORKER_LIMIT as u32 + SESSION_LIMIT as u32;
