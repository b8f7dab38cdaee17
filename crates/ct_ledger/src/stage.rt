//! What was read of a ledger text.

use crate::ledgers::Ledger;

/// What was read so far, which says what the next line may be.
#[derive(Drop)]
pub enum Stage {
    Title,
    Size,
    Grade { rows: u32, columns: u32 },
    Body(Ledger),
    Closed(Ledger),
}
