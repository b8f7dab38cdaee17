//! What is resumed from a ledger, and why nothing is.

use ct_checker::{CheckStop, Reason};
use ct_walk::Moves;
use std::alloc::AllocError;

/// Moves that are the test list of a grade.
#[derive(Drop)]
pub struct Resumed {
    /// The moves.
    pub moves: Moves,
    /// The grade up to which they are whole.
    pub grade: u64,
}

/// Why no moves are resumed from a ledger.
#[derive(Debug, Drop)]
pub enum ResumeStop {
    /// The first line that is refused, from 1, and why.
    Refused(u64, Reason),
    /// The first number, from 1, of a move at which the list isn't reduced.
    NotReduced(u32),
    /// Memory was refused.
    Memory,
}

impl From<CheckStop> for ResumeStop {
    ghost use Rattle.std.specs.Prelude.{◌≡◌};
    ghost use Rattle.ct_resume.specs.Resuming.{stop_after};

    ghost from_gives = { λ s e. e ≡ stop_after s };

    fn from(stop: CheckStop) -> ResumeStop {
        match stop {
            CheckStop::Refused(line, reason) => ResumeStop::Refused(line, reason),
            CheckStop::Memory => ResumeStop::Memory,
        }
    }
}

impl From<AllocError> for ResumeStop {
    ghost use Rattle.std.specs.Prelude.{◌≡◌};
    ghost use Rattle.ct_resume.specs.declared.resumed.ResumeStop.TheVariants.{Memory};

    ghost from_gives = { λ _ e. e ≡ Memory };

    fn from(_e: AllocError) -> ResumeStop {
        ResumeStop::Memory
    }
}
