//! Why a check ends before all of a ledger was looked at.

use crate::verdicts::Reason;
use std::alloc::{AllocError, AllocFailed};

/// Why there are no checked moves.
#[derive(Debug, Drop)]
pub enum CheckStop {
    /// The first line that is refused, from 1, and why.
    Refused(u64, Reason),
    /// Memory was refused.
    Memory,
}

impl From<AllocError> for CheckStop {
    ghost use Rattle.std.specs.Prelude.{◌≡◌};
    ghost use Rattle.ct_checker.specs.declared.stops.CheckStop.TheVariants.{Memory};

    ghost from_gives = { λ _ e. e ≡ Memory };

    fn from(_e: AllocError) -> CheckStop {
        CheckStop::Memory
    }
}

impl<T: Drop> From<AllocFailed<T>> for CheckStop {
    ghost use Rattle.std.specs.Prelude.{◌≡◌};
    ghost use Rattle.ct_checker.specs.declared.stops.CheckStop.TheVariants.{Memory};

    ghost from_gives = { λ _ e. e ≡ Memory };

    fn from(_e: AllocFailed<T>) -> CheckStop {
        CheckStop::Memory
    }
}
