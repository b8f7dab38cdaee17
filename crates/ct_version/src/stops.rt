//! Why a version gives no answer.
ghost use Rattle.std.specs.Prelude.{◌≡◌};

use std::alloc::AllocError;

/// The version isn't finished for the sum of the right-hand side, but for smaller grades.
#[derive(Clone, Copy, Debug, PartialEq, Eq)]
pub struct NotYet {
    /// The grade up to which it is finished.
    pub finished: u64,
}

/// Why an answer with its walk isn't given.
#[derive(Clone, Copy, Debug, PartialEq, Eq)]
pub enum AskStop {
    /// The version is finished up to this grade, which is below the sum of the right-hand side.
    NotYet { finished: u64 },
    /// Want of memory.
    Memory,
}

impl From<AllocError> for AskStop {
    ghost use Rattle.ct_version.specs.declared.stops.AskStop.TheVariants.{Memory};

    ghost from_gives = { λ _ e. e ≡ Memory };

    fn from(_: AllocError) -> AskStop {
        AskStop::Memory
    }
}

impl From<NotYet> for AskStop {
    ghost use Rattle.ct_version.specs.declared.stops.AskStop.TheVariants.{NotYet as Unfinished};

    ghost from_gives = { λ n e. e ≡ Unfinished n.finished };

    fn from(stop: NotYet) -> AskStop {
        AskStop::NotYet {
            finished: stop.finished,
        }
    }
}
