//! Why no list is given.
use ct_version::NotYet;
use std::alloc::AllocError;

/// Why the least solutions aren't given.
#[derive(Clone, Copy, Debug, PartialEq, Eq)]
pub enum BestStop {
    /// The version is finished up to this grade, which is below the sum of the right-hand side.
    NotYet { finished: u64 },
    /// Want of memory.
    Memory,
}

impl From<AllocError> for BestStop {
    ghost use Rattle.std.specs.Prelude.{◌≡◌};
    ghost use Rattle.ct_best.specs.declared.stops.BestStop.TheVariants.{Memory};

    ghost from_gives = { λ _ e. e ≡ Memory };

    fn from(_: AllocError) -> BestStop {
        BestStop::Memory
    }
}

impl From<NotYet> for BestStop {
    ghost use Rattle.std.specs.Prelude.{◌≡◌};
    ghost use Rattle.ct_best.specs.declared.stops.BestStop.TheVariants.{NotYet as Unfinished};

    ghost from_gives = { λ n e. e ≡ Unfinished n.finished };

    fn from(stop: NotYet) -> BestStop {
        BestStop::NotYet {
            finished: stop.finished,
        }
    }
}
