//! What keeps a run from the text of its command.
ghost use Rattle.std.specs.Prelude.{◌≡◌};

use crate::ending::Ending;
use std::alloc::AllocError;

/// Why a run doesn't come to the text of its command.
#[derive(Debug, Drop)]
pub enum Stop {
    /// A file has a fault, and the ending says so.
    Refused(Ending),
    /// A file could not be read.
    ReadFault,
    /// Memory ran out.
    Memory,
}

impl From<AllocError> for Stop {
    ghost use Rattle.ct_run.specs.declared.stop.Stop.TheVariants.{Memory};

    ghost from_gives = { λ _ stop. stop ≡ Memory };

    fn from(_error: AllocError) -> Stop {
        Stop::Memory
    }
}
