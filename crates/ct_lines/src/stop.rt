//! Why the reading of a line, or of a text, stopped.

ghost use Rattle.std.specs.Prelude.{◌≡◌};
ghost use Rattle.ct_lines.specs.declared.stop.LineStop.TheVariants.{Memory};

use std::alloc::{AllocError, AllocFailed};

/// Why the reading of a line stopped.
#[derive(Clone, Copy, Debug, PartialEq, Eq)]
pub enum LineStop {
    /// The line is none that may stand there.
    Refused,
    /// Memory ran out.
    Memory,
}

impl From<AllocError> for LineStop {
    ghost from_gives = { λ _ e. e ≡ Memory };

    fn from(_e: AllocError) -> LineStop {
        LineStop::Memory
    }
}

impl<T: Drop> From<AllocFailed<T>> for LineStop {
    ghost from_gives = { λ _ e. e ≡ Memory };

    fn from(_e: AllocFailed<T>) -> LineStop {
        LineStop::Memory
    }
}

/// Why bytes were not read as a text of lines.
#[derive(Clone, Copy, Debug, PartialEq, Eq)]
pub enum TextStop {
    /// The bytes are no text of their kind. The line is the first, counted from 1, that no text with the same lines above
    /// it has there; where the text stops early the line where it stops, and where it goes on after its end the line
    /// below that.
    Fault { line: u64 },
    /// Memory ran out.
    Memory,
}
