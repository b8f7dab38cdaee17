//! Why a text was not read.

ghost use Rattle.std.specs.Prelude.{◌≡◌};
ghost use Rattle.ct_input.specs.declared.fault.InputStop.TheVariants.{Memory};

use crate::path::{JsonReason, PathStep};
use ct_point::Seq;
use std::alloc::{AllocError, AllocFailed};

/// Why a token can't stand where it stands.
#[derive(Clone, Copy, Debug, PartialEq, Eq)]
pub enum TextReason {
    /// The file ends where a token must stand; the place is the end.
    End,
    /// Another word must stand there.
    Word,
    /// A number must stand there, and the token isn't spelled as one.
    Number,
    /// The number is out of its limits, or the word stands there once too often.
    Limit,
    /// All entries of a column are 0; the place is that of its entry in row 1.
    ZeroColumn,
    /// A token stands after `end`.
    Extra,
}

/// The first fault of a file.
#[derive(Debug, Drop)]
pub enum Fault {
    /// The file is longer than its limit.
    TooLong,
    /// A token can't stand where it stands. Lines and columns count from 1, columns in bytes.
    Text {
        line: u64,
        column: u64,
        reason: TextReason,
    },
    /// The file is to be JSON and is none.
    JsonSyntax,
    /// A value of a JSON file can't stand where it stands. The path leads to it from the file's value.
    Json {
        path: Seq<PathStep>,
        reason: JsonReason,
    },
}

/// Why a reader stopped.
#[derive(Debug, Drop)]
pub enum InputStop {
    /// The file has this fault.
    Fault(Fault),
    /// Memory ran out.
    Memory,
}

impl From<AllocError> for InputStop {
    ghost from_gives = { λ _ e. e ≡ Memory };

    fn from(_e: AllocError) -> InputStop {
        InputStop::Memory
    }
}

impl<T: Drop> From<AllocFailed<T>> for InputStop {
    ghost from_gives = { λ _ e. e ≡ Memory };

    fn from(_e: AllocFailed<T>) -> InputStop {
        InputStop::Memory
    }
}
