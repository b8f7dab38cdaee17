//! Why numbers make no instance.
ghost use Rattle.std.specs.Prelude.{◌≡◌};

use std::alloc::AllocError;

/// Why numbers make no instance. Rows and columns count from 1.
#[derive(Clone, Copy, Debug, PartialEq, Eq)]
pub enum BadInstance {
    /// The number of rows isn't 1 to 16.
    Rows,
    /// The number of columns isn't 1 to 64.
    Columns,
    /// The first entry above 1,000,000, row by row.
    Entry { row: u32, col: u32 },
    /// The first column whose entries are all 0.
    ZeroColumn { col: u32 },
    /// The first cost above 10^12 in size, row by row.
    Cost { row: u32, col: u32 },
    /// Want of memory.
    Memory,
}

impl From<AllocError> for BadInstance {
    ghost use Rattle.ct_instance.specs.declared.refusals.BadInstance.TheVariants.{Memory};

    ghost from_gives = { λ _ e. e ≡ Memory };

    fn from(_: AllocError) -> BadInstance {
        BadInstance::Memory
    }
}

/// Why numbers that are within their limits make no instance.
#[derive(Clone, Copy, Debug, PartialEq, Eq)]
pub enum BadMatrix {
    /// The first column whose entries are all 0, counted from 1.
    ZeroColumn { col: u32 },
    /// Want of memory.
    Memory,
}

impl From<AllocError> for BadMatrix {
    ghost use Rattle.ct_instance.specs.declared.refusals.BadMatrix.TheVariants.{Memory};

    ghost from_gives = { λ _ e. e ≡ Memory };

    fn from(_: AllocError) -> BadMatrix {
        BadMatrix::Memory
    }
}

impl From<BadMatrix> for BadInstance {
    ghost use Rattle.ct_instance.specs.Made.{bad_instance_of};

    ghost from_gives = { λ bad e. e ≡ bad_instance_of bad };

    fn from(bad: BadMatrix) -> BadInstance {
        match bad {
            BadMatrix::ZeroColumn { col } => BadInstance::ZeroColumn { col },
            BadMatrix::Memory => BadInstance::Memory,
        }
    }
}
