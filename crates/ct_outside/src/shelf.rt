//! Files by their names.
ghost use Rattle.std.specs.Prelude.{◌≡◌, ℕ, List};
ghost use Rattle.ct_outside.specs.Shelf.{Told, Leaves, HasCause, KeepsShelf};

use crate::FetchFault;
use std::alloc::Global;

/// Gives files by their names.
pub trait Shelf {
    /// What is told of each name: nothing, that it has no file, or its bytes.
    ghost told: { Self → List ℕ → Told };

    /// How often a fetch of each name has failed.
    ghost faults: { Self → List ℕ → ℕ };

    /// Reads the file of this name into the buffer, which is emptied first. No more than `limit + 1`
    /// bytes are read, and none is left after `Failed` and `Memory`.
    fn fetch(
        &mut self,
        alloc: Global,
        name: &str,
        limit: u64,
        into: &mut Vec<u8>,
    ) -> Result<(), FetchFault>
        ensures leaves { Leaves (told self.old name.now) limit into.new.items result }
        ensures cause { HasCause (faults self.old name.now) (faults self.new name.now) result }
        ensures shelf { KeepsShelf (told self.old) (told self.new) (faults self.old) (faults self.new) (λ other. other ≡ name.now) };
}
