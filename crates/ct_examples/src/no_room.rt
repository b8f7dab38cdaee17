//! A shelf that has no room for any file.

use ct_outside::{FetchFault, Shelf};
use std::alloc::Global;

/// It refuses each fetch for want of memory, and tells no file.
#[derive(Drop)]
pub struct NoRoom;

impl Shelf for NoRoom {
    ghost use Rattle.ct_outside.specs.Shelf.{untold};

    ghost told = { λ _ _. untold };

    ghost faults = { λ _ _. 0 };

    fn fetch(
        &mut self,
        _alloc: Global,
        _name: &str,
        _limit: u64,
        into: &mut Vec<u8>,
    ) -> Result<(), FetchFault> {
        into.clear();
        Err(FetchFault::Memory)
    }
}
