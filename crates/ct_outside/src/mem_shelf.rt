//! Files in memory, whose fetch can be made to fail.
ghost use Rattle.std.specs.Prelude.{◌≡◌, ◌≢◌, ◌++◌, ◌∷◌, [], ℕ, List, Some, OnOk, OnErr, if◌then◌else◌};
ghost use Rattle.ct_outside.specs.Faults.{count_of};
ghost use Rattle.ct_outside.specs.Shelf.{Leaves, HasCause, KeepsShelf, holds};
ghost use Rattle.ct_outside.specs.Memory.{IsUnlessMemory};
ghost use Rattle.ct_outside.specs.MemShelf.{empty_shelf, told_of, fault_by, next_fault, after_fetch};
ghost use Rattle.ct_outside.specs.MemFiles.{files_of};

use crate::failed_names::FailedNames;
use crate::{FetchFault, Shelf};
use std::alloc::{AllocError, Global};
use std::collections::BTreeMap;
use std::marker::Model;

/// Files in memory. It tells what each name holds.
#[derive(Drop)]
pub struct MemShelf {
    files: BTreeMap<String, Vec<u8>>,
    failed: FailedNames,
    fetches: u64,
    failing: Vec<u64>,
}

impl Model for MemShelf {
    ghost use Rattle.ct_outside.specs.MemShelf.{ShelfState};
    ghost use Rattle.ct_outside.specs.MemFiles.{files_of};

    ghost Value = { ShelfState };

    ghost view = { λ a. record { files = files_of a.files; failed = a.failed; fetches = a.fetches; failing = a.failing.items } };
}

impl MemShelf {
    /// A shelf with no file.
    pub fn new(alloc: Global) -> MemShelf
        ensures { result ≡ empty_shelf }
    {
        MemShelf {
            files: BTreeMap::new(alloc),
            failed: FailedNames::new(alloc),
            fetches: 0,
            failing: Vec::new(alloc),
        }
    }

    /// The name holds these bytes from now on, in the place of those that it had.
    pub fn add(&mut self, alloc: Global, name: &str, bytes: &[u8]) -> Result<(), AllocError>
        ensures holds { OnOk result (told_of self.new.files name.now ≡ holds bytes.now) }
        ensures others { (other : List ℕ) → other ≢ name.now → told_of self.new.files other ≡ told_of self.old.files other }
        ensures rest { self.new ≡ record self.old { files = self.new.files } }
        ensures err { OnErr result (self.new ≡ self.old) }
    {
        let name = String::from_str(alloc, name)?;
        let bytes = Vec::from_slice(alloc, bytes)?;
        self.files.insert(name, bytes)?;
        Ok(())
    }

    /// The fetch with this number fails, the first being 1. One that runs out of memory has no number.
    pub fn fail_at(&mut self, _alloc: Global, call: u64) -> Result<(), AllocError>
        ensures ok { OnOk result (self.new ≡ record self.old { failing = self.old.failing ++ call ∷ [] }) }
        ensures err { OnErr result (self.new ≡ self.old) }
    {
        self.failing.push(call)?;
        Ok(())
    }
}

impl Shelf for MemShelf {
    ghost told = { λ shelf. told_of shelf.files };

    ghost faults = { λ shelf. count_of shelf.failed };

    fn fetch(
        &mut self,
        alloc: Global,
        name: &str,
        limit: u64,
        into: &mut Vec<u8>,
    ) -> Result<(), FetchFault>
        ensures leaves { Leaves (told_of self.old.files name.now) limit into.new.items result }
        ensures cause { HasCause (count_of self.old.failed name.now) (count_of self.new.failed name.now) result }
        ensures shelf { KeepsShelf (told_of self.old.files) (told_of self.new.files) (count_of self.old.failed) (count_of self.new.failed) (λ other. other ≡ name.now) }

        // It fails where it is told to, and where there is no file of the name.
        ensures answer { IsUnlessMemory result (next_fault self.old name.now limit) }
        ensures after { self.new ≡ after_fetch self.old name.now result }
    {
        into.clear();
        self.failed.note(alloc, name)?;
        let fetches = self.fetches.saturating_add(1);
        let is_due = self.failing.contains(&fetches);
        match read_file(is_due, &self.files, name, limit, into) {
            Err(FetchFault::Failed) => {
                self.fetches = fetches;
                Err(FetchFault::Failed)
            }
            Err(FetchFault::Memory) => {
                self.failed.forget_last();
                Err(FetchFault::Memory)
            }
            Err(FetchFault::TooLong) => {
                self.failed.forget_last();
                self.fetches = fetches;
                Err(FetchFault::TooLong)
            }
            Ok(()) => {
                self.failed.forget_last();
                self.fetches = fetches;
                Ok(())
            }
        }
    }
}

// The file of this name into an empty buffer, as far as the limit and one byte more. A read that is due to fail does.
fn read_file(
    is_due: bool,
    files: &BTreeMap<String, Vec<u8>>,
    name: &str,
    limit: u64,
    into: &mut Vec<u8>,
) -> Result<(), FetchFault>
    requires { into.old.items ≡ [] }
    ensures leaves { Leaves (told_of (files_of files.now) name.now) limit into.new.items result }
    ensures answer { IsUnlessMemory result
        (if is_due then Some FetchFault.Failed else fault_by (told_of (files_of files.now) name.now) limit) }
{
    if is_due {
        return Err(FetchFault::Failed);
    }
    let Some(bytes) = files.get(name) else {
        return Err(FetchFault::Failed);
    };
    if bytes.len() as u64 <= limit {
        into.extend_from_slice(bytes)?;
        return Ok(());
    }
    into.extend_from_slice(&bytes[..limit as usize + 1])?;
    Err(FetchFault::TooLong)
}
