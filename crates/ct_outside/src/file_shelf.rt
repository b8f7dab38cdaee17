//! The files of a folder.
ghost use Rattle.std.specs.Prelude.{◌≡◌, ◌≢◌, ◌≤◌, ◌⊎◌, [], ℕ, List, vec_len, OnOk, IsErrOf};
ghost use Rattle.std.specs.Io.KnownBytes.{Consumes, IsAtEnd};
ghost use Rattle.std.specs.IoError.{error_kind};
ghost use Rattle.ct_outside.specs.Faults.{count_of};
ghost use Rattle.ct_outside.specs.FileShelf.{fault_of_kind};
ghost use Rattle.ct_outside.specs.Shelf.{Leaves, HasCause, KeepsShelf, failed_after};

use crate::failed_names::FailedNames;
use crate::{FetchFault, Folder, Shelf};
use std::alloc::Global;
use std::io::{Error, ErrorKind, Read};

const PIECE: usize = 16384;

/// The files of a folder. It tells what the folder tells, and counts the names whose fetch failed.
#[derive(Drop)]
pub struct FileShelf<F> {
    folder: F,
    failed: FailedNames,
}

impl<F: Folder> FileShelf<F> {
    pub fn new(folder: F, alloc: Global) -> FileShelf<F>
        ensures folder { result.folder ≡ folder }
        ensures failed { result.failed ≡ [] }
    {
        FileShelf {
            folder,
            failed: FailedNames::new(alloc),
        }
    }
}

impl<F: Folder> Shelf for FileShelf<F> {
    ghost told = { λ shelf. F.told shelf.folder };

    ghost faults = { λ shelf. count_of shelf.failed };

    fn fetch(
        &mut self,
        alloc: Global,
        name: &str,
        limit: u64,
        into: &mut Vec<u8>,
    ) -> Result<(), FetchFault>
        ensures leaves { Leaves (F.told self.old.folder name.now) limit into.new.items result }
        ensures cause { HasCause (count_of self.old.failed name.now) (count_of self.new.failed name.now) result }
        ensures shelf { KeepsShelf (F.told self.old.folder) (F.told self.new.folder) (count_of self.old.failed) (count_of self.new.failed) (λ other. other ≡ name.now) }
        ensures folder { self.new.folder ≡ self.old.folder }
        ensures after { self.new.failed ≡ failed_after self.old.failed name.now result }
    {
        into.clear();
        self.failed.note(alloc, name)?;
        match read_file(&self.folder, name, limit, into) {
            Err(FetchFault::Failed) => Err(FetchFault::Failed),
            outcome => {
                self.failed.forget_last();
                outcome
            }
        }
    }
}

// The file of this name into an empty buffer, as far as the limit and one byte more.
fn read_file<F: Folder>(
    folder: &F,
    name: &str,
    limit: u64,
    into: &mut Vec<u8>,
) -> Result<(), FetchFault>
    requires { into.old.items ≡ [] }
    ensures { Leaves (F.told folder.now name.now) limit into.new.items result }
{
    let mut file = match folder.open(name) {
        Ok(file) => file,
        Err(error) => return Err(fault_of(&error)),
    };
    let most = limit.saturating_add(1);
    if let Err(fault) = read_most(&mut file, most, into) {
        into.clear();
        return Err(fault);
    }
    if into.len() as u64 <= limit {
        return Ok(());
    }
    Err(FetchFault::TooLong)
}

// Reads to the end of a file, or until the buffer, which is empty, has so many bytes.
fn read_most<F: Read>(file: &mut F, most: u64, into: &mut Vec<u8>) -> Result<(), FetchFault>
    requires { into.old.items ≡ [] }
    ensures within { vec_len into.new ≤ most }
    ensures read { OnOk result (Consumes (F.remaining file.old) (F.remaining file.new) into.new.items) }
    ensures stops { OnOk result (IsAtEnd (F.remaining file.new) ⊎ (vec_len into.new ≡ most)) }
    ensures not_long { IsErrOf result FetchFault.TooLong → ⊥ }
{
    let mut piece = [0; PIECE];
    for _ in 0..u64::MAX {
        let room = (most - into.len() as u64).min(PIECE as u64) as usize;
        if room == 0 {
            return Ok(());
        }
        match file.read(&mut piece[..room]) {
            Ok(0) => return Ok(()),
            Ok(count) => into.extend_from_slice(&piece[..count])?,
            Err(error) if error.kind() == ErrorKind::Interrupted => continue,
            Err(error) => return Err(fault_of(&error)),
        }
    }
    Err(FetchFault::Failed)
}

// Why a file can't be opened or read: want of memory is no fault of the file.
fn fault_of(error: &Error) -> FetchFault
    ensures fault { result ≡ fault_of_kind (error_kind error.now) }
    ensures not_long { result ≢ FetchFault.TooLong }
{
    match error.kind() {
        ErrorKind::OutOfMemory => FetchFault::Memory,
        _ => FetchFault::Failed,
    }
}
