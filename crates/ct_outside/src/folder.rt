//! Where files are opened.
ghost use Rattle.std.specs.Prelude.{◌≡◌, ℕ, List, Some, IfOk};
ghost use Rattle.ct_outside.specs.Shelf.{Told, untold, HasFile};

use std::io::Read;
use std::rt::Files;
use std::{fs, io};

/// Opens files by their names.
pub trait Folder {
    type File: Read + Drop;

    /// What is told of each name: nothing, that it has no file, or its bytes.
    ghost told: { Self → List ℕ → Told };

    /// The file of this name, to be read from its first byte.
    fn open(&self, name: &str) -> io::Result<Self::File>
        ensures { IfOk result (λ file. HasFile (told self.now name.now) (λ bytes. Self.File.remaining file ≡ Some bytes)) };
}

/// The files of the file system, by their paths. It tells no content.
#[derive(Drop)]
pub struct Disk<'a, R> {
    rt: &'a R,
}

impl<'a, R: Files> Disk<'a, R> {
    pub fn new(rt: &'a R) -> Disk<'a, R> {
        Disk { rt }
    }
}

impl<'a, R: Files> Folder for Disk<'a, R> {
    type File = R::File;

    ghost told = { λ _ _. untold };

    fn open(&self, name: &str) -> io::Result<R::File> {
        fs::open(self.rt, name)
    }
}
