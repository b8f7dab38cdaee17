//! What no clause says: that calls succeed, and that the real files and standard output give and take bytes.
ghost use Rattle.ct_outside.specs.Shelf.{untold};

use super::*;
use std::io::{ErrorKind, Read, Write};
use std::test::Fail;
use std::{fs, io};

const TEXT: &[u8] = b"report 1\nphase 0\nsession 1\noptimum 9 at 0 3\nend\n";

// Each fetch: the name, the limit, the fault where there is one, and how many bytes are left.
#[test]
fn a_shelf_in_memory_answers_each_fetch(rt: HostRuntime) -> Result<(), Fail> {
    let alloc = rt.alloc();
    let mut shelf = MemShelf::new(alloc);
    shelf.add(alloc, "K", b"before")?;
    shelf.add(alloc, "K", TEXT)?;
    shelf.add(alloc, "empty", b"")?;
    shelf.fail_at(alloc, 6)?;
    let whole = TEXT.len();
    let mut into = Vec::new(alloc);
    for (call, (name, limit, fault, left)) in [
        ("K", 1000, None, whole),
        ("K", whole as u64, None, whole),
        ("K", 20, Some(FetchFault::TooLong), 21),
        ("empty", 0, None, 0),
        ("S", 1000, Some(FetchFault::Failed), 0),
        ("K", 1000, Some(FetchFault::Failed), 0),
        ("K", 0, Some(FetchFault::TooLong), 1),
        ("K", u64::MAX, None, whole),
    ]
    .into_iter()
    .enumerate()
    {
        let result = shelf.fetch(alloc, name, limit, &mut into);
        assert!(rt; result.err() == fault, "fetch {call}");
        assert!(rt; into.len() == left, "fetch {call}");
        assert!(rt; TEXT.starts_with(into.as_slice()), "fetch {call}");
    }
    Ok(())
}

// Each sink: the most for one write, the room, the write that fails where one does, and the bytes that it holds after the text.
#[test]
fn a_sink_in_memory_holds_a_front_of_the_text(rt: HostRuntime) -> Result<(), Fail> {
    let whole = TEXT.len();
    for (bite, room, failing, held) in [
        (1000, 1048576, 0, whole),
        (1, 1048576, 0, whole),
        (8, 1048576, 2, 8),
        (1, 1048576, 20, 19),
        (8, 20, 0, 20),
        (8, 0, 0, 0),
    ] {
        let alloc = rt.alloc();
        let mut sink = MemSink::new(alloc, bite, room)?;
        sink.fail_at(alloc, failing)?;
        let result = write_whole(&mut sink, TEXT);
        assert!(rt;
            result.is_ok() == (held == whole),
            "{bite} {room} {failing}"
        );
        assert!(rt; sink.held().len() == held, "{bite} {room} {failing}");
        assert!(rt; TEXT.starts_with(sink.held()), "{bite} {room} {failing}");
    }
    Ok(())
}

// How much of a text comes or is taken at once, with an interrupt before each time, and before which byte there is an error.
#[derive(Clone, Copy)]
struct Pace {
    piece: usize,
    breaks: usize,
}

// A file that comes in pieces.
#[derive(Drop)]
struct Pieces<'a> {
    rest: &'a [u8],
    pace: Pace,
    interrupted: bool,
}

impl Read for Pieces<'_> {
    fn read(&mut self, buf: &mut [u8]) -> io::Result<usize> {
        self.interrupted = !self.interrupted;
        if self.interrupted {
            return Err(io::Error::from(ErrorKind::Interrupted));
        }
        if self.rest.len() == self.pace.breaks {
            return Err(io::Error::from(ErrorKind::BrokenPipe));
        }
        let count = self.rest.len().min(self.pace.piece).min(buf.len());
        buf[..count].copy_from_slice(&self.rest[..count]);
        self.rest = &self.rest[count..];
        Ok(count)
    }
}

// Gives this text for the name `text`, and nobody may read `locked`.
#[derive(Drop)]
struct Desk<'a> {
    text: &'a [u8],
    pace: Pace,
}

impl<'a> Folder for Desk<'a> {
    type File = Pieces<'a>;

    ghost told = { λ _ _. untold };

    fn open(&self, name: &str) -> io::Result<Pieces<'a>> {
        if name == "locked" {
            return Err(io::Error::from(ErrorKind::PermissionDenied));
        }
        Ok(Pieces {
            rest: self.text,
            pace: self.pace,
            interrupted: false,
        })
    }
}

// An output that takes this text in pieces, and nothing else.
#[derive(Drop)]
struct Mouth<'a> {
    rest: &'a [u8],
    pace: Pace,
    interrupted: bool,
}

impl Write for Mouth<'_> {
    fn write(&mut self, buf: &[u8]) -> io::Result<usize> {
        self.interrupted = !self.interrupted;
        if self.interrupted {
            return Err(io::Error::from(ErrorKind::Interrupted));
        }
        let count = self.rest.len().min(self.pace.piece);
        let is_next = buf.len() == self.rest.len() && buf[..count] == self.rest[..count];
        if self.rest.len() == self.pace.breaks || !is_next {
            return Err(io::Error::from(ErrorKind::BrokenPipe));
        }
        self.rest = &self.rest[count..];
        Ok(count)
    }

    fn flush(&mut self) -> io::Result<()> {
        Ok(())
    }
}

// Each pace, and whether the text comes and goes whole.
#[test]
fn a_long_text_in_pieces(rt: HostRuntime) -> Result<(), Fail> {
    let alloc = rt.alloc();
    let mut long = Vec::new(alloc);
    for number in 0..120_000u32 {
        long.push((number % 251) as u8)?;
    }
    let text = long.as_slice();
    for (piece, breaks, whole) in [
        (1, usize::MAX, true),
        (7, usize::MAX, true),
        (60_000, usize::MAX, true),
        (70_000, usize::MAX, true),
        (7, 70_006, false),
    ] {
        let pace = Pace { piece, breaks };
        let mut shelf = FileShelf::new(Desk { text, pace }, alloc);
        let mut into = Vec::new(alloc);
        let fetched = shelf.fetch(alloc, "text", 120_000, &mut into);
        assert!(rt; fetched.is_ok() == whole && (into.as_slice() == text) == whole);
        let locked = shelf.fetch(alloc, "locked", 120_000, &mut into);
        assert!(rt; locked == Err(FetchFault::Failed));
        let to = Mouth {
            rest: text,
            pace,
            interrupted: false,
        };
        assert!(rt; write_whole(&mut StdSink::new(to), text).is_ok() == whole);
    }
    Ok(())
}

// The file system and standard output: a blank is part of a name, and `-` is a name like others.
#[test]
fn the_file_system_and_standard_output(rt: HostRuntime) -> Result<(), Fail> {
    let alloc = rt.alloc();
    fs::write(&rt, "ct_outside_text", TEXT)?;
    fs::write(&rt, "ct_outside_text ", b"other")?;
    let mut shelf = FileShelf::new(Disk::new(&rt), alloc);
    let mut into = Vec::new(alloc);
    for (path, limit, fault, left) in [
        ("ct_outside_text", 1000, None, TEXT),
        ("ct_outside_text ", 5, None, b"other"),
        ("ct_outside_text ", 2, Some(FetchFault::TooLong), b"oth"),
        ("-", 1000, Some(FetchFault::Failed), b""),
        (".", 1000, Some(FetchFault::Failed), b""),
    ] {
        let result = shelf.fetch(alloc, path, limit, &mut into);
        assert!(rt; result.err() == fault && into.as_slice() == left, "{path}");
    }
    fs::remove_file(&rt, "ct_outside_text")?;
    fs::remove_file(&rt, "ct_outside_text ")?;
    write_whole(&mut StdSink::new(io::writer(&rt)), TEXT)?;
    Ok(())
}
