//! Runs on real files, with words and an output that a test gives.
use super::*;
use std::alloc::{Allocator, Global};
use std::env::FillError;
use std::fmt::Display;
use std::fs::{Metadata, OpenOptions};
use std::io::ErrorKind;
use std::rt::{Env, Files};
use std::sync::atomic::{AtomicU64, Ordering};
use std::test::Fail;
use std::{fs, io};

const K: &str = "instance 1\nrows 1\ncolumns 2\nmatrix\n3 5\ncost 2 3\nend\n";

const CUT: &str = "instance 1\nrows 1\ncolumns 2\nmatrix\n3";

const ONE: &str = "sessions 1 phase 0 session solve 15 end";

const EIGHT: &str = "sessions 1 phase 0 session solve 8 end";

const OVER: &str = "sessions 1\nphase 0\nsession\nsolve 1000000000001\nend\n";

const OTHER_SIZE: &str = "ledger 1\nsize 2 1\ngrade 0\nend\n";

const REPORT: &str = "report 1\nphase 1\nsession 1\noptimum 9 at 0 3\nend\n";

const WALKED: &str = "report 1\nphase 1\nsession 1\noptimum 5 at 1 1\nwalk 1*2 2*1\nlevel 9\nend\n";

const USAGE: &str = "usage: ct COMMAND ARGUMENTS\n";

// Arguments that a test gives.
#[derive(Drop)]
struct Given<'a> {
    words: &'a [&'a [u8]],
    alloc: Global,
}

impl<'a> Alloc for Given<'a> {
    type A = Global;

    fn alloc(&self) -> Global {
        self.alloc
    }
}

impl<'a> Env for Given<'a> {
    fn arg(&self, i: usize, buf: &mut [u8]) -> Result<usize, FillError> {
        let Some(word) = self.words.get(i) else {
            return Err(FillError::NotPresent);
        };
        let Some(front) = buf.get_mut(..word.len()) else {
            return Err(FillError::TooLong);
        };
        front.copy_from_slice(word);
        Ok(word.len())
    }

    fn var(&self, _name: &str, _buf: &mut [u8]) -> Result<usize, FillError> {
        Err(FillError::NotPresent)
    }

    fn var_at(&self, _i: usize, _buf: &mut [u8]) -> Result<usize, FillError> {
        Err(FillError::NotPresent)
    }
}

// An output that takes this text and no other.
#[derive(Drop)]
struct Wants<'a> {
    text: &'a [u8],
}

impl<'a> Print for Wants<'a> {
    fn print<D: Display + Drop>(&self, _value: D) -> io::Result<()> {
        Err(io::Error::from(ErrorKind::BrokenPipe))
    }

    fn println<D: Display + Drop>(&self, _value: D) -> io::Result<()> {
        Err(io::Error::from(ErrorKind::BrokenPipe))
    }

    fn write_all(&self, bytes: &[u8]) -> io::Result<()> {
        if bytes == self.text {
            return Ok(());
        }
        Err(io::Error::from(ErrorKind::BrokenPipe))
    }
}

// Each run on real files: the arguments after the program's name, what the output takes, and the exit code.
#[test]
fn each_status_of_a_run_on_files(rt: HostRuntime) -> Result<(), Fail> {
    for (path, text) in [
        ("K", K),
        ("cut", CUT),
        ("S", ONE),
        ("eight ", EIGHT),
        ("over", OVER),
        ("L", OTHER_SIZE),
    ] {
        fs::write(&rt, path, text)?;
    }
    let alloc = rt.alloc();
    let runs: [(&[&[u8]], &str, u8); 21] = [
        (&[b"ct", b"answer", b"K", b"S"], REPORT, 0),
        (&[b"ct"], USAGE, 2),
        (&[b"ct", b"answer", b"K"], USAGE, 2),
        (&[b"ct", b"answer", b"K", b"S", b"S"], USAGE, 2),
        (&[b"ct", b"answer", b"K", b"\xff"], USAGE, 2),
        (
            &[b"ct", b"answer", b"cut", b"S"],
            "bad instance: line 5 column 2: end\n",
            3,
        ),
        (
            &[b"ct", b"answer", b"K", b"over"],
            "bad sessions: line 4 column 7: limit\n",
            4,
        ),
        (&[b"ct", b"answer", b"K", b"none"], REPORT, 5),
        (&[b"ct", b"answer", b"K", b"S"], USAGE, 6),
        (
            &[b"ct", b"certify", b"K", b"0"],
            "ledger 1\nsize 1 2\ngrade 0\nend\n",
            0,
        ),
        (&[b"ct", b"serve", b"K", b"S", b"--workers=2"], REPORT, 0),
        (&[b"ct", b"serve", b"K", b"S", b"--workers=17"], USAGE, 2),
        (&[b"ct", b"check", b"K", b"S"], "bad ledger: line 1\n", 8),
        (&[b"ct", b"check", b"K", b"L"], "refused: line 2 size\n", 9),
        (
            &[b"ct", b"certify", b"K", b"6", b"--moves", b"2"],
            "full 6\n",
            10,
        ),
        (&[b"ct", b"answer", b"K", b"", b"S"], USAGE, 2),
        (&[b"ct", b"answer", b"K", b"S", b"--moves", b"9"], REPORT, 0),
        (
            &[
                b"ct",
                b"serve",
                b"K",
                b"eight ",
                b"--workers",
                b"0",
                b"--walks",
                b"--levels",
                b"--moves",
                b"9",
            ],
            WALKED,
            0,
        ),
        (
            &[
                b"ct",
                b"serve",
                b"K",
                b"eight ",
                b"--workers",
                b"0",
                b"--walks",
                b"--levels",
                b"--moves",
                b"9",
                b"S",
            ],
            USAGE,
            2,
        ),
        (&[b"ct", b"answer", b"K", b"eight"], REPORT, 5),
        // Nobody may read it.
        (
            &[b"ct", b"answer", b"/proc/sys/vm/compact_memory", b"S"],
            USAGE,
            5,
        ),
    ];
    for (row, (words, text, code)) in runs.into_iter().enumerate() {
        let output = Wants {
            text: text.as_bytes(),
        };
        let ended = exit_code(run_program(&rt, &Given { words, alloc }, &rt, &output));
        assert_eq!(rt;
            format!(in alloc; "{ended:?}")?,
            format!(in alloc; "{:?}", ExitCode::from(code))?,
            "row {row}"
        );
    }
    for path in ["K", "cut", "S", "eight ", "over", "L"] {
        fs::remove_file(&rt, path)?;
    }
    Ok(())
}

// The files of the file system, of which none is there when one is first opened.
#[derive(Drop)]
struct Late<'a, R> {
    files: &'a R,
    opened: AtomicU64,
}

fn none_here<T>() -> io::Result<T> {
    Err(io::Error::from(ErrorKind::NotFound))
}

impl<'a, R: Files> Files for Late<'a, R> {
    type File = R::File;

    type Dir = R::Dir;

    fn open_file(&self, how: &OpenOptions, path: &str) -> io::Result<R::File> {
        if self.opened.fetch_or(1, Ordering::SeqCst) == 0 {
            return none_here();
        }
        self.files.open_file(how, path)
    }

    fn open_dir(&self, _path: &str) -> io::Result<R::Dir> {
        none_here()
    }

    fn metadata(&self, _path: &str) -> io::Result<Metadata> {
        none_here()
    }

    fn symlink_metadata(&self, _path: &str) -> io::Result<Metadata> {
        none_here()
    }

    fn copy(&self, _from: &str, _to: &str) -> io::Result<u64> {
        none_here()
    }

    fn rename(&self, _from: &str, _to: &str) -> io::Result<()> {
        none_here()
    }

    fn remove_file(&self, _path: &str) -> io::Result<()> {
        none_here()
    }

    fn create_dir(&self, _path: &str) -> io::Result<()> {
        none_here()
    }

    fn remove_dir(&self, _path: &str) -> io::Result<()> {
        none_here()
    }

    fn remove_dir_all<B: Allocator>(&self, _alloc: B, _path: &str) -> io::Result<()> {
        none_here()
    }
}

// A file that comes late isn't asked for again.
#[test]
fn a_run_is_made_once(rt: HostRuntime) -> Result<(), Fail> {
    fs::write(&rt, "late_K", K)?;
    fs::write(&rt, "late_S", ONE)?;
    let files = Late {
        files: &rt,
        opened: AtomicU64::new(0),
    };
    let alloc = rt.alloc();
    let words: &[&[u8]] = &[b"ct", b"answer", b"late_K", b"late_S"];
    let output = Wants {
        text: REPORT.as_bytes(),
    };
    for code in [5, 0] {
        let ended = exit_code(run_program(&rt, &Given { words, alloc }, &files, &output));
        assert_eq!(rt;
            format!(in alloc; "{ended:?}")?,
            format!(in alloc; "{:?}", ExitCode::from(code))?
        );
    }
    fs::remove_file(&rt, "late_K")?;
    fs::remove_file(&rt, "late_S")?;
    Ok(())
}
