//! What `main` does, with any words, files and output.

use ct_outside::{Disk, FileShelf, StdSink};
use ct_run::{Status, run};
use ct_version::NoGate;
use std::alloc::AllocError;
use std::io::ErrorKind;
use std::rt::{Env, Files};
use std::sync::Wait;
use std::thread::Threads;
use std::{env, io};

/// Runs the command that the words after the program's name are.
pub fn run_program<R: Threads + Wait + Sync, E: Env + AllocGlobal, F: Files, P: Print>(
    rt: &R,
    env: &E,
    files: &F,
    output: &P,
) -> Status {
    let alloc = env.alloc();
    let Ok(words) = words_after_name(env) else {
        return Status::Memory;
    };
    let mut shelf = FileShelf::new(Disk::new(files), alloc);
    let mut out = StdSink::new(io::writer(output));
    run(rt, alloc, &words, &mut shelf, &mut out, &NoGate)
}

// None where one of them isn't UTF-8, since such words are no command.
fn words_after_name<E: Env + AllocGlobal>(env: &E) -> Result<Vec<String>, AllocError> {
    let mut words = Vec::new(env.alloc());
    match env::args(env) {
        Ok(args) => {
            for word in args.skip(1) {
                words.push(word)?;
            }
        }
        Err(error) if error.kind() == ErrorKind::OutOfMemory => return Err(AllocError),
        Err(_) => {}
    }
    Ok(words)
}
