//! The top calls, with the promise as their contract.
ghost use Rattle.std.specs.Prelude.{◌≡◌, map, string_bytes};
ghost use Rattle.ct_run.specs.Words.{command_of};
ghost use Rattle.ct_run.specs.Plan.{batch_of, plain_of};
ghost use Rattle.ct_promise.specs.Promise.{KeepsPromise};

use ct_outside::{Shelf, Sink};
use ct_run::Status;
use ct_version::Gate;
use std::alloc::Global;
use std::sync::Wait;
use std::thread::Threads;

/// Runs the command that the words are, as `run` of `ct_run` does.
pub fn run<R: Threads + Wait + Sync, S: Shelf, O: Sink, G: Gate + Sync>(
    rt: &R,
    alloc: Global,
    words: &[String],
    shelf: &mut S,
    out: &mut O,
    gate: &G,
) -> Status
    // What was written is true of what the words ask for.
    ensures { result ≡ Status.Done → KeepsPromise (S.told shelf.old) (O.held out.old) (O.held out.new) (command_of (map string_bytes words.now)) }
{
    ct_run::run(rt, alloc, words, shelf, out, gate)
}

/// Runs the command that the words are, but not `serve`, as `run_batch` of `ct_run` does.
pub fn run_batch<R: Threads + Sync, S: Shelf, O: Sink>(
    rt: &R,
    alloc: Global,
    words: &[String],
    shelf: &mut S,
    out: &mut O,
) -> Status
    // What was written is true of what the words ask for.
    ensures { result ≡ Status.Done → KeepsPromise (S.told shelf.old) (O.held out.old) (O.held out.new) (batch_of (command_of (map string_bytes words.now))) }
{
    ct_run::run_batch(rt, alloc, words, shelf, out)
}

/// Runs the command that the words are, in one thread, as `run_plain` of `ct_run` does.
pub fn run_plain<S: Shelf, O: Sink>(
    alloc: Global,
    words: &[String],
    shelf: &mut S,
    out: &mut O,
) -> Status
    // What was written is true of what the words ask for.
    ensures { result ≡ Status.Done → KeepsPromise (S.told shelf.old) (O.held out.old) (O.held out.new) (plain_of (command_of (map string_bytes words.now))) }
{
    ct_run::run_plain(alloc, words, shelf, out)
}
