//! Runs of trials, and whether they come to what is stored.
//!
//! Beside what every trial says, one may say more. `bite` is how many bytes a write takes at most, `failing_write` and
//! `failing_fetch` which of them fails, the first being 1, and `fetches` how many fetches the run makes. Of a file that `cut`
//! names, each front is tried: from `whole_from` bytes on the run ends as it is said, and else with `cut_status`. With
//! `each_write` so many writes fail in turn, each in a run of its own. `no_room` says that no file finds room. `like` has
//! words whose report it must write too; where `early_before` has a line, those before it may say that an ask came too early.
//! `holds` and `passed` are of the gate that workers and sessions pass, and `met` is how often one that was held saw the other
//! come. `then` has words for another run, by which a file `as` has what the first wrote, and what that run writes.

use crate::gatekeeper::Gatekeeper;
use crate::no_room::NoRoom;
use crate::texts::{Texts, list, string};
use crate::trial::{Trial, words_of};
use anyhow::{Context, Result};
use ct_outside::{FetchFault, MemShelf, MemSink, Shelf};
use ct_promise::{run, run_batch, run_plain};
use serde_json::Value;
use std::alloc::Global;
use std::rt::Files;
use std::str;
use std::sync::Wait;
use std::thread::Threads;

// More bytes than any trial writes.
const ROOM: u64 = 64_000_000;

// The status of words that are none of a command.
const USAGE: u64 = 2;

// The status of a run whose write failed.
const NOT_WRITTEN: u64 = 6;

/// The call that runs the words.
#[derive(Clone, Copy)]
enum Call<'a> {
    /// That of all commands, with a gate for workers and sessions.
    Whole(&'a Gatekeeper),
    /// That of the commands whose threads never wait.
    Batch,
    /// That of the commands of one thread.
    Plain,
}

/// What a run ended with and wrote.
#[derive(Drop)]
struct Outcome {
    status: u64,
    text: Vec<u8>,
}

// Runs the words.
fn run_by<R: AllocGlobal + Threads + Wait + Sync, S: Shelf>(
    rt: &R,
    words: &[String],
    shelf: &mut S,
    mut out: MemSink,
    call: Call<'_>,
) -> Result<Outcome> {
    let alloc = rt.alloc();
    let status = match call {
        Call::Whole(gate) => run(rt, alloc, words, shelf, &mut out, gate),
        Call::Batch => run_batch(rt, alloc, words, shelf, &mut out),
        Call::Plain => run_plain(alloc, words, shelf, &mut out),
    };
    Ok(Outcome {
        status: u64::from(status.number()),
        text: Vec::from_slice(alloc, out.held())?,
    })
}

fn sink(alloc: Global, trial: &Trial<'_>, failing: u64) -> Result<MemSink> {
    let mut out = MemSink::new(alloc, trial.number("bite").unwrap_or(1000).max(1), ROOM)?;
    out.fail_at(alloc, failing)?;
    Ok(out)
}

// Whether a fetch after a run has the next number.
fn has_fetched(alloc: Global, shelf: &mut MemShelf) -> bool {
    let mut bytes = Vec::new(alloc);
    shelf.fetch(alloc, "counted", 1, &mut bytes) == Err(FetchFault::Failed)
}

// Whether one run of these words, by any call, ends with what the trial must write and as often asks for files.
fn ends<R: AllocGlobal + Threads + Wait + Sync>(
    rt: &R,
    trial: &Trial<'_>,
    words: &[String],
    call: Call<'_>,
) -> Result<bool> {
    let alloc = rt.alloc();
    let out = sink(alloc, trial, trial.number("failing_write").unwrap_or(0))?;
    if trial.value.get("no_room").is_some() {
        let told = run_by(rt, words, &mut NoRoom, out, call)?;
        return Ok(Some(told.status) == trial.number("status") && trial.allows(&told.text));
    }
    let mut shelf = trial.shelf(alloc, usize::MAX)?;
    shelf.fail_at(alloc, trial.number("failing_fetch").unwrap_or(0))?;
    let fetches = trial.number("fetches");
    if let Some(fetches) = fetches {
        shelf.fail_at(alloc, fetches.saturating_add(1))?;
    }
    let told = run_by(rt, words, &mut shelf, out, call)?;
    let is_well = told.status == trial.number("status").unwrap_or(0);
    let is_text = trial.is_free() || trial.allows(&told.text);
    let is_like = is_like(rt, trial, &told.text)?;
    let is_then = has_next(rt, trial, &told.text, call)?;
    Ok(
        is_well
            && is_text
            && is_like
            && is_then
            && (fetches.is_none() || has_fetched(alloc, &mut shelf)),
    )
}

// Whether each line is the one that is stored, or says that an ask came too early where it may.
fn is_served_as(served: &str, stored: &str, early_before: &str) -> bool {
    let mut may_wait = true;
    for (told, line) in served.lines().zip(stored.lines()) {
        may_wait = may_wait && line != early_before;
        if told != line && !(may_wait && told.starts_with("notyet ")) {
            return false;
        }
    }
    served.lines().count() == stored.lines().count()
}

// Whether the text is what the words of `like` lead to, as far as an ask may not come too early.
fn is_like<R: AllocGlobal + Threads + Wait + Sync>(
    rt: &R,
    trial: &Trial<'_>,
    text: &[u8],
) -> Result<bool> {
    let alloc = rt.alloc();
    let Some(like) = trial.value.get("like") else {
        return Ok(true);
    };
    let mut shelf = trial.shelf(alloc, usize::MAX)?;
    let words = words_of(alloc, like)?;
    let other = run_by(rt, &words, &mut shelf, sink(alloc, trial, 0)?, Call::Plain)?;
    Ok(match string(trial.value, "early_before") {
        None => text == other.text.as_slice(),
        Some(line) => is_served_as(str::from_utf8(text)?, str::from_utf8(&other.text)?, line),
    })
}

// Whether the next run, by what was written, writes what it must.
fn has_next<R: AllocGlobal + Threads + Wait + Sync>(
    rt: &R,
    trial: &Trial<'_>,
    text: &[u8],
    call: Call<'_>,
) -> Result<bool> {
    let alloc = rt.alloc();
    let Some(then) = trial.value.get("then") else {
        return Ok(true);
    };
    let words = words_of(alloc, then.get("words").context("no words")?)?;
    let mut shelf = trial.shelf(alloc, usize::MAX)?;
    shelf.add(alloc, string(then, "as").unwrap_or("L"), text)?;
    let next = run_by(rt, &words, &mut shelf, sink(alloc, trial, 0)?, call)?;
    Ok(next.text.as_slice() == string(then, "writes").unwrap_or("").as_bytes())
}

// Whether the run by workers and sessions ends so, and the gate was passed as is said.
fn ends_at_gate<R: AllocGlobal + Threads + Wait + Sync>(rt: &R, trial: &Trial<'_>) -> Result<bool> {
    let gate = Gatekeeper::new(rt.alloc(), trial.value.get("holds"))?;
    let has_ended = ends(rt, trial, &trial.words, Call::Whole(&gate))?;
    let has_passed = match list(trial.value, "passed") {
        None => true,
        Some(times) => gate.has_passed(times),
    };
    Ok(has_ended && has_passed && gate.met() == trial.number("met").unwrap_or(0))
}

// Whether each front of the file that is cut is refused, and what is whole isn't.
fn cuts_end<R: AllocGlobal + Threads + Wait + Sync>(
    rt: &R,
    trial: &Trial<'_>,
    length: usize,
) -> Result<bool> {
    let alloc = rt.alloc();
    let whole = trial.number("whole_from").unwrap_or(length as u64);
    for cut in 0..length {
        let mut shelf = trial.shelf(alloc, cut)?;
        let told = run_by(
            rt,
            &trial.words,
            &mut shelf,
            sink(alloc, trial, 0)?,
            Call::Plain,
        )?;
        let is_well = if cut as u64 >= whole {
            told.status == trial.number("status").unwrap_or(0) && trial.allows(&told.text)
        } else {
            Some(told.status) == trial.number("cut_status")
        };
        if !is_well {
            return Ok(false);
        }
    }
    Ok(true)
}

// Whether each of so many writes, where it fails, leaves the bytes of those before it.
fn writes_fail<R: AllocGlobal + Threads + Wait + Sync>(
    rt: &R,
    trial: &Trial<'_>,
    writes: u64,
) -> Result<bool> {
    let alloc = rt.alloc();
    for before in 0..writes {
        let mut shelf = trial.shelf(alloc, usize::MAX)?;
        let out = sink(alloc, trial, before.saturating_add(1))?;
        let told = run_by(rt, &trial.words, &mut shelf, out, Call::Plain)?;
        let taken = before.saturating_mul(trial.number("bite").unwrap_or(1000));
        if told.status != NOT_WRITTEN || !trial.has_front(&told.text, taken) {
            return Ok(false);
        }
    }
    Ok(true)
}

// The words, in which `answer` and `check` are told to take several threads.
fn batched(alloc: Global, words: &[String]) -> Result<Vec<String>> {
    let mut made = Vec::new(alloc);
    for word in words {
        made.push(word.clone()?)?;
        if made.len() == 1 && matches!(word.as_str(), "answer" | "check") && !is_batch(words) {
            made.push(String::from_str(alloc, "--batch")?)?;
        }
    }
    Ok(made)
}

fn is_batch(words: &[String]) -> bool {
    words.iter().any(|it| it.as_str() == "--batch")
}

fn is_served(words: &[String]) -> bool {
    words.first().is_some_and(|it| it.as_str() == "serve")
}

// Whether the call takes the words as those of no command.
fn is_refused<R: AllocGlobal + Threads + Wait + Sync>(
    rt: &R,
    trial: &Trial<'_>,
    call: Call<'_>,
) -> Result<bool> {
    let mut shelf = trial.shelf(rt.alloc(), usize::MAX)?;
    let out = sink(rt.alloc(), trial, 0)?;
    Ok(run_by(rt, &trial.words, &mut shelf, out, call)?.status == USAGE)
}

/// Whether the runs of a trial come to what is stored. What isn't served is run by each call, which refuses what isn't its own.
pub fn is_as_stored<R: Files + AllocGlobal + Threads + Wait + Sync>(
    rt: &R,
    texts: &Texts<'_>,
    value: &Value,
) -> Result<bool> {
    let trial = Trial::of(rt, texts, value)?;
    if let Some(writes) = trial.number("each_write") {
        return writes_fail(rt, &trial, writes);
    }
    let by_threads = ends_at_gate(rt, &trial)?;
    let by_batch = if is_served(&trial.words) {
        is_refused(rt, &trial, Call::Batch)?
    } else {
        let words = batched(rt.alloc(), &trial.words)?;
        ends(rt, &trial, &words, Call::Batch)?
    };
    let by_one = if is_served(&trial.words) || is_batch(&trial.words) {
        is_refused(rt, &trial, Call::Plain)?
    } else {
        ends(rt, &trial, &trial.words, Call::Plain)?
    };
    let by_cuts = match trial.cut_length() {
        None => true,
        Some(length) => cuts_end(rt, &trial, length)?,
    };
    Ok(by_threads && by_batch && by_one && by_cuts)
}
