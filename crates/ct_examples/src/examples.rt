//! Examples: each folder's script is answered and served by its real files, and what is written is compared with its
//! output.txt, and with walks with its walks.txt. Each is served by two workers too, where an ask may be told that it came
//! too early. The two files of an example are texts, `.txt`, or JSON, `.json`. An example with a ledger.txt is certified up to
//! its grade, and served with it, and one with a box.txt is answered by its box with walks.

use anyhow::{Context, Result};
use ct_outside::{Disk, FileShelf, MemSink};
use ct_promise::run;
use ct_run::Status;
use ct_version::NoGate;
use std::rt::Files;
use std::sync::Wait;
use std::thread::Threads;
use std::{fs, str};

// The file of this name in the folder of an example, a text or JSON.
fn file_of<R: Files + AllocGlobal>(rt: &R, folder: &str, name: &str) -> Result<String> {
    let alloc = rt.alloc();
    let json = format!(in alloc; "{folder}/{name}.json")?;
    Ok(if fs::exists(rt, json.as_str())? {
        json
    } else {
        format!(in alloc; "{folder}/{name}.txt")?
    })
}

// What `ct` writes to these words, where it ends with Done.
fn written<R: Files + AllocGlobal + Threads + Wait + Sync>(
    rt: &R,
    said: &[&str],
) -> Result<Option<MemSink>> {
    let alloc = rt.alloc();
    let mut words = Vec::new(alloc);
    for word in said {
        words.push(String::from_str(alloc, word)?)?;
    }
    let mut shelf = FileShelf::new(Disk::new(rt), alloc);
    let mut out = MemSink::new(alloc, 4096, 1_048_576)?;
    let status = run(rt, alloc, &words, &mut shelf, &mut out, &NoGate);
    Ok(if status == Status::Done {
        Some(out)
    } else {
        None
    })
}

// Whether it writes this.
fn is_written<R: Files + AllocGlobal + Threads + Wait + Sync>(
    rt: &R,
    said: &[&str],
    stored: &str,
) -> Result<bool> {
    Ok(match written(rt, said)? {
        Some(out) => out.held() == stored.as_bytes(),
        None => false,
    })
}

// Whether it writes what the folder's file of this name has, where there is one.
fn is_stored<R: Files + AllocGlobal + Threads + Wait + Sync>(
    rt: &R,
    folder: &str,
    name: &str,
    said: &[&str],
) -> Result<bool> {
    let file = format!(in rt.alloc(); "{folder}/{name}")?;
    if !fs::exists(rt, file.as_str())? {
        return Ok(true);
    }
    let stored = fs::read_to_string(rt, file.as_str())?;
    is_written(rt, said, stored.as_str())
}

// Whether the example's ledger, if it has one, is what is certified up to its grade, and no ask comes too early with it.
fn is_resumed<R: Files + AllocGlobal + Threads + Wait + Sync>(
    rt: &R,
    folder: &str,
    instance: &str,
    sessions: &str,
    output: &str,
) -> Result<bool> {
    let name = format!(in rt.alloc(); "{folder}/ledger.txt")?;
    if !fs::exists(rt, name.as_str())? {
        return Ok(true);
    }
    let ledger = fs::read_to_string(rt, name.as_str())?;
    let line = ledger.lines().nth(2).context("no grade")?;
    let grade = line.strip_prefix("grade ").context("no grade")?;
    let by_ledger = [
        "serve",
        "--workers",
        "2",
        "--resume",
        name.as_str(),
        instance,
        sessions,
    ];
    Ok(
        is_written(rt, &["certify", instance, grade], ledger.as_str())?
            && is_written(rt, &by_ledger, output)?,
    )
}

// Whether each line is the one that is stored, or says that an ask came too early.
fn is_served_as(served: &str, stored: &str) -> bool {
    served.lines().count() == stored.lines().count()
        && served
            .lines()
            .zip(stored.lines())
            .all(|(told, line)| told == line || told.starts_with("notyet "))
}

/// Whether the example in this folder is answered, and served by two workers, as its files say.
pub fn is_as_stored<R: Files + AllocGlobal + Threads + Wait + Sync>(
    rt: &R,
    folder: &str,
) -> Result<bool> {
    let alloc = rt.alloc();
    let instance = file_of(rt, folder, "instance")?;
    let sessions = file_of(rt, folder, "sessions")?;
    let (instance, sessions) = (instance.as_str(), sessions.as_str());
    let output = fs::read_to_string(rt, format!(in alloc; "{folder}/output.txt")?)?;
    let walks = fs::read_to_string(rt, format!(in alloc; "{folder}/walks.txt")?)?;
    let is_answered = is_written(rt, &["answer", instance, sessions], output.as_str())?
        && is_written(
            rt,
            &["answer", "--walks", instance, sessions],
            walks.as_str(),
        )?;
    let is_boxed = is_stored(
        rt,
        folder,
        "box.txt",
        &["box", "--walks", instance, sessions],
    )?;
    if !is_answered || !is_boxed || !is_resumed(rt, folder, instance, sessions, output.as_str())? {
        return Ok(false);
    }
    match written(rt, &["serve", "--workers", "2", instance, sessions])? {
        Some(out) => Ok(is_served_as(str::from_utf8(out.held())?, output.as_str())),
        None => Ok(false),
    }
}
