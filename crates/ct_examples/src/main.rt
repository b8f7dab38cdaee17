//! Runs what is kept as data: the examples, and the trials of the commands in files, and names each with its verdict.
//!
//! The one argument is the folder, which the gate gives as this crate's data/. `examples/` in it has a folder an example, to
//! which `examples` at the top links. `trials/` has files of trials in JSON: an object whose `texts` are a list of names and
//! texts, and whose `trials` are a list of runs. `texts.rt` says how a text is said, `trial.rt` and `running.rt` how a trial is.
#![tactic(auto)]

mod examples;
mod gatekeeper;
mod no_room;
mod running;
mod texts;
mod trial;

use crate::texts::{Texts, list, string};
use anyhow::{Context, Result};
use serde_json::Value;
use std::rt::Files;
use std::sync::Wait;
use std::thread::Threads;
use std::{env, fs};

// The names in a folder, in their order.
fn names_in<R: Files + AllocGlobal + Clone>(rt: &R, folder: &str) -> Result<Vec<String>> {
    let mut names = Vec::new(rt.alloc());
    for entry in fs::read_dir(rt, folder)? {
        names.push(String::from_str(rt.alloc(), entry?.file_name())?)?;
    }
    names.sort()?;
    Ok(names)
}

// Runs the trials of a file, and prints their verdicts.
fn run_trials<R: Files + Print + AllocGlobal + Threads + Wait + Sync>(
    rt: &R,
    folder: &str,
    name: &str,
) -> Result<()> {
    let alloc = rt.alloc();
    let text = fs::read_to_string(rt, format!(in alloc; "{folder}/{name}")?)?;
    let file = Value::from_str(alloc, text.as_str()).context(format_args!("{name}"))?;
    let texts = Texts::of(rt, folder, list(&file, "texts").unwrap_or(&[]))?;
    for trial in list(&file, "trials").context("no trials")? {
        let called = string(trial, "name").unwrap_or("?");
        let said = if running::is_as_stored(rt, &texts, trial).context(format_args!("{called}"))? {
            "as stored"
        } else {
            "otherwise"
        };
        println!(rt; "{name}: {called}: {said}")?;
    }
    Ok(())
}

fn main(rt: HostRuntime) -> Result<()> {
    let alloc = rt.alloc();
    let folder = env::args(&rt)?.nth(1).context("no folder")?;
    for name in &names_in(&rt, format!(in alloc; "{folder}/examples")?.as_str())? {
        let said = if examples::is_as_stored(
            &rt,
            format!(in alloc; "{folder}/examples/{name}")?.as_str(),
        )? {
            "answered as stored"
        } else {
            "answered otherwise"
        };
        println!(rt; "{name}: {said}")?;
    }
    let trials = format!(in alloc; "{folder}/trials")?;
    for name in &names_in(&rt, trials.as_str())? {
        if name.as_str().ends_with(".json") {
            run_trials(&rt, trials.as_str(), name.as_str())?;
        }
    }
    Ok(())
}
