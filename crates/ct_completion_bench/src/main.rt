//! A whole completion by a plain loop, in one thread, up to a grade: the moves of the test list. It is timed by
//! `bench/completion.py` beside the yardstick, and run once, with no clock, by the gate.
#![tactic(auto)]

mod completion;
mod reduction;

use anyhow::{Context, Result, bail};
use completion::complete;
use ct_input::read_instance;
use ct_instance::Instance;
use std::alloc::Global;
use std::sync::Arc;
use std::time::{Duration, Instant};
use std::{env, fs};

// The instance of a text.
fn instance_of(alloc: Global, text: &[u8]) -> Result<Arc<Instance>> {
    match read_instance(alloc, text) {
        Ok(inst) => Ok(Arc::new(alloc, inst)?),
        Err(_) => bail!("the instance isn't read"),
    }
}

// How long, as a number of nanoseconds.
fn nanoseconds(time: Duration) -> u64 {
    u64::try_from(time.as_nanos()).unwrap_or(u64::MAX)
}

fn main(rt: HostRuntime) -> Result<()> {
    let alloc = rt.alloc();
    let mut words = env::args(&rt)?;
    let _program = words.next();
    let usage = "usage: ct_completion_bench INSTANCE GRADE [REPEATS]";
    let file = words.next().context(usage)?;
    let grade = words.next().context(usage)?;
    let grade = grade.parse::<u64>().context("GRADE is a number")?;
    let inst = instance_of(alloc, fs::read_to_string(&rt, file.as_str())?.as_bytes())?;
    let moves = complete(alloc, &inst, grade)?;
    println!(rt; "moves {}", moves.len())?;
    if let Some(word) = words.next() {
        let repeats = word.parse::<u32>().context("REPEATS is a number")?;
        let mut best = u64::MAX;
        for _ in 0..repeats {
            let clock = Instant::now(&rt)?;
            let _ = complete(alloc, &inst, grade)?;
            best = best.min(nanoseconds(clock.elapsed(&rt)?));
        }
        println!(rt; "complete_ns {best}")?;
    }
    Ok(())
}
