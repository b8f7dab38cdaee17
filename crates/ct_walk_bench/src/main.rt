//! Times look-ups of the first dividing move, and walks, over the moves and points of a file that the yardstick writes.
//! It is run large by `bench/walks.py`, and once, with no clock, by the gate.
//!
//! The file has numbers: how many moves, each a head and a tail; how many points to look up, and they; how many points
//! to walk, and they.
#![tactic(auto)]

mod case;

use anyhow::{Context, Result, bail};
use case::Case;
use ct_input::read_instance;
use ct_instance::Instance;
use std::alloc::Global;
use std::sync::Arc;
use std::time::{Clock, Duration, Instant};
use std::{env, fs};

// The instance of a text.
fn instance_of(alloc: Global, text: &[u8]) -> Result<Arc<Instance>> {
    match read_instance(alloc, text) {
        Ok(inst) => Ok(Arc::new(alloc, inst)?),
        Err(_) => bail!("the instance isn't read"),
    }
}

// The numbers of a text.
fn numbers_of(alloc: Global, text: &str) -> Result<Vec<u64>> {
    let mut numbers = Vec::new(alloc);
    for word in text.split_whitespace() {
        numbers.push(word.parse::<u64>().context("not a number")?)?;
    }
    Ok(numbers)
}

// How long, as a number of nanoseconds.
fn nanoseconds(time: Duration) -> u64 {
    u64::try_from(time.as_nanos()).unwrap_or(u64::MAX)
}

// The fastest times, in nanoseconds.
#[derive(Drop)]
struct Times {
    look_up: u64,
    walk: u64,
    extend: u64,
    anew: u64,
}

// Each way so many times.
fn timed(clock: &impl Clock, alloc: Global, case: &Case, repeats: u32) -> Result<Times> {
    let mut best = Times {
        look_up: u64::MAX,
        walk: u64::MAX,
        extend: u64::MAX,
        anew: u64::MAX,
    };
    for _ in 0..repeats {
        let began = Instant::now(clock)?;
        let _ = case.look_up();
        best.look_up = best.look_up.min(nanoseconds(began.elapsed(clock)?));
        let began = Instant::now(clock)?;
        case.walk_ends(alloc)?;
        best.walk = best.walk.min(nanoseconds(began.elapsed(clock)?));
        let began = Instant::now(clock)?;
        let _longer = case.extended(alloc)?;
        best.extend = best.extend.min(nanoseconds(began.elapsed(clock)?));
        let began = Instant::now(clock)?;
        let _anew = case.made_anew(alloc)?;
        best.anew = best.anew.min(nanoseconds(began.elapsed(clock)?));
    }
    Ok(best)
}

fn main(rt: HostRuntime) -> Result<()> {
    let alloc = rt.alloc();
    let mut words = env::args(&rt)?;
    let _program = words.next();
    let instance = words
        .next()
        .context("usage: ct_walk_bench INSTANCE FILE [REPEATS]")?;
    let file = words
        .next()
        .context("usage: ct_walk_bench INSTANCE FILE [REPEATS]")?;
    let inst = instance_of(
        alloc,
        fs::read_to_string(&rt, instance.as_str())?.as_bytes(),
    )?;
    let numbers = numbers_of(alloc, fs::read_to_string(&rt, file.as_str())?.as_str())?;
    let case = Case::read(alloc, &inst, &numbers)?;
    let (found, sum) = case.look_up();
    println!(rt;
        "moves {} points {} found {found} sum of numbers {sum}",
        case.move_count(),
        case.point_count()
    )?;
    let (starts, steps) = case.walk(alloc)?;
    println!(rt; "walks {starts} steps {steps}")?;
    if let Some(word) = words.next() {
        let repeats = word.parse::<u32>().context("REPEATS is a number")?;
        let best = timed(&rt, alloc, &case, repeats)?;
        println!(rt;
            "lookup_ns {} walk_ns {} extend_ns {} anew_ns {}",
            best.look_up, best.walk, best.extend, best.anew
        )?;
    }
    Ok(())
}
