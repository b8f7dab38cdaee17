//! Whole completions of one set up to a grade: by one thread, by the calls of a book, each timed by itself, and by the
//! workers of a host. They are timed by `bench/hosts.py`, and made once each, with no clock read, by the gate.
#![tactic(auto)]

ghost use Rattle.std.specs.Prelude.{◌≤◌};
ghost use Rattle.ct_vectors.specs.declared.limits.TheConstants.{GRADE_LIMIT};

mod calls;
mod clocked;
mod single;
mod ways;
mod workers;

use anyhow::{Context, Result, bail, ensure};
use calls::Calls;
use clocked::{clock_reading, nanoseconds};
use ct_input::read_instance;
use ct_instance::Instance;
use ct_vectors::limits::GRADE_LIMIT;
use std::alloc::Global;
use std::sync::{Arc, Wait};
use std::thread::Threads;
use std::time::{Clock, CpuClock, Instant};
use std::{env, fs};
use ways::Way;

const USAGE: &str = "usage: ct_host_bench INSTANCE GRADE [one|calls|WORKERS REPEATS]";

// The instance of a text.
fn instance_of(alloc: Global, text: &[u8]) -> Result<Arc<Instance>> {
    match read_instance(alloc, text) {
        Ok(inst) => Ok(Arc::new(alloc, inst)?),
        Err(_) => bail!("the instance isn't read"),
    }
}

// Each way once.
fn each_way<R: Print + Clock + Threads + Wait + Sync>(
    rt: &R,
    alloc: Global,
    inst: &Arc<Instance>,
    grade: u64,
) -> Result<()>
    requires { grade ≤ GRADE_LIMIT }
{
    for way in [Way::One, Way::Calls, Way::Workers(1), Way::Workers(2)] {
        let mut calls = Calls::default();
        let done = way.complete(rt, alloc, inst, grade, &mut calls)?;
        println!(rt; "{way}: moves {} entries {}", done.moves, done.entries)?;
    }
    Ok(())
}

// One way so many times: what the fastest run took, on the clock and of the processors.
fn timed<R: Print + Clock + CpuClock + Threads + Wait + Sync>(
    rt: &R,
    alloc: Global,
    inst: &Arc<Instance>,
    grade: u64,
    way: Way,
    repeats: u32,
) -> Result<()>
    requires { grade ≤ GRADE_LIMIT }
{
    let mut best = (u64::MAX, u64::MAX);
    let mut fastest = Calls::default();
    for _ in 0..repeats {
        let mut calls = Calls::default();
        let before = nanoseconds(rt.process_cpu_time()?);
        let clock = Instant::now(rt)?;
        let done = way.complete(rt, alloc, inst, grade, &mut calls)?;
        let wall = nanoseconds(clock.elapsed(rt)?);
        let used = nanoseconds(rt.process_cpu_time()?).saturating_sub(before);
        if wall < best.0 {
            best = (wall, used);
            fastest = calls;
        }
        println!(rt; "moves {} entries {}", done.moves, done.entries)?;
    }
    let reading = clock_reading(rt)?;
    println!(rt;
        "times wall_ns {} used_ns {} clock_ns {reading}",
        best.0, best.1
    )?;
    for (name, clocked) in fastest.each() {
        println!(rt; "{name} {clocked}")?;
    }
    Ok(())
}

fn main(rt: HostRuntime) -> Result<()> {
    let alloc = rt.alloc();
    let mut words = env::args(&rt)?;
    let _program = words.next();
    let file = words.next().context(USAGE)?;
    let grade = words.next().context(USAGE)?;
    let grade = grade.parse::<u64>().context("GRADE is a number")?;
    ensure!(grade <= GRADE_LIMIT, "GRADE is over the limit");
    let inst = instance_of(alloc, fs::read_to_string(&rt, file.as_str())?.as_bytes())?;
    match words.next() {
        None => each_way(&rt, alloc, &inst, grade),
        Some(way) => {
            let way = Way::read(way.as_str())?;
            let repeats = words.next().context(USAGE)?;
            let repeats = repeats.parse::<u32>().context("REPEATS is a number")?;
            timed(&rt, alloc, &inst, grade, way, repeats)
        }
    }
}
