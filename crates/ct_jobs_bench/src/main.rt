//! Makes a list of as many moves as its first argument says, of as many columns as its second, puts all their critical
//! pairs into buckets, and counts those of the last grade. It is run large by `bench/pairs.py`, and small by the gate.
//!
//! All entries and costs are 1: the k-th move takes k artificials away and adds k of the first column. So all heads
//! share a variable, and k - 1 pairs have the grade k.
#![tactic(auto)]

ghost use Rattle.std.specs.Prelude.{◌≤◌};

mod synthetic;

use anyhow::{Context, Result, ensure};
use ct_jobs::{Addition, Buckets};
use ct_vectors::limits::{COLUMN_LIMIT, MOVE_LIMIT};
use std::alloc::Global;
use std::env;
use synthetic::{instance_of_ones, moves_of};

// How many jobs the last grade has.
fn last_bucket(alloc: Global, count: u32, columns: u32) -> Result<usize>
    requires moves { count ≤ MOVE_LIMIT }
    requires width { columns ≤ COLUMN_LIMIT }
{
    let inst = instance_of_ones(alloc, columns)?;
    let moves = moves_of(alloc, &inst, count)?;
    let mut buckets = Buckets::new(alloc, &inst)?;
    let pairs = Buckets::prepare(alloc, &inst, &moves, 1)?;
    buckets.reserve()?;
    ensure!(buckets.spare() > 0, "no room");
    buckets.absorb(pairs);
    buckets.reserve()?;
    let none = Addition::none(alloc);
    let last = buckets
        .next_with(u64::from(count).saturating_sub(1), &none)
        .context("no grade")?;
    Ok(buckets.jobs_with(alloc, last, &none)?.len())
}

// The number that an argument says.
fn number_of(word: Option<String>) -> Result<u32> {
    let word = word.context("usage: ct_jobs_bench COUNT COLUMNS")?;
    word.parse::<u32>().context("an argument is no number")
}

fn main(rt: HostRuntime) -> Result<()> {
    let alloc = rt.alloc();
    let mut words = env::args(&rt)?;
    let _program = words.next();
    let count = number_of(words.next())?;
    let columns = number_of(words.next())?;
    ensure!(
        count >= 1 && count as usize <= MOVE_LIMIT,
        "COUNT is 1 to {MOVE_LIMIT}"
    );
    ensure!(
        columns >= 1 && columns as usize <= COLUMN_LIMIT,
        "COLUMNS is 1 to {COLUMN_LIMIT}"
    );
    let jobs = last_bucket(alloc, count, columns)?;
    println!(rt; "moves {count} jobs of the last grade {jobs}")?;
    Ok(())
}
