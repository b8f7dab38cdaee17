//! Compares equal points, as often as its first argument says, by as many rows of costs as its second says. It is run
//! large by `bench/rows.py`, and small by the gate.
#![tactic(auto)]

ghost use Rattle.std.specs.Prelude.{◌≡◌, ◌+◌, ◌≤◌, length, All};
ghost use Rattle.ct_vectors.specs.declared.limits.TheConstants.{JOB_GRADE_LIMIT};
ghost use Rattle.ct_order_bench.specs.declared.costs.TheConstants.{COLUMNS};

mod costs;

use anyhow::{Context, Result, ensure};
use costs::{COLUMNS, costs_of_ones};
use ct_order::{Costs, compare};
use std::cmp::Ordering;
use std::env;

const WIDTH: usize = COLUMNS + 1;

// How many of the points that begin at the first places equal the first point.
fn ties(costs: &Costs, numbers: &[u64], count: usize) -> u64
    requires columns { costs.now.columns ≡ COLUMNS }
    requires room { count + WIDTH ≤ length numbers.now }
    requires limit { All (λ x. x ≤ JOB_GRADE_LIMIT) numbers.now }
{
    let first = &numbers[..WIDTH];
    let mut ties = 0u64;
    for i in 0..count {
        if compare(costs, first, &numbers[i..i + WIDTH]) == Ordering::Equal {
            ties = ties.saturating_add(1);
        }
    }
    ties
}

fn main(rt: HostRuntime) -> Result<()> {
    let alloc = rt.alloc();
    let mut words = env::args(&rt)?.skip(1);
    let count = words.next().context("usage: ct_order_bench COUNT ROWS")?;
    let rows = words.next().context("usage: ct_order_bench COUNT ROWS")?;
    let count = count.parse::<usize>().context("COUNT is a number")?;
    let rows = rows.parse::<usize>().context("ROWS is a number")?;
    ensure!(count <= 10_000_000, "COUNT is at most 10,000,000");
    ensure!(rows >= 1 && rows <= 8, "ROWS is 1 to 8");
    let costs = costs_of_ones(alloc, rows)?;
    let numbers = vec![in alloc; 1u64; count + WIDTH]?;
    let found = ties(&costs, &numbers, count);
    println!(rt; "comparisons {count} rows {rows} ties {found}")?;
    Ok(())
}
