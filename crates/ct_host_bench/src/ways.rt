//! The ways to complete a set.
ghost use Rattle.std.specs.Prelude.{◌≤◌};
ghost use Rattle.ct_vectors.specs.declared.limits.TheConstants.{GRADE_LIMIT};

use crate::calls::{Calls, by_calls};
use crate::single::{Completion, by_one};
use crate::workers::by_workers;
use anyhow::{Context, Result, ensure};
use ct_instance::Instance;
use ct_vectors::limits::PASS_LIMIT;
use std::alloc::Global;
use std::fmt;
use std::sync::{Arc, Wait};
use std::thread::Threads;
use std::time::Clock;

/// How a set is completed.
#[derive(Clone, Copy)]
pub enum Way {
    /// By one thread's call, with no lock.
    One,
    /// By the calls of a book in one thread, each timed.
    Calls,
    /// By so many workers of a host, from 1 to 33.
    Workers(u32),
}

impl Way {
    /// The way with this name: `one`, `calls` or a number of workers.
    pub fn read(word: &str) -> Result<Way> {
        match word {
            "one" => Ok(Way::One),
            "calls" => Ok(Way::Calls),
            number => Ok(Way::Workers(number.parse::<u32>().context("no such way")?)),
        }
    }

    /// Completes the set, and adds to the times of the calls where they are timed.
    pub fn complete<R: Clock + Threads + Wait + Sync>(
        self,
        rt: &R,
        alloc: Global,
        inst: &Arc<Instance>,
        target: u64,
        calls: &mut Calls,
    ) -> Result<Completion>
        requires { target ≤ GRADE_LIMIT }
    {
        match self {
            Way::One => by_one(alloc, inst, target),
            Way::Calls => by_calls(rt, alloc, inst, target, calls),
            Way::Workers(workers) => {
                ensure!(
                    1 <= workers && workers <= PASS_LIMIT,
                    "1 to {PASS_LIMIT} workers"
                );
                by_workers(rt, alloc, inst, target, workers)
            }
        }
    }
}

impl fmt::Display for Way {
    fn fmt<W: fmt::Write>(&self, f: &mut fmt::Formatter<W>) -> fmt::Result {
        match self {
            Way::One => f.write_str("one"),
            Way::Calls => f.write_str("calls"),
            Way::Workers(workers) => write!(f, "{workers}"),
        }
    }
}
