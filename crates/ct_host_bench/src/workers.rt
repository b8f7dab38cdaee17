//! The workers of a host.
ghost use Rattle.std.specs.Prelude.{◌≤◌, All};
ghost use Rattle.ct_vectors.specs.declared.limits.TheConstants.{GRADE_LIMIT, PASS_LIMIT};
ghost use Rattle.ct_host.specs.Hosts.{IsOfHost};

use crate::single::Completion;
use anyhow::{Context, Result};
use ct_host::{Host, HostPass};
use ct_instance::Instance;
use ct_vectors::limits::MOVE_LIMIT;
use ct_version::NoGate;
use ct_workers::work;
use std::alloc::{AllocError, Global};
use std::sync::{Arc, Wait};
use std::thread;
use std::thread::Threads;

/// A completion by so many workers at one host, each in a thread of its own where one can be made.
pub fn by_workers<R: Threads + Wait + Sync>(
    rt: &R,
    alloc: Global,
    inst: &Arc<Instance>,
    target: u64,
    workers: u32,
) -> Result<Completion>
    requires some { 1 ≤ workers }
    requires most { workers ≤ PASS_LIMIT }
    requires target { target ≤ GRADE_LIMIT }
{
    let inst = Arc::try_clone(inst)?;
    let (host, passes) = Host::open(alloc, inst, MOVE_LIMIT as u32, workers)?;
    let ended = beside(rt, alloc, &host, passes, target)?;
    let mut all = Completion {
        moves: 0,
        entries: 0,
    };
    for one in ended {
        let one = one.context("a worker didn't reach the grade")?;
        all.moves = all.moves.max(one.moves);
        all.entries = all.entries.saturating_add(one.entries);
    }
    Ok(all)
}

// A worker by each pass.
fn beside<R: Threads + Wait + Sync>(
    rt: &R,
    alloc: Global,
    host: &Host,
    passes: Vec<HostPass>,
    target: u64,
) -> Result<Vec<Option<Completion>>, AllocError>
    requires own { All (IsOfHost host.now) passes.items }
    requires target { target ≤ GRADE_LIMIT }
{
    thread::map_vec(
        rt,
        passes,
        &|pass: HostPass| -> Option<Completion>
            requires { IsOfHost host.now pass × (target ≤ GRADE_LIMIT) }
        { worked(rt, alloc, host, pass, target) },
    )
}

// Works until the grade is covered: the moves of the version, and the entries of this pass.
fn worked<R: Wait>(
    rt: &R,
    alloc: Global,
    host: &Host,
    mut pass: HostPass,
    target: u64,
) -> Option<Completion>
    requires own { IsOfHost host.now pass }
    requires target { target ≤ GRADE_LIMIT }
{
    let ended = work(rt, alloc, &mut host.bench(&mut pass), &NoGate, 0, target);
    match ended {
        Ok(helped) => Some(Completion {
            moves: helped.version.moves().len(),
            entries: pass.steps(),
        }),
        Err(_) => None,
    }
}
