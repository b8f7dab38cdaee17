//! Jobs are dealt to passes.
ghost use Rattle.std.specs.Prelude.{◌≡◌, ◌≤◌, ◌<◌, ◌+◌, ◌^◌, All, IfOk, length, map, vec_len};
ghost use Rattle.ct_instance.specs.Made.{indices};
ghost use Rattle.ct_answer.specs.Told.{AreEach};
ghost use Rattle.ct_serve.specs.Served.{IsJobAt, IsPartAt, IsJobIn, scripts_dealt};

use crate::parts::{Job, Part};
use ct_host::HostPass;
use ct_input::Phase;
use std::alloc::{AllocError, Global};

// The job of the part with this index: first come the workers, then the sessions in order.
fn job_at(phase: &Phase, workers: usize, index: usize) -> Job<'_>
    ensures { IsJobAt phase.now workers index result }
{
    let sessions = phase.sessions.as_slice();
    if index < workers {
        Job::Work {
            target: phase.target,
        }
    } else if index - workers < sessions.len() {
        Job::Run {
            requests: &sessions[index - workers],
        }
    } else {
        Job::Idle
    }
}

/// A part for each pass: so many workers with the numbers from 1 on at the gate, then the sessions of the phase in order
/// with the numbers that follow, and the rest idle. It takes the memory of the parts.
pub fn deal<'a>(
    alloc: Global,
    passes: Vec<HostPass>,
    workers: u32,
    phase: &'a Phase,
) -> Result<Vec<Part<'a>>, AllocError>
    requires enough { workers + length phase.now.sessions ≤ vec_len passes }
    ensures passes { IfOk result (λ parts. map (λ part. part.pass) parts.items ≡ passes.items) }
    ensures scripts { IfOk result (λ parts. scripts_dealt parts.items ≡ phase.now.sessions) }
    ensures in_order { vec_len passes < 2 ^ 32 → IfOk result (λ parts. AreEach (IsPartAt phase.now workers) (indices (length parts.items)) parts.items) }
    ensures jobs { IfOk result (λ parts. All (λ part. IsJobIn phase.now part.job) parts.items) }
{
    let mut parts = Vec::with_capacity(alloc, passes.len())?;
    let mut who: u32 = 0;
    for pass in passes {
        let job = job_at(phase, workers as usize, parts.len());
        who = who.saturating_add(1);
        parts.push(Part { pass, who, job })?;
    }
    Ok(parts)
}
