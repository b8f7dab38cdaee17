//! A phase is run.
ghost use Rattle.std.specs.Prelude.{◌≡◌, ◌≤◌, ◌+◌, All, IfOk, length, vec_len};
ghost use Rattle.std.specs.Arc.{arc_value};
ghost use Rattle.ct_input.specs.Script.{IsPhase};
ghost use Rattle.ct_version.specs.Desks.{IsOfPlace};
ghost use Rattle.ct_book.specs.Benches.{desk_place};
ghost use Rattle.ct_host.specs.Hosts.{IsOfHost};
ghost use Rattle.ct_answer.specs.Told.{AreEach};
ghost use Rattle.ct_serve.specs.Served.{IsPart, IsTold, IsDone, scripts_dealt, scripts_done};

use crate::collecting::collect;
use crate::dealing::deal;
use crate::parts::{Done, Part};
use crate::running::run_part;
use crate::shared::Shared;
use ct_host::HostPass;
use ct_input::Phase;
use ct_point::Seq;
use ct_session::Line;
use ct_version::{Gate, Version};
use std::alloc::AllocError;
use std::sync::{Arc, Wait};
use std::thread;
use std::thread::Threads;

// Runs all parts beside each other, or one after another where no thread can be made.
fn run_parts<'a, R: Threads + Wait + Sync, G: Gate + Sync>(
    shared: &Shared<'_, R, G>,
    first: &Arc<Version>,
    parts: Vec<Part<'a>>,
) -> Result<Vec<Done<'a>>, AllocError>
    requires instance { arc_value shared.now.inst.now ≡ shared.now.host.now.place.instance }
    requires first { IsOfPlace (desk_place shared.now.host.now.place) (arc_value first.now) }
    requires parts { All (IsPart shared.now.host.now) parts.items }
    ensures count { IfOk result (λ dones. vec_len dones ≡ vec_len parts.entry) }
    ensures scripts { IfOk result (λ dones. scripts_done dones.items ≡ scripts_dealt parts.entry.items) }
    ensures done { IfOk result (λ dones. All (IsDone shared.now.host.now shared.now.options.walks (arc_value first.now).number) dones.items) }
{
    let dones = thread::map_vec(
        shared.rt,
        parts,
        &|part: Part| -> Done
            requires { (arc_value shared.now.inst.now ≡ shared.now.host.now.place.instance) × IsOfPlace (desk_place shared.now.host.now.place) (arc_value first.now) × IsPart shared.now.host.now part }
            ensures { (result.job ≡ part.entry.job) × IsDone shared.entry.now.host.now shared.entry.now.options.walks (arc_value first.entry.now).number result }
        { run_part(shared, first, part) },
    )?;
    Ok(dones)
}

/// Runs the workers and the sessions of a phase, which begin with the first version, and gives the passes back with the
/// lines of the sessions in order.
pub fn run_phase<R: Threads + Wait + Sync, G: Gate + Sync>(
    shared: &Shared<'_, R, G>,
    passes: Vec<HostPass>,
    first: &Arc<Version>,
    phase: &Phase,
    workers: u32,
) -> Result<(Vec<HostPass>, Seq<Seq<Line>>), AllocError>
    requires own { All (IsOfHost shared.now.host.now) passes.items }
    requires enough { workers + length phase.now.sessions ≤ vec_len passes }
    requires instance { arc_value shared.now.inst.now ≡ shared.now.host.now.place.instance }
    requires first { IsOfPlace (desk_place shared.now.host.now.place) (arc_value first.now) }
    requires phase { IsPhase shared.now.host.now.place.instance.rows phase.now }
    ensures own { IfOk result (λ r. All (IsOfHost shared.now.host.now) r.0.items) }
    ensures count { IfOk result (λ r. vec_len r.0 ≡ vec_len passes) }
    ensures told { IfOk result (λ r. AreEach (IsTold (desk_place shared.now.host.now.place) shared.now.options.walks (arc_value first.now).number) phase.now.sessions r.1) }
{
    let parts = deal(shared.alloc, passes, workers, phase)?;
    let dones = run_parts(shared, first, parts)?;
    let (passes, told) = collect(shared.alloc, dones)?;
    Ok((passes, told))
}
