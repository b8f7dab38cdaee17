//! A part is run.
ghost use Rattle.std.specs.Prelude.{◌≡◌, ◌≤◌, All, IfOk};
ghost use Rattle.std.specs.Arc.{arc_value};
ghost use Rattle.ct_vectors.specs.declared.limits.TheConstants.{GRADE_LIMIT};
ghost use Rattle.ct_input.specs.Script.{IsRequest};
ghost use Rattle.ct_version.specs.Desks.{IsOfPlace};
ghost use Rattle.ct_book.specs.Benches.{desk_place};
ghost use Rattle.ct_host.specs.Hosts.{IsOfHost};
ghost use Rattle.ct_serve.specs.Served.{IsPart, HasWorked, HasTold, IsKept, IsDone};

use crate::parts::{Done, End, Job, Kept, Part};
use crate::shared::Shared;
use ct_host::{HostPass, OwnDesk};
use ct_input::Request;
use ct_point::Seq;
use ct_session::Session;
use ct_version::{Gate, Stop, Version};
use ct_workers::work;
use std::alloc::AllocError;
use std::sync::{Arc, Wait};

// Takes steps up to the target, or up to the mark before it.
fn worked<R: Wait, G: Gate>(
    shared: &Shared<'_, R, G>,
    mut pass: HostPass,
    who: u32,
    target: u64,
) -> Result<Kept, AllocError>
    requires own { IsOfHost shared.now.host.now pass }
    requires target { target ≤ GRADE_LIMIT }
    ensures own { IfOk result (λ kept. IsOfHost shared.now.host.now kept.pass) }
    ensures end { IfOk result (λ kept. HasWorked (desk_place shared.now.host.now.place) target kept.end) }
{
    let mut bench = shared.host.bench(&mut pass);
    let ended = work(
        shared.rt,
        shared.alloc,
        &mut bench,
        shared.gate,
        who,
        target,
    );
    match ended {
        Ok(helped) => Ok(Kept {
            pass,
            end: End::Reached(helped),
        }),
        Err(Stop::Full(mark)) => Ok(Kept {
            pass,
            end: End::Stopped(mark),
        }),
        Err(Stop::Memory) => Err(AllocError),
    }
}

// The lines of a session that begins with the first version.
fn told<R: Wait, G: Gate>(
    shared: &Shared<'_, R, G>,
    pass: HostPass,
    first: &Arc<Version>,
    who: u32,
    requests: &[Request],
) -> Result<Kept, AllocError>
    requires own { IsOfHost shared.now.host.now pass }
    requires instance { arc_value shared.now.inst.now ≡ shared.now.host.now.place.instance }
    requires first { IsOfPlace (desk_place shared.now.host.now.place) (arc_value first.now) }
    requires requests { All (IsRequest shared.now.host.now.place.instance.rows) requests.now }
    ensures own { IfOk result (λ kept. IsOfHost shared.now.host.now kept.pass) }
    ensures end { IfOk result (λ kept. HasTold (desk_place shared.now.host.now.place) shared.now.options.walks (arc_value first.now).number requests.now kept.end) }
{
    let desk = OwnDesk::new(shared.host, pass);
    let inst = Arc::try_clone(shared.inst)?;
    let mut session = Session::open(shared.alloc, inst, desk, Arc::try_clone(first)?)?;
    let lines = session.run_script(
        shared.rt,
        shared.alloc,
        shared.gate,
        who,
        requests,
        shared.options.walks,
    )?;
    let (desk, _version) = session.close();
    Ok(Kept {
        pass: desk.into_pass(),
        end: End::Told(Seq::from_vec(lines)),
    })
}

// What a part with this job keeps.
fn kept<R: Wait, G: Gate>(
    shared: &Shared<'_, R, G>,
    first: &Arc<Version>,
    part: Part<'_>,
) -> Result<Kept, AllocError>
    requires instance { arc_value shared.now.inst.now ≡ shared.now.host.now.place.instance }
    requires first { IsOfPlace (desk_place shared.now.host.now.place) (arc_value first.now) }
    requires part { IsPart shared.now.host.now part }
    ensures { IfOk result (IsKept shared.now.host.now shared.now.options.walks (arc_value first.now).number part.entry.job) }
{
    let Part { pass, who, job } = part;
    match job {
        Job::Idle => Ok(Kept {
            pass,
            end: End::Rested,
        }),
        Job::Work { target } => worked(shared, pass, who, target),
        Job::Run { requests } => told(shared, pass, first, who, requests.as_slice()),
    }
}

/// Runs a part to its end. It may wait for other parts.
pub fn run_part<'a, R: Wait, G: Gate>(
    shared: &Shared<'_, R, G>,
    first: &Arc<Version>,
    part: Part<'a>,
) -> Done<'a>
    requires instance { arc_value shared.now.inst.now ≡ shared.now.host.now.place.instance }
    requires first { IsOfPlace (desk_place shared.now.host.now.place) (arc_value first.now) }
    requires part { IsPart shared.now.host.now part }
    ensures job { result.job ≡ part.entry.job }
    ensures done { IsDone shared.now.host.now shared.now.options.walks (arc_value first.now).number result }
{
    let job = part.job;
    let outcome = kept(shared, first, part);
    Done { job, outcome }
}
