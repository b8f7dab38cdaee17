//! A script is served.
ghost use Rattle.std.specs.Prelude.{◌≡◌, ◌≤◌, ◌+◌, All, IfOk, length, vec_len};
ghost use Rattle.std.specs.Arc.{arc_value};
ghost use Rattle.ct_vectors.specs.declared.limits.TheConstants.{GRADE_LIMIT, MOVE_LIMIT, WORKER_LIMIT, SESSION_LIMIT, PASS_LIMIT};
ghost use Rattle.ct_instance.specs.TestSet.{test_list};
ghost use Rattle.ct_input.specs.Script.{IsPhase, IsScript};
ghost use Rattle.ct_version.specs.Editions.{level_seen};
ghost use Rattle.ct_book.specs.Benches.{desk_place};
ghost use Rattle.ct_host.specs.Hosts.{IsOfHost};
ghost use Rattle.ct_legal.specs.Cases.{plain_case};
ghost use Rattle.ct_legal.specs.Legal.{IsLevelShown, AreLegalPhases, IsLegalServed};
ghost use Rattle.ct_serve.specs.Served.{case_from};

use crate::phases::run_phase;
use crate::reaching::{greater_held, reach};
use crate::shared::Shared;
use ct_answer::{Options, raised};
use ct_host::{Host, HostPass};
use ct_input::{Phase, Script};
use ct_instance::Instance;
use ct_point::Seq;
use ct_report::{PhaseReport, Report};
use ct_resume::Resumed;
use ct_version::{Finished, Gate};
use std::alloc::{AllocError, Global};
use std::sync::{Arc, Wait};
use std::thread::Threads;

// The level, where levels are asked for.
fn shown(level: Finished, levels: bool) -> Option<Finished>
    ensures { IsLevelShown levels (level_seen level) result }
{
    if levels { Some(level) } else { None }
}

// How many sessions the phase with the most of them has.
fn most_sessions(phases: &[Phase]) -> usize
    requires { All (λ phase. length phase.sessions ≤ SESSION_LIMIT) phases.now }
    ensures most { All (λ phase. length phase.sessions ≤ result) phases.now }
    ensures limit { result ≤ SESSION_LIMIT }
{
    let mut most: usize = 0;
    for phase in phases {
        most = most.max(phase.sessions.as_slice().len());
    }
    most
}

// A pass for the main part, one for each worker, and one for each session of the phase with the most of them.
fn passes_for(phases: &[Phase], workers: u32) -> u32
    requires workers { workers ≤ WORKER_LIMIT }
    requires sessions { All (λ phase. length phase.sessions ≤ SESSION_LIMIT) phases.now }
    ensures some { 1 ≤ result }
    ensures limit { result ≤ PASS_LIMIT }
    ensures enough { All (λ phase. 1 + workers + length phase.sessions ≤ result) phases.now }
{
    1 + workers + most_sessions(phases) as u32
}

// The report of each phase, of a run that began at the grade `opened`.
fn phases_of<R: Threads + Wait + Sync, G: Gate + Sync>(
    shared: &Shared<'_, R, G>,
    mut main: HostPass,
    mut passes: Vec<HostPass>,
    opened: u64,
    phases: &[Phase],
    workers: u32,
) -> Result<Seq<PhaseReport>, AllocError>
    requires main { IsOfHost shared.now.host.now main }
    requires own { All (IsOfHost shared.now.host.now) passes.items }
    requires enough { All (λ phase. workers + length phase.sessions ≤ vec_len passes) phases.now }
    requires opened { opened ≤ GRADE_LIMIT }
    requires instance { arc_value shared.now.inst.now ≡ shared.now.host.now.place.instance }
    requires limit { shared.now.options.limit ≡ shared.now.host.now.place.limit }
    requires phases { All (IsPhase shared.now.host.now.place.instance.rows) phases.now }
    ensures { IfOk result (AreLegalPhases (case_from (desk_place shared.now.host.now.place) shared.now.options opened) 0 phases.now) }
{
    let rows = shared.inst.rows();
    let mut told = Vec::new(shared.alloc);
    let mut grade = 0;
    let mut held = reach(shared, &mut main, opened)?.version;
    for phase in phases {
        let (back, sessions) = run_phase(shared, passes, &held, phase, workers)?;
        passes = back;
        grade = raised(grade, rows, phase, false);
        let reached = reach(shared, &mut main, grade)?;
        held = greater_held(held, reached.version);
        let level = shown(reached.level, shared.options.levels);
        told.push(PhaseReport { sessions, level })?;
    }
    Ok(Seq::from_vec(told))
}

// The report of a run that began at the grade `opened`, over the passes of a host: one of them is for the main part.
fn served<R: Threads + Wait + Sync, G: Gate + Sync>(
    shared: &Shared<'_, R, G>,
    mut passes: Vec<HostPass>,
    opened: u64,
    phases: &[Phase],
    workers: u32,
) -> Result<Report, AllocError>
    requires own { All (IsOfHost shared.now.host.now) passes.items }
    requires some { 1 ≤ vec_len passes }
    requires enough { All (λ phase. 1 + workers + length phase.sessions ≤ vec_len passes) phases.now }
    requires opened { opened ≤ GRADE_LIMIT }
    requires instance { arc_value shared.now.inst.now ≡ shared.now.host.now.place.instance }
    requires limit { shared.now.options.limit ≡ shared.now.host.now.place.limit }
    requires phases { All (IsPhase shared.now.host.now.place.instance.rows) phases.now }
    ensures { IfOk result (λ report. AreLegalPhases (case_from (desk_place shared.now.host.now.place) shared.now.options opened) 0 phases.now report.phases) }
{
    let Some(main) = passes.pop() else {
        unreachable!()
    };
    let phases = phases_of(shared, main, passes, opened, phases, workers)?;
    Ok(Report { phases })
}

/// Serves a script. In each phase so many workers, 0 to 16, complete the test set up to the phase's target, while the
/// sessions run their requests. All of them run beside each other, each in a thread of its own where one can be made; then
/// the version that has reached all that was worked for so far is held, from which the sessions of the next phase begin. At
/// the gate the workers have the numbers from 1 on, and the sessions of a phase those that follow.
///
/// It takes the memory of one book and of the report, and may wait. Where a part of a phase wants memory, the other parts
/// of the phase are run to their end, and then there is no report.
pub fn serve_report<R: Threads + Wait + Sync, G: Gate + Sync>(
    rt: &R,
    alloc: Global,
    inst: &Arc<Instance>,
    script: &Script,
    workers: u32,
    options: Options,
    gate: &G,
) -> Result<Report, AllocError>
    requires workers { workers ≤ WORKER_LIMIT }
    requires some { 1 ≤ options.limit }
    requires most { options.limit ≤ MOVE_LIMIT }
    requires script { IsScript (arc_value inst.now).rows script.now }
    ensures { IfOk result (IsLegalServed (plain_case (arc_value inst.now) options.limit options.walks options.levels) script.now) }
{
    let phases = script.phases.as_slice();
    let count = passes_for(phases, workers);
    let (host, passes) = Host::open(alloc, Arc::try_clone(inst)?, options.limit, count)?;
    let shared = Shared {
        rt,
        alloc,
        host: &host,
        inst,
        gate,
        options,
    };
    served(&shared, passes, 0, phases, workers)
}

/// Serves a script as [`serve_report`] does, from the test list of a grade on: the first sessions begin with a version that
/// covers it, and no later ones with an older. It takes the memory of a book that opens at the grade in place of one at
/// version 0.
pub fn serve_report_at<R: Threads + Wait + Sync, G: Gate + Sync>(
    rt: &R,
    alloc: Global,
    inst: &Arc<Instance>,
    resumed: Resumed,
    script: &Script,
    workers: u32,
    options: Options,
    gate: &G,
) -> Result<Report, AllocError>
    requires workers { workers ≤ WORKER_LIMIT }
    requires some { 1 ≤ options.limit }
    requires most { options.limit ≤ MOVE_LIMIT }
    requires script { IsScript (arc_value inst.now).rows script.now }
    requires grade { resumed.grade ≤ GRADE_LIMIT }
    requires instance { resumed.moves.instance ≡ arc_value inst.now }
    requires list { resumed.moves.moves ≡ test_list (arc_value inst.now) resumed.grade }
    requires within { length resumed.moves.moves ≤ options.limit }
    ensures { IfOk result (IsLegalServed (record (plain_case (arc_value inst.now) options.limit options.walks options.levels) { opened = resumed.grade }) script.now) }
{
    let phases = script.phases.as_slice();
    let count = passes_for(phases, workers);
    let Resumed { moves, grade } = resumed;
    let inst_of_host = Arc::try_clone(inst)?;
    let (host, passes) = Host::open_at(alloc, inst_of_host, options.limit, count, moves, grade)?;
    let shared = Shared {
        rt,
        alloc,
        host: &host,
        inst,
        gate,
        options,
    };
    served(&shared, passes, grade, phases, workers)
}
