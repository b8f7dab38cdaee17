//! The report of a script.
ghost use Rattle.std.specs.Prelude.{◌≡◌, ◌≤◌, All, IfOk};
ghost use Rattle.std.specs.Arc.{arc_value};
ghost use Rattle.ct_vectors.specs.declared.limits.TheConstants.{GRADE_LIMIT, MOVE_LIMIT};
ghost use Rattle.ct_instance.specs.Reach.{reach_of};
ghost use Rattle.ct_input.specs.Script.{IsRequest, IsPhase, IsScript};
ghost use Rattle.ct_legal.specs.Cases.{plain_case};
ghost use Rattle.ct_legal.specs.Scripts.{phase_with_solves};
ghost use Rattle.ct_legal.specs.Legal.{IsLevelShown, AreLegalPhases, IsLegalAnswered};
ghost use Rattle.std.specs.Prelude.{map};
ghost use Rattle.ct_answer.specs.Told.{case_at, AreToldLines, AreToldSessions, IsToldPhase};

use crate::grades::{raised, top_of};
use crate::options::Options;
use crate::solver::Solver;
use ct_input::{Phase, Request, Script};
use ct_instance::Instance;
use ct_point::Seq;
use ct_report::{PhaseReport, Report};
use ct_session::Line;
use ct_version::Finished;
use std::alloc::{AllocError, Global};
use std::sync::Arc;

// The lines of a session.
fn lines_of(
    alloc: Global,
    solver: &mut Solver,
    requests: &[Request],
    walks: bool,
) -> Result<Seq<Line>, AllocError>
    requires { All (IsRequest solver.old.instance.rows) requests.now }
    ensures place { solver.new ≡ solver.old }
    ensures lines { IfOk result (AreToldLines solver.old walks requests.now) }
{
    let mut lines = Vec::new(alloc);
    for request in requests {
        lines.push(solver.line(alloc, request.right(), walks)?)?;
    }
    Ok(Seq::from_vec(lines))
}

// The lines of the sessions of a phase.
fn sessions_of(
    alloc: Global,
    solver: &mut Solver,
    sessions: &[Seq<Request>],
    walks: bool,
) -> Result<Seq<Seq<Line>>, AllocError>
    requires { All (λ requests. All (IsRequest solver.old.instance.rows) requests) sessions.now }
    ensures place { solver.new ≡ solver.old }
    ensures sessions { IfOk result (AreToldSessions solver.old walks sessions.now) }
{
    let mut told = Vec::new(alloc);
    for requests in sessions {
        told.push(lines_of(alloc, solver, requests.as_slice(), walks)?)?;
    }
    Ok(Seq::from_vec(told))
}

// How far a completion for the grade comes, where levels are asked for.
fn level_of(
    alloc: Global,
    solver: &mut Solver,
    levels: bool,
    grade: u64,
) -> Result<Option<Finished>, AllocError>
    requires { grade ≤ GRADE_LIMIT }
    ensures place { solver.new ≡ solver.old }
    ensures level { IfOk result (IsLevelShown levels (reach_of solver.old.instance solver.old.limit grade)) }
{
    if !levels {
        return Ok(None);
    }
    let level = solver.level(alloc, grade)?;
    Ok(Some(level))
}

// The report of a phase that works for this grade up to its end.
fn phase_of(
    alloc: Global,
    solver: &mut Solver,
    phase: &Phase,
    options: Options,
    grade: u64,
) -> Result<PhaseReport, AllocError>
    requires phase { IsPhase solver.old.instance.rows phase.now }
    requires grade { grade ≤ GRADE_LIMIT }
    ensures place { solver.new ≡ solver.old }
    ensures phase { IfOk result (IsToldPhase solver.old options grade phase.now) }
{
    let sessions = sessions_of(alloc, solver, phase.sessions.as_slice(), options.walks)?;
    let level = level_of(alloc, solver, options.levels, grade)?;
    Ok(PhaseReport { sessions, level })
}

/// The report of each phase.
pub fn phases_of(
    alloc: Global,
    solver: &mut Solver,
    phases: &[Phase],
    options: Options,
) -> Result<Seq<PhaseReport>, AllocError>
    requires { All (IsPhase solver.old.instance.rows) phases.now }
    ensures { IfOk result (AreLegalPhases (case_at solver.old options) 0 (map phase_with_solves phases.now)) }
{
    let rows = solver.rows();
    let mut told = Vec::new(alloc);
    let mut grade = 0;
    for phase in phases {
        grade = raised(grade, rows, phase, true);
        told.push(phase_of(alloc, solver, phase, options, grade)?)?;
    }
    Ok(Seq::from_vec(told))
}

/// Answers a script, each ask as a solve. One completion goes up to the sum of each request in turn, and with levels up to
/// the target of each phase at its end, or up to the limit on the number of moves; so the script's answers cost one
/// completion for its greatest sum, and a walk each. It takes the memory of that completion and of the report, and with
/// walks 16 bytes a step.
pub fn answer(
    alloc: Global,
    inst: Arc<Instance>,
    script: &Script,
    options: Options,
) -> Result<Report, AllocError>
    requires some { 1 ≤ options.limit }
    requires most { options.limit ≤ MOVE_LIMIT }
    requires script { IsScript (arc_value inst).rows script.now }
    ensures { IfOk result (IsLegalAnswered (plain_case (arc_value inst) options.limit options.walks options.levels) script.now) }
{
    let phases = script.phases.as_slice();
    let top = top_of(inst.rows(), phases, options.levels);
    let mut solver = Solver::open(alloc, inst, options.limit, top)?;
    let phases = phases_of(alloc, &mut solver, phases, options)?;
    Ok(Report { phases })
}
