//! The report of a script whose requests are answered in several threads.
ghost use Rattle.std.specs.Prelude.{◌≤◌, IfOk};
ghost use Rattle.std.specs.Arc.{arc_value};
ghost use Rattle.ct_vectors.specs.declared.limits.TheConstants.{MOVE_LIMIT};
ghost use Rattle.ct_input.specs.Script.{IsScript};
ghost use Rattle.ct_legal.specs.Cases.{plain_case};
ghost use Rattle.ct_legal.specs.Legal.{IsLegalAnswered};

use crate::answering::phases_of;
use crate::grades::top_of;
use crate::options::Options;
use crate::solver::Solver;
use ct_input::Script;
use ct_instance::Instance;
use ct_report::Report;
use std::alloc::{AllocError, Global};
use std::sync::Arc;
use std::thread::Threads;

/// As [`answer`](crate::answer), with the answers of the whole script found at once, in as many threads as there are
/// processors. The test set is completed in the caller's thread, for all of them before the first.
///
/// Beside what `answer` takes it has the right-hand sides a second time, and all answers with their walks at once, also where
/// no walks are told.
pub fn answer_batch_report<R: Threads + Sync>(
    rt: &R,
    alloc: Global,
    inst: Arc<Instance>,
    script: &Script,
    options: Options,
) -> Result<Report, AllocError>
    requires some { 1 ≤ options.limit }
    requires most { options.limit ≤ MOVE_LIMIT }
    requires script { IsScript (arc_value inst).rows script.now }
    ensures { IfOk result (IsLegalAnswered (plain_case (arc_value inst) options.limit options.walks options.levels) script.now) }
{
    let phases = script.phases.as_slice();
    let top = top_of(inst.rows(), phases, options.levels);
    let mut solver = Solver::open(alloc, inst, options.limit, top)?;
    solver.prepare(rt, alloc, top, phases)?;
    let phases = phases_of(alloc, &mut solver, phases, options)?;
    Ok(Report { phases })
}
