//! The report of a script, with how far its moves come.
ghost use Rattle.std.specs.Prelude.{◌≤◌, IfOk};
ghost use Rattle.std.specs.Arc.{arc_value};
ghost use Rattle.ct_vectors.specs.declared.limits.TheConstants.{MOVE_LIMIT};
ghost use Rattle.ct_input.specs.Script.{IsScript};
ghost use Rattle.ct_legal.specs.Cases.{plain_case};
ghost use Rattle.ct_legal.specs.Legal.{IsLegalAnswered};
ghost use Rattle.ct_answer.specs.Extents.{last_grade, IsExtent};

use crate::answering::phases_of;
use crate::extent::Extent;
use crate::grades::grade_of;
use crate::options::Options;
use crate::solver::Solver;
use ct_input::Script;
use ct_instance::Instance;
use ct_report::Report;
use std::alloc::{AllocError, Global};
use std::sync::Arc;

/// As [`answer`](crate::answer), with how far the moves come that the script works for, and how many they are. The test set is
/// completed for all of them before the first answer.
pub fn answer_counted(
    alloc: Global,
    inst: Arc<Instance>,
    script: &Script,
    options: Options,
) -> Result<(Report, Extent), AllocError>
    requires some { 1 ≤ options.limit }
    requires most { options.limit ≤ MOVE_LIMIT }
    requires script { IsScript (arc_value inst).rows script.now }
    ensures report { IfOk result (λ r. IsLegalAnswered (plain_case (arc_value inst) options.limit options.walks options.levels) script.now r.0) }
    ensures extent { IfOk result (λ r. IsExtent (arc_value inst) options.limit (last_grade (plain_case (arc_value inst) options.limit options.walks options.levels) script.now) r.1) }
{
    let grade = grade_of(inst.rows(), script.phases.as_slice());
    let (mut solver, extent) = Solver::open_at(alloc, inst, options.limit, grade)?;
    let phases = phases_of(alloc, &mut solver, script.phases.as_slice(), options)?;
    Ok((Report { phases }, extent))
}
