//! The ledger of a grade.
ghost use Rattle.std.specs.Prelude.{◌≡◌, ◌≤◌, IfOk};
ghost use Rattle.std.specs.Arc.{arc_value};
ghost use Rattle.ct_vectors.specs.declared.limits.TheConstants.{GRADE_LIMIT};
ghost use Rattle.ct_instance.specs.TestSet.{test_list};
ghost use Rattle.ct_instance.specs.Versions.{version_list};
ghost use Rattle.ct_instance.specs.Reach.{full_grade_up_to};
ghost use Rattle.ct_run.specs.Words.{IsLimit};
ghost use Rattle.ct_run.specs.Outcome.{certified};
ghost use Rattle.ct_run.specs.Plan.{ledger_or_full};
ghost use Rattle.ct_run.specs.Stopping.{Fits};

use crate::ending::{Ending, full_ending};
use crate::status::Status;
use ct_checker::certify;
use ct_instance::Instance;
use ct_point::Seq;
use ct_solo::Solo;
use ct_version::{Stop, Version};
use std::alloc::{AllocError, Global};
use std::sync::Arc;

// The ledger of a version whose list is the test list of the grade.
fn ledger_ending(alloc: Global, version: &Version, grade: u64) -> Result<Ending, AllocError>
    requires grade { grade ≤ GRADE_LIMIT }
    requires list { version_list version.now.instance version.now.number ≡ test_list version.now.instance grade }
    ensures { IfOk result (λ ending. Fits (certified version.now.instance grade) ending) }
{
    let moves = version.moves();
    let ledger = certify(alloc, moves.instance(), moves, grade)?;
    let text = ledger.print(alloc)?;
    Ok(Ending {
        status: Status::Done,
        text: Seq::from_vec(text),
    })
}

/// The ending of `certify`. The test set is completed up to the grade, or to where its list would have more moves than the
/// limit. Beside the completion it takes the memory of the ledger, and then that of its text.
pub fn certify_ending(
    alloc: Global,
    inst: Arc<Instance>,
    grade: u64,
    moves: u32,
) -> Result<Ending, AllocError>
    requires grade { grade ≤ GRADE_LIMIT }
    requires limit { IsLimit moves }
    ensures { IfOk result (λ ending. Fits (ledger_or_full (arc_value inst) grade (full_grade_up_to (arc_value inst) moves grade)) ending) }
{
    // for what an instance keeps
    let _rows = inst.rows();
    let mut solo = Solo::open(alloc, inst, moves, grade)?;
    match solo.complete(alloc, grade) {
        Ok(helped) => ledger_ending(alloc, &helped.version, grade),
        Err(Stop::Full(mark)) => full_ending(alloc, mark.grade),
        Err(Stop::Memory) => Err(AllocError),
    }
}
