//! The test list that a reduced ledger has.
ghost use Rattle.std.specs.Prelude.{◌≡◌, ◌≤◌, ◌++◌, ◌∷◌, [], cond, filter, length, IfOk, IfErr, OnOk};
ghost use Rattle.std.specs.Arc.{arc_value};
ghost use Rattle.ct_vectors.specs.declared.limits.TheConstants.{MOVE_LIMIT};
ghost use Rattle.ct_resume.specs.Resuming.{is_under, IsResumed, IsResumeStop};

use crate::reduced::first_unreduced;
use crate::resumed::{ResumeStop, Resumed};
use ct_checker::checked;
use ct_instance::Instance;
use ct_ledger::Ledger;
use ct_walk::{Move, Moves};
use std::alloc::{AllocError, Global};
use std::sync::Arc;

/// The test list of a ledger's grade where the ledger is accepted and reduced, cut before the full grade of a limit.
///
/// It takes the time of `check` and of `first_unreduced`, and the memory of `check`; where it cuts, that of the moves
/// that it keeps, besides.
pub fn resume(
    alloc: Global,
    inst: Arc<Instance>,
    ledger: &Ledger,
    limit: u32,
) -> Result<Resumed, ResumeStop>
    requires some { 1 ≤ limit }
    requires most { limit ≤ MOVE_LIMIT }
    ensures resumed { IfOk result (λ r. IsResumed (arc_value inst) ledger.now limit r) }
    ensures stopped { IfErr result (IsResumeStop (arc_value inst) ledger.now) }
{
    // For its facts alone: the instance is within the limits.
    let _rows = inst.rows();
    let grade = ledger.grade();
    let moves = checked(alloc, &inst, ledger)?;
    if let Some(number) = first_unreduced(&moves) {
        return Err(ResumeStop::NotReduced(number));
    }
    if moves.len() <= limit {
        return Ok(Resumed { moves, grade });
    }
    let full = inst.grade(moves.get(limit + 1).head());
    let moves = moves_under(alloc, inst, &moves, full)?;
    Ok(Resumed {
        moves,
        grade: full - 1,
    })
}

// The moves of a smaller grade than this, as a list of their own.
fn moves_under(
    alloc: Global,
    inst: Arc<Instance>,
    moves: &Moves,
    grade: u64,
) -> Result<Moves, AllocError>
    requires instance { moves.now.instance ≡ arc_value inst }
    ensures { IfOk result (λ ms. ms ≡ record { instance = arc_value inst; moves = filter (is_under (arc_value inst) grade) moves.now.moves }) }
{
    let mut kept = Vec::new(alloc);
    for index in 0..moves.len() {
        let mv = moves.get(index + 1);
        push_if(alloc, &mut kept, mv, inst.grade(mv.head()) < grade)?;
    }
    Moves::new(alloc, inst).extended(alloc, kept)
}

// Appends a copy of the move where it is told to.
fn push_if(alloc: Global, kept: &mut Vec<Move>, mv: &Move, is_kept: bool) -> Result<(), AllocError>
    ensures { OnOk result (kept.new.items ≡ kept.old.items ++ cond is_kept (mv.now ∷ []) []) }
{
    if is_kept {
        kept.push(mv.copy(alloc)?)?;
    }
    Ok(())
}
