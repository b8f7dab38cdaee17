//! The moves of a ledger, checked.
ghost use Rattle.std.specs.Prelude.{◌≡◌, ◌≤◌, ◌<◌, ◌+◌, ◌++◌, ◌∷◌, [], None, length, All, map, OnOk, IfOk, IfErr};
ghost use Rattle.std.specs.Option.{option_map};
ghost use Rattle.std.specs.Arc.{arc_value};
ghost use Rattle.ct_vectors.specs.declared.limits.TheConstants.{GRADE_LIMIT, MOVE_LIMIT};
ghost use Rattle.ct_instance.specs.Instance.{column_count};
ghost use Rattle.ct_ledger.specs.Parts.{IsLedgerPair};
ghost use Rattle.ct_walk.specs.Moves.{IsSmallMove};
ghost use Rattle.ct_checker.specs.Refusals.{move_reason, refused_move};
ghost use Rattle.ct_checker.specs.Checking.{as_move, IsRefusedBy};

use crate::stops::CheckStop;
use crate::verdicts::reason_of;
use ct_instance::Instance;
use ct_point::Point;
use ct_walk::{Move, Moves};
use std::alloc::{AllocError, Global};
use std::sync::Arc;

// The moves of a ledger of this grade, or the first line of one that is refused: they begin in line 4. It takes the memory
// of the moves.
pub fn take_moves(
    alloc: Global,
    inst: &Arc<Instance>,
    grade: u64,
    pairs: &[(Point, Point)],
) -> Result<Moves, CheckStop>
    requires grade { grade ≤ GRADE_LIMIT }
    requires points { All (IsLedgerPair (column_count (arc_value inst.now)) (arc_value inst.now).rows) pairs.now }
    requires most { length pairs.now ≤ MOVE_LIMIT }
    ensures moves { IfOk result (λ ms. ms ≡ record { instance = arc_value inst.now; moves = map as_move pairs.now }) }
    ensures none { OnOk result (refused_move (arc_value inst.now) grade 4 (map as_move pairs.now) ≡ None) }
    ensures refused { IfErr result (IsRefusedBy (refused_move (arc_value inst.now) grade 4 (map as_move pairs.now))) }
{
    let mut moves = Moves::new(alloc, Arc::try_clone(inst)?);
    for k in 0..pairs.len() {
        let mv = take_move(alloc, inst, grade, 4 + k as u64, &pairs[k])?;
        put_move(&mut moves, mv)?;
    }
    Ok(moves)
}

// The move in this line, or why it is refused.
fn take_move(
    alloc: Global,
    inst: &Instance,
    grade: u64,
    line: u64,
    pair: &(Point, Point),
) -> Result<Move, CheckStop>
    requires grade { grade ≤ GRADE_LIMIT }
    requires points { IsLedgerPair (column_count inst.now) inst.now.rows pair.now }
    ensures taken { IfOk result (λ m. (m ≡ as_move pair.now) × IsSmallMove inst.now m) }
    ensures none { OnOk result (move_reason inst.now grade (as_move pair.now) ≡ None) }
    ensures refused { IfErr result (IsRefusedBy (option_map (λ r. (line, r)) (move_reason inst.now grade (as_move pair.now)))) }
{
    let head = pair.0.copy(alloc)?;
    let tail = pair.1.copy(alloc)?;
    match Move::new(inst, grade, head, tail) {
        Ok(mv) => Ok(mv),
        Err(fault) => Err(CheckStop::Refused(line, reason_of(fault))),
    }
}

// Adds a move at the end.
fn put_move(moves: &mut Moves, mv: Move) -> Result<(), AllocError>
    requires of_instance { IsSmallMove moves.old.instance mv }
    requires room { length moves.old.moves < MOVE_LIMIT }
    ensures { OnOk result (moves.new ≡ record moves.old { moves = moves.old.moves ++ mv ∷ [] }) }
{
    match moves.push(mv) {
        Ok(()) => Ok(()),
        Err((mv, e)) => Err(e),
    }
}
