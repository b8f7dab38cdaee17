//! Instances of one row and as many columns as wanted, and moves of which all heads share a variable.
ghost use Rattle.std.specs.Prelude.{◌≡◌, ◌≤◌, length, IfOk};
ghost use Rattle.std.specs.Arc.{arc_value};
ghost use Rattle.ct_walk.specs.Moves.{IsSmallMove};

use anyhow::{Result, anyhow, ensure};
use ct_instance::Instance;
use ct_point::Point;
use ct_vectors::limits::{COLUMN_LIMIT, GRADE_LIMIT, MOVE_LIMIT};
use ct_walk::{Move, Moves};
use std::alloc::Global;
use std::sync::Arc;

/// One row and so many columns, 1 to 64, with all entries and costs 1.
pub fn instance_of_ones(alloc: Global, columns: u32) -> Result<Arc<Instance>>
    requires { columns ≤ COLUMN_LIMIT }
{
    let ones = [1; COLUMN_LIMIT];
    let costs = [1; COLUMN_LIMIT];
    let n = columns as usize;
    match Instance::new(alloc, 1, columns, &ones[..n], &costs[..n]) {
        Ok(inst) => Ok(Arc::new(alloc, inst)?),
        Err(fault) => Err(anyhow!("no instance: {fault:?}")),
    }
}

// Takes k artificials away and adds k of the first column.
fn exchange(alloc: Global, inst: &Instance, k: u32) -> Result<Move>
    requires { k ≤ MOVE_LIMIT }
    ensures { IfOk result (λ m. IsSmallMove inst.now m) }
{
    ensure!(inst.rows() == 1, "another instance");
    let n = inst.columns();
    let k = u64::from(k);
    let mut head = Point::zero(alloc, n + 1)?;
    head.set(n, k);
    let mut tail = Point::zero(alloc, n + 1)?;
    tail.set(0, k);
    match Move::new(inst, GRADE_LIMIT, head, tail) {
        Ok(made) => Ok(made),
        Err(fault) => Err(anyhow!("no move: {fault:?}")),
    }
}

/// So many moves: the k-th exchanges k artificials for k of the first column.
pub fn moves_of(alloc: Global, inst: &Arc<Instance>, count: u32) -> Result<Moves>
    requires { count ≤ MOVE_LIMIT }
    ensures { IfOk result (λ l. l.instance ≡ arc_value inst.now) }
{
    let mut moves = Moves::new(alloc, Arc::try_clone(inst)?);
    for k in 0..count {
        match moves.push(exchange(alloc, inst, k + 1)?) {
            Ok(()) => {}
            Err((_, error)) => return Err(error.into()),
        }
    }
    Ok(moves)
}
