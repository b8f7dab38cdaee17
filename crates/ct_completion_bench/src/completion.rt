//! The loop over the grades.
ghost use Rattle.std.specs.Prelude.{◌≡◌, All, IfOk};
ghost use Rattle.std.specs.Arc.{arc_value};
ghost use Rattle.ct_groups.specs.Groups.{IsSmallPoint};
ghost use Rattle.ct_walk.specs.Moves.{IsSmallMove};

use crate::reduction::reduce;
use anyhow::{Result, ensure};
use ct_groups::new_moves;
use ct_instance::Instance;
use ct_jobs::{Addition, Buckets};
use ct_point::Point;
use ct_vectors::limits::MOVE_LIMIT;
use ct_walk::{Move, Moves};
use std::alloc::Global;
use std::sync::Arc;

/// The moves up to a grade: grade by grade, the walks of both ends of each job, and the new moves of the points that
/// are left.
pub fn complete(alloc: Global, inst: &Arc<Instance>, target: u64) -> Result<Moves>
    ensures { IfOk result (λ l. l.instance ≡ arc_value inst.now) }
{
    let mut moves = Moves::new(alloc, Arc::try_clone(inst)?);
    let mut buckets = Buckets::new(alloc, inst)?;
    let none = Addition::none(alloc);
    let mut last = 0;
    while let Some(grade) = buckets.next_with(last, &none) {
        if grade > target {
            break;
        }
        ensure!(grade > last, "grades rise");
        last = grade;
        let jobs = buckets.jobs_with(alloc, grade, &none)?;
        let left = reduce(alloc, inst, &moves, &jobs)?;
        if left.is_empty() {
            continue;
        }
        let from = moves.len() + 1;
        moves = grown(alloc, inst, &moves, &left)?;
        let pairs = Buckets::prepare(alloc, inst, &moves, from)?;
        buckets.reserve()?;
        ensure!(buckets.spare() > 0, "no room for an addition");
        buckets.absorb(pairs);
    }
    Ok(moves)
}

// The list with the new moves of these points.
fn grown(alloc: Global, inst: &Arc<Instance>, moves: &Moves, left: &[Point]) -> Result<Moves>
    requires instance { moves.now.instance ≡ arc_value inst.now }
    requires points { All (IsSmallPoint (arc_value inst.now)) left.now }
    ensures { IfOk result (λ l. l.instance ≡ arc_value inst.now) }
{
    let more = new_moves_of(alloc, inst, left)?;
    ensure!(
        moves.len() as usize + more.len() <= MOVE_LIMIT,
        "more moves than the limit"
    );
    Ok(moves.extended(alloc, more)?)
}

// The moves of the groups of these points.
fn new_moves_of(alloc: Global, inst: &Instance, left: &[Point]) -> Result<Vec<Move>>
    requires { All (IsSmallPoint inst.now) left.now }
    ensures { IfOk result (λ v. All (IsSmallMove inst.now) v.items) }
{
    let mut points = Vec::new(alloc);
    for p in left {
        points.push(p)?;
    }
    Ok(new_moves(alloc, inst, &points)?)
}
