//! What jobs of one grade leave, over two points for all of them.
ghost use Rattle.std.specs.Prelude.{◌≡◌, ◌++◌, ◌∷◌, [], List, ℕ, Option, All, IfOk, OnOk};
ghost use Rattle.ct_instance.specs.Instance.{IsPoint};
ghost use Rattle.ct_instance.specs.Versions.{IsRemainder};
ghost use Rattle.ct_completion.specs.Remainders.{points_of};
ghost use Rattle.ct_groups.specs.Groups.{points_seen};
ghost use Rattle.ct_solo.specs.Leaving.{LeavesPoints, IsSmallJob};

use ct_instance::Job;
use ct_jobs::reduce_job;
use ct_point::Point;
use ct_walk::Moves;
use std::alloc::{AllocError, Global};

// The points that the jobs leave. It takes the memory of these points, and of two more.
pub fn points_left(alloc: Global, moves: &Moves, jobs: &[Job]) -> Result<Vec<Point>, AllocError>
    requires { All (IsSmallJob moves.now.instance moves.now.moves) jobs.now }
    ensures { IfOk result (λ v. LeavesPoints moves.now.instance moves.now.moves jobs.now v.items) }
{
    let inst = moves.instance();
    let width = inst.columns() + inst.rows();
    let mut first = Point::zero(alloc, width)?;
    let mut second = Point::zero(alloc, width)?;
    let mut points = Vec::new(alloc);
    for job in jobs {
        push_left(alloc, moves, *job, &mut first, &mut second, &mut points)?;
    }
    Ok(points)
}

// Appends what the job leaves.
fn push_left(
    alloc: Global,
    moves: &Moves,
    job: Job,
    first: &mut Point,
    second: &mut Point,
    points: &mut Vec<Point>,
) -> Result<(), AllocError>
    requires job { IsSmallJob moves.now.instance moves.now.moves job }
    requires first_point { IsPoint moves.now.instance first.old }
    requires second_point { IsPoint moves.now.instance second.old }
    ensures left { OnOk result ((r : Option (List ℕ × List ℕ)) × IsRemainder moves.now.instance moves.now.moves job r × (points.new.items ≡ points.old.items ++ points_of (r ∷ []))) }
    ensures first_stays_point { IsPoint moves.now.instance first.new }
    ensures second_stays_point { IsPoint moves.now.instance second.new }
{
    if !reduce_job(moves, job, first, second) {
        return Ok(());
    }
    points.push(first.copy(alloc)?)?;
    points.push(second.copy(alloc)?)?;
    Ok(())
}

// References to the points.
pub fn lent(alloc: Global, points: &[Point]) -> Result<Vec<&Point>, AllocError>
    ensures { IfOk result (λ v. points_seen v.items ≡ points.now) }
{
    let mut all = Vec::with_capacity(alloc, points.len())?;
    for point in points {
        all.push(point)?;
    }
    Ok(all)
}
