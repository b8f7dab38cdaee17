//! The moves that the jobs of a grade within the bound bring.
ghost use Rattle.std.specs.Prelude.{◌≡◌, ◌≤◌, ◌++◌, ◌∷◌, [], List, ℕ, Option, length, filter, All, IfOk, OnOk};
ghost use Rattle.ct_vectors.specs.declared.limits.TheConstants.{GRADE_LIMIT};
ghost use Rattle.ct_instance.specs.Instance.{IsPoint};
ghost use Rattle.ct_vectors.specs.Vectors.{divides};
ghost use Rattle.ct_instance.specs.Jobs.{job_degree_of, jobs_at};
ghost use Rattle.ct_instance.specs.Versions.{IsRemainder};
ghost use Rattle.ct_walk.specs.Moves.{IsSmallMove};
ghost use Rattle.ct_completion.specs.Remainders.{points_of};
ghost use Rattle.ct_groups.specs.Groups.{points_seen};
ghost use Rattle.ct_solo.specs.Leaving.{LeavesPoints, IsSmallJob};
ghost use Rattle.ct_box.specs.Brought.{AreBrought, IsLeftWithin};

use crate::within::is_within;
use ct_groups::new_moves;
use ct_instance::Job;
use ct_jobs::{coprime, reduce_job};
use ct_point::Point;
use ct_walk::{Move, Moves};
use std::alloc::{AllocError, Global};

// The moves that the jobs of a grade bring, in order: of those jobs the ones within the bound are reduced.
pub fn moves_brought(
    alloc: Global,
    moves: &Moves,
    top: &[u64],
    grade: u64,
    jobs: &[Job],
) -> Result<Vec<Move>, AllocError>
    requires right { length top.now ≡ moves.now.instance.rows }
    requires grade { grade ≤ GRADE_LIMIT }
    requires jobs { jobs.now ≡ jobs_at moves.now.instance moves.now.moves grade }
    ensures brought { IfOk result (λ v. AreBrought moves.now.instance top.now moves.now.moves grade v.items) }
    ensures small { IfOk result (λ v. All (IsSmallMove moves.now.instance) v.items) }
{
    let points = points_left(alloc, moves, top, jobs)?;
    let all = lent(alloc, points.as_slice())?;
    new_moves(alloc, moves.instance(), all.as_slice())
}

// The points that the jobs within the bound leave. It takes the memory of these points, and of two more.
fn points_left(
    alloc: Global,
    moves: &Moves,
    top: &[u64],
    jobs: &[Job],
) -> Result<Vec<Point>, AllocError>
    requires right { length top.now ≡ moves.now.instance.rows }
    requires jobs { All (IsSmallJob moves.now.instance moves.now.moves) jobs.now }
    ensures { IfOk result (λ v. LeavesPoints moves.now.instance moves.now.moves (filter (λ j. divides (job_degree_of moves.now.instance moves.now.moves j) top.now) jobs.now) v.items) }
{
    let inst = moves.instance();
    let width = inst.columns() + inst.rows();
    let mut first = Point::zero(alloc, width)?;
    let mut second = Point::zero(alloc, width)?;
    let mut points = Vec::new(alloc);
    for job in jobs {
        push_within(
            alloc,
            moves,
            top,
            *job,
            &mut first,
            &mut second,
            &mut points,
        )?;
    }
    Ok(points)
}

// Appends what the job leaves, if it is within the bound. Coprime pairs leave nothing; most pairs are such.
fn push_within(
    alloc: Global,
    moves: &Moves,
    top: &[u64],
    job: Job,
    first: &mut Point,
    second: &mut Point,
    points: &mut Vec<Point>,
) -> Result<(), AllocError>
    requires right { length top.now ≡ moves.now.instance.rows }
    requires job { IsSmallJob moves.now.instance moves.now.moves job }
    requires first_point { IsPoint moves.now.instance first.old }
    requires second_point { IsPoint moves.now.instance second.old }
    ensures left { OnOk result (IsLeftWithin moves.now.instance moves.now.moves top.now job points.old.items points.new.items) }
    ensures first_stays_point { IsPoint moves.now.instance first.new }
    ensures second_stays_point { IsPoint moves.now.instance second.new }
{
    if coprime(moves, job) {
        return Ok(());
    }
    if !is_within(moves, job, top, first, second) {
        return Ok(());
    }
    push_left(alloc, moves, job, first, second, points)?;
    Ok(())
}

// Appends what the job leaves.
fn push_left(
    alloc: Global,
    moves: &Moves,
    job: Job,
    first: &mut Point,
    second: &mut Point,
    points: &mut Vec<Point>,
) -> Result<(), AllocError>
    requires job { IsSmallJob moves.now.instance moves.now.moves job }
    requires first_point { IsPoint moves.now.instance first.old }
    requires second_point { IsPoint moves.now.instance second.old }
    ensures left { OnOk result ((r : Option (List ℕ × List ℕ)) × IsRemainder moves.now.instance moves.now.moves job r × (points.new.items ≡ points.old.items ++ points_of (r ∷ []))) }
    ensures first_stays_point { IsPoint moves.now.instance first.new }
    ensures second_stays_point { IsPoint moves.now.instance second.new }
{
    if !reduce_job(moves, job, first, second) {
        return Ok(());
    }
    points.push(first.copy(alloc)?)?;
    points.push(second.copy(alloc)?)?;
    Ok(())
}

// References to the points.
fn lent(alloc: Global, points: &[Point]) -> Result<Vec<&Point>, AllocError>
    ensures { IfOk result (λ v. points_seen v.items ≡ points.now) }
{
    let mut all = Vec::with_capacity(alloc, points.len())?;
    for point in points {
        all.push(point)?;
    }
    Ok(all)
}
