//! The jobs of one grade, each by the walks of its ends.
ghost use Rattle.std.specs.Prelude.{◌≡◌, All, IfOk, IsTrue};
ghost use Rattle.ct_instance.specs.Jobs.{IsJob};
ghost use Rattle.ct_groups.specs.Groups.{IsSmallPoint};

use anyhow::{Result, ensure};
use ct_instance::{Instance, Job};
use ct_jobs::{job_grade, reduce_job};
use ct_point::Point;
use ct_vectors::limits::GRADE_LIMIT;
use ct_walk::Moves;
use std::alloc::Global;

/// The points that are left of these jobs, of which two differ for each.
pub fn reduce(alloc: Global, inst: &Instance, moves: &Moves, jobs: &[Job]) -> Result<Vec<Point>>
    requires { moves.now.instance ≡ inst.now }
    ensures { IfOk result (λ v. All (IsSmallPoint inst.now) v.items) }
{
    let width = inst.columns() + inst.rows();
    let mut left = Vec::new(alloc);
    let mut first = Point::zero(alloc, width)?;
    let mut second = Point::zero(alloc, width)?;
    for job in jobs {
        ensure!(is_job(inst, moves, *job), "no job");
        ensure!(
            job_grade(inst, moves, *job) <= GRADE_LIMIT,
            "a grade over the limit"
        );
        ensure!(first.as_slice().len() == width, "another width");
        ensure!(second.as_slice().len() == width, "another width");
        if reduce_job(moves, *job, &mut first, &mut second) {
            left.push(small(alloc, inst, &first)?)?;
            left.push(small(alloc, inst, &second)?)?;
        }
    }
    Ok(left)
}

// Whether the job is one of the list's.
fn is_job(inst: &Instance, moves: &Moves, job: Job) -> bool
    ensures { IsTrue result → IsJob inst.now moves.now.moves job }
{
    match job {
        Job::Generator(j) => 1 <= j && j as usize <= inst.columns(),
        Job::Pair(i, k) => 1 <= i && i < k && k <= moves.len(),
    }
}

// A copy of a point, once its grade is seen to be within the limit.
fn small(alloc: Global, inst: &Instance, p: &Point) -> Result<Point>
    ensures { IfOk result (IsSmallPoint inst.now) }
{
    let width = inst.columns() + inst.rows();
    ensure!(p.as_slice().len() == width, "another width");
    ensure!(
        p.as_slice().iter().all(|x| *x <= GRADE_LIMIT),
        "a number over the limit"
    );
    ensure!(
        inst.grade_wide(p) <= u128::from(GRADE_LIMIT),
        "a grade over the limit"
    );
    Ok(p.copy(alloc)?)
}
