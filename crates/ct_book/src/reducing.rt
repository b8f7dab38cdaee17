//! Reducing a job against a version, over two points that the caller keeps for one job after another.
ghost use Rattle.std.specs.Prelude.{◌≡◌, ◌≤◌, IfOk, Some};
ghost use Rattle.ct_vectors.specs.declared.limits.TheConstants.{GRADE_LIMIT};
ghost use Rattle.ct_instance.specs.Instance.{IsPoint};
ghost use Rattle.ct_instance.specs.Jobs.{IsJob, job_grade_of};
ghost use Rattle.ct_instance.specs.Versions.{version_list, IsRemainder};
ghost use Rattle.ct_book.specs.Queues.{points_seen};

use crate::ends::Ends;
use ct_instance::Job;
use ct_jobs::reduce_job;
use ct_point::Point;
use ct_version::Version;
use std::alloc::{AllocError, Global};

// A point of the version's instance, for `left_by`.
pub fn blank(alloc: Global, version: &Version) -> Result<Point, AllocError>
    ensures { IfOk result (IsPoint version.now.instance) }
{
    let inst = version.moves().instance();
    Point::zero(alloc, inst.columns() + inst.rows())
}

// What the job leaves against the version's list.
pub fn left_by(
    alloc: Global,
    version: &Version,
    job: Job,
    first: &mut Point,
    second: &mut Point,
) -> Result<Option<Box<Ends>>, AllocError>
    requires job { IsJob version.now.instance (version_list version.now.instance version.now.number) job }
    requires grade { job_grade_of version.now.instance (version_list version.now.instance version.now.number) job ≤ GRADE_LIMIT }
    requires first_point { IsPoint version.now.instance first.old }
    requires second_point { IsPoint version.now.instance second.old }
    ensures left { IfOk result (λ r. IsRemainder version.now.instance (version_list version.now.instance version.now.number) job (points_seen r)) }
    ensures first_stays_point { IsPoint version.now.instance first.new }
    ensures second_stays_point { IsPoint version.now.instance second.new }
{
    if !reduce_job(version.moves(), job, first, second) {
        return Ok(None);
    }
    boxed(alloc, first, second)
}

// Copies of both in a box.
fn boxed(alloc: Global, first: &Point, second: &Point) -> Result<Option<Box<Ends>>, AllocError>
    ensures { IfOk result (λ r. points_seen r ≡ Some (first.now, second.now)) }
{
    let first = first.copy(alloc)?;
    let second = second.copy(alloc)?;
    match Box::new(alloc, Ends { first, second }) {
        Ok(kept) => Ok(Some(kept)),
        Err(_) => Err(AllocError),
    }
}
