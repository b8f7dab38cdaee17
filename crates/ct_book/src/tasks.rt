//! A job that is handed out.
ghost use Rattle.std.specs.Prelude.{◌≡◌, ◌≤◌, IfOk, IfErr};
ghost use Rattle.ct_vectors.specs.declared.limits.TheConstants.{GRADE_LIMIT};
ghost use Rattle.ct_instance.specs.Jobs.{IsJob, job_grade_of};
ghost use Rattle.ct_instance.specs.Versions.{version_list, IsRemainder};
ghost use Rattle.ct_book.specs.Queues.{points_seen};

use crate::ends::Ends;
use crate::reducing::{blank, left_by};
use crate::remainders::Remainder;
use ct_instance::Job;
use ct_version::Version;
use std::alloc::{AllocError, Global};
use std::marker::Model;
use std::sync::Arc;

// A job with its place among the jobs of its grade.
#[derive(Clone, Copy)]
pub struct PlacedJob {
    pub place: usize,
    pub job: Job,
}

/// A job of the grade that a version opens, to be reduced against that version. Its grade is within the limit of a walk.
#[derive(Drop)]
pub struct Task {
    version: Arc<Version>,
    place: usize,
    job: Job,
}

impl Model for Task {
    ghost use Rattle.std.specs.Arc.{arc_value};
    ghost use Rattle.ct_book.specs.Tasks.{TaskSeen, IsTask};

    ghost Value = { TaskSeen };

    ghost view = { λ t. record { version = arc_value t.version; place = t.place; job = t.job } };

    ghost invariant = { λ t. IsTask (record { version = arc_value t.version; place = t.place; job = t.job }) };
}

impl Task {
    ghost use Rattle.std.specs.Arc.{arc_value};
    ghost use Rattle.ct_book.specs.Tasks.{IsTask, task_of, placed};

    // The task of the job at this place of the grade that the version opens.
    pub(crate) fn new(version: Arc<Version>, place: usize, job: Job) -> Task
        requires { IsTask (record { version = arc_value version; place = place; job = job }) }
        ensures { result ≡ record { version = arc_value version; place = place; job = job } }
    {
        Task {
            version,
            place,
            job,
        }
    }

    // The version, and the job with its place.
    pub(crate) fn into_parts(self) -> (Arc<Version>, PlacedJob)
        ensures same { placed (arc_value result.0) result.1 ≡ self }
        ensures task { IsTask (placed (arc_value result.0) result.1) }
    {
        let Task {
            version,
            place,
            job,
        } = self;
        (version, PlacedJob { place, job })
    }

    /// Walks both ends of the job by the list of its version, unless it is a coprime pair, and answers what is left. It
    /// takes the memory of one box where the walks end at different points, and none else where points have at most 16
    /// coordinates. For want of memory the task is handed back.
    pub fn reduce(self, alloc: Global) -> Result<Remainder, (Task, AllocError)>
        ensures ok { IfOk result (λ r. task_of r ≡ self) }
        ensures err { IfErr result (λ e. e.0 ≡ self) }
    {
        match left_alone(alloc, &self.version, self.job) {
            Err(refused) => Err((self, refused)),
            Ok(points) => {
                let Task {
                    version,
                    place,
                    job,
                } = self;
                Ok(Remainder::new(version, place, job, points))
            }
        }
    }
}

// What one job leaves against the version's list, over points of its own.
fn left_alone(alloc: Global, version: &Version, job: Job) -> Result<Option<Box<Ends>>, AllocError>
    requires job { IsJob version.now.instance (version_list version.now.instance version.now.number) job }
    requires grade { job_grade_of version.now.instance (version_list version.now.instance version.now.number) job ≤ GRADE_LIMIT }
    ensures { IfOk result (λ r. IsRemainder version.now.instance (version_list version.now.instance version.now.number) job (points_seen r)) }
{
    let mut first = blank(alloc, version)?;
    let mut second = blank(alloc, version)?;
    left_by(alloc, version, job, &mut first, &mut second)
}
