//! What a job leaves.
ghost use Rattle.std.specs.Prelude.{◌≡◌, MatchOption, None, Some};

use crate::ends::Ends;
use ct_instance::Job;
use ct_point::Point;
use ct_version::Version;
use std::marker::Model;
use std::sync::Arc;

// What the job at a place of its grade left.
#[derive(Drop)]
pub struct Left {
    pub place: usize,
    pub job: Job,
    pub points: Option<Box<Ends>>,
}

/// The remainder of a job against the version that it was handed out with: nothing, or the two points where the walks
/// of its ends come to. It shares the version.
#[derive(Drop)]
pub struct Remainder {
    version: Arc<Version>,
    place: usize,
    job: Job,
    points: Option<Box<Ends>>,
}

impl Model for Remainder {
    ghost use Rattle.std.specs.Arc.{arc_value};
    ghost use Rattle.ct_book.specs.Queues.{points_seen};
    ghost use Rattle.ct_book.specs.Tasks.{RemainderSeen, IsHeld};

    ghost Value = { RemainderSeen };

    ghost view = { λ r. record { version = arc_value r.version; place = r.place; job = r.job; points = points_seen r.points } };

    ghost invariant = { λ r. IsHeld (record { version = arc_value r.version; place = r.place; job = r.job; points = points_seen r.points }) };
}

impl Remainder {
    ghost use Rattle.std.specs.Arc.{arc_value};
    ghost use Rattle.ct_book.specs.Queues.{points_seen};
    ghost use Rattle.ct_book.specs.Tasks.{IsHeld, left_at};

    // The remainder of the job at this place.
    pub(crate) fn new(
        version: Arc<Version>,
        place: usize,
        job: Job,
        points: Option<Box<Ends>>,
    ) -> Remainder
        requires { IsHeld (record { version = arc_value version; place = place; job = job; points = points_seen points }) }
        ensures { result ≡ record { version = arc_value version; place = place; job = job; points = points_seen points } }
    {
        Remainder {
            version,
            place,
            job,
            points,
        }
    }

    /// The number of the version against which the job was reduced.
    pub fn number(&self) -> u64
        ensures number { result ≡ self.now.version.number }
        ensures held { IsHeld self.now }
    {
        self.version.number()
    }

    /// The job.
    pub fn job(&self) -> Job
        ensures { result ≡ self.now.job }
    {
        self.job
    }

    /// The two points, if the job left any.
    pub fn points(&self) -> Option<(&Point, &Point)>
        ensures { MatchOption result (self.now.points ≡ None) (λ p. self.now.points ≡ Some (p.0.now, p.1.now)) }
    {
        match &self.points {
            None => None,
            Some(ends) => Some((&ends.first, &ends.second)),
        }
    }

    // The version, and what the job left against it.
    pub(crate) fn into_parts(self) -> (Arc<Version>, Left)
        ensures parts { left_at (arc_value result.0) result.1 ≡ self }
        ensures held { IsHeld (left_at (arc_value result.0) result.1) }
    {
        let Remainder {
            version,
            place,
            job,
            points,
        } = self;
        (version, Left { place, job, points })
    }
}
