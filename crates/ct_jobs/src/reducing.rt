//! What a job leaves.
ghost use Rattle.std.specs.Prelude.{◌≡◌, ◌≤◌};
ghost use Rattle.ct_vectors.specs.declared.limits.TheConstants.{GRADE_LIMIT};
ghost use Rattle.ct_instance.specs.Instance.{IsPoint};
ghost use Rattle.ct_instance.specs.Jobs.{IsJob, job_grade_of};
ghost use Rattle.ct_instance.specs.Versions.{IsRemainder};
ghost use Rattle.ct_jobs.specs.Remainders.{both_if};

use crate::critical::{coprime, ends_into};
use ct_instance::Job;
use ct_point::Point;
use ct_walk::{Height, Moves, have_one_end};

/// Whether the job leaves two points against the list; these are then written into the points given, which else hold what
/// was on the way. A pair of coprime heads leaves none and isn't walked, and where the walks of both ends come to one point
/// they stop there. It takes no memory: the points can be used for one job after another.
pub fn reduce_job(moves: &Moves, job: Job, first: &mut Point, second: &mut Point) -> bool
    requires job { IsJob moves.now.instance moves.now.moves job }
    requires grade { job_grade_of moves.now.instance moves.now.moves job ≤ GRADE_LIMIT }
    requires first_point { IsPoint moves.now.instance first.old }
    requires second_point { IsPoint moves.now.instance second.old }
    ensures left { IsRemainder moves.now.instance moves.now.moves job (both_if result first.new second.new) }
    ensures first_stays_point { IsPoint moves.now.instance first.new }
    ensures second_stays_point { IsPoint moves.now.instance second.new }
{
    if coprime(moves, job) {
        return false;
    }
    ends_into(moves.instance(), moves, job, first, second);
    let start = first_above(moves, job, first, second);
    !have_one_end(moves, first, second, start)
}

// By how much the first end is above the second. The ends of a pair lie as much above the least common multiple of the
// heads as the tails above their heads.
fn first_above(moves: &Moves, job: Job, first: &Point, second: &Point) -> Height
    requires job { IsJob moves.now.instance moves.now.moves job }
    requires first_point { IsPoint moves.now.instance first.now }
    requires second_point { IsPoint moves.now.instance second.now }
{
    let inst = moves.instance();
    match job {
        Job::Generator(_) => Height::of(inst, first).less(Height::of(inst, second)),
        Job::Pair(i, k) => moves.get(i).rise().less(moves.get(k).rise()),
    }
}
