//! The next version of a book whose jobs are all resolved.
ghost use Rattle.std.specs.Prelude.{◌≡◌, ◌+◌, ◌≤◌, ◌<◌, ◌++◌, [], ◌∷◌, ℕ, None, suc, length, map, All, AllPairs, Contains, ◌↔◌, IfOk, OnOk};
ghost use Rattle.std.specs.Option.{unwrap_or};
ghost use Rattle.std.specs.Arc.{arc_value};
ghost use Rattle.ct_vectors.specs.declared.limits.TheConstants.{GRADE_LIMIT, MOVE_LIMIT};
ghost use Rattle.ct_instance.specs.Versions.{upto, level_of, version_list};
ghost use Rattle.ct_walk.specs.Moves.{IsSmallMove};
ghost use Rattle.ct_jobs.specs.GradedJobs.{AreJobsOf};
ghost use Rattle.ct_completion.specs.Machine.{opened_jobs};
ghost use Rattle.ct_completion.specs.Remainders.{points_of, IsGroupMove};
ghost use Rattle.ct_instance.specs.TestSet.{Binomial, ComesBefore};
ghost use Rattle.ct_groups.specs.Groups.{points_seen, IsSmallPoint};
ghost use Rattle.ct_book.specs.Queues.{slot_seen};
ghost use Rattle.ct_book.specs.Insides.{fresh};
ghost use Rattle.ct_book.specs.Openings.{left_in};

use crate::opening::{Opening, opened_above};
use crate::queue::{Queue, Slot};
use ct_groups::new_moves;
use ct_handing::shared;
use ct_instance::Instance;
use ct_jobs::{Addition, Buckets};
use ct_point::Point;
use ct_version::Version;
use ct_walk::Move;
use std::alloc::{AllocError, Global};
use std::sync::Arc;

// The moves that the points of resolved jobs give, in order.
pub fn moves_left(alloc: Global, inst: &Instance, queue: &Queue) -> Result<Vec<Move>, AllocError>
    requires { All (IsSmallPoint inst.now) (points_of (left_in queue.now.stored)) }
    ensures exact { IfOk result (λ v. (m : Binomial) → Contains v.items m ↔ IsGroupMove inst.now (points_of (left_in queue.now.stored)) m) }
    ensures ordered { IfOk result (λ v. AllPairs (λ m n. ComesBefore inst.now m.head n.head) v.items) }
    ensures small { IfOk result (λ v. All (IsSmallMove inst.now) v.items) }
{
    let points = queue.points(alloc)?;
    new_moves(alloc, inst, &points)
}

// The points that these slots have, in order.
pub fn points_in<'a>(alloc: Global, slots: &'a [Slot]) -> Result<Vec<&'a Point>, AllocError>
    ensures { IfOk result (λ v. points_seen v.items ≡ points_of (left_in (map slot_seen slots.now))) }
{
    let mut points = Vec::new(alloc);
    for slot in slots {
        push_points(&mut points, slot)?;
    }
    Ok(points)
}

// Appends the points of a slot.
fn push_points<'a>(points: &mut Vec<&'a Point>, slot: &'a Slot) -> Result<(), AllocError>
    ensures { OnOk result (points_seen points.new.items ≡ points_seen points.old.items ++ points_of (unwrap_or (slot_seen slot.now) None ∷ [])) }
{
    match slot {
        Slot::Waiting => Ok(()),
        Slot::Nothing => Ok(()),
        Slot::Differ(ends) => {
            points.push(&ends.first)?;
            points.push(&ends.second)?;
            Ok(())
        }
    }
}

// The next version, the pairs that its list brings, and the jobs of the grade that it opens.
#[derive(Drop)]
pub struct Following {
    pub version: Arc<Version>,
    pub more: Addition,
    pub queue: Queue,
}

// What follows a version with these new moves, where `buckets` has the jobs of its list.
pub fn next_version(
    alloc: Global,
    version: &Version,
    buckets: &Buckets,
    new: Vec<Move>,
) -> Result<Following, AllocError>
    requires opens { (l : ℕ) × (level_of version.now.instance version.now.number ≡ upto l) × (l < GRADE_LIMIT) }
    requires small { All (IsSmallMove version.now.instance) new.items }
    requires list { version_list version.now.instance version.now.number ++ new.items ≡ version_list version.now.instance (suc version.now.number) }
    requires room { length (version_list version.now.instance version.now.number) + length new.items ≤ MOVE_LIMIT }
    requires buckets { AreJobsOf version.now.instance (version_list version.now.instance version.now.number) buckets.now.jobs }
    ensures version { IfOk result (λ f. arc_value f.version ≡ record { instance = version.now.instance; number = suc version.now.number }) }
    ensures more { IfOk result (λ f. AreJobsOf version.now.instance (version_list version.now.instance (suc version.now.number)) (buckets.now.jobs ++ f.more)) }
    ensures queue { IfOk result (λ f. f.queue ≡ fresh (opened_jobs version.now.instance (suc version.now.number))) }
{
    let before = version.moves();
    let moves = before.extended(alloc, new)?;
    let more = Buckets::prepare(alloc, moves.instance(), &moves, before.len() + 1)?;
    let next = version.finished().behind();
    let Opening { finished, queue } = opened_above(alloc, buckets, &more, next)?;
    let version = shared(alloc, Version::new(moves, version.number() + 1, finished))?;
    Ok(Following {
        version,
        more,
        queue,
    })
}
