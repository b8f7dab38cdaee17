//! The parts of an answer: the test of the sum, and the walk.
ghost use Rattle.std.specs.Prelude.{◌≡◌, ◌≤◌, All, IfOk, MatchResult};
ghost use Rattle.ct_vectors.specs.declared.limits.TheConstants.{RIGHT_LIMIT, GRADE_LIMIT};
ghost use Rattle.ct_vectors.specs.Vectors.{total};
ghost use Rattle.ct_instance.specs.Instance.{IsPoint, IsRight, IsInstance, start_of};
ghost use Rattle.ct_instance.specs.Fiber.{least_of};
ghost use Rattle.ct_instance.specs.TestSet.{test_list};
ghost use Rattle.ct_instance.specs.Versions.{Covers, level_of};
ghost use Rattle.ct_instance.specs.Walk.{IsWalk};
ghost use Rattle.ct_version.specs.Answers.{IsNotYet};

use crate::finished::Finished;
use crate::stops::NotYet;
use crate::versions::Version;
use ct_order::sum;
use ct_point::Point;
use ct_walk::{Walk, walk, walk_end};
use std::alloc::{AllocError, Global};

// Refuses where the version doesn't cover the sum of b.
pub fn check(version: &Version, b: &[u64]) -> Result<(), NotYet>
    requires right { IsRight version.now.instance b.now }
    requires limit { All (λ x. x ≤ RIGHT_LIMIT) b.now }
    ensures { MatchResult result (λ _. Covers (level_of version.now.instance version.now.number) (total b.now)) (λ e. IsNotYet version.now b.now e.finished) }
{
    // Called for what it ensures: there is such a version.
    let _number = version.number();
    match version.finished() {
        Finished::All => Ok(()),
        Finished::Upto(finished) => {
            if sum(b) <= finished {
                Ok(())
            } else {
                Err(NotYet { finished })
            }
        }
    }
}

// Makes p the least point of b.
pub fn descend(version: &Version, b: &[u64], p: &mut Point)
    requires right { IsRight version.now.instance b.now }
    requires limit { All (λ x. x ≤ RIGHT_LIMIT) b.now }
    requires covers { Covers (level_of version.now.instance version.now.number) (total b.now) }
    requires point { IsPoint version.now.instance p.old }
    ensures least { p.new ≡ least_of version.now.instance b.now }
    ensures point { IsPoint version.now.instance p.new }
    ensures small { All (λ x. x ≤ GRADE_LIMIT) p.new }
{
    let moves = version.moves();
    moves.instance().start_into(b, p);
    walk_end(moves, p);
}

// The walk of b.
pub fn walk_of(alloc: Global, version: &Version, b: &[u64]) -> Result<Walk, AllocError>
    requires right { IsRight version.now.instance b.now }
    requires limit { All (λ x. x ≤ RIGHT_LIMIT) b.now }
    requires covers { Covers (level_of version.now.instance version.now.number) (total b.now) }
    ensures walk { IfOk result (λ w. IsWalk (test_list version.now.instance (total b.now)) (start_of version.now.instance b.now) w.steps w.end) }
    ensures least { IfOk result (λ w. w.end ≡ least_of version.now.instance b.now) }
    ensures point { IfOk result (λ w. IsPoint version.now.instance w.end) }
    ensures small { IfOk result (λ w. All (λ x. x ≤ GRADE_LIMIT) w.end) }
{
    let moves = version.moves();
    let start = moves.instance().start(alloc, b)?;
    walk(alloc, moves, start)
}
