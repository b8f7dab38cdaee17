//! The new moves.
ghost use Rattle.std.specs.Prelude.{◌≡◌, ◌↔◌, All, AllPairs, Contains, IfOk};
ghost use Rattle.ct_instance.specs.TestSet.{Binomial, ComesBefore};
ghost use Rattle.ct_walk.specs.Moves.{IsSmallMove};
ghost use Rattle.ct_completion.specs.Remainders.{IsGroupMove};
ghost use Rattle.ct_groups.specs.Groups.{points_seen, IsSmallPoint};

use crate::least::groups_of;
use crate::pairs::{moves_of, pairs_to_least, sort_pairs};
use ct_instance::Instance;
use ct_point::Point;
use ct_walk::Move;
use std::alloc::{AllocError, Global};

/// The moves of the groups of these points, by grade and then by their heads: from each other point of a degree to the
/// least. A point may come more than once.
///
/// For n points it takes n times the logarithm of n comparisons, and the degree of each point once. Beside the moves it
/// keeps 8 bytes a point, 144 bytes a degree and 40 bytes a point that isn't the least, and copies only the points of the
/// new moves.
pub fn new_moves(alloc: Global, inst: &Instance, points: &[&Point]) -> Result<Vec<Move>, AllocError>
    requires { All (IsSmallPoint inst.now) (points_seen points.now) }
    ensures exact { IfOk result (λ v. (m : Binomial) → Contains v.items m ↔ IsGroupMove inst.now (points_seen points.now) m) }
    ensures ordered { IfOk result (λ v. AllPairs (λ m n. ComesBefore inst.now m.head n.head) v.items) }
    ensures small { IfOk result (λ v. All (IsSmallMove inst.now) v.items) }
{
    let groups = groups_of(alloc, inst, points)?;
    let mut pairs = pairs_to_least(alloc, inst, points, &groups)?;
    sort_pairs(&mut pairs);
    moves_of(alloc, inst, pairs.as_slice())
}
