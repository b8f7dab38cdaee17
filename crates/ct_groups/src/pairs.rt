//! Each point beside the least of its degree.
ghost use Rattle.std.specs.Prelude.{[], ◌≡◌, ◌+◌, ◌<◌, ◌↔◌, ℕ, List, length, map, get_or, All, Contains, IfOk, OnOk};
ghost use Rattle.std.specs.List.Sorted.{IsStrictlySortedBy};
ghost use Rattle.ct_instance.specs.TestSet.{Binomial};
ghost use Rattle.ct_walk.specs.Moves.{IsSmallMove};
ghost use Rattle.ct_groups.specs.Groups.{points_seen, IsSmallPoint, key_of, HasGroups, IsLeastOf};
ghost use Rattle.ct_groups.specs.Pairs.{pair_seen, pair_order, HasPairs};

use crate::least::Groups;
use ct_instance::Instance;
use ct_point::Point;
use ct_vectors::limits::GRADE_LIMIT;
use ct_walk::Move;
use std::alloc::{AllocError, Global};

// Two points of one degree, the tail the least of it, with their grade before them, which decides the order first.
#[derive(Clone, Copy, PartialEq, Eq, PartialOrd, Ord)]
pub struct Pair<'a> {
    pub grade: u64,
    pub head: &'a [u64],
    pub tail: &'a [u64],
}

// Each point that isn't the least of its degree, beside the least: 40 bytes each.
pub fn pairs_to_least<'a>(
    alloc: Global,
    inst: &Instance,
    points: &[&'a Point],
    groups: &Groups,
) -> Result<Vec<Pair<'a>>, AllocError>
    requires points { All (IsSmallPoint inst.now) (points_seen points.now) }
    requires groups { HasGroups inst.now (points_seen points.now) (length points.now) groups.now }
    ensures { IfOk result (λ v. HasPairs inst.now (points_seen points.now) (length points.now) v.items) }
{
    let mut pairs = Vec::new(alloc);
    for k in 0..points.len() {
        let place = groups.least[groups.of_point[k]];
        push_pair(inst, points, &mut pairs, k, place)?;
    }
    Ok(pairs)
}

// Puts the point at place k beside the least of its degree, where it is another.
fn push_pair<'a>(
    inst: &Instance,
    points: &[&'a Point],
    pairs: &mut Vec<Pair<'a>>,
    k: usize,
    place: usize,
) -> Result<(), AllocError>
    requires points { All (IsSmallPoint inst.now) (points_seen points.now) }
    requires in_points { k < length points.now }
    requires least { IsLeastOf inst.now (points_seen points.now) (length points.now) (key_of inst.now (get_or (points_seen points.now) k [])) place }
    requires pairs { HasPairs inst.now (points_seen points.now) k pairs.old.items }
    ensures { OnOk result (HasPairs inst.now (points_seen points.now) (k + 1) pairs.new.items) }
{
    // For its facts alone: the instance is within the limits.
    let _rows = inst.rows();
    let head = points[k];
    let tail = points[place];
    if head.as_slice() == tail.as_slice() {
        return Ok(());
    }
    pairs.push(Pair {
        grade: inst.grade(head),
        head: head.as_slice(),
        tail: tail.as_slice(),
    })?;
    Ok(())
}

// Sorts the pairs by grade, head and tail, and drops what comes again.
pub fn sort_pairs(pairs: &mut Vec<Pair<'_>>)
    ensures sorted { IsStrictlySortedBy pair_order pairs.new.items }
    ensures same { (m : Binomial) → Contains (map pair_seen pairs.new.items) m ↔ Contains (map pair_seen pairs.old.items) m }
    ensures graded { (n : List ℕ → ℕ) → All (λ p. p.grade ≡ n p.head.now) pairs.old.items → All (λ p. p.grade ≡ n p.head.now) pairs.new.items }
{
    pairs.sort_unstable();
    pairs.dedup();
}

// The pairs as moves.
pub fn moves_of(alloc: Global, inst: &Instance, pairs: &[Pair<'_>]) -> Result<Vec<Move>, AllocError>
    requires { All (IsSmallMove inst.now) (map pair_seen pairs.now) }
    ensures { IfOk result (λ v. v.items ≡ map pair_seen pairs.now) }
{
    let mut moves = Vec::with_capacity(alloc, pairs.len())?;
    for k in 0..pairs.len() {
        let made = move_of(alloc, inst, &pairs[k])?;
        moves.push_reserved(made);
    }
    Ok(moves)
}

// The pair as a move.
fn move_of(alloc: Global, inst: &Instance, pair: &Pair<'_>) -> Result<Move, AllocError>
    requires { IsSmallMove inst.now (pair_seen pair.now) }
    ensures { IfOk result (λ m. m ≡ pair_seen pair.now) }
{
    // For its facts alone: the instance is within the limits.
    let _rows = inst.rows();
    let head = Point::from_slice(alloc, pair.head)?;
    let tail = Point::from_slice(alloc, pair.tail)?;
    match Move::new(inst, GRADE_LIMIT, head, tail) {
        Ok(made) => Ok(made),
        Err(_) => unreachable!(),
    }
}
