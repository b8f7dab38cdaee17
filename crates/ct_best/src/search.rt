//! The search over the moves of a list.
ghost use Rattle.std.specs.Prelude.{◌≡◌, ◌≤◌, ◌<◌, ◌+◌, length, IfOk, OnOk, Contains};
ghost use Rattle.ct_vectors.specs.Vectors.{total};
ghost use Rattle.ct_vectors.specs.declared.limits.TheConstants.{GRADE_LIMIT};
ghost use Rattle.ct_order.specs.Order.{art_total_of};
ghost use Rattle.ct_instance.specs.Instance.{IsPoint, IsRight, column_count};
ghost use Rattle.ct_instance.specs.Fiber.{least_of};
ghost use Rattle.ct_instance.specs.TestSet.{Binomial, test_list};
ghost use Rattle.ct_best.specs.Search.{AreBestPoints, IsFrontier};

use crate::ordered::put_in;
use crate::steps::step_up;
use ct_point::Point;
use ct_walk::Moves;
use std::alloc::{AllocError, Global};

/// The `count` least points of solutions for b, or all where there are fewer, least first, by a list that has the moves of
/// the test list of b's sum.
///
/// One ordered list grows from the least point on. Each of its points in turn is looked at: each move whose tail is at
/// most the point and whose head has no artificials leads up to another, which is put in where it belongs. It lies above
/// the point looked at, so what was looked at stays. That takes at most `count` times the number of moves tests, and
/// memory for the list and one point more.
pub fn least_found(
    alloc: Global,
    moves: &Moves,
    b: &[u64],
    least: Point,
    count: usize,
) -> Result<Vec<Point>, AllocError>
    requires right { IsRight moves.now.instance b.now }
    requires small { total b.now ≤ GRADE_LIMIT }
    requires list { (m : Binomial) → Contains (test_list moves.now.instance (total b.now)) m → Contains moves.now.moves m }
    requires least { least ≡ least_of moves.now.instance b.now }
    requires solution { art_total_of (column_count moves.now.instance) least ≡ 0 }
    requires some { 1 ≤ count }
    requires most { count ≤ 100 }
    ensures { IfOk result (λ v. AreBestPoints moves.now.instance b.now count v.items) }
{
    // Called for what it ensures: these are moves of an instance within the limits.
    let _inst = moves.instance();
    let mut scratch = least.copy(alloc)?;
    let mut found = Vec::new(alloc);
    found.push(least)?;
    for n in 0..count {
        if n < found.len() {
            expand(alloc, moves, b, &mut found, n, count, &mut scratch)?;
        }
    }
    Ok(found)
}

// Puts in what each move leads up to from the n-th point, counted from 0.
fn expand(
    alloc: Global,
    moves: &Moves,
    b: &[u64],
    found: &mut Vec<Point>,
    n: usize,
    count: usize,
    scratch: &mut Point,
) -> Result<(), AllocError>
    requires small { total b.now ≤ GRADE_LIMIT }
    requires within { n < length found.old.items }
    requires frontier { IsFrontier moves.now.instance b.now count moves.now.moves found.old.items n 0 }
    requires scratch { IsPoint moves.now.instance scratch.old }
    ensures frontier { OnOk result (IsFrontier moves.now.instance b.now count moves.now.moves found.new.items (n + 1) 0) }
    ensures scratch { IsPoint moves.now.instance scratch.new }
{
    let inst = moves.instance();
    for j in 0..moves.len() {
        if step_up(inst, moves.get(j + 1), &found[n], scratch) {
            put_in(alloc, inst, found, scratch, count)?;
        }
    }
    Ok(())
}
