//! The test of reduced lists.
ghost use Rattle.std.specs.Prelude.{◌≡◌, ◌≤◌, ◌↔◌, length, IsTrue};
ghost use Rattle.ct_vectors.specs.declared.limits.TheConstants.{JOB_GRADE_LIMIT};
ghost use Rattle.ct_instance.specs.Instance.{IsPoint, grade_of};
ghost use Rattle.ct_instance.specs.TestSet.{ComesBefore};
ghost use Rattle.ct_resume.specs.Reduced.{IsReducedAt, IsUndivided, first_unreduced_of};

use ct_instance::Instance;
use ct_point::Point;
use ct_walk::Moves;
use std::cmp::Ordering;

/// The number of the first move at which the list isn't reduced, where there is one.
///
/// It looks at each pair of heads, so it makes the square of the number of moves in divisions of points, beside one look
/// for a head that divides each tail. It ends at the number that it finds. It takes no memory.
pub fn first_unreduced(moves: &Moves) -> Option<u32>
    ensures { result ≡ first_unreduced_of moves.now.instance moves.now.moves }
{
    for index in 0..moves.len() {
        let number = index + 1;
        if !is_reduced_at(moves, number) {
            return Some(number);
        }
    }
    None
}

// Whether the list is reduced at the move with this number.
fn is_reduced_at(moves: &Moves, number: u32) -> bool
    requires some { 1 ≤ number }
    requires within { number ≤ length moves.now.moves }
    ensures { IsTrue result ↔ IsReducedAt moves.now.instance moves.now.moves number }
{
    let mv = moves.get(number);
    if !is_undivided(moves, number) {
        return false;
    }
    if moves.first_dividing(mv.tail()).is_some() {
        return false;
    }
    if number == 1 {
        return true;
    }
    comes_before(moves.instance(), moves.get(number - 1).head(), mv.head())
}

// Whether the head of no other move divides that of the move with this number.
fn is_undivided(moves: &Moves, number: u32) -> bool
    requires some { 1 ≤ number }
    requires within { number ≤ length moves.now.moves }
    ensures { IsTrue result ↔ IsUndivided moves.now.moves number }
{
    let head = moves.get(number).head();
    for index in 0..moves.len() {
        let other = index + 1;
        if other == number {
            continue;
        }
        if moves.get(other).head().divides(head) {
            return false;
        }
    }
    true
}

// Whether one head comes before another: by the grade, and then by the first coordinate that differs.
fn comes_before(inst: &Instance, p: &Point, q: &Point) -> bool
    requires first_point { IsPoint inst.now p.now }
    requires second_point { IsPoint inst.now q.now }
    requires first_grade { grade_of inst.now.columns p.now ≤ JOB_GRADE_LIMIT }
    requires second_grade { grade_of inst.now.columns q.now ≤ JOB_GRADE_LIMIT }
    ensures { IsTrue result ↔ ComesBefore inst.now p.now q.now }
{
    let first = inst.grade(p);
    let second = inst.grade(q);
    if first != second {
        return first < second;
    }
    p.as_slice().cmp(q.as_slice()) == Ordering::Less
}
