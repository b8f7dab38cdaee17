//! Moves taken backwards.
ghost use Rattle.std.specs.Prelude.{◌≡◌, ◌≤◌, ◌↔◌, IsTrue};
ghost use Rattle.std.specs.Bool.{OnTrue};
ghost use Rattle.ct_vectors.specs.declared.limits.TheConstants.{GRADE_LIMIT};
ghost use Rattle.ct_order.specs.Order.{art_total_of};
ghost use Rattle.ct_instance.specs.Instance.{IsPoint, column_count, grade_of};
ghost use Rattle.ct_instance.specs.Fiber.{IsBelow};
ghost use Rattle.ct_walk.specs.Moves.{IsSmallMove};
ghost use Rattle.ct_best.specs.Search.{CanStepUp, IsStepUp};

use ct_instance::Instance;
use ct_order::{art_total, compare};
use ct_point::Point;
use ct_walk::Move;
use std::cmp::Ordering;

// Makes s the point that the move, taken backwards, leads up to from p. Where it doesn't apply or brings artificials, s
// stays.
pub fn step_up(inst: &Instance, mv: &Move, p: &Point, s: &mut Point) -> bool
    requires of_instance { IsSmallMove inst.now mv.now }
    requires point { IsPoint inst.now p.now }
    requires grade { grade_of inst.now.columns p.now ≤ GRADE_LIMIT }
    requires room { IsPoint inst.now s.old }
    ensures applies { IsTrue result ↔ CanStepUp inst.now mv.now p.now }
    ensures up { OnTrue result (IsStepUp inst.now mv.now p.now s.new) }
    ensures point { IsPoint inst.now s.new }
{
    // Called for what it ensures: the instance is within the limits.
    let _rows = inst.rows();
    if can_step_up(inst, mv, p) {
        s.copy_from(p);
        s.shift(mv.tail(), mv.head(), 1);
        return true;
    }
    false
}

// Whether the move applies backwards at p and brings no artificials.
fn can_step_up(inst: &Instance, mv: &Move, p: &Point) -> bool
    requires of_instance { IsSmallMove inst.now mv.now }
    requires point { IsPoint inst.now p.now }
    ensures { IsTrue result ↔ CanStepUp inst.now mv.now p.now }
{
    mv.tail().divides(p) && has_no_artificials(inst, mv.head())
}

// Whether the artificials of p are all 0.
fn has_no_artificials(inst: &Instance, p: &Point) -> bool
    requires point { IsPoint inst.now p.now }
    requires grade { grade_of inst.now.columns p.now ≤ GRADE_LIMIT }
    ensures { IsTrue result ↔ (art_total_of (column_count inst.now) p.now ≡ 0) }
{
    // Called for what it ensures: the instance is within the limits.
    let _rows = inst.rows();
    art_total(inst.costs(), p.as_slice()) == 0
}

// Whether p is below q in the refined order.
pub fn is_below(inst: &Instance, p: &Point, q: &Point) -> bool
    requires p_point { IsPoint inst.now p.now }
    requires q_point { IsPoint inst.now q.now }
    requires p_grade { grade_of inst.now.columns p.now ≤ GRADE_LIMIT }
    requires q_grade { grade_of inst.now.columns q.now ≤ GRADE_LIMIT }
    ensures { IsTrue result ↔ IsBelow inst.now p.now q.now }
{
    // Called for what it ensures: the instance is within the limits.
    let _rows = inst.rows();
    match compare(inst.costs(), p.as_slice(), q.as_slice()) {
        Ordering::Less => true,
        Ordering::Equal | Ordering::Greater => false,
    }
}
