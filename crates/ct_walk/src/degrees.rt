//! Comparing two points of an instance, with no allocation.
ghost use Rattle.std.specs.Prelude.{◌≡◌, ◌≤◌, ◌↔◌, IsTrue, All};
ghost use Rattle.ct_vectors.specs.declared.limits.TheConstants.{GRADE_LIMIT};
ghost use Rattle.ct_instance.specs.Instance.{IsPoint, grade_of, degree_of};
ghost use Rattle.ct_instance.specs.Fiber.{IsBelow};

use ct_instance::Instance;
use ct_order::compare;
use ct_point::Point;
use std::cmp::Ordering;

// Whether both points have one degree. The grades are compared first, so that the degrees are known to fit.
pub fn have_one_degree(inst: &Instance, head: &Point, tail: &Point) -> bool
    requires head_point { IsPoint inst.now head.now }
    requires tail_point { IsPoint inst.now tail.now }
    requires head_grade { grade_of inst.now.columns head.now ≤ GRADE_LIMIT }
    requires tail_limit { All (λ x. x ≤ GRADE_LIMIT) tail.now }
    ensures { IsTrue result ↔ (degree_of inst.now.columns tail.now ≡ degree_of inst.now.columns head.now) }
{
    if inst.grade_wide(tail) != inst.grade(head) as u128 {
        return false;
    }
    let mut of_head = [0u64; 16];
    let mut of_tail = [0u64; 16];
    let rows = inst.rows();
    inst.degree_into(head, &mut of_head[..rows]);
    inst.degree_into(tail, &mut of_tail[..rows]);
    are_equal(&of_tail[..rows], &of_head[..rows])
}

// Whether the coordinates are the same.
pub fn are_equal(p: &[u64], q: &[u64]) -> bool
    ensures { IsTrue result ↔ (p.now ≡ q.now) }
{
    p == q
}

// Whether p is below q in the refined order.
pub fn is_below(inst: &Instance, p: &Point, q: &Point) -> bool
    requires p_point { IsPoint inst.now p.now }
    requires q_point { IsPoint inst.now q.now }
    requires p_limit { All (λ x. x ≤ GRADE_LIMIT) p.now }
    requires q_limit { All (λ x. x ≤ GRADE_LIMIT) q.now }
    ensures { IsTrue result ↔ IsBelow inst.now p.now q.now }
{
    // Called for what it ensures: the instance is within the limits.
    let _rows = inst.rows();
    match compare(inst.costs(), p.as_slice(), q.as_slice()) {
        Ordering::Less => true,
        Ordering::Equal | Ordering::Greater => false,
    }
}
