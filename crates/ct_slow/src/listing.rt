//! The listing of a fiber.

ghost use Rattle.std.specs.Prelude.{◌≡◌, ◌+◌, ◌≤◌, ◌<◌, ◌++◌, length, take, drop, map, if◌then◌else◌, All, IfOk, OnOk};
ghost use Rattle.std.specs.List.{best_of};
ghost use Rattle.ct_vectors.specs.Vectors.{total};
ghost use Rattle.ct_vectors.specs.declared.limits.TheConstants.{RIGHT_LIMIT, GRADE_LIMIT, JOB_GRADE_LIMIT};
ghost use Rattle.ct_instance.specs.Instance.{IsPoint, column_count};
ghost use Rattle.ct_instance.specs.Fiber.{fiber_of, least_of, is_lower};

use ct_instance::Instance;
use ct_order::compare;
use ct_point::Point;
use std::alloc::{AllocError, Global};
use std::cmp::Ordering;

/// The least point of the fiber of b, found by listing the fiber. It holds two points and one list of m numbers a
/// column, whatever the size of the fiber, and takes time linear in that size: about the product of how often each
/// column fits into b.
pub fn least_by_listing(alloc: Global, inst: &Instance, b: &[u64]) -> Result<Point, AllocError>
    requires right { length b.now ≡ inst.now.rows }
    requires limit { All (λ x. x ≤ RIGHT_LIMIT) b.now }
    ensures { IfOk result (λ p. p ≡ least_of inst.now b.now) }
{
    // Called for what it ensures: the instance is within the limits.
    let _rows = inst.rows();
    let mut best = inst.start(alloc, b)?;
    let mut point = inst.start(alloc, b)?;
    let rest = Point::from_slice(alloc, b)?;
    descend(alloc, inst, 0, &mut point, &rest, &mut best)?;
    Ok(best)
}

// The lowest of the best point so far and of each point that begins like this one and goes on, from column j on, with
// a point of what is left.
fn descend(
    alloc: Global,
    inst: &Instance,
    j: usize,
    point: &mut Point,
    rest: &Point,
    best: &mut Point,
) -> Result<(), AllocError>
    requires column { j ≤ column_count inst.now }
    requires point_width { IsPoint inst.now point.old }
    requires best_width { IsPoint inst.now best.old }
    requires rest_width { length rest.now ≡ inst.now.rows }
    requires rest_limit { total rest.now ≤ GRADE_LIMIT }
    requires point_limit { All (λ x. x ≤ JOB_GRADE_LIMIT) point.old }
    requires best_limit { All (λ x. x ≤ JOB_GRADE_LIMIT) best.old }
    ensures lowest { OnOk result (best.new ≡ best_of (is_lower inst.now) best.old (map (λ q. take j point.old ++ q) (fiber_of (drop j inst.now.columns) rest.now))) }
    ensures front { OnOk result (take j point.new ≡ take j point.old) }
    ensures point_stays { IsPoint inst.now point.new }
    ensures best_stays { IsPoint inst.now best.new }
    ensures point_within { All (λ x. x ≤ JOB_GRADE_LIMIT) point.new }
    ensures best_within { All (λ x. x ≤ JOB_GRADE_LIMIT) best.new }
{
    if j == inst.columns() {
        end_with(inst, point, rest, best);
        return Ok(());
    }
    let column = inst.column(j + 1);
    let mut left = rest.copy(alloc)?;
    for x in 0..u64::MAX {
        point.set(j, x);
        descend(alloc, inst, j + 1, point, &left, best)?;
        match left.sub_checked(alloc, column)? {
            Some(less) => left = less,
            None => return Ok(()),
        }
    }
    Ok(())
}

// The point gets what is left as its artificials, and the best becomes the lower of the two.
fn end_with(inst: &Instance, point: &mut Point, rest: &Point, best: &mut Point)
    requires point_width { IsPoint inst.now point.old }
    requires best_width { IsPoint inst.now best.old }
    requires rest_width { length rest.now ≡ inst.now.rows }
    requires rest_limit { total rest.now ≤ GRADE_LIMIT }
    requires point_limit { All (λ x. x ≤ JOB_GRADE_LIMIT) point.old }
    requires best_limit { All (λ x. x ≤ JOB_GRADE_LIMIT) best.old }
    ensures ended { point.new ≡ take (column_count inst.now) point.old ++ rest.now }
    ensures lowest { best.new ≡ (if is_lower inst.now point.new best.old then point.new else best.old) }
    ensures point_within { All (λ x. x ≤ JOB_GRADE_LIMIT) point.new }
    ensures best_within { All (λ x. x ≤ JOB_GRADE_LIMIT) best.new }
{
    point.write_end(rest.as_slice());
    keep_lower(inst, point, best);
}

// The best becomes the lower of the two.
fn keep_lower(inst: &Instance, point: &Point, best: &mut Point)
    requires point_width { IsPoint inst.now point.now }
    requires best_width { IsPoint inst.now best.old }
    requires point_limit { All (λ x. x ≤ JOB_GRADE_LIMIT) point.now }
    requires best_limit { All (λ x. x ≤ JOB_GRADE_LIMIT) best.old }
    ensures lowest { best.new ≡ (if is_lower inst.now point.now best.old then point.now else best.old) }
    ensures best_within { All (λ x. x ≤ JOB_GRADE_LIMIT) best.new }
{
    match compare(inst.costs(), point.as_slice(), best.as_slice()) {
        Ordering::Less => best.copy_from(point),
        Ordering::Equal | Ordering::Greater => {}
    }
}
