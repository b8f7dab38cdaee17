//! One ordered list of at most k points.
ghost use Rattle.std.specs.Prelude.{◌≡◌, ◌≤◌, ◌<◌, ◌↔◌, ℕ, [], length, get_or, All, AllPairs, IsTrue, OnOk};
ghost use Rattle.ct_vectors.specs.declared.limits.TheConstants.{GRADE_LIMIT};
ghost use Rattle.ct_instance.specs.Instance.{IsPoint, grade_of};
ghost use Rattle.ct_instance.specs.Fiber.{IsBelow};
ghost use Rattle.ct_best.specs.Search.{IsPutIn};

use crate::steps::is_below;
use ct_instance::Instance;
use ct_point::Point;
use std::alloc::{AllocError, Global};

// Puts a copy of s in where it belongs, unless it is there, and keeps the first `count` points.
pub fn put_in(
    alloc: Global,
    inst: &Instance,
    found: &mut Vec<Point>,
    s: &Point,
    count: usize,
) -> Result<(), AllocError>
    requires points { All (IsPoint inst.now) found.old.items }
    requires grades { All (λ p. grade_of inst.now.columns p ≤ GRADE_LIMIT) found.old.items }
    requires ordered { AllPairs (IsBelow inst.now) found.old.items }
    requires most { length found.old.items ≤ count }
    requires point { IsPoint inst.now s.now }
    requires grade { grade_of inst.now.columns s.now ≤ GRADE_LIMIT }
    ensures { OnOk result (IsPutIn inst.now count found.old.items s.now found.new.items) }
{
    let at = place_of(inst, found, s);
    if at == count || is_at(found, at, s) {
        return Ok(());
    }
    let copy = s.copy(alloc)?;
    found.insert(at, copy)?;
    found.truncate(count);
    Ok(())
}

// How many points of the list are below s, by halving.
fn place_of(inst: &Instance, found: &[Point], s: &Point) -> usize
    requires points { All (IsPoint inst.now) found.now }
    requires grades { All (λ p. grade_of inst.now.columns p ≤ GRADE_LIMIT) found.now }
    requires ordered { AllPairs (IsBelow inst.now) found.now }
    requires point { IsPoint inst.now s.now }
    requires grade { grade_of inst.now.columns s.now ≤ GRADE_LIMIT }
    ensures within { result ≤ length found.now }
    ensures before { (k : ℕ) → k < result → IsBelow inst.now (get_or found.now k []) s.now }
    ensures not_below { result < length found.now → IsBelow inst.now (get_or found.now result []) s.now → ⊥ }
{
    let mut low = 0;
    let mut high = found.len();
    while low < high {
        let middle = low + (high - low) / 2;
        if is_below(inst, &found[middle], s) {
            low = middle + 1;
        } else {
            high = middle;
        }
    }
    low
}

// Whether s stands at this place of the list.
fn is_at(found: &[Point], at: usize, s: &Point) -> bool
    ensures { IsTrue result ↔ ((at < length found.now) × (get_or found.now at [] ≡ s.now)) }
{
    at < found.len() && found[at].as_slice() == s.as_slice()
}
