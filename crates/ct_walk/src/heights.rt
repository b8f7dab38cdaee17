//! How high a point stands, as far as the order of two points needs it at first.
ghost use Rattle.ct_instance.specs.Instance.{IsPoint};

use ct_instance::Instance;
use ct_point::Point;
use std::cmp::Ordering;

/// The artificial total and the cost by the first row, or a difference of two such.
///
/// They are kept modulo 2^64: where a difference is greater than half of that, its sign is wrong. So no clause speaks of
/// them, and only speed rests on them.
#[derive(Clone, Copy, Debug)]
pub struct Height {
    artificials: u64,
    cost: u64,
}

impl Height {
    /// Of a point. It is linear in the width.
    pub fn of(inst: &Instance, p: &Point) -> Height
        requires { IsPoint inst.now p.now }
    {
        let coordinates = p.as_slice();
        let columns = inst.columns();
        Height {
            artificials: total(&coordinates[columns..]),
            cost: weighted(inst.costs().row(1), &coordinates[..columns]),
        }
    }

    // Both together.
    pub fn plus(self, other: Height) -> Height {
        Height {
            artificials: self.artificials.wrapping_add(other.artificials),
            cost: self.cost.wrapping_add(other.cost),
        }
    }

    /// This much less another.
    pub fn less(self, other: Height) -> Height {
        Height {
            artificials: self.artificials.wrapping_sub(other.artificials),
            cost: self.cost.wrapping_sub(other.cost),
        }
    }

    // So many times as much.
    pub fn times(self, times: u64) -> Height {
        Height {
            artificials: self.artificials.wrapping_mul(times),
            cost: self.cost.wrapping_mul(times),
        }
    }

    // Whether this difference isn't 0.
    pub fn is_some(self) -> bool {
        self.artificials != 0 || self.cost != 0
    }

    // Greater where this difference, which isn't 0, is above 0, and else less. The artificial totals decide first.
    pub fn sign(self) -> Ordering {
        let leading = if self.artificials != 0 {
            self.artificials
        } else {
            self.cost
        };
        if leading < 1 << 63 {
            Ordering::Greater
        } else {
            Ordering::Less
        }
    }
}

// The sum of the numbers, modulo 2^64.
fn total(numbers: &[u64]) -> u64 {
    let mut sum = 0u64;
    for x in numbers {
        sum = sum.wrapping_add(*x);
    }
    sum
}

// The sum of cost times number, modulo 2^64.
fn weighted(costs: &[i64], numbers: &[u64]) -> u64 {
    let mut sum = 0u64;
    for (cost, x) in costs.iter().zip(numbers) {
        sum = sum.wrapping_add(cost.cast_unsigned().wrapping_mul(*x));
    }
    sum
}
