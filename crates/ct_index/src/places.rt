//! Where a point is looked up.
ghost use Rattle.std.specs.Prelude.{◌≡◌, ◌+◌, ◌*◌, ◌/◌, ◌≤◌, ◌<◌, [], ℕ, min, length, slice_index};
ghost use Rattle.ct_vectors.specs.declared.limits.TheConstants.{WIDTH_LIMIT};
ghost use Rattle.ct_index.specs.Table.{ArePlaces, row_of};

use crate::table::{LEVELS, PAIR_ROWS};
use ct_point::Point;
use ct_vectors::limits::WIDTH_LIMIT;
use std::marker::Model;

// How many pairs of coordinates a point has at most.
const MOST: usize = WIDTH_LIMIT / 2;

/// The rows of a block's table where a point is looked up, one for each two coordinates.
///
/// They are the same for all blocks, and take no memory.
#[derive(Drop)]
pub struct Places {
    rows: [u16; MOST],
    len: usize,
}

impl Model for Places {
    ghost use Rattle.std.specs.Prelude.{List, ℕ, take, ◌≤◌};

    ghost Value = { List ℕ };

    ghost view = { λ s. take s.len s.rows };

    ghost invariant = { λ s. s.len ≤ 40 };
}

impl Places {
    /// No places.
    pub fn new() -> Places
        ensures { result ≡ [] }
    {
        Places {
            rows: [0; MOST],
            len: 0,
        }
    }

    /// Takes the places of this point, in place of those before. It is linear in the width.
    pub fn look_at(&mut self, p: &Point)
        ensures { ArePlaces p.now self.new }
    {
        let p = p.as_slice();
        self.len = p.len().div_ceil(2);
        write(&mut self.rows, p);
    }

    // The rows in order.
    pub(crate) fn as_slice(&self) -> &[u16]
        ensures { result.now ≡ self.now }
    {
        &self.rows[..self.len]
    }
}

// Writes the rows of a point to the front.
fn write(rows: &mut [u16], p: &[u64])
    requires room { length rows.old ≡ 40 }
    requires width { length p.now ≤ WIDTH_LIMIT }
    ensures { (q : ℕ) → q < (length p.now + 1) / 2 → slice_index rows.new q ≡ row_of p.now q }
{
    let pairs = p.len() / 2;
    for q in 0..pairs {
        rows[q] = place(q, p[2 * q], p[2 * q + 1]);
    }
    if p.len() % 2 == 1 {
        rows[pairs] = place(pairs, p[2 * pairs], 0);
    }
}

// The row of two exponents of the pair with this index.
fn place(q: usize, first: u64, second: u64) -> u16
    requires { q < 40 }
    ensures { result ≡ 16 * q + 4 * min first 3 + min second 3 }
{
    (PAIR_ROWS * q + LEVELS * level(first) + level(second)) as u16
}

// The level of an exponent.
fn level(exponent: u64) -> usize
    ensures { result ≡ min exponent 3 }
{
    exponent.min(LEVELS as u64 - 1) as usize
}
