//! The table of bits of a block: which heads are above a point in one of two coordinates.
ghost use Rattle.std.specs.Prelude.{◌≡◌, ◌<◌, ◌≤◌, ◌^◌, ◌↔◌, length, replicate, slice_index, All, IfOk, IsTrue};
ghost use Rattle.ct_vectors.specs.declared.limits.TheConstants.{WIDTH_LIMIT};
ghost use Rattle.ct_index.specs.Table.{IsAbove, IsPast, row_count, AreMarked, IsExcluded, AreLow};

use std::alloc::{AllocError, Global};

/// How many levels the table tells apart: the exponents below the last, and the last for all others.
pub const LEVELS: usize = 4;

/// How many rows two coordinates have: one for each two levels.
pub const PAIR_ROWS: usize = LEVELS * LEVELS;

// The table of no heads of this width.
pub fn blank(alloc: Global, width: usize) -> Result<Vec<u128>, AllocError>
    requires { width ≤ WIDTH_LIMIT }
    ensures { IfOk result (λ rows. rows.items ≡ replicate (row_count width) 0) }
{
    vec![in alloc; 0u128; PAIR_ROWS * width.div_ceil(2)]
}

// Adds a head to the table: its bit in each row that it is above.
pub fn mark(rows: &mut [u128], head: &[u64], index: u32)
    requires { index < 128 }
    ensures { AreMarked rows.old rows.new head.now index }
{
    for r in 0..rows.len() {
        if is_above(head, r) {
            rows[r] |= 1u128 << index;
        }
    }
}

// Whether the head is above the levels of this row in one of its two coordinates.
fn is_above(head: &[u64], r: usize) -> bool
    requires { r < 2 ^ 60 }
    ensures { IsTrue result ↔ IsAbove head.now r }
{
    let first = 2 * (r / PAIR_ROWS);
    is_past(r % PAIR_ROWS / LEVELS, exponent(head, first))
        || is_past(r % LEVELS, exponent(head, first + 1))
}

// Whether an exponent is above a level.
fn is_past(level: usize, exponent: u64) -> bool
    ensures { IsTrue result ↔ IsPast level exponent }
{
    level < LEVELS - 1 && (level as u64) < exponent
}

// The coordinate with this index, and 0 where there is none.
fn exponent(p: &[u64], i: usize) -> u64
    ensures { result ≡ slice_index p.now i }
{
    if i < p.len() { p[i] } else { 0 }
}

// The bits of these rows.
pub fn excluded(rows: &[u128], places: &[u16]) -> u128
    requires { All (λ r. r < length rows.now) places.now }
    ensures { IsExcluded rows.now places.now (length places.now) result }
{
    let mut out = 0u128;
    for i in 0..places.len() {
        out |= rows[places[i] as usize];
    }
    out
}

// Whether the table tells all exponents of the head apart.
pub fn is_low(head: &[u64]) -> bool
    ensures { IsTrue result ↔ AreLow head.now }
{
    head.iter().all(|x| *x < LEVELS as u64)
}
