//! A block: up to 128 values with heads, with the index of their heads.
ghost use Rattle.std.specs.Prelude.{◌≡◌, ◌≤◌, ◌<◌, [], ◌∷◌, ◌++◌, length, map, All, OnOk, IfErr, IfOk, IsTrue, ◌↔◌, slice_index_or};
ghost use Rattle.std.specs.List.{position};
ghost use Rattle.ct_vectors.specs.Vectors.{divides, total, IsTimes};
ghost use Rattle.ct_index.specs.Table.{ArePlaces, LeavesOut, AreDecided};

use crate::bits::HeadBits;
use crate::headed::HasHead;
use crate::places::Places;
use crate::support::{lacks, times_over};
use crate::table::excluded;
use ct_point::Point;
use std::alloc::{AllocError, Global};
use std::marker::Model;

/// How many values a block holds at most: the bits of a row of its table.
pub const BLOCK_SIZE: usize = 128;

/// A list of at most 128 values with heads of one width, with an index of their heads.
///
/// Beside the values it takes 128 bytes for each coordinate, and 16 for each value.
#[derive(Drop)]
pub struct HeadBlock<T: HasHead> {
    items: Vec<T>,
    bits: HeadBits,
}

impl<T: HasHead> Model for HeadBlock<T> {
    ghost use Rattle.std.specs.Prelude.{List, map};
    ghost use Rattle.ct_index.specs.Bits.{IsIndex};

    ghost Value = { List T };

    ghost view = { λ b. b.items.items };

    ghost invariant = { λ b. IsIndex (map T.head_of b.items.items) b.bits };
}

impl<T: HasHead> HeadBlock<T> {
    /// No values.
    pub fn new(alloc: Global) -> HeadBlock<T>
        ensures { result ≡ [] }
    {
        HeadBlock {
            items: Vec::new(alloc),
            bits: HeadBits::new(alloc),
        }
    }

    /// An equal block, with copies of the values.
    pub fn copy(&self, alloc: Global) -> Result<HeadBlock<T>, AllocError>
        ensures { IfOk result (λ b. b ≡ self.now) }
    {
        let items = copies(alloc, &self.items)?;
        let bits = self.bits.copy(alloc)?;
        Ok(HeadBlock { items, bits })
    }

    /// The values in order.
    pub fn items(&self) -> &[T]
        ensures items { result.now ≡ self.now }
        ensures few { length result.now ≤ 128 }
    {
        // The invariant of the bits says that there are few.
        let _bits = &self.bits;
        self.items.as_slice()
    }

    /// Whether no value more has room.
    pub fn is_full(&self) -> bool
        ensures full { IsTrue result ↔ (length self.now ≡ 128) }
        ensures few { length self.now ≤ 128 }
    {
        self.items().len() == BLOCK_SIZE
    }

    /// Adds a value at the end. For want of memory the value is handed back, and the block is as before.
    pub fn push(&mut self, alloc: Global, item: T) -> Result<(), (T, AllocError)>
        requires room { length self.old < 128 }
        requires width { All (λ t. length (T.head_of t) ≡ length (T.head_of item)) self.old }
        ensures ok { OnOk result (self.new ≡ self.old ++ item ∷ []) }
        ensures err { IfErr result (λ e. (self.new ≡ self.old) × (e.0 ≡ item)) }
    {
        let index = self.items.len();
        match self.items.push(item) {
            Ok(()) => {}
            Err(failed) => return Err((failed.value, AllocError)),
        }
        let head = self.items[index].head().as_slice();
        match self.bits.add(alloc, head, index as u32) {
            Ok(()) => Ok(()),
            Err(failed) => match self.items.pop() {
                Some(item) => Err((item, failed)),
                None => unreachable!(),
            },
        }
    }

    /// The index, from 0, of the first value whose head is at most p, which has these places.
    pub fn first_dividing(&self, p: &Point, places: &Places) -> Option<usize>
        requires widths { All (λ t. length (T.head_of t) ≡ length p.now) self.now }
        requires places { ArePlaces p.now places.now }
        ensures { result ≡ position (λ t. divides (T.head_of t) p.now) self.now }
    {
        if self.items.is_empty() || lacks(self.bits.shared, p.as_slice()) {
            return None;
        }
        let allowed = !excluded(&self.bits.rows, places.as_slice());
        first_among(&self.items, p, allowed, self.bits.decided)
    }

    /// How many times the head of the value with this index, from 0, fits into p.
    pub fn times_in(&self, index: usize, p: &Point) -> u64
        requires within { index < length self.now }
        requires width { (t : T) → length (T.head_of (slice_index_or self.now index t)) ≡ length p.now }
        requires positive { (t : T) → 1 ≤ total (T.head_of (slice_index_or self.now index t)) }
        ensures { (t : T) → IsTimes (T.head_of (slice_index_or self.now index t)) p.now result }
    {
        let head = self.items[index].head().as_slice();
        times_over(self.bits.supports[index], head, p.as_slice())
    }
}

// The index of the first value whose head is at most p. Only those with a bit in `allowed` can be, and of these each with
// a bit in `decided` is.
fn first_among<T: HasHead>(items: &[T], p: &Point, allowed: u128, decided: u128) -> Option<usize>
    requires widths { All (λ t. length (T.head_of t) ≡ length p.now) items.now }
    requires others { LeavesOut (map T.head_of items.now) p.now allowed }
    requires decided { AreDecided (map T.head_of items.now) p.now allowed decided }
    ensures { result ≡ position (λ t. divides (T.head_of t) p.now) items.now }
{
    let mut left = allowed;
    while left != 0 {
        let j = left.trailing_zeros();
        if j as usize >= items.len() {
            return None;
        }
        if (decided >> j) & 1 == 1 || items[j as usize].head().divides(p) {
            return Some(j as usize);
        }
        left &= left - 1;
    }
    None
}

// Equal values in order.
fn copies<T: HasHead>(alloc: Global, items: &[T]) -> Result<Vec<T>, AllocError>
    ensures { IfOk result (λ v. v.items ≡ items.now) }
{
    let mut made = Vec::with_capacity(alloc, items.len())?;
    for item in items {
        made.push(item.copy(alloc)?)?;
    }
    Ok(made)
}
