//! The point, over the loops of `slices`.
ghost use Rattle.std.specs.Prelude.{◌≡◌, ℕ, ◌+◌, ◌-◌, ◌++◌, take, ◌^◌, ◌<◌, ◌≤◌, List, length, slice_set, All, IfOk, IfSome, IsSome, ◌↔◌};
ghost use Rattle.ct_vectors.specs.Vectors.{add, subtract, scale, lcm, total, zeros, Divides, divides, disjoint, IsTimes};
ghost use Rattle.ct_vectors.specs.declared.limits.TheConstants.{WIDTH_LIMIT};

use crate::slices;
use ct_vectors::limits::WIDTH_LIMIT;
use smallvec::SmallVec;
use std::alloc::{AllocError, Global};
use std::marker::Model;

/// A vector of natural numbers below 2^64, seen as its list. Its width is 1 to 80, and only `truncate` changes it.
///
/// A point of at most 16 coordinates takes no memory of its own; a wider one takes 8 bytes a coordinate. Each call
/// is linear in the width. Calls that take another point take one of the same width.
#[derive(Debug, Drop)]
pub struct Point {
    places: SmallVec<u64, 16>,
}

impl Model for Point {
    ghost Value = { List ℕ };

    ghost view = { λ p. p.places.items };

    ghost invariant = { λ p. (1 ≤ length p.places.items) × (length p.places.items ≤ WIDTH_LIMIT) };
}

impl Point {
    /// The point with all coordinates 0.
    pub fn zero(alloc: Global, width: usize) -> Result<Point, AllocError>
        requires some { 1 ≤ width }
        requires limit { width ≤ WIDTH_LIMIT }
        ensures { IfOk result (λ p. p ≡ zeros width) }
    {
        let nothing = [0u64; WIDTH_LIMIT];
        Point::from_slice(alloc, &nothing[..width])
    }

    /// The point with these coordinates.
    pub fn from_slice(alloc: Global, c: &[u64]) -> Result<Point, AllocError>
        requires some { 1 ≤ length c.now }
        requires limit { length c.now ≤ WIDTH_LIMIT }
        ensures { IfOk result (λ p. p ≡ c.now) }
    {
        let places = SmallVec::from_slice(alloc, c)?;
        Ok(Point { places })
    }

    /// An equal point.
    pub fn copy(&self, alloc: Global) -> Result<Point, AllocError>
        ensures { IfOk result (λ p. p ≡ self.now) }
    {
        Point::from_slice(alloc, self.as_slice())
    }

    /// Makes this point equal to the other, in place.
    pub fn copy_from(&mut self, other: &Point)
        requires width { length self.old ≡ length other.now }
        ensures { self.new ≡ other.now }
    {
        self.places.as_mut_slice().copy_from_slice(other.as_slice());
    }

    /// The coordinates.
    pub fn as_slice(&self) -> &[u64]
        ensures coordinates { result.now ≡ self.now }
        ensures some { 1 ≤ length result.now }
        ensures limit { length result.now ≤ WIDTH_LIMIT }
    {
        self.places.as_slice()
    }

    /// Makes the first coordinates 0, as many as are said, and the others those of the slice, in place.
    pub fn copy_from_parts(&mut self, zero_count: usize, rest: &[u64])
        requires { length self.old ≡ zero_count + length rest.now }
        ensures { self.new ≡ zeros zero_count ++ rest.now }
    {
        slices::write_parts(self.places.as_mut_slice(), zero_count, rest);
    }

    /// Makes the last coordinates those of the slice, in place; the ones before stay.
    pub fn write_end(&mut self, end: &[u64])
        requires { length end.now ≤ length self.old }
        ensures { self.new ≡ take (length self.old - length end.now) self.old ++ end.now }
    {
        slices::write_end(self.places.as_mut_slice(), end);
    }

    /// Writes one coordinate, counted from 0; the others stay.
    pub fn set(&mut self, i: usize, v: u64)
        requires { i < length self.old }
        ensures { self.new ≡ slice_set self.old i v }
    {
        self.places.as_mut_slice()[i] = v;
    }

    /// Keeps the first coordinates, as many as are said, and lets the others go.
    pub fn truncate(&mut self, width: usize)
        requires some { 1 ≤ width }
        requires limit { width ≤ length self.old }
        ensures { self.new ≡ take width self.old }
    {
        self.places.truncate(width);
    }

    /// The sum.
    pub fn add(&self, alloc: Global, other: &Point) -> Result<Point, AllocError>
        requires width { length self.now ≡ length other.now }
        requires fits { All (λ x. x < 2 ^ 64) (add self.now other.now) }
        ensures { IfOk result (λ p. p ≡ add self.now other.now) }
    {
        let mut sum = self.copy(alloc)?;
        slices::add_to(sum.places.as_mut_slice(), other.as_slice());
        Ok(sum)
    }

    /// The difference, and `None` exactly where a coordinate would be negative.
    pub fn sub_checked(&self, alloc: Global, other: &Point) -> Result<Option<Point>, AllocError>
        requires width { length self.now ≡ length other.now }
        ensures nowhere_negative { IfOk result (λ d. IsSome d ↔ Divides other.now self.now) }
        ensures difference { IfOk result (λ d. IfSome d (λ p. p ≡ subtract self.now other.now)) }
    {
        if !other.divides(self) {
            return Ok(None);
        }
        let mut rest = self.copy(alloc)?;
        slices::subtract_from(rest.places.as_mut_slice(), other.as_slice());
        Ok(Some(rest))
    }

    /// Whether this point is at most the other in each coordinate.
    pub fn divides(&self, other: &Point) -> bool
        requires { length self.now ≡ length other.now }
        ensures { result ≡ divides self.now other.now }
    {
        slices::is_at_most(self.as_slice(), other.as_slice())
    }

    /// Whether no coordinate is positive in both points.
    pub fn disjoint(&self, other: &Point) -> bool
        requires { length self.now ≡ length other.now }
        ensures { result ≡ disjoint self.now other.now }
    {
        slices::is_disjoint(self.as_slice(), other.as_slice())
    }

    /// The greater number in each coordinate.
    pub fn lcm(&self, alloc: Global, other: &Point) -> Result<Point, AllocError>
        requires { length self.now ≡ length other.now }
        ensures { IfOk result (λ p. p ≡ lcm self.now other.now) }
    {
        let mut most = self.copy(alloc)?;
        slices::raise_to(most.places.as_mut_slice(), other.as_slice());
        Ok(most)
    }

    /// How many times this point fits into p: the greatest count whose multiple is at most p.
    pub fn times_in(&self, p: &Point) -> u64
        requires width { length self.now ≡ length p.now }
        requires positive { 1 ≤ total self.now }
        ensures { IsTimes self.now p.now result }
    {
        slices::greatest_count(self.as_slice(), p.as_slice())
    }

    /// Takes the head away and adds the tail, both so many times, in one pass and in place.
    pub fn shift(&mut self, head: &Point, tail: &Point, times: u64)
        requires head_width { length self.old ≡ length head.now }
        requires tail_width { length self.old ≡ length tail.now }
        requires at_most { Divides (scale times head.now) self.old }
        requires fits { All (λ x. x < 2 ^ 64) (add (subtract self.old (scale times head.now)) (scale times tail.now)) }
        ensures { self.new ≡ add (subtract self.old (scale times head.now)) (scale times tail.now) }
    {
        slices::shift_by(
            self.places.as_mut_slice(),
            head.as_slice(),
            tail.as_slice(),
            times,
        );
    }
}
