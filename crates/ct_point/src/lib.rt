//! Points: vectors of 1 to 80 natural numbers below 2^64, and lists that clauses see as their items.
//!
//! A `Point` is seen as its list of coordinates, and each call is the list arithmetic of `ct_vectors`. Up to 16
//! coordinates lie in the value itself (`smallvec`), so a point of that width takes no memory. The methods of a
//! point call the loops of `slices`, which work on slices in place.
#![tactic(auto)]

mod points;
mod sequence;
mod slices;

pub use points::Point;
pub use sequence::Seq;
