//! Lists of natural numbers as points: sum, truncated difference, multiple, least common multiple, the
//! order in each coordinate, and disjoint support. And the limits of the subject.
//!
//! The crate has definitions (`specs/Vectors.antt`), lemmas about them (`proofs/`) and constants, and no other code:
//! the vectors of `ct_point`, the order of `ct_order` and the subject of `ct_instance` all cite it.
#![tactic(auto)]

pub mod limits;
