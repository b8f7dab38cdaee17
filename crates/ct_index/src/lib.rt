//!
//! A `HeadBlock` holds up to 128 values that have heads. It keeps the support that all its heads share, and is left at
//! once where the point lacks a coordinate of that; else a table of bits, by two coordinates and their exponents, says
//! which heads don't divide the point. A `HeadIndex` is a list of such blocks over heads of its own; `ct_walk` makes its
//! lists of moves of blocks too, so that no head is kept twice. `Places` are what a look-up needs of the point, made once
//! for all blocks. A look-up takes no memory.
#![tactic(auto)]

mod bits;
mod block;
mod headed;
mod index;
mod places;
mod support;
mod table;

pub use block::{BLOCK_SIZE, HeadBlock};
pub use headed::HasHead;
pub use index::HeadIndex;
pub use places::Places;
