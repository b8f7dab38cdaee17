//! The refined order: which of two points is lower.
//!
//! A point has n coordinates `x`, each with a cost, and then m artificial ones. The lower of two points has the
//! smaller artificial total, then the smaller cost, row by row, then the smaller number at the first coordinate that
//! differs. The definitions are in `specs/Order.antt`, and `laws` says what holds of them.
#![tactic(auto)]

mod comparison;
mod cost_list;
mod costs;
pub mod laws;

pub use comparison::{art_total, compare, cost, costs_of, sum};
pub use cost_list::CostList;
pub use costs::Costs;
