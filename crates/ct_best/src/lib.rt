//! The k least solutions for a right-hand side, least first.
//!
//! Each solution but the least is one move of the test list, taken backwards, above a smaller solution (`laws`). So the
//! k least are found from the least on, in one ordered list of at most k points that is closed under such steps; the
//! points of the fiber are never listed.
#![tactic(auto)]

mod best_list;
pub mod laws;
mod ordered;
mod search;
mod steps;
mod stops;

pub use best_list::{BestList, best};
pub use search::least_found;
pub use stops::BestStop;
