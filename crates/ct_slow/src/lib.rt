//! The least point of a fiber by listing the fiber: the plain slow answer that every faster one is compared with.
#![tactic(auto)]

mod listing;

pub use listing::least_by_listing;
