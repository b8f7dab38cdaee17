//! Sessions: who asks.
//!
//! A `Session` stands over a desk. It has one version pinned, whose number never falls, and answers by it: an ask pins
//! once and takes what it gets, a solve has the desk help until the answer is there. What it tells of the requests of a
//! script are its `Line`s.
#![tactic(auto)]

pub mod laws;
mod lines;
mod scripts;
mod sessions;
mod stops;

pub use lines::Line;
pub use sessions::Session;
pub use stops::SolveStop;
