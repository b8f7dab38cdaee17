//! Completing the test set of an instance for one caller.
//!
//! A `Solo` is completed grade by grade, as far as it is asked to, up to a greatest grade that is known when it opens. It
//! has no journal, no queue and one thread. Pairs of moves whose heads are coprime leave nothing and are never kept, and
//! pairs above the greatest grade bring nothing that is asked for: of the former their grades are kept, of the latter the
//! least grade, so that versions and levels are those of the definitions.
#![tactic(auto)]

mod agenda;
mod filling;
mod reducing;
mod solos;
mod steps;

pub use solos::Solo;
