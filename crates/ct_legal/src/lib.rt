//! Legal reports: what a run may tell, over plain values.
//!
//! A `Case` says what a run is of: the instance, the limit on the number of moves, the options, and what is shown of an
//! answer. For a script `IsLegalServed` has one line for each request, the level of each phase where levels are asked for,
//! and the walk of each answer where walks are. `IsLegalAnswered` takes each ask as a solve. The functions of `laws` say
//! that there is at most one such report, and that without asks both are the same.
#![tactic(auto)]

pub mod laws;
