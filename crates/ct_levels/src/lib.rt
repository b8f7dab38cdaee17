//! Laws of versions and their levels, of the full grade and of the reach, as contracts.
//!
//! The definitions stand in `ct_instance`: version k, its level and its list, the first version that covers a grade, and
//! how far a limit on the number of moves lets one come. The functions of `laws` say what a completion may rest on: a
//! version's list is the test list up to its level, each grade is covered by a first version, levels rise, and a full
//! grade is one that some version opens.
#![tactic(auto)]

pub mod laws;
