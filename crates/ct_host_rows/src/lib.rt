//! Rows of the cell, the lock and the host, over the built crates.
#![tactic(auto)]

#[cfg(test)]
mod cell_tests;
#[cfg(test)]
mod host_tests;
#[cfg(test)]
mod lock_tests;
