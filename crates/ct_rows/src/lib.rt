//! Rows that no clause decides: that calls come through with memory, at the limits and with each kind of argument, and what a
//! session tells over a desk of its own.
#![tactic(auto)]

#[cfg(test)]
mod best_tests;
#[cfg(test)]
mod book_desk;
#[cfg(test)]
mod index_tests;
#[cfg(test)]
mod instance_tests;
#[cfg(test)]
mod line_tests;
#[cfg(test)]
mod list_tests;
#[cfg(test)]
mod point_tests;
#[cfg(test)]
mod report_tests;
#[cfg(test)]
mod slow_tests;
#[cfg(test)]
mod tests;
