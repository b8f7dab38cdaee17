//! Many right-hand sides and the entries of a ledger, in as many threads as there are processors.
//!
//! What comes is what one thread gives, item by item: nothing is shared but what is only read, and no answer depends on
//! which item was looked at first. A list that is shorter than some two thousand items is done in the caller's thread.
#![tactic(auto)]

mod answering;
mod checking;
mod reasons;

pub use answering::answer_batch;
pub use checking::check_batch;
