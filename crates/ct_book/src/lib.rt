//! The completion of a test set, grade by grade, with the journal of what was done.
#![tactic(auto)]

mod batches;
mod benches;
mod books;
mod bringing;
mod completing;
mod ends;
mod log;
mod opening;
mod outcomes;
mod publishing;
mod queue;
mod reducing;
mod remainders;
mod room;
mod tasks;

pub use batches::{Batch, Reduced};
pub use benches::Bench;
pub use books::Book;
pub use ct_completion::{Act, Entry};
pub use outcomes::{Committed, Next, Published, Step};
pub use remainders::Remainder;
pub use tasks::Task;
