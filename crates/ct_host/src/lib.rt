//! A host: a completion book behind a counting lock, and its newest version in a cell that is read without waiting.
//!
//! Each thread works with a pass of its own. By its pass it pins the newest version, for which it waits for nobody; it
//! takes steps of the book, for which it gets the lock once each; or it helps until a version covers a grade. A bench is a
//! host with a pass on which a worker works, a desk one at which a session sits. Who has all passes again closes the host,
//! and gets the journal, which agrees with what the passes count.
#![tactic(auto)]

mod benches;
mod closing;
mod desks;
mod helping;
mod homes;
mod host;
mod locked;
mod names;
mod newest;
mod opening;
mod passes;
mod pinning;
mod stepping;

pub use benches::HostBench;
pub use closing::Closed;
pub use desks::{HostDesk, OwnDesk};
pub use homes::HostHome;
pub use host::Host;
pub use passes::HostPass;
