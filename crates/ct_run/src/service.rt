//! How a script is served.

use ct_answer::Options;
use std::alloc::Global;

/// Who serves a script, and what is told.
#[derive(Drop)]
pub struct Service<'a, R, G> {
    pub rt: &'a R,
    pub alloc: Global,
    pub gate: &'a G,
    /// How many workers, 0 to 16.
    pub workers: u32,
    pub options: Options,
}
