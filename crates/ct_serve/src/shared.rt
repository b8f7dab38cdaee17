//! What all parts of a run share.

use ct_answer::Options;
use ct_host::Host;
use ct_instance::Instance;
use std::alloc::Global;
use std::sync::Arc;

/// What all parts of a run share.
#[derive(Drop)]
pub struct Shared<'a, R, G> {
    pub rt: &'a R,
    pub alloc: Global,
    /// The host, and its instance.
    pub host: &'a Host,
    pub inst: &'a Arc<Instance>,
    pub gate: &'a G,
    /// What is told, with the host's limit on the number of moves.
    pub options: Options,
}
