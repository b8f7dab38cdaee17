//! Gates.
use std::sync::Wait;

/// What a worker or a session passes before each of its steps. It tells nothing, and changes nothing that the steps
/// see: a test holds a thread by it.
pub trait Gate {
    /// The worker or session `who` is about to make its step `turn`, counted from 0.
    fn before<R: Wait>(&self, rt: &R, who: u32, turn: u64);
}

/// A gate that is always open.
#[derive(Clone, Copy, Debug, Default)]
pub struct NoGate;

impl Gate for NoGate {
    fn before<R: Wait>(&self, _: &R, _: u32, _: u64) {}
}
