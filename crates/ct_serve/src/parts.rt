//! The parts of a phase.

use ct_host::HostPass;
use ct_input::Request;
use ct_point::Seq;
use ct_session::Line;
use ct_version::{FullMark, Helped};
use std::alloc::AllocError;

/// What a part does.
#[derive(Clone, Copy, Drop)]
pub enum Job<'a> {
    /// Nothing: its pass is for a phase with more sessions.
    Idle,
    /// Takes steps up to a grade.
    Work { target: u64 },
    /// Runs the requests of a session.
    Run { requests: &'a Seq<Request> },
}

/// What is run in a thread of its own, where one can be made.
#[derive(Drop)]
pub struct Part<'a> {
    pub pass: HostPass,
    /// Its number at the gate.
    pub who: u32,
    pub job: Job<'a>,
}

/// How a part ends.
#[derive(Drop)]
pub enum End {
    /// It had nothing to do.
    Rested,
    /// Its target is reached.
    Reached(Helped),
    /// The limit on the number of moves stands before its target.
    Stopped(FullMark),
    /// All its requests are told.
    Told(Seq<Line>),
}

/// What a part keeps at its end.
#[derive(Drop)]
pub struct Kept {
    pub pass: HostPass,
    pub end: End,
}

/// A part that has ended, with want of memory or without.
#[derive(Drop)]
pub struct Done<'a> {
    pub job: Job<'a>,
    pub outcome: Result<Kept, AllocError>,
}
