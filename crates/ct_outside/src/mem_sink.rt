//! Bytes in memory, whose write can be short or made to fail.
ghost use Rattle.std.specs.Prelude.{◌≡◌, ◌≤◌, ◌<◌, ◌++◌, ◌∷◌, [], ℕ, Some, length, vec_len, vec_capacity, ◌+◌, IfOk, OnOk, OnErr};
ghost use Rattle.std.specs.Result.{result_ok};
ghost use Rattle.std.specs.Io.KnownBytes.{WriteAppends};
ghost use Rattle.ct_outside.specs.Faults.{Rose};
ghost use Rattle.ct_outside.specs.MemSink.{empty_sink, next_taken, after_write};

use crate::{Sink, SinkFailed};
use std::alloc::{AllocError, Global};
use std::marker::Model;

/// Bytes in memory. It tells what it holds.
#[derive(Drop)]
pub struct MemSink {
    bytes: Vec<u8>,
    bite: u64,
    room: u64,
    writes: u64,
    failing: Vec<u64>,
    faults: u64,
}

impl Model for MemSink {
    ghost use Rattle.std.specs.Prelude.{◌≤◌, ◌<◌, length, vec_capacity};
    ghost use Rattle.ct_outside.specs.MemSink.{SinkState};
    ghost use Rattle.ct_outside.specs.MemRoom.{HasRoom};

    ghost Value = { SinkState };

    ghost view = { λ a. record { held = a.bytes.items; bite = a.bite; room = a.room; writes = a.writes; failing = a.failing.items; faults = a.faults } };

    ghost invariant = { λ a. HasRoom a.bytes a.bite a.room };
}

impl MemSink {
    /// A sink that takes at most `bite` bytes in one write and `room` bytes in all. The memory for
    /// them is taken here.
    pub fn new(alloc: Global, bite: u64, room: u64) -> Result<MemSink, AllocError>
        requires { 1 ≤ bite }
        ensures { IfOk result (λ sink. sink ≡ empty_sink bite room) }
    {
        Ok(MemSink {
            bytes: Vec::with_capacity(alloc, room as usize)?,
            bite,
            room,
            writes: 0,
            failing: Vec::new(alloc),
            faults: 0,
        })
    }

    /// The write with this number fails, the first being 1.
    pub fn fail_at(&mut self, _alloc: Global, call: u64) -> Result<(), AllocError>
        ensures ok { OnOk result (self.new ≡ record self.old { failing = self.old.failing ++ call ∷ [] }) }
        ensures err { OnErr result (self.new ≡ self.old) }
    {
        self.failing.push(call)?;
        Ok(())
    }

    /// The bytes taken so far.
    pub fn held(&self) -> &[u8]
        ensures { result.now ≡ self.now.held }
    {
        &self.bytes
    }
}

impl Sink for MemSink {
    ghost held = { λ sink. Some sink.held };

    ghost faults = { λ sink. sink.faults };

    fn write(&mut self, piece: &[u8]) -> Result<usize, SinkFailed>
        requires { 0 < length piece.now }
        ensures some { IfOk result (λ count. 0 < count) }
        ensures at_most { IfOk result (λ count. count ≤ length piece.now) }
        ensures appends { WriteAppends (Some self.old.held) (Some self.new.held) result piece.now }
        ensures later { self.old.faults ≤ self.new.faults }
        ensures cause { OnErr result (Rose self.old.faults self.new.faults) }

        // It fails where it is told to, and where the room is used up.
        ensures taken { result_ok result ≡ next_taken self.old piece.now }
        ensures after { self.new ≡ after_write self.old piece.now (next_taken self.old piece.now) }
    {
        self.writes = self.writes.saturating_add(1);
        let spare = self.room - self.bytes.len() as u64;
        if spare == 0 || self.failing.contains(&self.writes) {
            self.faults = self.faults.saturating_add(1);
            return Err(SinkFailed);
        }
        let count = piece.len().min(self.bite.min(spare) as usize);
        append(&mut self.bytes, &piece[..count]);
        Ok(count)
    }
}

// Appends bytes for which the vector has room.
fn append(bytes: &mut Vec<u8>, piece: &[u8])
    requires { vec_len bytes.old + length piece.now ≤ vec_capacity bytes.old }
    ensures items { bytes.new.items ≡ bytes.old.items ++ piece.now }
    ensures room { vec_capacity bytes.old ≤ vec_capacity bytes.new }
{
    if bytes.extend_from_slice(piece).is_err() {
        unreachable!()
    }
}
