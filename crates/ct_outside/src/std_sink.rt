//! What a writer takes.
ghost use Rattle.std.specs.Prelude.{◌≡◌, ◌≤◌, ◌<◌, length, is_ok, if◌then◌else◌, IfOk, IfErr, OnErr};
ghost use Rattle.std.specs.Io.KnownBytes.{WriteAppends};
ghost use Rattle.std.specs.IoError.{error_kind};
ghost use Rattle.std.specs.declared.io.ErrorKind.TheVariants.{Interrupted};
ghost use Rattle.ct_outside.specs.Faults.{Rose, one_more};

use crate::{Sink, SinkFailed};
use std::io;
use std::io::{ErrorKind, Write};

/// What a writer takes. It tells what the writer tells, and counts the writes that failed.
#[derive(Drop)]
pub struct StdSink<W> {
    to: W,
    faults: u64,
}

impl<W: Write> StdSink<W> {
    pub fn new(to: W) -> StdSink<W>
        ensures to { result.to ≡ to }
        ensures faults { result.faults ≡ 0 }
    {
        StdSink { to, faults: 0 }
    }
}

impl<W: Write> Sink for StdSink<W> {
    ghost held = { λ sink. W.contents sink.to };

    ghost faults = { λ sink. sink.faults };

    #[tactic(auto, using(crate::proofs::Retried::took_nothing))]
    fn write(&mut self, piece: &[u8]) -> Result<usize, SinkFailed>
        requires { 0 < length piece.now }
        ensures some { IfOk result (λ count. 0 < count) }
        ensures at_most { IfOk result (λ count. count ≤ length piece.now) }
        ensures appends { WriteAppends (W.contents self.old.to) (W.contents self.new.to) result piece.now }
        ensures later { self.old.faults ≤ self.new.faults }
        ensures cause { OnErr result (Rose self.old.faults self.new.faults) }
        ensures after { self.new.faults ≡ (if is_ok result then self.old.faults else one_more self.old.faults) }
    {
        // A writer that takes nothing would be asked forever.
        match written(&mut self.to, piece) {
            Ok(count) if count > 0 => Ok(count),
            _ => {
                self.faults = self.faults.saturating_add(1);
                Err(SinkFailed)
            }
        }
    }
}

// One write, again where it is interrupted.
#[tactic(auto, using(crate::proofs::Retried::retried))]
fn written<W: Write>(to: &mut W, piece: &[u8]) -> io::Result<usize>
    ensures at_most { IfOk result (λ count. count ≤ length piece.now) }
    ensures appends { WriteAppends (W.contents to.old) (W.contents to.new) result piece.now }
    ensures retried { IfErr result (λ error. error_kind error ≡ Interrupted → ⊥) }
{
    for _ in 0..u64::MAX {
        match to.write(piece) {
            Err(error) if error.kind() == ErrorKind::Interrupted => continue,
            outcome => return outcome,
        }
    }
    Err(io::Error::from(ErrorKind::Other))
}
