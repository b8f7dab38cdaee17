//! What takes bytes.
ghost use Rattle.std.specs.Prelude.{◌≤◌, ◌<◌, ℕ, List, Option, length, IfOk, OnErr};
ghost use Rattle.std.specs.Io.KnownBytes.{WriteAppends};
ghost use Rattle.ct_outside.specs.Faults.{Rose};

use thiserror::Error;

/// A sink took nothing of a piece, and has counted it.
#[derive(Clone, Copy, Debug, PartialEq, Eq, Error)]
#[error("nothing could be written")]
pub struct SinkFailed;

/// Takes bytes.
pub trait Sink {
    /// The bytes held, where the sink tells them.
    ghost held: { Self → Option (List ℕ) };

    /// How often a write has failed.
    ghost faults: { Self → ℕ };

    /// Appends the first bytes of the piece, one at least, and answers how many. A failed write
    /// appends none.
    fn write(&mut self, piece: &[u8]) -> Result<usize, SinkFailed>
        requires { 0 < length piece.now }
        ensures some { IfOk result (λ count. 0 < count) }
        ensures at_most { IfOk result (λ count. count ≤ length piece.now) }
        ensures appends { WriteAppends (held self.old) (held self.new) result piece.now }
        ensures later { faults self.old ≤ faults self.new }
        ensures cause { OnErr result (Rose (faults self.old) (faults self.new)) };
}
