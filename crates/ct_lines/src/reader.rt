//! The reader of a text, line by line.
ghost use Rattle.std.specs.Prelude.{◌≡◌, ◌∷◌, [], Bool, true, false, MatchOption, IfOk};
ghost use Rattle.ct_text.specs.Pieces.{split};
ghost use Rattle.ct_lines.specs.Reading.{Gives};
ghost use Rattle.ct_lines.specs.Wording.{Wording, read, read_from};
ghost use Rattle.ct_lines.specs.Stops.{Found};

use crate::stop::{LineStop, TextStop};
use ct_text::Pieces;

/// How the lines of one kind of text are read: what was read so far says what the next line may be.
///
/// In contracts a stage is seen as a value of the text's grammar (`next_line`), of which some stand for whole texts
/// (`is_closed`); `closed` is the one that stands for the text of a value. `IsStage` holds of every stage that is come to.
pub trait LineReader {
    type Stage: Drop;

    type Value: Drop;

    ghost Seen: { Type 0 };

    ghost seen: { Self.Stage → Seen };

    ghost next_line: { Seen → Wording Seen };

    ghost is_closed: { Seen → Bool };

    ghost closed: { Self.Value → Seen };

    ghost IsStage: { Self.Stage → Type 0 };

    /// What was read after one line more.
    fn stage_after(&self, stage: Self::Stage, line: &[u8]) -> Result<Self::Stage, LineStop>
        requires { IsStage stage }
        ensures gives { Gives seen result (read (next_line (seen stage)) (split 32 line.now)) }
        ensures stage { IfOk result IsStage };

    /// The value, if the text may end here.
    fn value_of(&self, stage: Self::Stage) -> Option<Self::Value>
        ensures { MatchOption result (is_closed (seen stage) ≡ false) (λ v. (seen stage ≡ closed v) × (is_closed (seen stage) ≡ true)) };
}

// What follows the last LF is no line: the text has ended, and nothing follows.
#[tactic(auto, unfolding(crate::specs::Wording::read_from))]
fn at_end<R: LineReader>(
    reader: &R,
    stage: R::Stage,
    last: &[u8],
    number: u64,
) -> Result<R::Value, TextStop>
    ensures { Found R.closed result (read_from R.next_line R.is_closed number (R.seen stage) (last.now ∷ [])) }
{
    if !last.is_empty() {
        return Err(TextStop::Fault { line: number });
    }
    match reader.value_of(stage) {
        Some(value) => Ok(value),
        None => Err(TextStop::Fault { line: number }),
    }
}

/// The value of a whole text, or the number of its line at fault. It goes once over the bytes.
pub fn read_text<R: LineReader>(
    reader: &R,
    first: R::Stage,
    bytes: &[u8],
) -> Result<R::Value, TextStop>
    requires { R.IsStage first }
    ensures { Found R.closed result (read_from R.next_line R.is_closed 1 (R.seen first) (split 10 bytes.now)) }
{
    let mut lines = Pieces::new(bytes, b'\n');
    let mut stage = first;
    let mut number = 1u64;
    while let Some(line) = lines.next() {
        if lines.is_end() {
            return at_end(reader, stage, line, number);
        }
        match reader.stage_after(stage, line) {
            Ok(after) => stage = after,
            Err(LineStop::Refused) => return Err(TextStop::Fault { line: number }),
            Err(LineStop::Memory) => return Err(TextStop::Memory),
        }
        number += 1;
    }
    Err(TextStop::Fault { line: number })
}
