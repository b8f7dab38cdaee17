//! The summary of a made input.
ghost use Rattle.std.specs.Prelude.{IfOk};
ghost use Rattle.ct_run.specs.Outcome.{made as made_outcome};
ghost use Rattle.ct_run.specs.Stopping.{Fits};

use crate::ending::Ending;
use crate::sharing::shared;
use crate::status::Status;
use ct_answer::{Options, answer_counted};
use ct_gen::{Summary, Tally, made};
use ct_point::Seq;
use ct_vectors::limits::MOVE_LIMIT;
use std::alloc::{AllocError, Global};

/// The ending of `make`. It takes the memory of the report, about as much as that of the book.
pub fn made_ending(alloc: Global, number: u64) -> Result<Ending, AllocError>
    ensures { IfOk result (λ ending. Fits (made_outcome number) ending) }
{
    let (inst, script) = made(alloc, number)?;
    // for what an instance keeps
    let _rows = inst.rows();
    let options = Options {
        limit: MOVE_LIMIT as u32,
        walks: false,
        levels: false,
    };
    let (report, extent) = answer_counted(alloc, shared(alloc, inst)?, &script, options)?;
    let tally = Tally::of(&report);
    let summary = Summary::of(number, tally, extent.moves, extent.level);
    Ok(Ending {
        status: Status::Done,
        text: Seq::from_vec(summary.print(alloc)?),
    })
}
