//! Answers by a box.
ghost use Rattle.std.specs.Prelude.{IfOk};
ghost use Rattle.ct_input.specs.Script.{IsScript};
ghost use Rattle.ct_run.specs.Words.{IsLimit};
ghost use Rattle.ct_run.specs.Outcome.{boxed};
ghost use Rattle.ct_run.specs.Stopping.{Fits};

use crate::ending::Ending;
use crate::status::Status;
use ct_box_report::box_report;
use ct_form::Form;
use ct_input::Script;
use ct_point::Seq;
use std::alloc::{AllocError, Global};

/// The ending of `box` with at most so many moves.
pub fn box_ending(
    alloc: Global,
    form: &Form,
    script: &Script,
    moves: u32,
    walks: bool,
) -> Result<Ending, AllocError>
    requires limit { IsLimit moves }
    requires script { IsScript form.now.rows script.now }
    ensures { IfOk result (λ ending. Fits (boxed form.now moves walks script.now) ending) }
{
    let report = box_report(alloc, form, script, moves, walks)?;
    Ok(Ending {
        status: Status::Done,
        text: Seq::from_vec(report.print(alloc)?),
    })
}
