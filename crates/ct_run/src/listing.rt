//! The least solutions of each request.
ghost use Rattle.std.specs.Prelude.{◌≡◌, ◌≤◌, ◌*◌, false, length, nat_lt, IfOk};
ghost use Rattle.ct_input.specs.Script.{IsScript};
ghost use Rattle.ct_run.specs.Words.{IsLimit, IsBestCount};
ghost use Rattle.ct_run.specs.Outcome.{too_many};
ghost use Rattle.ct_run.specs.Plan.{case_of, listed_or_too_many};
ghost use Rattle.ct_run.specs.Stopping.{Fits};

use crate::ending::Ending;
use crate::status::Status;
use crate::telling::wide_script;
use ct_answer::Options;
use ct_best_report::{best_report, rights_of};
use ct_form::Form;
use ct_input::Script;
use ct_point::Seq;
use ct_text::push_natural;
use std::alloc::{AllocError, Global};
use std::sync::Arc;

// Whether so many requests times the count are above 10,000.
fn is_too_many(requests: usize, count: u64) -> bool
    requires { count ≤ 100 }
    ensures { result ≡ nat_lt 10000 (requests * count) }
{
    requests as u128 * count as u128 > 10_000
}

fn too_many_ending(alloc: Global, requests: u64) -> Result<Ending, AllocError>
    ensures { IfOk result (λ ending. Fits (too_many requests) ending) }
{
    let mut text = Vec::from_slice(alloc, b"too many: ")?;
    push_natural(&mut text, requests)?;
    text.extend_from_slice(b" requests\n")?;
    Ok(Ending {
        status: Status::TooMany,
        text: Seq::from_vec(text),
    })
}

/// The ending of `best`: the text of the least solutions, or the refusal of too many.
pub fn best_ending(
    alloc: Global,
    form: &Form,
    script: Script,
    count: u64,
    options: Options,
) -> Result<Ending, AllocError>
    requires limit { IsLimit options.limit }
    requires count { IsBestCount count }
    requires plain { (options.walks ≡ false) × (options.levels ≡ false) }
    requires script { IsScript form.now.rows script }
    ensures { IfOk result (λ ending. Fits (listed_or_too_many (case_of options form.now) (length form.now.columns) count script) ending) }
{
    let wide = wide_script(alloc, form, script)?;
    let rights = rights_of(alloc, &wide)?;
    if is_too_many(rights.len(), count) {
        return too_many_ending(alloc, rights.len() as u64);
    }
    let shared = Arc::try_clone(form.equal())?;
    let report = best_report(
        alloc,
        shared,
        &rights,
        options.limit,
        form.columns(),
        count as u32,
    )?;
    Ok(Ending {
        status: Status::Done,
        text: Seq::from_vec(report.print(alloc)?),
    })
}
