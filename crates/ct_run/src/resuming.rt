//! `serve` with the moves of a ledger to begin with.
ghost use Rattle.ct_vectors.specs.declared.limits.TheConstants.{WORKER_LIMIT, GRADE_LIMIT};
ghost use Rattle.std.specs.Prelude.{◌≡◌, ◌≤◌, IfOk, length};
ghost use Rattle.ct_instance.specs.TestSet.{test_list};
ghost use Rattle.ct_form.specs.EqualityForms.{equal_of};
ghost use Rattle.ct_input.specs.Script.{IsScript};
ghost use Rattle.ct_form_report.specs.FormCases.{widened};
ghost use Rattle.ct_form_report.specs.Laws.{opened_case};
ghost use Rattle.ct_run.specs.Words.{IsLimit};
ghost use Rattle.ct_run.specs.Outcome.{IsServedReportOf, resumed};
ghost use Rattle.ct_run.specs.Plan.{case_of};
ghost use Rattle.ct_run.specs.Stopping.{EndedBy};

use crate::checking::ledger_in;
use crate::ending::{Ending, not_reduced_ending, refused_ending, told_ending};
use crate::service::Service;
use crate::status::Status;
use crate::stop::Stop;
use crate::telling::wide_script;
use ct_form::Form;
use ct_input::Script;
use ct_resume::{ResumeStop, Resumed, resume};
use ct_serve::serve_report_at;
use ct_version::Gate;
use std::alloc::AllocError;
use std::sync::{Arc, Wait};
use std::thread::Threads;

// The ending with the report that is served from these moves on.
fn opened_ending<R: Threads + Wait + Sync, G: Gate + Sync>(
    service: &Service<'_, R, G>,
    form: &Form,
    script: Script,
    resumed: Resumed,
) -> Result<Ending, AllocError>
    requires workers { service.now.workers ≤ WORKER_LIMIT }
    requires limit { IsLimit service.now.options.limit }
    requires script { IsScript form.now.rows script }
    requires grade { resumed.grade ≤ GRADE_LIMIT }
    requires instance { resumed.moves.instance ≡ equal_of form.now }
    requires list { resumed.moves.moves ≡ test_list (equal_of form.now) resumed.grade }
    requires most { length resumed.moves.moves ≤ service.now.options.limit }
    ensures status { IfOk result (λ ending. ending.status ≡ Status.Done) }
    ensures text { IfOk result (λ ending. IsServedReportOf (opened_case (case_of service.now.options form.now) resumed.grade) script ending.text) }
{
    let wide = wide_script(service.alloc, form, script)?;
    let report = serve_report_at(
        service.rt,
        service.alloc,
        form.equal(),
        resumed,
        &wide,
        service.workers,
        service.options,
        service.gate,
    )?;
    told_ending(service.alloc, form, report)
}

/// The ending of `serve` with the ledger of the bytes of a file to begin with. The bytes and the ledger are given up before
/// anything is served.
pub fn resumed_ending<R: Threads + Wait + Sync, G: Gate + Sync>(
    service: &Service<'_, R, G>,
    form: &Form,
    script: Script,
    bytes: Vec<u8>,
) -> Result<Ending, Stop>
    requires workers { service.now.workers ≤ WORKER_LIMIT }
    requires limit { IsLimit service.now.options.limit }
    requires script { IsScript form.now.rows script }
    ensures { EndedBy result (resumed (case_of service.now.options form.now) script bytes.items) }
{
    let ledger = ledger_in(service.alloc, bytes)?;
    let equal = Arc::try_clone(form.equal())?;
    match resume(service.alloc, equal, &ledger, service.options.limit) {
        Ok(moves) => {
            drop(ledger);
            Ok(opened_ending(service, form, script, moves)?)
        }
        Err(ResumeStop::Refused(line, reason)) => Ok(refused_ending(service.alloc, line, reason)?),
        Err(ResumeStop::NotReduced(number)) => Ok(not_reduced_ending(service.alloc, number)?),
        Err(ResumeStop::Memory) => Err(Stop::Memory),
    }
}
