//! How a run ends before it writes.
ghost use Rattle.std.specs.Prelude.{◌≡◌, ◌≤◌, IfOk};
ghost use Rattle.ct_vectors.specs.declared.limits.TheConstants.{WORKER_LIMIT};
ghost use Rattle.ct_run.specs.Words.{IsLimit};
ghost use Rattle.ct_run.specs.Outcome.{usage, bad_instance, bad_sessions, answered, served, full};
ghost use Rattle.ct_run.specs.Plan.{case_of};
ghost use Rattle.ct_run.specs.Resumption.{not_reduced_text};
ghost use Rattle.ct_run.specs.Checked.{reason_text, accepted_text, refused_text, too_long_text, bad_line_text};
ghost use Rattle.ct_run.specs.Stopping.{Fits};
ghost use Rattle.ct_run.specs.Telling.{HasToldText};
ghost use Rattle.ct_input.specs.Script.{IsScript};

use crate::crew::Crew;
use crate::service::Service;
use crate::status::Status;
use crate::telling::{told_of, wide_script};
use ct_answer::Options;
use ct_checker::Reason;
use ct_form::Form;
use ct_input::{Fault, Script, push_fault};
use ct_point::Seq;
use ct_report::Report;
use ct_serve::serve_report;
use ct_text::push_natural;
use ct_version::Gate;
use std::alloc::{AllocError, Global};
use std::sync::{Arc, Wait};
use std::thread::Threads;

/// A status, and the text to be written with it.
#[derive(Debug, Drop)]
pub struct Ending {
    pub status: Status,
    pub text: Seq<u8>,
}

pub fn usage_ending(alloc: Global) -> Result<Ending, AllocError>
    ensures { IfOk result (λ ending. Fits usage ending) }
{
    Ok(Ending {
        status: Status::Usage,
        text: Seq::from_vec(Vec::from_slice(alloc, b"usage: ct COMMAND ARGUMENTS\n")?),
    })
}

pub fn bad_instance_ending(alloc: Global, fault: &Fault) -> Result<Ending, AllocError>
    ensures { IfOk result (λ ending. Fits (bad_instance fault.now) ending) }
{
    let mut text = Vec::from_slice(alloc, b"bad instance: ")?;
    push_fault(&mut text, fault)?;
    text.extend_from_slice(b"\n")?;
    Ok(Ending {
        status: Status::BadInstance,
        text: Seq::from_vec(text),
    })
}

pub fn bad_sessions_ending(alloc: Global, fault: &Fault) -> Result<Ending, AllocError>
    ensures { IfOk result (λ ending. Fits (bad_sessions fault.now) ending) }
{
    let mut text = Vec::from_slice(alloc, b"bad sessions: ")?;
    push_fault(&mut text, fault)?;
    text.extend_from_slice(b"\n")?;
    Ok(Ending {
        status: Status::BadSessions,
        text: Seq::from_vec(text),
    })
}

/// The ending with what is told of a report of the equality form.
pub fn told_ending(alloc: Global, form: &Form, report: Report) -> Result<Ending, AllocError>
    ensures { IfOk result (λ ending. (ending.status ≡ Status.Done) × HasToldText form.now report ending.text) }
{
    let told = told_of(alloc, form, report)?;
    Ok(Ending {
        status: Status::Done,
        text: Seq::from_vec(told.print(alloc)?),
    })
}

/// The ending of `answer`.
pub fn report_ending<C: Crew>(
    crew: &C,
    alloc: Global,
    form: &Form,
    script: Script,
    options: Options,
) -> Result<Ending, AllocError>
    requires crew { C.may_share crew.now }
    requires limit { IsLimit options.limit }
    requires script { IsScript form.now.rows script }
    ensures { IfOk result (λ ending. Fits (answered (case_of options form.now) script) ending) }
{
    let wide = wide_script(alloc, form, script)?;
    let report = crew.answer(alloc, Arc::try_clone(form.equal())?, &wide, options)?;
    told_ending(alloc, form, report)
}

/// The ending of `serve`.
pub fn served_ending<R: Threads + Wait + Sync, G: Gate + Sync>(
    service: &Service<'_, R, G>,
    form: &Form,
    script: Script,
) -> Result<Ending, AllocError>
    requires workers { service.now.workers ≤ WORKER_LIMIT }
    requires limit { IsLimit service.now.options.limit }
    requires script { IsScript form.now.rows script }
    ensures { IfOk result (λ ending. Fits (served (case_of service.now.options form.now) script) ending) }
{
    let wide = wide_script(service.alloc, form, script)?;
    let report = serve_report(
        service.rt,
        service.alloc,
        form.equal(),
        &wide,
        service.workers,
        service.options,
        service.gate,
    )?;
    told_ending(service.alloc, form, report)
}

/// The ending where the full grade, this one, is at most the grade that was asked for.
pub fn full_ending(alloc: Global, grade: u64) -> Result<Ending, AllocError>
    ensures { IfOk result (λ ending. Fits (full grade) ending) }
{
    let mut text = Vec::from_slice(alloc, b"full ")?;
    push_natural(&mut text, grade)?;
    text.extend_from_slice(b"\n")?;
    Ok(Ending {
        status: Status::Full,
        text: Seq::from_vec(text),
    })
}

pub fn long_ledger_ending(alloc: Global) -> Result<Ending, AllocError>
    ensures status { IfOk result (λ ending. ending.status ≡ Status.BadLedger) }
    ensures text { IfOk result (λ ending. ending.text ≡ too_long_text) }
{
    Ok(Ending {
        status: Status::BadLedger,
        text: Seq::from_vec(Vec::from_slice(alloc, b"bad ledger: too long\n")?),
    })
}

pub fn bad_ledger_ending(alloc: Global, line: u64) -> Result<Ending, AllocError>
    ensures status { IfOk result (λ ending. ending.status ≡ Status.BadLedger) }
    ensures text { IfOk result (λ ending. ending.text ≡ bad_line_text line) }
{
    let mut text = Vec::from_slice(alloc, b"bad ledger: line ")?;
    push_natural(&mut text, line)?;
    text.extend_from_slice(b"\n")?;
    Ok(Ending {
        status: Status::BadLedger,
        text: Seq::from_vec(text),
    })
}

pub fn accepted_ending(alloc: Global, grade: u64, moves: u32) -> Result<Ending, AllocError>
    ensures status { IfOk result (λ ending. ending.status ≡ Status.Done) }
    ensures text { IfOk result (λ ending. ending.text ≡ accepted_text grade moves) }
{
    let mut text = Vec::from_slice(alloc, b"accepted grade ")?;
    push_natural(&mut text, grade)?;
    text.extend_from_slice(b" moves ")?;
    push_natural(&mut text, moves as u64)?;
    text.extend_from_slice(b"\n")?;
    Ok(Ending {
        status: Status::Done,
        text: Seq::from_vec(text),
    })
}

pub fn refused_ending(alloc: Global, line: u64, reason: Reason) -> Result<Ending, AllocError>
    ensures status { IfOk result (λ ending. ending.status ≡ Status.LedgerRefused) }
    ensures text { IfOk result (λ ending. ending.text ≡ refused_text line reason) }
{
    let mut text = Vec::from_slice(alloc, b"refused: line ")?;
    push_natural(&mut text, line)?;
    text.extend_from_slice(b" ")?;
    text.extend_from_slice(reason_word(reason))?;
    text.extend_from_slice(b"\n")?;
    Ok(Ending {
        status: Status::LedgerRefused,
        text: Seq::from_vec(text),
    })
}

/// The ending where an accepted ledger isn't reduced first at the move with this number.
pub fn not_reduced_ending(alloc: Global, number: u32) -> Result<Ending, AllocError>
    ensures status { IfOk result (λ ending. ending.status ≡ Status.NotReduced) }
    ensures text { IfOk result (λ ending. ending.text ≡ not_reduced_text number) }
{
    let mut text = Vec::from_slice(alloc, b"not reduced: move ")?;
    push_natural(&mut text, number as u64)?;
    text.extend_from_slice(b"\n")?;
    Ok(Ending {
        status: Status::NotReduced,
        text: Seq::from_vec(text),
    })
}

fn reason_word(reason: Reason) -> &'static [u8]
    ensures { result.now ≡ reason_text reason }
{
    match reason {
        Reason::Size => b"size",
        Reason::Grade => b"grade",
        Reason::Degree => b"degree",
        Reason::Order => b"order",
        Reason::Entry => b"entry",
        Reason::Coprime => b"coprime",
        Reason::Step => b"step",
        Reason::End => b"end",
    }
}
