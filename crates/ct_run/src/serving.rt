//! The command whose threads wait for one another.
ghost use Rattle.std.specs.Prelude.{◌≡◌, ◌≤◌, ℕ, List, option_map};
ghost use Rattle.ct_vectors.specs.declared.limits.TheConstants.{WORKER_LIMIT};
ghost use Rattle.ct_input.specs.Script.{IsScript};
ghost use Rattle.ct_run.specs.Words.{IsLimit};
ghost use Rattle.ct_run.specs.Plan.{case_of, instance_plan, served_plan, serve_plan};
ghost use Rattle.ct_run.specs.Stopping.{Ran};

use crate::ending::{Ending, served_ending};
use crate::reading::{file_at, form_at, script_at};
use crate::resuming::resumed_ending;
use crate::service::Service;
use crate::stop::Stop;
use ct_form::Form;
use ct_input::Script;
use ct_input::limits::LEDGER_FILE_LIMIT;
use ct_outside::Shelf;
use ct_version::Gate;
use std::sync::Wait;
use std::thread::Threads;

// The ending of a script that is served from the ledger file of this name on.
fn ledger_served<R: Threads + Wait + Sync, S: Shelf, G: Gate + Sync>(
    service: &Service<'_, R, G>,
    form: &Form,
    script: Script,
    ledger: &str,
    shelf: &mut S,
) -> Result<Ending, Stop>
    requires workers { service.now.workers ≤ WORKER_LIMIT }
    requires limit { IsLimit service.now.options.limit }
    requires script { IsScript form.now.rows script }
    ensures ran { Ran (served_plan (Some ledger.now) (case_of service.now.options form.now) script) (S.told shelf.old) (S.faults shelf.old) (S.faults shelf.new) result }
    ensures kept { S.told shelf.new ≡ S.told shelf.old }
    ensures later { (name : List ℕ) → S.faults shelf.old name ≤ S.faults shelf.new name }
{
    let bytes = file_at(service.alloc, ledger, LEDGER_FILE_LIMIT as u64, shelf)?;
    resumed_ending(service, form, script, bytes)
}

// The ending of a script that is served, from a ledger on where one is named.
fn script_served<R: Threads + Wait + Sync, S: Shelf, G: Gate + Sync>(
    service: &Service<'_, R, G>,
    form: &Form,
    script: Script,
    resume: Option<&str>,
    shelf: &mut S,
) -> Result<Ending, Stop>
    requires workers { service.now.workers ≤ WORKER_LIMIT }
    requires limit { IsLimit service.now.options.limit }
    requires script { IsScript form.now.rows script }
    ensures ran { Ran (served_plan (option_map (λ name. name.now) resume.entry) (case_of service.now.options form.now) script) (S.told shelf.old) (S.faults shelf.old) (S.faults shelf.new) result }
    ensures kept { S.told shelf.new ≡ S.told shelf.old }
    ensures later { (name : List ℕ) → S.faults shelf.old name ≤ S.faults shelf.new name }
{
    match resume {
        Some(ledger) => ledger_served(service, form, script, ledger, shelf),
        None => Ok(served_ending(service, form, script)?),
    }
}

/// The ending of `serve` on an instance file and a session file, and on a ledger file where one is named.
pub fn serve_ending<R: Threads + Wait + Sync, S: Shelf, G: Gate + Sync>(
    service: &Service<'_, R, G>,
    instance: &str,
    sessions: &str,
    resume: Option<&str>,
    shelf: &mut S,
) -> Result<Ending, Stop>
    requires workers { service.now.workers ≤ WORKER_LIMIT }
    requires limit { IsLimit service.now.options.limit }
    ensures ran { Ran (instance_plan instance.now (serve_plan sessions.now (option_map (λ name. name.now) resume.entry) service.now.options)) (S.told shelf.old) (S.faults shelf.old) (S.faults shelf.new) result }
    ensures kept { S.told shelf.new ≡ S.told shelf.old }
    ensures later { (name : List ℕ) → S.faults shelf.old name ≤ S.faults shelf.new name }
{
    let form = form_at(service.alloc, instance, shelf)?;
    let script = script_at(service.alloc, form.rows(), sessions, shelf)?;
    script_served(service, &form, script, resume, shelf)
}
