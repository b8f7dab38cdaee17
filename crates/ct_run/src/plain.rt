//! The commands whose threads, if they take any, never wait.
ghost use Rattle.std.specs.Prelude.{◌≡◌, ◌≤◌, false, ℕ, List, IfSome, option_map};
ghost use Rattle.ct_form.specs.EqualityForms.{equal_of};
ghost use Rattle.ct_run.specs.Words.{IsLimit, IsBestCount, IsWorkWithin, IsCommandWithin};
ghost use Rattle.ct_run.specs.Commands.{work_seen, seen};
ghost use Rattle.ct_run.specs.Plan.{sessions_plan, best_plan, box_plan, check_plan, work_plan, instance_plan, plan_of, batch_of, plain_of};
ghost use Rattle.ct_run.specs.Stopping.{Ran};

use crate::boxing::box_ending;
use crate::certifying::certify_ending;
use crate::checking::check_ending;
use crate::crew::{Crew, OneThread, Several};
use crate::ending::{Ending, report_ending, usage_ending};
use crate::listing::best_ending;
use crate::making::made_ending;
use crate::reading::{file_at, form_at, script_at};
use crate::stop::Stop;
use crate::words::{Command, Work};
use ct_answer::Options;
use ct_form::Form;
use ct_input::limits::LEDGER_FILE_LIMIT;
use ct_outside::Shelf;
use rayon::current_num_threads;
use std::alloc::Global;
use std::sync::Arc;
use std::thread::Threads;

// The ending of `answer` on the session file of a form.
fn sessions_ending<C: Crew, S: Shelf>(
    crew: &C,
    alloc: Global,
    form: &Form,
    sessions: &str,
    options: Options,
    shelf: &mut S,
) -> Result<Ending, Stop>
    requires crew { C.may_share crew.now }
    requires limit { IsLimit options.limit }
    ensures ran { Ran (sessions_plan sessions.now options form.now) (S.told shelf.old) (S.faults shelf.old) (S.faults shelf.new) result }
    ensures kept { S.told shelf.new ≡ S.told shelf.old }
    ensures later { (name : List ℕ) → S.faults shelf.old name ≤ S.faults shelf.new name }
{
    let script = script_at(alloc, form.rows(), sessions, shelf)?;
    Ok(report_ending(crew, alloc, form, script, options)?)
}

// The ending of `best` on the session file of a form.
fn listed_ending<S: Shelf>(
    alloc: Global,
    form: &Form,
    sessions: &str,
    count: u64,
    options: Options,
    shelf: &mut S,
) -> Result<Ending, Stop>
    requires limit { IsLimit options.limit }
    requires count { IsBestCount count }
    requires plain { (options.walks ≡ false) × (options.levels ≡ false) }
    ensures ran { Ran (best_plan sessions.now count options form.now) (S.told shelf.old) (S.faults shelf.old) (S.faults shelf.new) result }
    ensures kept { S.told shelf.new ≡ S.told shelf.old }
    ensures later { (name : List ℕ) → S.faults shelf.old name ≤ S.faults shelf.new name }
{
    let script = script_at(alloc, form.rows(), sessions, shelf)?;
    Ok(best_ending(alloc, form, script, count, options)?)
}

// The ending of `box` on the session file of a form.
fn boxed_ending<S: Shelf>(
    alloc: Global,
    form: &Form,
    sessions: &str,
    moves: u32,
    walks: bool,
    shelf: &mut S,
) -> Result<Ending, Stop>
    requires limit { IsLimit moves }
    ensures ran { Ran (box_plan sessions.now moves walks form.now) (S.told shelf.old) (S.faults shelf.old) (S.faults shelf.new) result }
    ensures kept { S.told shelf.new ≡ S.told shelf.old }
    ensures later { (name : List ℕ) → S.faults shelf.old name ≤ S.faults shelf.new name }
{
    let script = script_at(alloc, form.rows(), sessions, shelf)?;
    Ok(box_ending(alloc, form, &script, moves, walks)?)
}

// The ending of `check` on the ledger file.
fn ledger_ending<C: Crew, S: Shelf>(
    crew: &C,
    alloc: Global,
    form: &Form,
    ledger: &str,
    shelf: &mut S,
) -> Result<Ending, Stop>
    requires crew { C.may_share crew.now }
    ensures ran { Ran (check_plan ledger.now (equal_of form.now)) (S.told shelf.old) (S.faults shelf.old) (S.faults shelf.new) result }
    ensures kept { S.told shelf.new ≡ S.told shelf.old }
    ensures later { (name : List ℕ) → S.faults shelf.old name ≤ S.faults shelf.new name }
{
    let bytes = file_at(alloc, ledger, LEDGER_FILE_LIMIT as u64, shelf)?;
    check_ending(crew, alloc, form.equal(), bytes)
}

// The ending of the work on a form.
fn work_ending<C: Crew, S: Shelf>(
    crew: &C,
    alloc: Global,
    work: Work<'_>,
    form: &Form,
    shelf: &mut S,
) -> Result<Ending, Stop>
    requires crew { C.may_share crew.now }
    requires work { IsWorkWithin (work_seen work) }
    ensures ran { Ran (work_plan (work_seen work.entry) form.now) (S.told shelf.old) (S.faults shelf.old) (S.faults shelf.new) result }
    ensures kept { S.told shelf.new ≡ S.told shelf.old }
    ensures later { (name : List ℕ) → S.faults shelf.old name ≤ S.faults shelf.new name }
{
    match work {
        Work::Answer {
            sessions,
            walks,
            levels,
            moves,
            ..
        } => {
            let options = Options {
                limit: moves,
                walks,
                levels,
            };
            sessions_ending(crew, alloc, form, sessions, options, shelf)
        }
        Work::Best {
            sessions,
            count,
            moves,
        } => {
            let options = Options {
                limit: moves,
                walks: false,
                levels: false,
            };
            listed_ending(alloc, form, sessions, count, options, shelf)
        }
        Work::Box {
            sessions,
            walks,
            moves,
        } => boxed_ending(alloc, form, sessions, moves, walks, shelf),
        Work::Certify { grade, moves } => {
            let equal = Arc::try_clone(form.equal())?;
            Ok(certify_ending(alloc, equal, grade, moves)?)
        }
        Work::Check { ledger, .. } => ledger_ending(crew, alloc, form, ledger, shelf),
    }
}

// The ending of the work on the form of an instance file.
fn instance_ending<C: Crew, S: Shelf>(
    crew: &C,
    alloc: Global,
    instance: &str,
    work: Work<'_>,
    shelf: &mut S,
) -> Result<Ending, Stop>
    requires crew { C.may_share crew.now }
    requires work { IsWorkWithin (work_seen work) }
    ensures ran { Ran (instance_plan instance.now (work_plan (work_seen work.entry))) (S.told shelf.old) (S.faults shelf.old) (S.faults shelf.new) result }
    ensures kept { S.told shelf.new ≡ S.told shelf.old }
    ensures later { (name : List ℕ) → S.faults shelf.old name ≤ S.faults shelf.new name }
{
    let form = form_at(alloc, instance, shelf)?;
    work_ending(crew, alloc, work, &form, shelf)
}

// The ending of a command but `serve`, or of words that are none.
fn crew_ending<C: Crew, S: Shelf>(
    crew: &C,
    alloc: Global,
    command: Option<Command<'_>>,
    shelf: &mut S,
) -> Result<Ending, Stop>
    requires crew { C.may_share crew.now }
    requires command { IfSome command (λ known. IsCommandWithin (seen known)) }
    ensures ran { Ran (plan_of (batch_of (option_map seen command.entry))) (S.told shelf.old) (S.faults shelf.old) (S.faults shelf.new) result }
    ensures kept { S.told shelf.new ≡ S.told shelf.old }
    ensures later { (name : List ℕ) → S.faults shelf.old name ≤ S.faults shelf.new name }
{
    match command {
        Some(Command::On { instance, work }) => instance_ending(crew, alloc, instance, work, shelf),
        Some(Command::Make { number }) => Ok(made_ending(alloc, number)?),
        Some(Command::Serve { .. }) | None => Ok(usage_ending(alloc)?),
    }
}

// The command, where one thread does it.
fn in_one_thread(command: Option<Command<'_>>) -> Option<Command<'_>>
    requires { IfSome command (λ known. IsCommandWithin (seen known)) }
    ensures plain { option_map seen result ≡ plain_of (option_map seen command.entry) }
    ensures within { IfSome result (λ known. IsCommandWithin (seen known)) }
{
    match command {
        Some(Command::On { instance, work }) => {
            if work.is_batch() {
                None
            } else {
                Some(Command::On { instance, work })
            }
        }
        Some(Command::Make { number }) => Some(Command::Make { number }),
        Some(Command::Serve { .. }) | None => None,
    }
}

/// The ending of a command that one thread does, or of words that are none.
pub fn plain_ending<S: Shelf>(
    alloc: Global,
    command: Option<Command<'_>>,
    shelf: &mut S,
) -> Result<Ending, Stop>
    requires { IfSome command (λ known. IsCommandWithin (seen known)) }
    ensures ran { Ran (plan_of (plain_of (option_map seen command.entry))) (S.told shelf.old) (S.faults shelf.old) (S.faults shelf.new) result }
    ensures kept { S.told shelf.new ≡ S.told shelf.old }
    ensures later { (name : List ℕ) → S.faults shelf.old name ≤ S.faults shelf.new name }
{
    crew_ending(&OneThread, alloc, in_one_thread(command), shelf)
}

// Whether the command is one that several threads may do.
fn is_batch(command: &Option<Command<'_>>) -> bool {
    match command {
        Some(Command::On { work, .. }) => work.is_batch(),
        Some(Command::Make { .. } | Command::Serve { .. }) | None => false,
    }
}

/// The ending of a command but `serve`, or of words that are none, in several threads where the words say so and there are
/// processors for them.
pub fn batch_ending<R: Threads + Sync, S: Shelf>(
    rt: &R,
    alloc: Global,
    command: Option<Command<'_>>,
    shelf: &mut S,
) -> Result<Ending, Stop>
    requires { IfSome command (λ known. IsCommandWithin (seen known)) }
    ensures ran { Ran (plan_of (batch_of (option_map seen command.entry))) (S.told shelf.old) (S.faults shelf.old) (S.faults shelf.new) result }
    ensures kept { S.told shelf.new ≡ S.told shelf.old }
    ensures later { (name : List ℕ) → S.faults shelf.old name ≤ S.faults shelf.new name }
{
    if is_batch(&command) && current_num_threads(rt) > 1 {
        crew_ending(&Several { rt }, alloc, command, shelf)
    } else {
        crew_ending(&OneThread, alloc, command, shelf)
    }
}
