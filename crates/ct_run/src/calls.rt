//! The top calls.
ghost use Rattle.std.specs.Prelude.{◌≡◌, ◌≤◌, false, ℕ, List, IfSome, option_map};
ghost use Rattle.ct_run.specs.Words.{IsCommandWithin};
ghost use Rattle.ct_run.specs.Commands.{seen};
ghost use Rattle.ct_run.specs.Outcome.{Wrote, is_stop};
ghost use Rattle.ct_run.specs.Plan.{plan_of, plan_in, batch_plan_in, plain_plan_in};
ghost use Rattle.ct_run.specs.Running.{Ends};
ghost use Rattle.ct_run.specs.Stopping.{Ran};
ghost use Rattle.ct_run.specs.Following.{Follows};

use crate::ending::Ending;
use crate::plain::{batch_ending, plain_ending};
use crate::service::Service;
use crate::serving::serve_ending;
use crate::status::Status;
use crate::stop::Stop;
use crate::words::{Command, command_in};
use crate::writing::finished;
use ct_answer::Options;
use ct_outside::{Shelf, Sink};
use ct_version::Gate;
use std::alloc::Global;
use std::sync::Wait;
use std::thread::Threads;

// How a run in one thread ends before it writes.
fn plain_run_ending<S: Shelf>(
    alloc: Global,
    words: &[String],
    shelf: &mut S,
) -> Result<Ending, Stop>
    ensures ran { Ran (plain_plan_in words.now) (S.told shelf.old) (S.faults shelf.old) (S.faults shelf.new) result }
    ensures kept { S.told shelf.new ≡ S.told shelf.old }
    ensures later { (name : List ℕ) → S.faults shelf.old name ≤ S.faults shelf.new name }
{
    match command_in(alloc, words) {
        Ok(command) => plain_ending(alloc, command, shelf),
        Err(_) => Err(Stop::Memory),
    }
}

// How a run whose threads never wait ends before it writes.
fn batch_run_ending<R: Threads + Sync, S: Shelf>(
    rt: &R,
    alloc: Global,
    words: &[String],
    shelf: &mut S,
) -> Result<Ending, Stop>
    ensures ran { Ran (batch_plan_in words.now) (S.told shelf.old) (S.faults shelf.old) (S.faults shelf.new) result }
    ensures kept { S.told shelf.new ≡ S.told shelf.old }
    ensures later { (name : List ℕ) → S.faults shelf.old name ≤ S.faults shelf.new name }
{
    match command_in(alloc, words) {
        Ok(command) => batch_ending(rt, alloc, command, shelf),
        Err(_) => Err(Stop::Memory),
    }
}

// The ending of a command, or of words that are none.
fn command_ending<R: Threads + Wait + Sync, S: Shelf, G: Gate + Sync>(
    rt: &R,
    alloc: Global,
    command: Option<Command<'_>>,
    shelf: &mut S,
    gate: &G,
) -> Result<Ending, Stop>
    requires { IfSome command (λ known. IsCommandWithin (seen known)) }
    ensures ran { Ran (plan_of (option_map seen command.entry)) (S.told shelf.old) (S.faults shelf.old) (S.faults shelf.new) result }
    ensures kept { S.told shelf.new ≡ S.told shelf.old }
    ensures later { (name : List ℕ) → S.faults shelf.old name ≤ S.faults shelf.new name }
{
    match command {
        Some(
            Command::Serve {
                instance,
                sessions,
                resume,
                workers,
                walks,
                levels,
                moves,
            },
        ) => {
            let options = Options {
                limit: moves,
                walks,
                levels,
            };
            let service = Service {
                rt,
                alloc,
                gate,
                workers,
                options,
            };
            serve_ending(&service, instance, sessions, resume, shelf)
        }
        Some(Command::On { .. } | Command::Make { .. }) | None => {
            batch_ending(rt, alloc, command, shelf)
        }
    }
}

// How a run ends before it writes.
fn run_ending<R: Threads + Wait + Sync, S: Shelf, G: Gate + Sync>(
    rt: &R,
    alloc: Global,
    words: &[String],
    shelf: &mut S,
    gate: &G,
) -> Result<Ending, Stop>
    ensures ran { Ran (plan_in words.now) (S.told shelf.old) (S.faults shelf.old) (S.faults shelf.new) result }
    ensures kept { S.told shelf.new ≡ S.told shelf.old }
    ensures later { (name : List ℕ) → S.faults shelf.old name ≤ S.faults shelf.new name }
{
    match command_in(alloc, words) {
        Ok(command) => command_ending(rt, alloc, command, shelf, gate),
        Err(_) => Err(Stop::Memory),
    }
}

/// Runs the command that the words after the program's name are, but not `serve`, and writes its text or the line of its
/// refusal: `answer INSTANCE SESSIONS` answers each request of the session file, an ask as a solve; `certify INSTANCE GRADE`
/// prints the ledger of the test set of a grade, `check INSTANCE LEDGER` checks a ledger, and `make NUMBER` answers the
/// requests of the input that is made of a number, and prints their summary. `--walks` shows the walk of each answer,
/// `--levels` the level of each phase, and `--moves N` keeps test lists to N moves. The words of `serve` and those with
/// `--batch` are Usage here.
///
/// It always returns. The files are held whole, and so is the text before the first write. The time is that of one
/// completion up to the greatest grade that is asked for, and of a walk for each request or of a pair of walks for each
/// entry of a ledger.
pub fn run_plain<S: Shelf, O: Sink>(
    alloc: Global,
    words: &[String],
    shelf: &mut S,
    out: &mut O,
) -> Status
    // A status that isn't one of three stops is that of what the words and files come to, and a whole text of it was written.
    ensures written { is_stop result ≡ false → Ends (plain_plan_in words.now) (S.told shelf.old) (Wrote result (O.held out.old) (O.held out.new)) }

    // Each status comes exactly where the words and files say so, a stop only with its cause; files are asked for in order.
    ensures follows { Follows S.told S.faults O.held O.faults (plain_plan_in words.now) shelf.old shelf.new out.old out.new result }
{
    let ended = plain_run_ending(alloc, words, shelf);
    finished(ended, out)
}

/// Runs the command that the words after the program's name are, but not `serve`, as [`run_plain`] does. With `--batch` the
/// requests of `answer` and the entries of `check` are dealt out to as many threads as there are processors: status and text
/// are those without it.
///
/// It never waits: with one processor, and where no thread can be made, the caller does the work. Memory is that of
/// [`run_plain`] and, with `--batch`, that of all answers with their walks twice, or of a few bytes an entry.
pub fn run_batch<R: Threads + Sync, S: Shelf, O: Sink>(
    rt: &R,
    alloc: Global,
    words: &[String],
    shelf: &mut S,
    out: &mut O,
) -> Status
    // A status that isn't one of three stops is that of what the words and files come to, and a whole text of it was written.
    ensures written { is_stop result ≡ false → Ends (batch_plan_in words.now) (S.told shelf.old) (Wrote result (O.held out.old) (O.held out.new)) }

    // Each status comes exactly where the words and files say so, a stop only with its cause; files are asked for in order.
    ensures follows { Follows S.told S.faults O.held O.faults (batch_plan_in words.now) shelf.old shelf.new out.old out.new result }
{
    let ended = batch_run_ending(rt, alloc, words, shelf);
    finished(ended, out)
}

/// Runs the command that the words after the program's name are, each command but `serve` as [`run_batch`] does.
/// `serve INSTANCE SESSIONS` answers the session file by sessions, while workers complete the test set up to the target of
/// their phase, all of them in threads of their own; `--workers N` says how many workers, 0 to 16, and 4 is what holds
/// without it. An ask that no version covers yet is told so. With `--resume LEDGER` the ledger of that file is checked first,
/// and where its moves are the test set of its grade they are what all sessions begin with. `--walks`, `--levels` and `--moves N` are as for `answer`.
///
/// It may wait where it serves. Memory and time are those of [`run_plain`]; the parts of a phase run beside each other, or one
/// after another where no thread can be made. At the gate the workers have the numbers from 1 on, and the sessions of a phase
/// those that follow.
pub fn run<R: Threads + Wait + Sync, S: Shelf, O: Sink, G: Gate + Sync>(
    rt: &R,
    alloc: Global,
    words: &[String],
    shelf: &mut S,
    out: &mut O,
    gate: &G,
) -> Status
    // Where the status is Done, the words are a command, its files are in their grammars, and what was appended is the whole
    // text of a legal report, or of what else the command writes; at each other status but three stops, the line of a refusal.
    ensures written { is_stop result ≡ false → Ends (plan_in words.now) (S.told shelf.old) (Wrote result (O.held out.old) (O.held out.new)) }

    // Each status comes exactly where the words and files say so, a stop only with its cause; files are asked for in order.
    ensures follows { Follows S.told S.faults O.held O.faults (plan_in words.now) shelf.old shelf.new out.old out.new result }
{
    let ended = run_ending(rt, alloc, words, shelf, gate);
    finished(ended, out)
}
