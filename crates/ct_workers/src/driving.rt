//! Turns of passes at one book, one after the other.
ghost use Rattle.std.specs.Prelude.{◌≡◌, ◌<◌, ◌≤◌, ◌++◌, ◌∷◌, [], All, IfOk, OnErr, List};
ghost use Rattle.ct_vectors.specs.declared.limits.TheConstants.{GRADE_LIMIT};
ghost use Rattle.ct_completion.specs.declared.journals.Entry.{Entry};
ghost use Rattle.ct_workers.specs.declared.turns.Turned.TheVariants.{Took};
ghost use Rattle.ct_book.specs.Books.{BookSeen, Runs};
ghost use Rattle.ct_workers.specs.Turns.{Driven, AreOf, IsTurnOf, IsTake, IsCommit, IsLoss, IsTurn, IsDriven, first_of, without_first};

use crate::held::Backlog;
use crate::turns::{Turn, Turned};
use ct_book::{Book, Committed, Step, Task};
use std::alloc::{AllocError, Global};

/// Does what the passes do in this order, in one thread, and answers each turn: any interleaving of workers at one book,
/// with work that is done twice and work that is lost. Before the first turn no pass keeps anything; what is kept at the
/// end is lost. It is linear in the turns and in what is kept, beside the steps of the book.
///
/// After want of memory the steps that were made stand, and what was kept is lost, as by workers that end.
#[tactic(auto, using(crate::proofs::Steps::number_rises, crate::proofs::Steps::journal_grows))]
pub fn drive(
    alloc: Global,
    book: &mut Book,
    turns: &[Turn],
    target: u64,
) -> Result<Vec<Turned>, AllocError>
    requires turns { All (IsTurnOf book.old.passes) turns.now }
    requires target { target ≤ GRADE_LIMIT }
    ensures turns { IfOk result (λ answers. IsDriven target book.old turns.now answers.items book.new) }
    ensures runs { Runs book.old book.new }
    ensures number { book.old.state.number ≤ book.new.state.number }
    ensures journal { (more : List Entry) × (book.new.journal ≡ book.old.journal ++ more) }
{
    let mut kept = Backlog::new(alloc);
    let mut answers = Vec::new(alloc);
    for turn in turns {
        answers.push(done(alloc, book, &mut kept, *turn, target)?)?;
    }
    Ok(answers)
}

// One turn.
fn done(
    alloc: Global,
    book: &mut Book,
    kept: &mut Backlog,
    turn: Turn,
    target: u64,
) -> Result<Turned, AllocError>
    requires pass { IsTurnOf book.old.passes turn }
    requires target { target ≤ GRADE_LIMIT }
    requires place { AreOf book.old.instance kept.old }
    ensures turn { IfOk result (λ t. IsTurn target turn (record { book = book.old; kept = kept.old }) t (record { book = book.new; kept = kept.new })) }
    ensures runs { Runs book.old book.new }
    ensures place { AreOf book.new.instance kept.new }
{
    match turn {
        Turn::Take(by) => take(alloc, book, kept, by, target),
        Turn::Commit(by) => Ok(commit(book, kept, by)),
        Turn::Lose(by) => Ok(lose(kept, by)),
    }
}

// A step of the book by this pass, which keeps what a job that is handed out leaves.
fn take(
    alloc: Global,
    book: &mut Book,
    kept: &mut Backlog,
    by: u32,
    target: u64,
) -> Result<Turned, AllocError>
    requires pass { by < book.old.passes }
    requires target { target ≤ GRADE_LIMIT }
    requires place { AreOf book.old.instance kept.old }
    ensures turn { IfOk result (λ t. IsTake target by (record { book = book.old; kept = kept.old }) t (record { book = book.new; kept = kept.new })) }
    ensures runs { Runs book.old book.new }
    ensures place { AreOf book.new.instance kept.new }
{
    match book.step(alloc, by, target) {
        Err(refused) => Err(refused),
        Ok(Step::Reached(_)) => Ok(Turned::Reached),
        Ok(Step::Full(mark)) => Ok(Turned::Full(mark.grade)),
        Ok(Step::Published(version)) => Ok(Turned::Published(version.number())),
        Ok(Step::Reduce(task)) => keep_reduced(alloc, kept, by, task),
    }
}

// Reduces a job that was handed out, and keeps what it leaves.
fn keep_reduced(
    alloc: Global,
    kept: &mut Backlog,
    by: u32,
    task: Task,
) -> Result<Turned, AllocError>
    ensures took { IfOk result (λ t. t ≡ Took task.job) }
    ensures kept { IfOk result (λ _. kept.new ≡ kept.old ++ record { by = by; version = task.version; job = task.job } ∷ []) }
    ensures refused { OnErr result (kept.new ≡ kept.old) }
{
    match task.reduce(alloc) {
        Err((_, refused)) => Err(refused),
        Ok(remainder) => {
            let job = remainder.job();
            kept.keep(by, remainder)?;
            Ok(Turned::Took(job))
        }
    }
}

// Commits the oldest that the pass keeps.
fn commit(book: &mut Book, kept: &mut Backlog, by: u32) -> Turned
    requires pass { by < book.old.passes }
    requires place { AreOf book.old.instance kept.old }
    ensures turn { IsCommit by (record { book = book.old; kept = kept.old }) (first_of by kept.old) result (record { book = book.new; kept = kept.new }) }
    ensures runs { Runs book.old book.new }
    ensures place { AreOf book.new.instance kept.new }
{
    match kept.take_oldest(by) {
        None => Turned::Nothing,
        Some(remainder) => match book.commit(by, remainder) {
            Committed::Stored { place } => Turned::Stored(place),
            Committed::Already { number } => Turned::Already(number),
        },
    }
}

// Loses the oldest that the pass keeps.
fn lose(kept: &mut Backlog, by: u32) -> Turned
    ensures turn { (b : BookSeen) → IsLoss by (record { book = b; kept = kept.old }) (first_of by kept.old) result (record { book = b; kept = kept.new }) }
    ensures rest { kept.new ≡ without_first by kept.old }
{
    match kept.take_oldest(by) {
        None => return Turned::Nothing,
        Some(remainder) => drop(remainder),
    }
    Turned::Lost
}
