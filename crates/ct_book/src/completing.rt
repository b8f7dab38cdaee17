//! Completing a book in one thread.
ghost use Rattle.std.specs.Prelude.{◌≡◌, ◌≤◌, ◌<◌, ℕ, MatchResult, OnOk, OnErr, IfOk, Contains, [], ◌∷◌};
ghost use Rattle.ct_vectors.specs.declared.limits.TheConstants.{GRADE_LIMIT};
ghost use Rattle.ct_completion.specs.Machine.{stores};
ghost use Rattle.ct_book.specs.Books.{edition_of, entry_by, IsCovered, Steps, Runs, IsCompleted, IsEnded, IsSettled};

use crate::books::Book;
use crate::outcomes::{Committed, Next, Published};
use crate::tasks::Task;
use ct_completion::Act;
use ct_version::{Helped, Stop};
use std::alloc::{AllocError, Global};

// One thread until the target is covered, or the mark.
pub fn complete(book: &mut Book, alloc: Global, by: u32, target: u64) -> Result<Helped, Stop>
    requires pass { by < book.old.passes }
    requires target { target ≤ GRADE_LIMIT }
    ensures { MatchResult result (IsCompleted book.old target book.new) (IsEnded book.old target book.new) }
{
    loop {
        // For its facts alone: the book's version is one of its place.
        let _version = book.version();
        match resolve_all(book, alloc, by, target) {
            Err(_) => return Err(Stop::Memory),
            Ok(Next::Reduce(_)) => unreachable!(),
            Ok(Next::Reached(helped)) => return Ok(helped),
            Ok(Next::Full(mark)) => return Err(Stop::Full(mark)),
            Ok(Next::Publish) => match book.publish(alloc, by) {
                Err(_) => return Err(Stop::Memory),
                Ok(Published::Full(mark)) => return Err(Stop::Full(mark)),
                Ok(Published::New(_)) => {}
            },
        }
    }
}

// Hands out, reduces and stores until no job of the opened grade waits, or the version covers the target.
fn resolve_all(book: &mut Book, alloc: Global, by: u32, target: u64) -> Result<Next, AllocError>
    requires pass { by < book.old.passes }
    requires target { target ≤ GRADE_LIMIT }
    ensures runs { Runs book.old book.new }
    ensures number { book.new.state.number ≡ book.old.state.number }
    ensures unchanged { IsCovered book.old target → book.new ≡ book.old }
    ensures settled { IfOk result (IsSettled book.new target) }
{
    loop {
        match book.next(target)? {
            Next::Reduce(task) => resolve(book, alloc, by, task)?,
            settled => return Ok(settled),
        }
    }
}

// Reduces a task that was just handed out, and stores what it leaves.
fn resolve(book: &mut Book, alloc: Global, by: u32, task: Task) -> Result<(), AllocError>
    requires pass { by < book.old.passes }
    requires version { task.version ≡ edition_of book.old }
    requires waits { Contains book.old.state.queue task.job }
    ensures stored { OnOk result (Steps book.old (stores task.job) (entry_by book.old by (Act.Stored task.job) ∷ []) book.new) }
    ensures refused { OnErr result (book.new ≡ book.old) }
{
    match task.reduce(alloc) {
        Err((_, refused)) => Err(refused),
        Ok(remainder) => match book.commit(by, remainder) {
            Committed::Already { number: _ } => unreachable!(),
            Committed::Stored { place: _ } => Ok(()),
        },
    }
}
