//! The calls of a book, one by one: what is done under a host's lock, and what is done without it.
ghost use Rattle.std.specs.Prelude.{◌≡◌, ◌≤◌, ◌<◌};
ghost use Rattle.ct_vectors.specs.declared.limits.TheConstants.{GRADE_LIMIT};
ghost use Rattle.ct_book.specs.Books.{IsReadyBook};

use crate::clocked::Clocked;
use crate::single::Completion;
use anyhow::{Result, bail};
use ct_book::{Book, Next, Task};
use ct_instance::Instance;
use ct_vectors::limits::MOVE_LIMIT;
use ct_version::Helped;
use std::alloc::Global;
use std::sync::Arc;
use std::time::{Clock, Instant};

/// The calls of a completion. `next`, `commit` and `publish` are made under a host's lock, `reduce` without it.
#[derive(Clone, Copy, Default)]
pub struct Calls {
    pub next: Clocked,
    pub reduce: Clocked,
    pub commit: Clocked,
    pub publish: Clocked,
}

impl Calls {
    /// Each kind by its name.
    pub fn each(&self) -> [(&'static str, Clocked); 4] {
        [
            ("next", self.next),
            ("reduce", self.reduce),
            ("commit", self.commit),
            ("publish", self.publish),
        ]
    }
}

/// A completion by one thread, whose calls are timed.
pub fn by_calls(
    rt: &impl Clock,
    alloc: Global,
    inst: &Arc<Instance>,
    target: u64,
    calls: &mut Calls,
) -> Result<Completion>
    requires { target ≤ GRADE_LIMIT }
{
    let mut book = Book::open(alloc, Arc::try_clone(inst)?, MOVE_LIMIT as u32, 1)?;
    for _ in 0..u64::MAX {
        if let Some(helped) = step(rt, alloc, &mut book, target, calls)? {
            return Ok(Completion {
                moves: helped.version.moves().len(),
                entries: book.entries(0),
            });
        }
    }
    bail!("the grade isn't reached")
}

// One step of the book; what covers the target, where it is covered.
fn step(
    rt: &impl Clock,
    alloc: Global,
    book: &mut Book,
    target: u64,
    calls: &mut Calls,
) -> Result<Option<Helped>>
    requires pass { 0 < book.old.passes }
    requires target { target ≤ GRADE_LIMIT }
    ensures { book.new.passes ≡ book.old.passes }
{
    let began = Instant::now(rt)?;
    let next = book.next(target)?;
    calls.next.add(rt, began)?;
    match next {
        Next::Reached(helped) => Ok(Some(helped)),
        Next::Full(_) => bail!("more moves than the limit"),
        Next::Publish => {
            publish(rt, alloc, book, calls)?;
            Ok(None)
        }
        Next::Reduce(task) => {
            resolve(rt, alloc, book, task, calls)?;
            Ok(None)
        }
    }
}

fn publish(rt: &impl Clock, alloc: Global, book: &mut Book, calls: &mut Calls) -> Result<()>
    requires pass { 0 < book.old.passes }
    requires ready { IsReadyBook book.old }
    ensures { book.new.passes ≡ book.old.passes }
{
    let began = Instant::now(rt)?;
    let published = book.publish(alloc, 0);
    calls.publish.add(rt, began)?;
    match published {
        Ok(_) => Ok(()),
        Err(refused) => Err(refused)?,
    }
}

fn resolve(
    rt: &impl Clock,
    alloc: Global,
    book: &mut Book,
    task: Task,
    calls: &mut Calls,
) -> Result<()>
    requires pass { 0 < book.old.passes }
    requires instance { task.version.instance ≡ book.old.instance }
    ensures { book.new.passes ≡ book.old.passes }
{
    let began = Instant::now(rt)?;
    let reduced = task.reduce(alloc);
    calls.reduce.add(rt, began)?;
    match reduced {
        Err((_, refused)) => Err(refused)?,
        Ok(remainder) => {
            let began = Instant::now(rt)?;
            book.commit(0, remainder);
            Ok(calls.commit.add(rt, began)?)
        }
    }
}
