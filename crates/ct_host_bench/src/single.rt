//! One thread.
ghost use Rattle.std.specs.Prelude.{◌≤◌};
ghost use Rattle.ct_vectors.specs.declared.limits.TheConstants.{GRADE_LIMIT};

use anyhow::{Result, bail};
use ct_book::Book;
use ct_instance::Instance;
use ct_vectors::limits::MOVE_LIMIT;
use ct_version::Stop;
use std::alloc::Global;
use std::sync::Arc;

/// What a completion came to: how many moves the version has, and how many entries the journal.
#[derive(Clone, Copy)]
pub struct Completion {
    pub moves: u32,
    pub entries: u64,
}

/// A completion by one thread, with no lock.
pub fn by_one(alloc: Global, inst: &Arc<Instance>, target: u64) -> Result<Completion>
    requires { target ≤ GRADE_LIMIT }
{
    let mut book = Book::open(alloc, Arc::try_clone(inst)?, MOVE_LIMIT as u32, 1)?;
    match book.complete(alloc, 0, target) {
        Ok(helped) => Ok(Completion {
            moves: helped.version.moves().len(),
            entries: book.entries(0),
        }),
        Err(Stop::Full(_)) => bail!("more moves than the limit"),
        Err(Stop::Memory) => bail!("no memory"),
    }
}
