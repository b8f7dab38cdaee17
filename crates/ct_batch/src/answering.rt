//! Answers to many right-hand sides.
ghost use Rattle.std.specs.Prelude.{All, IfOk};
ghost use Rattle.std.specs.List.{AllZip};
ghost use Rattle.ct_version.specs.Answers.{IsAnswered};
ghost use Rattle.ct_batch.specs.Answering.{CanBeAnswered};

use ct_point::Seq;
use ct_version::{Answered, AskStop, Version};
use rayon::prelude::*;
use std::alloc::{AllocError, Global};
use std::thread::Threads;

/// The answer to each right-hand side, in order, with its walk.
///
/// It walks once for each. It takes the memory of all answers with their walks, and again as much while the answers of the
/// threads are put together. For want of memory in any thread there are none.
pub fn answer_batch<R: Threads + Sync>(
    rt: &R,
    alloc: Global,
    version: &Version,
    rights: &[Seq<u64>],
) -> Result<Vec<Answered>, AllocError>
    requires { All (CanBeAnswered version.now) rights.now }
    ensures { IfOk result (λ v. AllZip (IsAnswered version.now) rights.now v.items) }
{
    rights
        .par_iter()
        .map(
            |b: &Seq<u64>| -> Result<Answered, AllocError>
                requires { CanBeAnswered version.now b.now }
                ensures { IfOk result (IsAnswered version.entry.now b.now) }
            { answer_one(alloc, version, b.as_slice()) },
        )
        .collect::<Result<Vec<Answered>, AllocError>>(rt, alloc)?
}

// The answer to one right-hand side.
fn answer_one(alloc: Global, version: &Version, b: &[u64]) -> Result<Answered, AllocError>
    requires { CanBeAnswered version.now b.now }
    ensures { IfOk result (IsAnswered version.now b.now) }
{
    match version.answer(alloc, b) {
        Ok(answered) => Ok(answered),
        Err(AskStop::Memory) => Err(AllocError),
        Err(AskStop::NotYet { finished: _ }) => unreachable!(),
    }
}
