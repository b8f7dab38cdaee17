//! Answers that are found before they are asked for.
ghost use Rattle.std.specs.Prelude.{◌≡◌, ◌<◌, ◌-◌, length, get_or, All, IfOk, IfSome, IsTrue};
ghost use Rattle.ct_version.specs.Answers.{IsAnswered};
ghost use Rattle.ct_version.specs.Desks.{Place};
ghost use Rattle.ct_batch.specs.Answering.{CanBeAnswered};
ghost use Rattle.ct_answer.specs.Prepared.{IsPrepared};

use ct_batch::answer_batch;
use ct_point::Seq;
use ct_version::{Answered, Version};
use std::alloc::{AllocError, Global};
use std::thread::Threads;

/// A right-hand side with its answer.
#[derive(Drop)]
pub struct Prepared {
    /// The right-hand side.
    pub right: Seq<u64>,
    /// Its answer, with the walk.
    pub answered: Answered,
}

/// The answers to right-hand sides by a version, the first of them last.
pub fn prepare<R: Threads + Sync>(
    rt: &R,
    alloc: Global,
    version: &Version,
    mut rights: Vec<Seq<u64>>,
) -> Result<Vec<Prepared>, AllocError>
    requires { All (CanBeAnswered version.now) rights.items }
    ensures { IfOk result (λ v. All (λ x. IsAnswered version.now x.right x.answered) v.items) }
{
    let mut answers = answer_batch(rt, alloc, version, rights.as_slice())?;
    let mut prepared = Vec::new(alloc);
    while let Some(answered) = answers.pop() {
        if let Some(right) = rights.pop() {
            prepared.push(Prepared { right, answered })?;
        }
    }
    Ok(prepared)
}

/// Takes the last answer, if it is that of b.
pub fn taken_for(prepared: &mut Vec<Prepared>, b: &[u64]) -> Option<Answered>
    ensures kept { (p : Place) → All (IsPrepared p) prepared.old.items → All (IsPrepared p) prepared.new.items }
    ensures taken { IfSome result (λ a. (p : Place) → All (IsPrepared p) prepared.old.items → IsPrepared p (record { right = b.now; answered = a })) }
{
    if !is_last(prepared.as_slice(), b) {
        return None;
    }
    match prepared.pop() {
        Some(last) => Some(last.answered),
        None => None,
    }
}

// Whether the last of them is for b.
fn is_last(prepared: &[Prepared], b: &[u64]) -> bool
    ensures { IsTrue result → (0 < length prepared.now) × ((d : Prepared) → (get_or prepared.now (length prepared.now - 1) d).right ≡ b.now) }
{
    match prepared.last() {
        Some(last) => last.right.as_slice() == b,
        None => false,
    }
}
