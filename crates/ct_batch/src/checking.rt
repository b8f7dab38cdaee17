//! The check of a ledger, in many threads.
ghost use Rattle.std.specs.Prelude.{◌≡◌, ◌≤◌, ◌↔◌, ℕ, List, length, None, OnOk, IfOk, IfErr};
ghost use Rattle.std.specs.Arc.{arc_value};
ghost use Rattle.ct_vectors.specs.Vectors.{total};
ghost use Rattle.ct_instance.specs.Instance.{IsRight};
ghost use Rattle.ct_walk.specs.Laws.{HasOneNormalPoint};
ghost use Rattle.ct_checker.specs.Accepted.{moves_of, IsAccepted};
ghost use Rattle.ct_checker.specs.Refusals.{first_refusal_of};
ghost use Rattle.ct_checker.specs.Checking.{verdict_of, IsAcceptance, IsRefusedBy};

use crate::reasons::{first_wrong, reasons_of};
use ct_checker::{CheckStop, Verdict, docket_of};
use ct_instance::Instance;
use ct_ledger::Ledger;
use std::alloc::{AllocError, Global};
use std::sync::Arc;
use std::thread::Threads;

/// The verdict of `check` on a ledger: the first line that fails, whichever entry was looked at first.
///
/// The moves and the list of their jobs are made in the caller's thread, and the entries are looked at beside one another,
/// each by itself. It takes the memory of `check`, and a few bytes an entry.
pub fn check_batch<R: Threads + Sync>(
    rt: &R,
    alloc: Global,
    inst: &Arc<Instance>,
    ledger: &Ledger,
) -> Result<Verdict, AllocError>
    ensures verdict { IfOk result (λ v. v ≡ verdict_of (arc_value inst.now) ledger.now) }
    ensures accepted { IfOk result (λ v. IsAcceptance v ↔ IsAccepted (arc_value inst.now) ledger.now) }
    ensures decides { IfOk result (λ v. IsAcceptance v → (b : List ℕ) → IsRight (arc_value inst.now) b → total b ≤ ledger.now.grade → HasOneNormalPoint (arc_value inst.now) (moves_of ledger.now) b) }
{
    // For its facts alone: the instance is within the limits.
    let _rows = inst.rows();
    match check_lines(rt, alloc, inst, ledger) {
        Ok(()) => Ok(Verdict::Accepted {
            grade: ledger.grade(),
            moves: ledger.moves().len() as u32,
        }),
        Err(CheckStop::Refused(line, reason)) => Ok(Verdict::Refused { line, reason }),
        Err(CheckStop::Memory) => Err(AllocError),
    }
}

// The first line that is refused, if one is.
fn check_lines<R: Threads + Sync>(
    rt: &R,
    alloc: Global,
    inst: &Arc<Instance>,
    ledger: &Ledger,
) -> Result<(), CheckStop>
    ensures none { OnOk result (first_refusal_of (arc_value inst.now) ledger.now ≡ None) }
    ensures refused { IfErr result (IsRefusedBy (first_refusal_of (arc_value inst.now) ledger.now)) }
{
    let docket = docket_of(alloc, inst, ledger)?;
    let entries = ledger.entries();
    let reasons = reasons_of(rt, alloc, &docket, entries)?;
    let line = 4 + ledger.moves().len() as u64;
    first_wrong(line, reasons.as_slice(), docket.len(), entries.len())
}
