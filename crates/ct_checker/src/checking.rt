//! The check of a ledger.
ghost use Rattle.std.specs.Prelude.{◌≡◌, ◌≤◌, ◌↔◌, ℕ, List, length, None, OnOk, IfOk, IfErr};
ghost use Rattle.std.specs.Arc.{arc_value};
ghost use Rattle.ct_vectors.specs.Vectors.{total};
ghost use Rattle.ct_instance.specs.Instance.{IsRight};
ghost use Rattle.ct_walk.specs.Laws.{HasOneNormalPoint};
ghost use Rattle.ct_ledger.specs.Parts.{IsLedger};
ghost use Rattle.ct_checker.specs.declared.verdicts.Verdict.TheVariants.{Accepted};
ghost use Rattle.ct_checker.specs.Accepted.{moves_of, IsAccepted};
ghost use Rattle.ct_checker.specs.Refusals.{first_refusal_of};
ghost use Rattle.ct_checker.specs.Checking.{verdict_of, IsAcceptance, IsRefusedBy};

use crate::docket::docket_of;
use crate::ledger_entries::check_entries;
use crate::stops::CheckStop;
use crate::verdicts::{Reason, Verdict};
use ct_instance::Instance;
use ct_ledger::Ledger;
use ct_walk::Moves;
use std::alloc::{AllocError, Global};
use std::sync::Arc;

/// The verdict on a ledger, whoever made it. Where it is accepted, each right-hand side whose sum is at most the ledger's
/// grade has exactly one point in its fiber that no head of the ledger divides, and that is the least; so a walk by its
/// moves that ends at such a point shows the answer.
///
/// It looks once at each pair of moves, which is all of the list's jobs, once at each entry, and makes each step that the
/// ledger names. It takes the memory of the moves and 24 bytes a job of at most the grade, half as much again while it
/// sorts them, and nothing for an entry.
pub fn check(alloc: Global, inst: &Arc<Instance>, ledger: &Ledger) -> Result<Verdict, AllocError>
    ensures verdict { IfOk result (λ v. v ≡ verdict_of (arc_value inst.now) ledger.now) }
    ensures accepted { IfOk result (λ v. IsAcceptance v ↔ IsAccepted (arc_value inst.now) ledger.now) }
    ensures decides { IfOk result (λ v. IsAcceptance v → (b : List ℕ) → IsRight (arc_value inst.now) b → total b ≤ ledger.now.grade → HasOneNormalPoint (arc_value inst.now) (moves_of ledger.now) b) }
{
    // For its facts alone: the instance is within the limits.
    let _rows = inst.rows();
    match checked(alloc, inst, ledger) {
        Ok(_moves) => Ok(accepted(ledger)),
        Err(CheckStop::Refused(line, reason)) => Ok(Verdict::Refused { line, reason }),
        Err(CheckStop::Memory) => Err(AllocError),
    }
}

// The verdict where no line is refused.
fn accepted(ledger: &Ledger) -> Verdict
    ensures verdict { result ≡ Accepted ledger.now.grade (length ledger.now.moves) }
    ensures ledger { IsLedger ledger.now }
{
    Verdict::Accepted {
        grade: ledger.grade(),
        moves: ledger.moves().len() as u32,
    }
}

/// The moves of a ledger that `check` accepts, or its first refused line.
///
/// It takes the time and the memory of `check`.
pub fn checked(alloc: Global, inst: &Arc<Instance>, ledger: &Ledger) -> Result<Moves, CheckStop>
    ensures moves { IfOk result (λ ms. ms ≡ record { instance = arc_value inst.now; moves = moves_of ledger.now }) }
    ensures none { OnOk result (first_refusal_of (arc_value inst.now) ledger.now ≡ None) }
    ensures refused { IfErr result (IsRefusedBy (first_refusal_of (arc_value inst.now) ledger.now)) }
{
    let docket = docket_of(alloc, inst, ledger)?;
    check_entries(alloc, inst, docket.moves(), docket.jobs(), ledger.entries())?;
    Ok(docket.into_moves())
}
