//! What is wrong with each entry of a ledger, and the first line at fault.
ghost use Rattle.std.specs.Prelude.{◌≡◌, ◌≤◌, ◌<◌, None, min, length, map, OnOk, IfOk, IfErr};
ghost use Rattle.std.specs.List.{range_with_len};
ghost use Rattle.ct_checker.specs.Checking.{IsRefusedBy};
ghost use Rattle.ct_batch.specs.Reasons.{reason_at, first_wrong as first_wrong_line};

use ct_checker::{CheckStop, Docket, Reason};
use ct_ledger::LedgerEntry;
use rayon::prelude::*;
use std::alloc::{AllocError, Global};
use std::thread::Threads;

// What is wrong with each entry, up to the end of the jobs or of the entries.
pub fn reasons_of<R: Threads + Sync>(
    rt: &R,
    alloc: Global,
    docket: &Docket,
    entries: &[LedgerEntry],
) -> Result<Vec<Option<Reason>>, AllocError>
    ensures { IfOk result (λ v. v.items ≡ map (reason_at docket.now entries.now) (range_with_len 0 (min (length docket.now.jobs) (length entries.now)))) }
{
    let count = docket.len().min(entries.len());
    (0..count)
        .into_par_iter()
        .map(
            |k: usize| -> Result<Option<Reason>, AllocError>
                requires { (k < length docket.now.jobs) × (k < length entries.now) }
                ensures { IfOk result (λ r. r ≡ reason_at docket.entry.now entries.entry.now k) }
            { docket.entry_reason(alloc, k, &entries[k]) },
        )
        .collect::<Result<Vec<Option<Reason>>, AllocError>>(rt, alloc)?
}

// Refuses the first line with a reason, of those that begin in this line; or, where there are none, the line in which there
// is a job and no entry, or an entry and no job.
pub fn first_wrong(
    line: u64,
    reasons: &[Option<Reason>],
    jobs: usize,
    entries: usize,
) -> Result<(), CheckStop>
    requires { line ≤ 4100 }
    ensures none { OnOk result (first_wrong_line line reasons.now jobs entries ≡ None) }
    ensures refused { IfErr result (IsRefusedBy (first_wrong_line line reasons.now jobs entries)) }
{
    for k in 0..reasons.len() {
        if let Some(reason) = reasons[k] {
            return Err(CheckStop::Refused(line + k as u64, reason));
        }
    }
    if jobs == entries {
        Ok(())
    } else {
        Err(CheckStop::Refused(line + reasons.len() as u64, Reason::Entry))
    }
}
