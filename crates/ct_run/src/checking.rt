//! The ledger of a file, and its check.
ghost use Rattle.std.specs.Prelude.{IfOk, IfErr};
ghost use Rattle.std.specs.Arc.{arc_value};
ghost use Rattle.ct_checker.specs.Checking.{verdict_of};
ghost use Rattle.ct_run.specs.Checked.{IsLedgerFile, IsVerdictEnding};
ghost use Rattle.ct_run.specs.Outcome.{checked};
ghost use Rattle.ct_run.specs.Stopping.{EndedBy, IsLedgerStop};

use crate::crew::Crew;
use crate::ending::{
    Ending, accepted_ending, bad_ledger_ending, long_ledger_ending, refused_ending,
};
use crate::stop::Stop;
use ct_checker::Verdict;
use ct_input::limits::LEDGER_FILE_LIMIT;
use ct_instance::Instance;
use ct_ledger::{Ledger, LedgerStop};
use std::alloc::{AllocError, Global};
use std::sync::Arc;

// The verdict on a ledger.
fn verdict_ending<C: Crew>(
    crew: &C,
    alloc: Global,
    inst: &Arc<Instance>,
    ledger: &Ledger,
) -> Result<Ending, AllocError>
    requires { C.may_share crew.now }
    ensures { IfOk result (λ ending. IsVerdictEnding (arc_value inst.now) ledger.now (verdict_of (arc_value inst.now) ledger.now) ending.status ending.text) }
{
    let verdict = crew.check(alloc, inst, ledger)?;
    match verdict {
        Verdict::Accepted { grade, moves } => accepted_ending(alloc, grade, moves),
        Verdict::Refused { line, reason } => refused_ending(alloc, line, reason),
    }
}

/// The ledger of the bytes of a file, which are given up for it.
pub fn ledger_in(alloc: Global, bytes: Vec<u8>) -> Result<Ledger, Stop>
    ensures read { IfOk result (λ ledger. IsLedgerFile bytes.items ledger) }
    ensures stopped { IfErr result (IsLedgerStop bytes.items) }
{
    if bytes.len() > LEDGER_FILE_LIMIT {
        return Err(Stop::Refused(long_ledger_ending(alloc)?));
    }
    match Ledger::read(alloc, &bytes) {
        Ok(ledger) => Ok(ledger),
        Err(LedgerStop::Fault { line }) => Err(Stop::Refused(bad_ledger_ending(alloc, line)?)),
        Err(LedgerStop::Memory) => Err(Stop::Memory),
    }
}

/// The ending of `check` on the bytes of the ledger file.
pub fn check_ending<C: Crew>(
    crew: &C,
    alloc: Global,
    inst: &Arc<Instance>,
    bytes: Vec<u8>,
) -> Result<Ending, Stop>
    requires { C.may_share crew.now }
    ensures { EndedBy result (checked (arc_value inst.now) bytes.items) }
{
    let ledger = ledger_in(alloc, bytes)?;
    Ok(verdict_ending(crew, alloc, inst, &ledger)?)
}
