//! Who answers a script and checks a ledger: one thread, or several.
ghost use Rattle.std.specs.Prelude.{◌≡◌, ◌≤◌, ◌↔◌, IfOk};
ghost use Rattle.std.specs.Arc.{arc_value};
ghost use Rattle.ct_vectors.specs.declared.limits.TheConstants.{MOVE_LIMIT};
ghost use Rattle.ct_input.specs.Script.{IsScript};
ghost use Rattle.ct_legal.specs.Cases.{plain_case};
ghost use Rattle.ct_legal.specs.Legal.{IsLegalAnswered};
ghost use Rattle.ct_checker.specs.Accepted.{IsAccepted};
ghost use Rattle.ct_checker.specs.Checking.{verdict_of, IsAcceptance};

use ct_answer::{Options, answer, answer_batch_report};
use ct_batch::check_batch;
use ct_checker::{Verdict, check};
use ct_input::Script;
use ct_instance::Instance;
use ct_ledger::Ledger;
use ct_report::Report;
use std::alloc::{AllocError, Global};
use std::sync::Arc;
use std::thread::Threads;

/// What comes is the same, however many threads there are.
///
/// In contracts it says whether its parts may be shared by threads.
pub trait Crew {
    ghost may_share: { Self → Type 0 };

    /// Answers a script, each ask as a solve.
    fn answer(
        &self,
        alloc: Global,
        inst: Arc<Instance>,
        script: &Script,
        options: Options,
    ) -> Result<Report, AllocError>
        requires shared { may_share self.now }
        requires some { 1 ≤ options.limit }
        requires most { options.limit ≤ MOVE_LIMIT }
        requires script { IsScript (arc_value inst).rows script.now }
        ensures { IfOk result (IsLegalAnswered (plain_case (arc_value inst) options.limit options.walks options.levels) script.now) };

    /// Checks a ledger.
    fn check(
        &self,
        alloc: Global,
        inst: &Arc<Instance>,
        ledger: &Ledger,
    ) -> Result<Verdict, AllocError>
        requires shared { may_share self.now }
        ensures verdict { IfOk result (λ v. v ≡ verdict_of (arc_value inst.now) ledger.now) }
        ensures accepted { IfOk result (λ v. IsAcceptance v ↔ IsAccepted (arc_value inst.now) ledger.now) };
}

/// The caller's thread alone.
#[derive(Clone, Copy, Debug)]
pub struct OneThread;

impl Crew for OneThread {
    ghost use Rattle.std.specs.Prelude.{⊤};

    ghost may_share = { λ _. ⊤ };

    fn answer(
        &self,
        alloc: Global,
        inst: Arc<Instance>,
        script: &Script,
        options: Options,
    ) -> Result<Report, AllocError> {
        answer(alloc, inst, script, options)
    }

    fn check(
        &self,
        alloc: Global,
        inst: &Arc<Instance>,
        ledger: &Ledger,
    ) -> Result<Verdict, AllocError> {
        check(alloc, inst, ledger)
    }
}

/// As many threads of a runtime as there are processors.
#[derive(Clone, Copy)]
pub struct Several<'a, R> {
    pub rt: &'a R,
}

impl<'a, R: Threads + Sync> Crew for Several<'a, R> {
    ghost use Rattle.std.specs.Thread.{IsSync};

    ghost may_share = { λ _. IsSync R.row };

    fn answer(
        &self,
        alloc: Global,
        inst: Arc<Instance>,
        script: &Script,
        options: Options,
    ) -> Result<Report, AllocError> {
        answer_batch_report(self.rt, alloc, inst, script, options)
    }

    fn check(
        &self,
        alloc: Global,
        inst: &Arc<Instance>,
        ledger: &Ledger,
    ) -> Result<Verdict, AllocError> {
        check_batch(self.rt, alloc, inst, ledger)
    }
}
