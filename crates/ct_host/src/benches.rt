//! A bench at a host.
ghost use Rattle.std.specs.Prelude.{◌≡◌, ◌+◌, ◌≤◌, ◌++◌, ◌∷◌, [], ℕ, IfOk, OnErr};
ghost use Rattle.ct_vectors.specs.declared.limits.TheConstants.{GRADE_LIMIT};
ghost use Rattle.ct_book.specs.Books.{IsRiseOf, rise_of};
ghost use Rattle.ct_book.specs.Benches.{IsBenchStep, IsBenchCommit, IsBenchBatchStep, IsBenchCommitAll};
ghost use Rattle.ct_host.specs.Hosts.{IsOfHost, home_of, last_shown};
ghost use Rattle.ct_host.specs.Steps.{IsHostStep, IsHostCommit, IsHostBatchStep, IsHostCommitAll, HasSeenStep};

use crate::homes::HostHome;
use crate::host::Host;
use crate::passes::HostPass;
use crate::stepping::{commit, commit_all, step, step_batch};
use ct_book::{Batch, Bench, Committed, Reduced, Remainder, Step};
use std::alloc::{AllocError, Global};
use std::sync::Wait;

/// A host with a pass of it, on which a worker works. It gives the pass back where it ends.
#[derive(Drop)]
pub struct HostBench<'a> {
    pub(crate) host: &'a Host,
    pub(crate) pass: &'a mut HostPass,
    ghost own: { IsOfHost host.now pass.now },
}

impl<'a> Bench for HostBench<'a> {
    type Home = HostHome;

    ghost home = { λ b. home_of b.host.now b.pass.now };

    ghost loan = { λ b. b.pass.ghost_name };

    ghost place = { λ b. b.host.now.place };

    ghost count = { λ b. b.pass.now.steps };

    /// The next step of the host's book, for which it gets the lock once. The version of the answer is then in the cell,
    /// or a later one is. After want of memory a version may have been published that isn't there yet.
    fn step<R: Wait>(&mut self, rt: &R, alloc: Global, target: u64) -> Result<Step, AllocError>
        requires { target ≤ GRADE_LIMIT }
        ensures home { home_of self.new.host.now self.new.pass.now ≡ home_of self.old.host.now self.old.pass.now }
        ensures loan { self.new.pass.ghost_name ≡ self.old.pass.ghost_name }
        ensures place { self.new.host.now.place ≡ self.old.host.now.place }
        ensures answer { IfOk result (IsBenchStep self.old.host.now.place target) }
        ensures count { IfOk result (λ s. (rise : ℕ) × IsRiseOf s rise × (self.new.pass.now.steps ≡ self.old.pass.now.steps + rise)) }
        ensures refused { OnErr result ((rise : ℕ) × (rise ≤ 1) × (self.new.pass.now.steps ≡ self.old.pass.now.steps + rise)) }
        ensures one_lock { self.new.pass.now.shown ≡ self.old.pass.now.shown ++ last_shown self.new.pass.now.shown ∷ [] }
        ensures shown { IfOk result (IsHostStep self.old.host.now.place self.old.pass.now.number (last_shown self.new.pass.now.shown) target) }
        ensures seen { IfOk result (HasSeenStep self.new.pass.now.seen) }
        ensures rises { self.old.pass.now.seen ≤ self.new.pass.now.seen }
    {
        step(self.host, rt, alloc, self.pass, target)
    }

    /// Takes a remainder in, for which it gets the lock once.
    fn commit<R: Wait>(&mut self, rt: &R, r: Remainder) -> Committed
        requires { r.version.instance ≡ self.old.host.now.place.instance }
        ensures home { home_of self.new.host.now self.new.pass.now ≡ home_of self.old.host.now self.old.pass.now }
        ensures loan { self.new.pass.ghost_name ≡ self.old.pass.ghost_name }
        ensures place { self.new.host.now.place ≡ self.old.host.now.place }
        ensures answer { IsBenchCommit self.old.host.now.place r result }
        ensures count { self.new.pass.now.steps ≡ self.old.pass.now.steps + rise_of result }
        ensures one_lock { self.new.pass.now.shown ≡ self.old.pass.now.shown ++ last_shown self.new.pass.now.shown ∷ [] }
        ensures shown { IsHostCommit self.old.host.now.place self.old.pass.now.number (last_shown self.new.pass.now.shown) r result }
        ensures seen { self.new.pass.now.seen ≡ self.old.pass.now.seen }
    {
        commit(self.host, rt, self.pass, r)
    }

    /// The next step of the host's book, with jobs beside one that it hands out, for which it gets the lock once. The
    /// version of the answer is then in the cell, or a later one is. After want of memory a version may have been published
    /// that isn't there yet.
    fn step_batch<R: Wait>(
        &mut self,
        rt: &R,
        alloc: Global,
        target: u64,
        batch: &mut Batch,
    ) -> Result<Step, AllocError>
        requires target { target ≤ GRADE_LIMIT }
        requires none { batch.old ≡ [] }
        ensures home { home_of self.new.host.now self.new.pass.now ≡ home_of self.old.host.now self.old.pass.now }
        ensures loan { self.new.pass.ghost_name ≡ self.old.pass.ghost_name }
        ensures place { self.new.host.now.place ≡ self.old.host.now.place }
        ensures answer { IfOk result (IsBenchBatchStep self.old.host.now.place target batch.new) }
        ensures count { IfOk result (λ s. (rise : ℕ) × IsRiseOf s rise × (self.new.pass.now.steps ≡ self.old.pass.now.steps + rise)) }
        ensures refused { OnErr result ((rise : ℕ) × (rise ≤ 1) × (self.new.pass.now.steps ≡ self.old.pass.now.steps + rise)) }
        ensures none { OnErr result (batch.new ≡ []) }
        ensures one_lock { self.new.pass.now.shown ≡ self.old.pass.now.shown ++ last_shown self.new.pass.now.shown ∷ [] }
        ensures shown { IfOk result (IsHostBatchStep self.old.host.now.place self.old.pass.now.number (last_shown self.new.pass.now.shown) target batch.new) }
        ensures seen { IfOk result (HasSeenStep self.new.pass.now.seen) }
        ensures rises { self.old.pass.now.seen ≤ self.new.pass.now.seen }
    {
        step_batch(self.host, rt, alloc, self.pass, target, batch)
    }

    /// Takes in all that jobs left, for which it gets the lock once.
    fn commit_all<R: Wait>(&mut self, rt: &R, reduced: &mut Reduced)
        requires { reduced.old.version.instance ≡ self.old.host.now.place.instance }
        ensures home { home_of self.new.host.now self.new.pass.now ≡ home_of self.old.host.now self.old.pass.now }
        ensures loan { self.new.pass.ghost_name ≡ self.old.pass.ghost_name }
        ensures place { self.new.host.now.place ≡ self.old.host.now.place }
        ensures committed { (rise : ℕ) × IsBenchCommitAll self.old.host.now.place reduced.old.remainders rise × (self.new.pass.now.steps ≡ self.old.pass.now.steps + rise) }
        ensures none { reduced.new ≡ record reduced.old { remainders = [] } }
        ensures one_lock { self.new.pass.now.shown ≡ self.old.pass.now.shown ++ last_shown self.new.pass.now.shown ∷ [] }
        ensures shown { (rise : ℕ) × IsHostCommitAll self.old.host.now.place self.old.pass.now.number (last_shown self.new.pass.now.shown) reduced.old.remainders rise × (self.new.pass.now.steps ≡ self.old.pass.now.steps + rise) }
        ensures seen { self.new.pass.now.seen ≡ self.old.pass.now.seen }
    {
        commit_all(self.host, rt, self.pass, reduced)
    }
}
