//! Where a worker takes its steps.
ghost use Rattle.std.specs.Prelude.{◌≡◌, ◌+◌, ◌≤◌, [], ℕ, IfOk, OnErr};
ghost use Rattle.ct_vectors.specs.declared.limits.TheConstants.{GRADE_LIMIT};
ghost use Rattle.ct_book.specs.Benches.{BenchPlace, IsBenchStep, IsBenchCommit, IsBenchBatchStep, IsBenchCommitAll};
ghost use Rattle.ct_book.specs.Books.{IsRiseOf, rise_of};

use crate::batches::{Batch, Reduced};
use crate::outcomes::{Committed, Step};
use crate::remainders::Remainder;
use std::alloc::{AllocError, Global};
use std::sync::Wait;

/// A bench gives the steps of a book of one instance, limit and number of passes, which others may work on too.
///
/// In contracts it has a home, which it is a part of, and a loan, the name of what it borrows from there; its place; and
/// a count of the steps that it made. Home, loan and place never change, and the count never falls.
pub trait Bench {
    type Home;

    ghost home: { Self → Self.Home };

    ghost loan: { Self → ℕ };

    ghost place: { Self → BenchPlace };

    ghost count: { Self → ℕ };

    /// The next step up to the target. It may wait for others. For want of memory a step may have been made.
    fn step<R: Wait>(&mut self, rt: &R, alloc: Global, target: u64) -> Result<Step, AllocError>
        requires { target ≤ GRADE_LIMIT }
        ensures home { home self.new ≡ home self.old }
        ensures loan { loan self.new ≡ loan self.old }
        ensures place { place self.new ≡ place self.old }
        ensures answer { IfOk result (IsBenchStep (place self.old) target) }
        ensures count { IfOk result (λ s. (rise : ℕ) × IsRiseOf s rise × (count self.new ≡ count self.old + rise)) }
        ensures refused { OnErr result ((rise : ℕ) × (rise ≤ 1) × (count self.new ≡ count self.old + rise)) };

    /// Takes a remainder of this instance in. It may wait for others.
    fn commit<R: Wait>(&mut self, rt: &R, r: Remainder) -> Committed
        requires { r.version.instance ≡ (place self.old).instance }
        ensures home { home self.new ≡ home self.old }
        ensures loan { loan self.new ≡ loan self.old }
        ensures place { place self.new ≡ place self.old }
        ensures answer { IsBenchCommit (place self.old) r result }
        ensures count { count self.new ≡ count self.old + rise_of result };

    /// The next step up to the target, and where it hands out a job, others beside it into the batch. It may wait for
    /// others. For want of memory a step may have been made, but none that hands out a job.
    fn step_batch<R: Wait>(
        &mut self,
        rt: &R,
        alloc: Global,
        target: u64,
        batch: &mut Batch,
    ) -> Result<Step, AllocError>
        requires target { target ≤ GRADE_LIMIT }
        requires none { batch.old ≡ [] }
        ensures home { home self.new ≡ home self.old }
        ensures loan { loan self.new ≡ loan self.old }
        ensures place { place self.new ≡ place self.old }
        ensures answer { IfOk result (IsBenchBatchStep (place self.old) target batch.new) }
        ensures count { IfOk result (λ s. (rise : ℕ) × IsRiseOf s rise × (count self.new ≡ count self.old + rise)) }
        ensures refused { OnErr result ((rise : ℕ) × (rise ≤ 1) × (count self.new ≡ count self.old + rise)) }
        ensures none { OnErr result (batch.new ≡ []) };

    /// Takes in all that jobs left, which are of this instance. It may wait for others.
    fn commit_all<R: Wait>(&mut self, rt: &R, reduced: &mut Reduced)
        requires { reduced.old.version.instance ≡ (place self.old).instance }
        ensures home { home self.new ≡ home self.old }
        ensures loan { loan self.new ≡ loan self.old }
        ensures place { place self.new ≡ place self.old }
        ensures committed { (rise : ℕ) × IsBenchCommitAll (place self.old) reduced.old.remainders rise × (count self.new ≡ count self.old + rise) }
        ensures none { reduced.new ≡ record reduced.old { remainders = [] } };
}
