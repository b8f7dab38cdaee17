//! Steps of the book behind the lock.
ghost use Rattle.std.specs.Prelude.{◌≡◌, ◌+◌, ◌≤◌, ◌++◌, ◌∷◌, [], ℕ, None, length, IfOk, OnErr};
ghost use Rattle.ct_vectors.specs.declared.limits.TheConstants.{GRADE_LIMIT};
ghost use Rattle.count_lock.specs.Pairs.{first_number, first_count};
ghost use Rattle.count_lock.specs.Sight.{IsOfLock};
ghost use Rattle.ct_vectors.specs.Words.{Extends};
ghost use Rattle.ct_book.specs.Books.{IsRiseOf, rise_of};
ghost use Rattle.ct_book.specs.Benches.{IsGiven};
ghost use Rattle.ct_host.specs.Values.{bench_place};
ghost use Rattle.ct_host.specs.Hosts.{IsOfHost, last_shown};
ghost use Rattle.ct_host.specs.Steps.{IsHostStep, IsHostCommit, IsHostBatchStep, IsHostCommitAll, HasSeenStep, HasVersion, OneLock};

use crate::host::Host;
use crate::locked::LockedBook;
use crate::passes::HostPass;
use crate::pinning::put;
use count_lock::{CountLock, LockPass};
use ct_book::{Batch, Committed, Reduced, Remainder, Step};
use std::alloc::{AllocError, Global};
use std::sync::Wait;

// One step of the book, and its version into the cell.
pub fn step<R: Wait>(
    host: &Host,
    rt: &R,
    alloc: Global,
    pass: &mut HostPass,
    target: u64,
) -> Result<Step, AllocError>
    requires own { IsOfHost host.now pass.old }
    requires target { target ≤ GRADE_LIMIT }
    ensures kept { pass.new ≡ record pass.old { steps = pass.new.steps; seen = pass.new.seen; words = pass.new.words; shown = pass.new.shown } }
    ensures one_lock { pass.new.shown ≡ pass.old.shown ++ last_shown pass.new.shown ∷ [] }
    ensures words { Extends pass.old.words pass.new.words }
    ensures answer { IfOk result (IsHostStep host.now.place pass.old.number (last_shown pass.new.shown) target) }
    ensures rises { pass.old.seen ≤ pass.new.seen }
    ensures seen { IfOk result (HasSeenStep pass.new.seen) }
    ensures count { IfOk result (λ s. (rise : ℕ) × IsRiseOf s rise × (pass.new.steps ≡ pass.old.steps + rise)) }
    ensures refused { OnErr result ((rise : ℕ) × (rise ≤ 1) × (pass.new.steps ≡ pass.old.steps + rise)) }
{
    let step = step_in(&host.lock, rt, alloc, &mut pass.lock, target)?;
    shown(host, rt, pass, step)
}

// Puts the version of a step's answer into the cell, where it has one.
fn shown<R: Wait>(host: &Host, rt: &R, pass: &mut HostPass, step: Step) -> Result<Step, AllocError>
    requires own { IsOfHost host.now pass.old }
    requires given { (g : ℕ) × IsGiven host.now.place g step }
    ensures kept { pass.new ≡ record pass.old { seen = pass.new.seen; words = pass.new.words } }
    ensures words { Extends pass.old.words pass.new.words }
    ensures same { IfOk result (λ s. s ≡ step) }
    ensures rises { pass.old.seen ≤ pass.new.seen }
    ensures seen { IfOk result (HasSeenStep pass.new.seen) }
    ensures refused { OnErr result (HasVersion step) }
{
    match &step {
        Step::Reduce(_) => {}
        Step::Published(version) => put(host, rt, pass, version)?,
        Step::Reached(helped) => put(host, rt, pass, &helped.version)?,
        Step::Full(mark) => put(host, rt, pass, &mark.version)?,
    }
    Ok(step)
}

// One step of the book, in one hold of its lock.
fn step_in<R: Wait>(
    lock: &CountLock<LockedBook>,
    rt: &R,
    alloc: Global,
    pass: &mut LockPass<LockedBook>,
    target: u64,
) -> Result<Step, AllocError>
    requires own { IsOfLock lock.now pass.old }
    requires idle { (pass.old.held ≡ None) × (length pass.old.pairs ≡ 1) }
    requires target { target ≤ GRADE_LIMIT }
    ensures one_lock { OneLock pass.old pass.new }
    ensures answer { IfOk result (IsHostStep (bench_place lock.now.first) (first_number pass.old.pairs) (last_shown pass.new.shown) target) }
    ensures count { IfOk result (λ s. (rise : ℕ) × IsRiseOf s rise × (first_count pass.new.pairs ≡ first_count pass.old.pairs + rise)) }
    ensures refused { OnErr result (first_count pass.new.pairs ≡ first_count pass.old.pairs) }
{
    let number = pass.number();
    let mut book = lock.lock(rt, pass);
    let answer = book.step(alloc, number, target);
    lock.unlock(pass, book);
    answer
}

// Takes a remainder in, in one hold of the book's lock.
pub fn commit<R: Wait>(host: &Host, rt: &R, pass: &mut HostPass, r: Remainder) -> Committed
    requires own { IsOfHost host.now pass.old }
    requires instance { r.version.instance ≡ host.now.place.instance }
    ensures kept { pass.new ≡ record pass.old { steps = pass.new.steps; shown = pass.new.shown } }
    ensures one_lock { pass.new.shown ≡ pass.old.shown ++ last_shown pass.new.shown ∷ [] }
    ensures answer { IsHostCommit host.now.place pass.old.number (last_shown pass.new.shown) r result }
    ensures count { pass.new.steps ≡ pass.old.steps + rise_of result }
{
    commit_in(&host.lock, rt, &mut pass.lock, r)
}

fn commit_in<R: Wait>(
    lock: &CountLock<LockedBook>,
    rt: &R,
    pass: &mut LockPass<LockedBook>,
    r: Remainder,
) -> Committed
    requires own { IsOfLock lock.now pass.old }
    requires idle { (pass.old.held ≡ None) × (length pass.old.pairs ≡ 1) }
    requires instance { r.version.instance ≡ lock.now.first.instance }
    ensures one_lock { OneLock pass.old pass.new }
    ensures answer { IsHostCommit (bench_place lock.now.first) (first_number pass.old.pairs) (last_shown pass.new.shown) r result }
    ensures count { first_count pass.new.pairs ≡ first_count pass.old.pairs + rise_of result }
{
    let number = pass.number();
    let mut book = lock.lock(rt, pass);
    let done = book.commit(number, r);
    lock.unlock(pass, book);
    done
}

// One step of the book, with jobs beside one that it hands out, and its version into the cell.
pub fn step_batch<R: Wait>(
    host: &Host,
    rt: &R,
    alloc: Global,
    pass: &mut HostPass,
    target: u64,
    batch: &mut Batch,
) -> Result<Step, AllocError>
    requires own { IsOfHost host.now pass.old }
    requires target { target ≤ GRADE_LIMIT }
    requires none { batch.old ≡ [] }
    ensures kept { pass.new ≡ record pass.old { steps = pass.new.steps; seen = pass.new.seen; words = pass.new.words; shown = pass.new.shown } }
    ensures one_lock { pass.new.shown ≡ pass.old.shown ++ last_shown pass.new.shown ∷ [] }
    ensures words { Extends pass.old.words pass.new.words }
    ensures answer { IfOk result (IsHostBatchStep host.now.place pass.old.number (last_shown pass.new.shown) target batch.new) }
    ensures rises { pass.old.seen ≤ pass.new.seen }
    ensures seen { IfOk result (HasSeenStep pass.new.seen) }
    ensures count { IfOk result (λ s. (rise : ℕ) × IsRiseOf s rise × (pass.new.steps ≡ pass.old.steps + rise)) }
    ensures refused { OnErr result ((rise : ℕ) × (rise ≤ 1) × (pass.new.steps ≡ pass.old.steps + rise)) }
    ensures none { OnErr result (batch.new ≡ []) }
{
    let step = step_batch_in(&host.lock, rt, alloc, &mut pass.lock, target, batch)?;
    shown(host, rt, pass, step)
}

// The same step of the book, in one hold of its lock.
fn step_batch_in<R: Wait>(
    lock: &CountLock<LockedBook>,
    rt: &R,
    alloc: Global,
    pass: &mut LockPass<LockedBook>,
    target: u64,
    batch: &mut Batch,
) -> Result<Step, AllocError>
    requires own { IsOfLock lock.now pass.old }
    requires idle { (pass.old.held ≡ None) × (length pass.old.pairs ≡ 1) }
    requires target { target ≤ GRADE_LIMIT }
    requires none { batch.old ≡ [] }
    ensures one_lock { OneLock pass.old pass.new }
    ensures answer { IfOk result (IsHostBatchStep (bench_place lock.now.first) (first_number pass.old.pairs) (last_shown pass.new.shown) target batch.new) }
    ensures count { IfOk result (λ s. (rise : ℕ) × IsRiseOf s rise × (first_count pass.new.pairs ≡ first_count pass.old.pairs + rise)) }
    ensures refused { OnErr result (first_count pass.new.pairs ≡ first_count pass.old.pairs) }
    ensures none { OnErr result (batch.new ≡ []) }
{
    let number = pass.number();
    let mut book = lock.lock(rt, pass);
    let answer = book.step_batch(alloc, number, target, batch);
    lock.unlock(pass, book);
    answer
}

// Takes in all that jobs left, in one hold of the book's lock.
pub fn commit_all<R: Wait>(host: &Host, rt: &R, pass: &mut HostPass, reduced: &mut Reduced)
    requires own { IsOfHost host.now pass.old }
    requires instance { reduced.old.version.instance ≡ host.now.place.instance }
    ensures kept { pass.new ≡ record pass.old { steps = pass.new.steps; shown = pass.new.shown } }
    ensures one_lock { pass.new.shown ≡ pass.old.shown ++ last_shown pass.new.shown ∷ [] }
    ensures committed { (rise : ℕ) × IsHostCommitAll host.now.place pass.old.number (last_shown pass.new.shown) reduced.old.remainders rise × (pass.new.steps ≡ pass.old.steps + rise) }
    ensures none { reduced.new ≡ record reduced.old { remainders = [] } }
{
    commit_all_in(&host.lock, rt, &mut pass.lock, reduced)
}

fn commit_all_in<R: Wait>(
    lock: &CountLock<LockedBook>,
    rt: &R,
    pass: &mut LockPass<LockedBook>,
    reduced: &mut Reduced,
)
    requires own { IsOfLock lock.now pass.old }
    requires idle { (pass.old.held ≡ None) × (length pass.old.pairs ≡ 1) }
    requires instance { reduced.old.version.instance ≡ lock.now.first.instance }
    ensures one_lock { OneLock pass.old pass.new }
    ensures committed { (rise : ℕ) × IsHostCommitAll (bench_place lock.now.first) (first_number pass.old.pairs) (last_shown pass.new.shown) reduced.old.remainders rise × (first_count pass.new.pairs ≡ first_count pass.old.pairs + rise) }
    ensures none { reduced.new ≡ record reduced.old { remainders = [] } }
{
    let number = pass.number();
    let mut book = lock.lock(rt, pass);
    book.commit_all(number, reduced);
    lock.unlock(pass, book);
}
