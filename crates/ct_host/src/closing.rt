//! What is left of a host.
ghost use Rattle.std.specs.Prelude.{◌≡◌, ◌≤◌, ◌<◌, [], None, length, map, vec_len, vec_capacity};
ghost use Rattle.count_lock.specs.Sight.{IsOfLock};
ghost use Rattle.ct_host.specs.Closing.{AreAllPasses, AreOfLock, IsClosed, IsJournalOf, pairs_of};

use crate::host::Host;
use crate::locked::LockedBook;
use crate::passes::HostPass;
use count_lock::{CountLock, LockPass};
use ct_completion::Entry;
use ct_point::Seq;

/// The journal of a host, and the counts of its passes in the order of their numbers.
#[derive(Drop)]
pub struct Closed {
    /// What was done, in order. Of each pass it has as many entries as the pass counts, with the serials 0, 1, 2 and so on,
    /// and no entry is of another pass. It replays: each entry is a step that the completion allows after those before it.
    pub journal: Seq<Entry>,
    /// How many entries are each pass's.
    pub steps: Seq<u64>,
}

// All passes of the lock in one, and what each of them counts.
fn joined(
    lock: &CountLock<LockedBook>,
    passes: Vec<HostPass>,
    mut steps: Vec<u64>,
) -> (LockPass<LockedBook>, Vec<u64>)
    requires own { AreOfLock lock.now passes.items }
    requires some { 0 < length passes.items }
    requires room { (steps.items ≡ []) × (vec_len passes ≤ vec_capacity steps) }
    ensures pass { IsOfLock lock.now result.0 × (result.0.held ≡ None) }
    ensures pairs { result.0.pairs ≡ pairs_of passes.items }
    ensures steps { result.1.items ≡ map (λ p. p.steps) passes.items }
{
    let mut rest = passes.into_iter();
    let Some(first) = rest.next() else {
        unreachable!()
    };
    let mut all = first.into_lock();
    steps.push_reserved(all.count());
    for pass in rest {
        let other = pass.into_lock();
        steps.push_reserved(other.count());
        lock.join(&mut all, other);
    }
    (all, steps)
}

// What is left of the host, with room for the counts.
pub fn wind_up(host: Host, passes: Vec<HostPass>, steps: Vec<u64>) -> Closed
    requires all { AreAllPasses host passes.items }
    requires room { (steps.items ≡ []) × (vec_len passes ≤ vec_capacity steps) }
    ensures closed { IsClosed passes.items result }
    ensures journal { IsJournalOf host.place result.journal }
{
    let Host {
        cell: _,
        lock,
        limit: _,
    } = host;
    let (pass, steps) = joined(&lock, passes, steps);
    let journal = lock.close(pass).into_book().into_journal();
    Closed {
        journal: Seq::from_vec(journal),
        steps: Seq::from_vec(steps),
    }
}
