//! The lock.
ghost use Rattle.std.specs.Prelude.{◌≡◌, ◌^◌, ◌<◌, length, All, IfOk};

use crate::counted::Counted;
use crate::pass::LockPass;
use crate::table::{LockSeat, LockTable};
use std::alloc::{AllocError, Global};
use std::marker::Model;
use std::sync::Wait;
use std::thread;

/// A lock round one value. One that is dropped drops the value.
#[derive(Drop)]
pub struct CountLock<V: Counted + Drop> {
    table: LockTable<V>,
}

impl<V: Counted + Drop> Model for CountLock<V> {
    ghost use Rattle.count_lock.specs.Sight.{LockPlace};

    ghost Value = { LockPlace V };

    ghost view = { λ c. c.table };
}

impl<V: Counted + Drop> CountLock<V> {
    ghost use Rattle.std.specs.Prelude.{◌≡◌, ◌+◌, ◌^◌, ◌<◌, ◌≤◌, [], ◌∷◌, ◌++◌, length, slice_index, All, None, Some, IfOk, IfSome, IfNone, IsSomeAnd, vec_len, vec_capacity};
    ghost use Rattle.count_lock.specs.Count.{first_note};
    ghost use Rattle.count_lock.specs.Pairs.{Agree, GrowsAt, HasEach, first_number};
    ghost use Rattle.count_lock.specs.Sight.{IsOfLock, fresh_passes};

    /// A lock with this value at home, and one pass for each of its counts, in the order of their numbers.
    /// The lock keeps the value's name. It takes memory for one word, one slot and the passes, and for their counts
    /// until it returns; where that is refused the value is dropped. Its time is in proportion to the passes.
    pub fn open(
        alloc: Global,
        value: V,
        passes: u32,
    ) -> Result<(CountLock<V>, Vec<LockPass<V>>), AllocError>
        requires some_pass { 1 ≤ passes }
        requires counts { length (V.counts_of value) ≡ passes }
        requires fit { All (λ c. c < 2 ^ 64) (V.counts_of value) }
        ensures opened { IfOk result (λ r. (r.0.first ≡ value) × (r.0.passes ≡ passes)) }
        ensures passes { IfOk result (λ r. r.1.items ≡ fresh_passes r.0 0 (V.counts_of value)) }
    {
        let counts = counts_in(alloc, &value, passes)?;
        let dealt = Vec::with_capacity(alloc, passes as usize)?;
        let (table, seat) = LockTable::open(alloc, value, passes)?;
        let lock = CountLock { table };
        let made = lock.deal(seat, counts.as_slice(), passes - 1, dealt);
        Ok((lock, made))
    }

    // The passes of the opening. The first seat gives its last pair away until it has one.
    fn deal(
        &self,
        mut seat: LockSeat<V>,
        counts: &[u64],
        last: u32,
        mut dealt: Vec<LockPass<V>>,
    ) -> Vec<LockPass<V>>
        requires own { seat.table_id ≡ self.now.lock }
        requires first { seat.me ≡ (first_note self.now.first counts.now, []) }
        requires counts { length counts.now ≡ last + 1 }
        requires room { (dealt.items ≡ []) × (last < vec_capacity dealt) }
        ensures { result.items ≡ fresh_passes self.now 0 counts.now }
    {
        let mut number = last;
        while number > 0 {
            let other = self.table.split(&mut seat);
            let count = counts[number as usize];
            dealt.push_reserved(LockPass {
                seat: other,
                number,
                count,
            });
            number -= 1;
        }
        let count = counts[0];
        dealt.push_reserved(LockPass {
            seat,
            number: 0,
            count,
        });
        dealt.reverse();
        dealt
    }

    /// Takes the lock as a test-and-set lock does, by one `fetch_or` at a time until it has it, and so may wait for ever;
    /// after one that misses it lets other threads run. The pass's number is one of the value's counts. It takes no memory.
    pub fn lock<R: Wait>(&self, rt: &R, pass: &mut LockPass<V>) -> V
        requires own { IsOfLock self.now pass.old }
        requires idle { pass.old.held ≡ None }
        ensures held { pass.new ≡ record pass.old { shown = pass.old.shown ++ V.shows result ∷ []; held = Some (V.counts_of result) } }
        ensures name { V.name_of result ≡ V.name_of self.now.first }
        ensures counts { Agree (V.counts_of result) pass.old.pairs }
        ensures number { first_number pass.old.pairs < length (V.counts_of result) }
    {
        for _ in rt.forever() {
            if let Some(value) = self.try_lock(pass) {
                return value;
            }
            // Who holds the lock may wait for this processor.
            thread::yield_now();
        }
        unreachable!()
    }

    // One take.
    fn try_lock(&self, pass: &mut LockPass<V>) -> Option<V>
        requires own { IsOfLock self.now pass.old }
        requires idle { pass.old.held ≡ None }
        ensures held { IfSome result (λ v. pass.new ≡ record pass.old { shown = pass.old.shown ++ V.shows v ∷ []; held = Some (V.counts_of v) }) }
        ensures value { IfSome result (λ v. (V.name_of v ≡ V.name_of self.now.first) × Agree (V.counts_of v) pass.old.pairs) }
        ensures number { IfSome result (λ v. first_number pass.old.pairs < length (V.counts_of v)) }
        ensures missed { IfNone result (pass.new ≡ pass.old) }
    {
        if self.table.take(&mut pass.seat) != 0 {
            return None;
        }
        Some(self.table.exchange_out(&mut pass.seat))
    }

    /// Frees the lock, with this value, by one swap. The pass then has the value's count of its number.
    pub fn unlock(&self, pass: &mut LockPass<V>, value: V)
        requires own { IsOfLock self.now pass.old }
        requires one_pair { length pass.old.pairs ≡ 1 }
        requires counts { IsSomeAnd pass.old.held (λ held. GrowsAt (first_number pass.old.pairs) held (V.counts_of value)) }
        requires fits { slice_index (V.counts_of value) (first_number pass.old.pairs) < 2 ^ 64 }
        requires name { V.name_of value ≡ V.name_of self.now.first }
        ensures { let number = first_number pass.old.pairs in pass.new ≡ record pass.old { pairs = (number, slice_index (V.counts_of value) number) ∷ []; held = None } }
    {
        pass.count = value.count(pass.number);
        self.table.exchange_in(&mut pass.seat, value);
        self.table.release(&mut pass.seat);
    }

    /// The pass takes over the pairs of the other, which is spent. One atomic step, with no memory.
    pub fn join(&self, pass: &mut LockPass<V>, other: LockPass<V>)
        requires own { IsOfLock self.now pass.old × IsOfLock self.now other }
        requires idle { (pass.old.held ≡ None) × (other.held ≡ None) }
        ensures { pass.new ≡ record pass.old { pairs = pass.old.pairs ++ other.pairs } }
    {
        let LockPass {
            seat,
            number: _,
            count: _,
        } = other;
        self.table.join(&mut pass.seat, seat);
    }

    /// Ends the lock and gives the value out. Only who has every pass, joined into one, can call it.
    pub fn close(self, pass: LockPass<V>) -> V
        requires own { IsOfLock self pass }
        requires idle { pass.held ≡ None }
        requires every_pair { HasEach self.passes pass.pairs }
        ensures counts { Agree (V.counts_of result) pass.pairs }
        ensures name { V.name_of result ≡ V.name_of self.first }
    {
        let LockPass {
            seat,
            number: _,
            count: _,
        } = pass;
        let CountLock { table } = self;
        table.close(seat)
    }
}

fn counts_in<V: Counted>(alloc: Global, value: &V, passes: u32) -> Result<Vec<u64>, AllocError>
    requires counts { length (V.counts_of value.now) ≡ passes }
    requires fit { All (λ c. c < 2 ^ 64) (V.counts_of value.now) }
    ensures { IfOk result (λ v. v.items ≡ V.counts_of value.now) }
{
    let mut counts = Vec::with_capacity(alloc, passes as usize)?;
    for number in 0..passes {
        counts.push_reserved(value.count(number));
    }
    Ok(counts)
}
