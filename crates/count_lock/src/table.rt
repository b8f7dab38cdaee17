//! The table that the passes of a lock share, and one function for each kind of step. The table and its seats are private
//! to this module, so no body elsewhere makes a seat, a take or a swap, and each of these tells its seat what it did.
ghost use Rattle.std.specs.Prelude.{◌≡◌, ◌≢◌, ◌≤◌, [], ◌∷◌, ℕ, List, length, false, None, Some, IfOk};
ghost use Rattle.count_lock.specs.Count.{first_note};
ghost use Rattle.count_lock.specs.Pairs.{Agree, GrowsAt, HasEach, first_number};
ghost use Rattle.count_lock.specs.Told.{Won, releases, keeps_most, gives_last, takes_in};

use crate::counted::Counted;
use crate::note::Note;
use crate::rule::{Counts, Cut, Merge, Release, Take};
use atomic_table::{Refused, Seat, Table};
use std::alloc::{AllocError, Global};
use std::marker::Model;
use std::snapshot::Snapshot;

// One word and one slot.
#[derive(Drop)]
pub struct LockTable<V: Counted + Drop> {
    table: Table<Option<V>, Note<V>, (Snapshot<V>, u32), Counts<V>, Global>,
}

impl<V: Counted + Drop> Model for LockTable<V> {
    ghost use Rattle.std.specs.Prelude.{◌≡◌};
    ghost use Rattle.count_lock.specs.Sight.{LockPlace};

    ghost Value = { LockPlace V };

    ghost view = { λ c. record { lock = c.table.shared.table_id; first = c.table.shared.key.0.value; passes = c.table.shared.key.1 } };

    ghost invariant = { λ c. (c.table.shared.table_id.words ≡ 1) × (c.table.shared.table_id.slots ≡ 1) };
}

// A seat at the table: what its pass knows, and the slot while it is out with it.
#[derive(Drop)]
pub struct LockSeat<V> {
    seat: Seat<Option<V>, Note<V>>,
}

impl<V> Model for LockSeat<V> {
    ghost use Rattle.count_lock.specs.Told.{SeatSight};

    ghost Value = { SeatSight V };

    ghost view = { λ s. record { table_id = s.seat.table_id; me = s.seat.me } };
}

impl<V: Counted + Drop> LockTable<V> {
    // The table with this value at home, and its first seat, with all pairs. Where memory is refused the value is dropped.
    pub fn open(
        alloc: Global,
        value: V,
        passes: u32,
    ) -> Result<(LockTable<V>, LockSeat<V>), AllocError>
        requires some_pass { 1 ≤ passes }
        requires counts { length (V.counts_of value) ≡ passes }
        ensures opened { IfOk result (λ r. (r.0.first ≡ value) × (r.0.passes ≡ passes)) }
        ensures seat { IfOk result (λ r. (r.1.table_id ≡ r.0.lock) × (r.1.me ≡ (first_note value (V.counts_of value), []))) }
    {
        let about = (Snapshot::of(&value), passes);
        let mut slots = Vec::with_capacity(alloc, 1)?;
        slots.push_reserved(Some(value));
        match Table::new(alloc, &[0], slots, &about) {
            Ok((table, seat)) => Ok((LockTable { table }, LockSeat { seat })),
            Err(Refused { slots: _ }) => Err(AllocError),
        }
    }

    // A take: a `fetch_or` of 1. Where the word was 0 the slot goes out with the seat.
    pub fn take(&self, seat: &mut LockSeat<V>) -> u64
        requires own { seat.old.table_id ≡ self.now.lock }
        requires unspent { seat.old.me.0.spent ≡ false }
        requires idle { seat.old.me.0.held ≡ None }
        ensures own { seat.new.table_id ≡ self.now.lock }
        ensures free { result ≡ 0 → Won V.name_of V.counts_of V.shows seat.old.me seat.new.me }
        ensures busy { result ≢ 0 → seat.new.me ≡ seat.old.me }
    {
        self.table.shared.fetch_or::<Take<V>>(&mut seat.seat, 0, 1)
    }

    // The value out of the slot in hand, which is then empty.
    pub fn exchange_out(&self, seat: &mut LockSeat<V>) -> V
        requires own { seat.old.table_id ≡ self.now.lock }
        requires in_hand { (value : V) × (seat.old.me.1 ≡ (0, Some value) ∷ []) }
        ensures own { seat.new.table_id ≡ self.now.lock }
        ensures value { seat.old.me.1 ≡ (0, Some result) ∷ [] }
        ensures after { seat.new.me ≡ (seat.old.me.0, (0, None) ∷ []) }
    {
        let Some(value) = self.table.shared.exchange(&mut seat.seat, 0, None) else {
            unreachable!()
        };
        value
    }

    // The value into the empty slot in hand.
    pub fn exchange_in(&self, seat: &mut LockSeat<V>, value: V)
        requires own { seat.old.table_id ≡ self.now.lock }
        requires in_hand { seat.old.me.1 ≡ (0, None) ∷ [] }
        ensures own { seat.new.table_id ≡ self.now.lock }
        ensures after { seat.new.me ≡ (seat.old.me.0, (0, Some value) ∷ []) }
    {
        self.table.shared.exchange(&mut seat.seat, 0, Some(value));
    }

    // A release: a swap to 0. The value in the slot goes home, and the seat's one pair has its count.
    pub fn release(&self, seat: &mut LockSeat<V>)
        requires own { seat.old.table_id ≡ self.now.lock }
        requires unspent { seat.old.me.0.spent ≡ false }
        requires one_pair { length seat.old.me.0.pairs ≡ 1 }
        requires in_hand { (value : V) × (seat.old.me.1 ≡ (0, Some value) ∷ []) × (V.name_of value ≡ V.name_of self.now.first) × ((held : List ℕ) × (seat.old.me.0.held ≡ Some held) × GrowsAt (first_number seat.old.me.0.pairs) held (V.counts_of value)) }
        ensures own { seat.new.table_id ≡ self.now.lock }
        ensures after { (value : V) → seat.old.me.1 ≡ (0, Some value) ∷ [] → seat.new.me ≡ (releases seat.old.me.0 (V.counts_of value), []) }
    {
        self.table.shared.swap::<Release<V>>(&mut seat.seat, 0, 0);
    }

    // A second seat, with the last pair.
    pub fn split(&self, seat: &mut LockSeat<V>) -> LockSeat<V>
        requires own { seat.old.table_id ≡ self.now.lock }
        requires unspent { seat.old.me.0.spent ≡ false }
        requires pairs { 2 ≤ length seat.old.me.0.pairs }
        ensures own { (seat.new.table_id ≡ self.now.lock) × (result.table_id ≡ self.now.lock) }
        ensures kept { seat.new.me ≡ (keeps_most seat.old.me.0, seat.old.me.1) }
        ensures given { result.me ≡ (gives_last seat.old.me.0, []) }
    {
        LockSeat {
            seat: self.table.shared.split_seat::<Cut>(&mut seat.seat),
        }
    }

    // The seat takes over the pairs of the other, which is spent.
    pub fn join(&self, seat: &mut LockSeat<V>, other: LockSeat<V>)
        requires own { (seat.old.table_id ≡ self.now.lock) × (other.table_id ≡ self.now.lock) }
        requires unspent { (seat.old.me.0.spent ≡ false) × (other.me.0.spent ≡ false) }
        requires idle { (seat.old.me.0.held ≡ None) × (other.me.0.held ≡ None) × (other.me.1 ≡ []) }
        ensures own { seat.new.table_id ≡ self.now.lock }
        ensures after { seat.new.me ≡ (takes_in seat.old.me.0 other.me.0, seat.old.me.1) }
    {
        let LockSeat { seat: spent } = other;
        self.table.shared.join_seat::<Merge>(&mut seat.seat, spent);
    }

    // Ends the table, and gives the value out to a seat with every pair.
    pub fn close(self, seat: LockSeat<V>) -> V
        requires own { seat.table_id ≡ self.lock }
        requires unspent { seat.me.0.spent ≡ false }
        requires idle { seat.me.0.held ≡ None }
        requires every_pair { HasEach self.passes seat.me.0.pairs }
        ensures counts { Agree (V.counts_of result) seat.me.0.pairs }
        ensures name { V.name_of result ≡ V.name_of self.first }
    {
        let LockSeat { seat } = seat;
        let LockTable { table } = self;
        let mut closed = table.close_with(seat);
        let home = closed.take(0);
        closed.free();
        let Some(value) = home else { unreachable!() };
        value
    }
}
