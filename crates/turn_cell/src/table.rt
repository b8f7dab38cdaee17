//! The table that the passes of a cell share, and one function for each kind of step. The table and its seats are private
//! to this module, so no body elsewhere makes a seat, a take or a swap, and each of these tells its seat what it did.
ghost use Rattle.std.specs.Prelude.{◌≡◌, ◌^◌, ◌<◌, ◌≤◌, ◌/◌, [], ◌∷◌, ℕ, false, None, Some, IfOk};
ghost use Rattle.turn_cell.specs.Sight.{IsOdd, IsEven};
ghost use Rattle.turn_cell.specs.Told.{Won, sees, finds, releases, keeps_one, gives_one, takes_in};
ghost use Rattle.turn_cell.specs.Turn.{first_note};

use crate::note::Note;
use crate::numbered::Numbered;
use crate::rule::{Cut, Look, Merge, Release, Take, Turns};
use atomic_table::{Refused, Seat, Table};
use std::alloc::{AllocError, Global};
use std::marker::Model;
use std::snapshot::Snapshot;

// One word and one slot.
#[derive(Drop)]
pub struct CellTable<V: Numbered + Drop> {
    table: Table<Option<V>, Note<V>, Snapshot<V>, Turns<V>, Global>,
}

impl<V: Numbered + Drop> Model for CellTable<V> {
    ghost use Rattle.std.specs.Prelude.{◌≡◌};
    ghost use Rattle.turn_cell.specs.Sight.{CellPlace};

    ghost Value = { CellPlace V };

    ghost view = { λ c. record { cell = c.table.shared.table_id; first = c.table.shared.key.value } };

    ghost invariant = { λ c. (c.table.shared.table_id.words ≡ 1) × (c.table.shared.table_id.slots ≡ 1) };
}

// A seat at the table: what its pass knows, and the slot while it is out with it.
#[derive(Drop)]
pub struct CellSeat<V> {
    seat: Seat<Option<V>, Note<V>>,
}

impl<V> Model for CellSeat<V> {
    ghost use Rattle.turn_cell.specs.Told.{SeatSight};

    ghost Value = { SeatSight V };

    ghost view = { λ s. record { table_id = s.seat.table_id; me = s.seat.me } };
}

impl<V: Numbered + Drop> CellTable<V> {
    // The table with this value at home, and its first seat. Where memory is refused the value is dropped.
    pub fn open(alloc: Global, first: V) -> Result<(CellTable<V>, CellSeat<V>), AllocError>
        requires { V.number_of first < 2 ^ 62 }
        ensures opened { IfOk result (λ r. r.0.first ≡ first) }
        ensures seat { IfOk result (λ r. (r.1.table_id ≡ r.0.cell) × (r.1.me ≡ (first_note (V.number_of first) first, []))) }
    {
        let number = first.number();
        let about = Snapshot::of(&first);
        let mut slots = Vec::with_capacity(alloc, 1)?;
        slots.push_reserved(Some(first));
        match Table::new(alloc, &[2 * number], slots, &about) {
            Ok((table, seat)) => Ok((CellTable { table }, CellSeat { seat })),
            Err(Refused { slots: _ }) => Err(AllocError),
        }
    }

    // A load of the word.
    pub fn load(&self, seat: &mut CellSeat<V>) -> u64
        requires own { seat.old.table_id ≡ self.now.cell }
        requires unspent { seat.old.me.0.spent ≡ false }
        ensures own { seat.new.table_id ≡ self.now.cell }
        ensures after { seat.new.me ≡ (sees seat.old.me.0 (result / 2), seat.old.me.1) }
        ensures rises { seat.old.me.0.seen ≤ result / 2 }
    {
        self.table.shared.load::<Look>(&mut seat.seat, 0)
    }

    // A take: a `fetch_or` of 1. Where the word was even the slot goes out with the seat.
    pub fn take(&self, seat: &mut CellSeat<V>) -> u64
        requires own { seat.old.table_id ≡ self.now.cell }
        requires unspent { seat.old.me.0.spent ≡ false }
        requires idle { seat.old.me.0.held ≡ None }
        ensures own { seat.new.table_id ≡ self.now.cell }
        ensures busy { IsOdd result → seat.new.me ≡ (finds seat.old.me.0 result, seat.old.me.1) }
        ensures free { IsEven result → Won V.number_of V.name_of seat.old.me result seat.new.me }
        ensures rises { seat.old.me.0.seen ≤ result / 2 }
    {
        self.table.shared.fetch_or::<Take<V>>(&mut seat.seat, 0, 1)
    }

    // The value out of the slot in hand, which is then empty.
    pub fn exchange_out(&self, seat: &mut CellSeat<V>) -> V
        requires own { seat.old.table_id ≡ self.now.cell }
        requires in_hand { (value : V) × (seat.old.me.1 ≡ (0, Some value) ∷ []) }
        ensures own { seat.new.table_id ≡ self.now.cell }
        ensures value { seat.old.me.1 ≡ (0, Some result) ∷ [] }
        ensures after { seat.new.me ≡ (seat.old.me.0, (0, None) ∷ []) }
    {
        let Some(value) = self.table.shared.exchange(&mut seat.seat, 0, None) else {
            unreachable!()
        };
        value
    }

    // The value into the empty slot in hand.
    pub fn exchange_in(&self, seat: &mut CellSeat<V>, value: V)
        requires own { seat.old.table_id ≡ self.now.cell }
        requires in_hand { seat.old.me.1 ≡ (0, None) ∷ [] }
        ensures own { seat.new.table_id ≡ self.now.cell }
        ensures after { seat.new.me ≡ (seat.old.me.0, (0, Some value) ∷ []) }
    {
        self.table.shared.exchange(&mut seat.seat, 0, Some(value));
    }

    // A release: a swap to twice the number of the value in the slot, which goes home.
    pub fn release(&self, seat: &mut CellSeat<V>, number: u64)
        requires own { seat.old.table_id ≡ self.now.cell }
        requires unspent { seat.old.me.0.spent ≡ false }
        requires in_hand { (value : V) × (seat.old.me.1 ≡ (0, Some value) ∷ []) × (V.number_of value ≡ number) × (V.name_of value ≡ V.name_of self.now.first) }
        requires turn { (k : ℕ) × (seat.old.me.0.held ≡ Some k) × (k ≤ number) }
        requires small { number < 2 ^ 62 }
        ensures own { seat.new.table_id ≡ self.now.cell }
        ensures after { seat.new.me ≡ (releases seat.old.me.0 number, []) }
        ensures rises { seat.old.me.0.seen ≤ number }
    {
        self.table
            .shared
            .swap::<Release>(&mut seat.seat, 0, 2 * number);
    }

    // A second seat, with no slot in hand.
    pub fn split(&self, seat: &mut CellSeat<V>) -> CellSeat<V>
        requires own { seat.old.table_id ≡ self.now.cell }
        requires unspent { seat.old.me.0.spent ≡ false }
        ensures own { (seat.new.table_id ≡ self.now.cell) × (result.table_id ≡ self.now.cell) }
        ensures kept { seat.new.me ≡ (keeps_one seat.old.me.0, seat.old.me.1) }
        ensures given { result.me ≡ (gives_one seat.old.me.0, []) }
    {
        CellSeat {
            seat: self.table.shared.split_seat::<Cut>(&mut seat.seat),
        }
    }

    // The seat takes in what the other knows, which is spent.
    pub fn join(&self, seat: &mut CellSeat<V>, other: CellSeat<V>)
        requires own { (seat.old.table_id ≡ self.now.cell) × (other.table_id ≡ self.now.cell) }
        requires unspent { (seat.old.me.0.spent ≡ false) × (other.me.0.spent ≡ false) }
        requires idle { (seat.old.me.0.held ≡ None) × (other.me.0.held ≡ None) × (other.me.1 ≡ []) }
        ensures own { seat.new.table_id ≡ self.now.cell }
        ensures after { seat.new.me ≡ (takes_in seat.old.me.0 other.me.0, seat.old.me.1) }
    {
        let CellSeat { seat: spent } = other;
        self.table.shared.join_seat::<Merge>(&mut seat.seat, spent);
    }
}
