//! The cell.
ghost use Rattle.std.specs.Prelude.{◌≡◌, ◌<◌, ◌≤◌, max};

use crate::held::Held;
use crate::numbered::Numbered;
use crate::pass::Pass;
use crate::stops::{Busy, ReadStop};
use crate::table::CellTable;
use std::alloc::{AllocError, Global};
use std::marker::Model;
use std::sync::Wait;

/// A cell for the newest of a line of numbered values.
#[derive(Drop)]
pub struct TurnCell<V: Numbered + Drop> {
    table: CellTable<V>,
}

impl<V: Numbered + Drop> Model for TurnCell<V> {
    ghost use Rattle.turn_cell.specs.Sight.{CellPlace};

    ghost Value = { CellPlace V };

    ghost view = { λ c. c.table };
}

impl<V: Numbered + Drop> TurnCell<V> {
    ghost use Rattle.std.specs.Prelude.{◌≡◌, ◌+◌, ◌*◌, ◌/◌, ◌^◌, ◌<◌, ◌≤◌, [], max, ℕ, None, Some, IfOk, IfErr};
    ghost use Rattle.turn_cell.specs.Sight.{IsOfCell, IsOdd, IsEven, after_take};
    ghost use Rattle.ct_vectors.specs.Words.{latest, Extends};
    ghost use Rattle.turn_cell.specs.Stops.{Stops};

    /// A cell with this value at home, and its first pass. The cell keeps the value's name.
    /// It takes memory for one word and one slot; where that is refused the value is dropped.
    pub fn open(alloc: Global, first: V) -> Result<(TurnCell<V>, Pass<V>), AllocError>
        requires { V.number_of first < 2 ^ 62 }
        ensures opened { IfOk result (λ c. c.0.first ≡ first) }
        ensures pass { IfOk result (λ c. IsOfCell c.0 c.1 × (c.1.seen ≡ V.number_of first) × (c.1.held ≡ None) × (c.1.words ≡ []) × (c.1.splits ≡ 0)) }
    {
        let number = first.number();
        let (table, seat) = CellTable::open(alloc, first)?;
        Ok((TurnCell { table }, Pass { seat, seen: number }))
    }

    /// A second pass, which has seen what the old one has. One atomic step, with no memory.
    pub fn split(&self, pass: &mut Pass<V>) -> Pass<V>
        requires { IsOfCell self.now pass.old }
        ensures kept { pass.new ≡ record pass.old { splits = pass.old.splits + 1 } }
        ensures given { result ≡ record pass.old { held = None; words = []; splits = pass.old.splits + 1 } }
    {
        Pass {
            seat: self.table.split(&mut pass.seat),
            seen: pass.seen,
        }
    }

    /// The pass takes in what the other has seen, and the other is spent. One atomic step, with no memory.
    pub fn join(&self, pass: &mut Pass<V>, other: Pass<V>)
        requires own { IsOfCell self.now pass.old × IsOfCell self.now other }
        requires idle { (pass.old.held ≡ None) × (other.held ≡ None) }
        ensures { pass.new ≡ record pass.old { seen = max pass.old.seen other.seen; splits = max pass.old.splits other.splits } }
    {
        let Pass { seat, seen } = other;
        self.table.join(&mut pass.seat, seat);
        if pass.seen < seen {
            pass.seen = seen;
        }
    }

    /// The number in the cell, by one load.
    pub fn newest(&self, pass: &mut Pass<V>) -> u64
        requires { IsOfCell self.now pass.old }
        ensures seen { pass.new ≡ record pass.old { seen = result } }
        ensures rises { pass.old.seen ≤ result }
    {
        let number = self.table.load(&mut pass.seat) / 2;
        pass.seen = number;
        number
    }

    /// Takes the turn if it is free, by one `fetch_or` that waits for nobody. It takes no memory.
    /// `Busy` comes exactly where the word that was found is odd.
    pub fn take(&self, pass: &mut Pass<V>) -> Result<Held<V>, Busy>
        requires own { IsOfCell self.now pass.old }
        requires idle { pass.old.held ≡ None }
        ensures busy { IfErr result (λ b. IsOdd b.word × (pass.new ≡ after_take pass.old b.word)) }
        ensures turn { IfOk result (λ v. pass.new ≡ record (after_take pass.old (2 * V.number_of v)) { held = Some (V.number_of v) }) }
        ensures name { IfOk result (λ v. V.name_of v ≡ V.name_of self.now.first) }
        ensures rises { pass.old.seen ≤ pass.new.seen }
    {
        let found = self.table.take(&mut pass.seat);
        pass.seen = found / 2;
        if found % 2 == 1 {
            return Err(Busy { word: found });
        }
        Ok(Held {
            value: self.table.exchange_out(&mut pass.seat),
        })
    }

    /// Gives the turn back, with the value that was held, by one swap. It takes no memory.
    pub fn give(&self, pass: &mut Pass<V>, held: Held<V>)
        requires own { IsOfCell self.now pass.old }
        requires turn { pass.old.held ≡ Some (V.number_of held) }
        requires name { V.name_of held ≡ V.name_of self.now.first }
        ensures given { pass.new ≡ record pass.old { seen = V.number_of held; held = None } }
        ensures rises { pass.old.seen ≤ pass.new.seen }
    {
        let Held { value } = held;
        self.release(pass, value);
    }

    /// Shares the value at home: `take`, `share`, `give`. It waits for nobody, and gives the turn back where the
    /// sharing is refused too. `Busy` comes exactly where the one take found an odd word, `Memory` only where it
    /// found an even one.
    #[tactic(auto, using(ct_vectors::proofs::Words::latest_snoc))]
    pub fn try_read(&self, pass: &mut Pass<V>) -> Result<V, ReadStop>
        requires own { IsOfCell self.now pass.old }
        requires idle { pass.old.held ≡ None }
        ensures one_take { pass.new ≡ after_take pass.old (latest pass.new.words) }
        ensures value { IfOk result (λ v. (latest pass.new.words ≡ 2 * V.number_of v) × (V.name_of v ≡ V.name_of self.now.first)) }
        ensures stops { IfErr result (λ e. Stops e (latest pass.new.words)) }
        ensures rises { pass.old.seen ≤ pass.new.seen }
    {
        match self.take(pass) {
            Ok(held) => {
                let shared = held.value().share();
                self.give(pass, held);
                match shared {
                    Ok(value) => Ok(value),
                    Err(_) => Err(ReadStop::Memory),
                }
            }
            Err(Busy { word }) => Err(ReadStop::Busy { word }),
        }
    }

    /// Puts the value into the cell, or drops it where the number at home is at least its number: of two values with one
    /// number the one at home stays.
    /// It tries to take the turn until it has it, and so may wait for ever. It takes no memory.
    pub fn put<R: Wait>(&self, rt: &R, pass: &mut Pass<V>, v: V)
        requires own { IsOfCell self.now pass.old }
        requires idle { pass.old.held ≡ None }
        requires value { (V.number_of v < 2 ^ 62) × (V.name_of v ≡ V.name_of self.now.first) }
        ensures greater { pass.new ≡ record pass.old { seen = max (latest pass.new.words / 2) (V.number_of v); words = pass.new.words } }
        ensures tries { Extends pass.old.words pass.new.words × IsEven (latest pass.new.words) }
        ensures rises { pass.old.seen ≤ pass.new.seen }
    {
        let home = self.take_at_last(rt, pass);
        self.release(pass, greater(home, v));
    }

    // Tries to take the turn until it has it.
    fn take_at_last<R: Wait>(&self, rt: &R, pass: &mut Pass<V>) -> V
        requires own { IsOfCell self.now pass.old }
        requires idle { pass.old.held ≡ None }
        ensures turn { pass.new ≡ record pass.old { seen = V.number_of result; words = pass.new.words; held = Some (V.number_of result) } }
        ensures value { (V.number_of result < 2 ^ 62) × (V.name_of result ≡ V.name_of self.now.first) }
        ensures tries { Extends pass.old.words pass.new.words × (latest pass.new.words ≡ 2 * V.number_of result) }
        ensures rises { pass.old.seen ≤ pass.new.seen }
    {
        for _ in rt.forever() {
            if let Ok(held) = self.take(pass) {
                let Held { value } = held;
                return value;
            }
        }
        unreachable!()
    }

    // The value goes home, and the turn is free.
    fn release(&self, pass: &mut Pass<V>, value: V)
        requires own { IsOfCell self.now pass.old }
        requires turn { (k : ℕ) × (pass.old.held ≡ Some k) × (k ≤ V.number_of value) }
        requires value { (V.number_of value < 2 ^ 62) × (V.name_of value ≡ V.name_of self.now.first) }
        ensures given { pass.new ≡ record pass.old { seen = V.number_of value; held = None } }
        ensures rises { pass.old.seen ≤ pass.new.seen }
    {
        let number = value.number();
        self.table.exchange_in(&mut pass.seat, value);
        self.table.release(&mut pass.seat, number);
        pass.seen = number;
    }
}

// The value with the greater number, and of two with one number the one at home.
fn greater<V: Numbered + Drop>(home: V, v: V) -> V
    ensures number { V.number_of result ≡ max (V.number_of home) (V.number_of v) }
    ensures stays { V.number_of v ≤ V.number_of home → result ≡ home }
    ensures comes { V.number_of home < V.number_of v → result ≡ v }
{
    if v.number() <= home.number() { home } else { v }
}
