//! A pass of a lock.
use crate::table::LockSeat;
use std::marker::Model;

/// What one thread steps with. It can't be copied, and only a lock makes one; use it with that lock alone.
#[derive(Drop)]
pub struct LockPass<V> {
    pub(crate) seat: LockSeat<V>,
    pub(crate) number: u32,
    pub(crate) count: u64,
}

impl<V> Model for LockPass<V> {
    ghost use Rattle.std.specs.Prelude.{◌≡◌, ◌∷◌, false, drop};
    ghost use Rattle.count_lock.specs.Sight.{LockSight};

    ghost Value = { LockSight V };

    ghost use Rattle.count_lock.specs.Told.{sight_of, carried_with, Fits};

    ghost view = { λ p. sight_of p.seat.table_id p.seat.me.0 };

    ghost invariant = { λ p. (p.seat.me.0.spent ≡ false) × (p.seat.me.1 ≡ carried_with p.seat.me.0.held) × (p.seat.me.0.pairs ≡ (p.number, p.count) ∷ drop 1 p.seat.me.0.pairs) × Fits p.seat.me.0.held p.number };
}

impl<V> LockPass<V> {
    ghost use Rattle.std.specs.Prelude.{◌≡◌};
    ghost use Rattle.count_lock.specs.Pairs.{first_number, first_count};

    /// The number of the first pair.
    pub fn number(&self) -> u32
        ensures { result ≡ first_number self.now.pairs }
    {
        self.number
    }

    /// The count of the first pair.
    pub fn count(&self) -> u64
        ensures { result ≡ first_count self.now.pairs }
    {
        self.count
    }
}
