//! A pass of a cell.
use crate::table::CellSeat;
use std::marker::Model;

/// What one thread steps with. It can't be copied, and only a cell makes one; use it with that cell alone.
/// It takes no memory, and one that is dropped leaves the cell as it is.
#[derive(Drop)]
pub struct Pass<V> {
    pub(crate) seat: CellSeat<V>,
    pub(crate) seen: u64,
}

impl<V> Model for Pass<V> {
    ghost use Rattle.std.specs.Prelude.{◌≡◌, false};
    ghost use Rattle.turn_cell.specs.Sight.{CellSight};

    ghost Value = { CellSight V };

    ghost use Rattle.turn_cell.specs.Told.{sight_of, carried_with};

    ghost view = { λ p. sight_of p.seat.table_id p.seat.me.0 };

    ghost invariant = { λ p. (p.seen ≡ p.seat.me.0.seen) × (p.seat.me.0.spent ≡ false) × (p.seat.me.1 ≡ carried_with p.seat.me.0.held) };
}

impl<V> Pass<V> {
    ghost use Rattle.std.specs.Prelude.{◌≡◌};

    /// The greatest number that this pass has seen.
    pub fn seen(&self) -> u64
        ensures { result ≡ self.now.seen }
    {
        self.seen
    }
}
