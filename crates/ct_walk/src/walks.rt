//! Walks with their steps.
ghost use Rattle.std.specs.Prelude.{◌≡◌};

use ct_point::Point;
use std::marker::Model;

/// The walk of a point by a list of moves: its steps, each the number of a move and how many times it was made, and
/// the point where no head fits.
#[derive(Debug, Drop)]
pub struct Walk {
    steps: Vec<(u32, u64)>,
    end: Point,
}

impl Model for Walk {
    ghost use Rattle.ct_walk.specs.Moves.{Trace};

    ghost Value = { Trace };

    ghost view = { λ w. record { steps = w.steps.items; end = w.end } };
}

impl Walk {
    /// The steps in order: the number of a move, from 1, and a count of at least 1.
    pub fn steps(&self) -> &[(u32, u64)]
        ensures { result.now ≡ self.now.steps }
    {
        self.steps.as_slice()
    }

    /// Where the walk ends.
    pub fn end(&self) -> &Point
        ensures { result.now ≡ self.now.end }
    {
        &self.end
    }

    /// The steps and the end, with their memory.
    pub fn into_parts(self) -> (Vec<(u32, u64)>, Point)
        ensures steps { result.0.items ≡ self.steps }
        ensures end { result.1 ≡ self.end }
    {
        let Walk { steps, end } = self;
        (steps, end)
    }

    // The walk with these steps and this end.
    pub(crate) fn from_parts(steps: Vec<(u32, u64)>, end: Point) -> Walk
        ensures { result ≡ record { steps = steps.items; end = end } }
    {
        Walk { steps, end }
    }
}
