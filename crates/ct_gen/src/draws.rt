//! The source of draws.

ghost use Rattle.std.specs.Prelude.{◌≡◌, ◌+◌, ◌<◌, ◌^◌, IfOk, OnOk};
ghost use Rattle.ct_gen.specs.Draws.{draw_at, draws};

use std::alloc::{AllocError, Global};
use std::marker::Model;

/// The multiplier of the generator, Knuth's for a modulus of 2^64.
pub const MULTIPLIER: u64 = 6364136223846793005;

/// Its increment.
pub const INCREMENT: u64 = 1442695040888963407;

/// A source of draws, seen as the number that it began with and how many were drawn.
#[derive(Drop)]
pub struct Source {
    number: u64,
    drawn: u64,
    state: u64,
}

impl Model for Source {
    ghost use Rattle.std.specs.Prelude.{◌≡◌, ℕ};
    ghost use Rattle.ct_gen.specs.Draws.{state_after};

    ghost Value = { ℕ × ℕ };

    ghost view = { λ s. (s.number, s.drawn) };

    ghost invariant = { λ s. s.state ≡ state_after s.number s.drawn };
}

impl Source {
    #[tactic(auto, unfolding(crate::specs::Draws::state_after))]
    pub fn new(number: u64) -> Source
        ensures { result ≡ (number, 0) }
    {
        Source {
            number,
            drawn: 0,
            state: number,
        }
    }

    /// The next draw, a number below 2^31.
    #[tactic(auto, using(crate::proofs::Drawn::next_after))]
    pub fn draw(&mut self) -> u64
        requires { self.old.1 < 2 ^ 32 }
        ensures draw { result ≡ draw_at self.old.0 self.old.1 }
        ensures source { self.new ≡ (self.old.0, self.old.1 + 1) }
    {
        self.state = self.state.wrapping_mul(MULTIPLIER).wrapping_add(INCREMENT);
        self.drawn += 1;
        self.state >> 33
    }

    /// So many draws.
    pub fn draws(&mut self, alloc: Global, count: u64) -> Result<Vec<u64>, AllocError>
        requires { self.old.1 + count < 2 ^ 32 }
        ensures draws { IfOk result (λ v. v.items ≡ draws self.old.0 self.old.1 count) }
        ensures source { OnOk result (self.new ≡ (self.old.0, self.old.1 + count)) }
    {
        let mut drawn = Vec::new(alloc);
        for _ in 0..count {
            drawn.push(self.draw())?;
        }
        Ok(drawn)
    }
}
