//! What passes keep.
ghost use Rattle.std.specs.Prelude.{◌≡◌, ◌++◌, ◌∷◌, [], None, Some, OnOk, OnErr, MatchOption, nat_eq, position};
ghost use Rattle.ct_workers.specs.Turns.{kept_by, first_of, without_first};

use ct_book::Remainder;
use std::alloc::{AllocError, Global};
use std::marker::Model;

// What a job left, with the pass that keeps it.
#[derive(Drop)]
pub struct Held {
    by: u32,
    remainder: Remainder,
}

// What the passes keep, in the order in which it came.
#[derive(Drop)]
pub struct Backlog {
    held: Vec<Held>,
}

impl Model for Backlog {
    ghost use Rattle.std.specs.Prelude.{List, map};
    ghost use Rattle.ct_workers.specs.Turns.{Pending, kept_by};

    ghost Value = { List Pending };

    ghost view = { λ b. map (λ h. kept_by h.by h.remainder) b.held.items };
}

impl Backlog {
    pub fn new(alloc: Global) -> Backlog
        ensures { result ≡ [] }
    {
        Backlog {
            held: Vec::new(alloc),
        }
    }

    pub fn keep(&mut self, by: u32, remainder: Remainder) -> Result<(), AllocError>
        ensures ok { OnOk result (self.new ≡ self.old ++ kept_by by remainder ∷ []) }
        ensures err { OnErr result (self.new ≡ self.old) }
    {
        self.held.push(Held { by, remainder })?;
        Ok(())
    }

    // The oldest that the pass keeps, which it keeps no longer.
    pub fn take_oldest(&mut self, by: u32) -> Option<Remainder>
        ensures first { MatchOption result ((first_of by self.old ≡ None) × (self.new ≡ self.old)) (λ r. first_of by self.old ≡ Some (kept_by by r)) }
        ensures rest { self.new ≡ without_first by self.old }
    {
        match oldest(&self.held, by) {
            None => None,
            Some(place) => {
                let Held { by: _, remainder } = self.held.remove(place);
                Some(remainder)
            }
        }
    }
}

// Where the oldest of a pass stands.
fn oldest(held: &[Held], by: u32) -> Option<usize>
    ensures place { result ≡ position (λ h. nat_eq h.by by) held.now }
{
    held.iter().position(|it| it.by == by)
}
