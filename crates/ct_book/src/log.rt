//! The journal, with the number of entries of each pass.
ghost use Rattle.std.specs.Prelude.{◌≡◌, ◌+◌, ◌^◌, ◌≤◌, ◌<◌, [], ◌∷◌, ◌++◌, length, replicate, All, IfOk, OnOk};
ghost use Rattle.ct_completion.specs.Journal.{entries_of, AreSerials};

use ct_completion::{Act, Entry};
use std::alloc::{AllocError, Global};
use std::marker::Model;

// The entries in order, and how many of them each pass made: 40 bytes an entry.
#[derive(Drop)]
pub struct Log {
    entries: Vec<Entry>,
    counts: Vec<u64>,
}

impl Model for Log {
    ghost use Rattle.std.specs.Prelude.{◌≡◌, length, vec_len, vec_capacity};
    ghost use Rattle.ct_book.specs.Logs.{LogSeen, IsLog};

    ghost Value = { LogSeen };

    ghost view = { λ l. record { entries = l.entries.items; passes = length l.counts.items; room = vec_capacity l.entries } };

    ghost invariant = { λ l. IsLog l.entries.items l.counts.items × (vec_len l.entries ≡ length l.entries.items) × (vec_len l.counts ≡ length l.counts.items) };
}

impl Log {
    // No entries.
    pub fn new(alloc: Global, passes: u32) -> Result<Log, AllocError>
        ensures entries { IfOk result (λ l. l.entries ≡ []) }
        ensures passes { IfOk result (λ l. l.passes ≡ passes) }
    {
        let counts = zeros(alloc, passes as usize)?;
        Ok(Log {
            entries: Vec::new(alloc),
            counts,
        })
    }

    // Makes room for so many more entries.
    pub fn reserve(&mut self, more: usize) -> Result<(), AllocError>
        ensures entries { self.new.entries ≡ self.old.entries }
        ensures passes { self.new.passes ≡ self.old.passes }
        ensures room { self.old.room ≤ self.new.room }
        ensures enough { OnOk result (length self.new.entries + more ≤ self.new.room) }
    {
        self.entries.reserve(more)
    }

    // Writes down what a pass did, in room that was made before, and answers the place of the entry, from 0.
    pub fn append(&mut self, by: u32, act: Act) -> u64
        requires pass { by < self.old.passes }
        requires room { length self.old.entries < self.old.room }
        ensures entries { self.new ≡ record self.old { entries = self.old.entries ++ record { pass = by; serial = entries_of by self.old.entries; act = act } ∷ [] } }
        ensures place { result ≡ length self.old.entries }
    {
        let place = self.entries.len();
        let serial = self.counts[by as usize];
        self.entries.push_reserved(Entry {
            pass: by,
            serial,
            act,
        });
        self.counts[by as usize] = serial + 1;
        place as u64
    }

    // The entries in order.
    pub fn entries(&self) -> &[Entry]
        ensures entries { result.now ≡ self.now.entries }
        ensures passes { All (λ e. e.pass < self.now.passes) self.now.entries }
        ensures serials { AreSerials self.now.entries }
    {
        self.entries.as_slice()
    }

    // The entries with their memory.
    pub fn into_entries(self) -> Vec<Entry>
        ensures entries { result.items ≡ self.entries }
        ensures passes { All (λ e. e.pass < self.passes) self.entries }
        ensures serials { AreSerials self.entries }
    {
        let Log { entries, counts: _ } = self;
        entries
    }

    // The number of entries of a pass.
    pub fn count(&self, pass: u32) -> u64
        requires { pass < self.now.passes }
        ensures count { result ≡ entries_of pass self.now.entries }
        ensures small { length self.now.entries < 2 ^ 64 }
    {
        self.counts[pass as usize]
    }
}

// So many zeros.
fn zeros(alloc: Global, count: usize) -> Result<Vec<u64>, AllocError>
    ensures { IfOk result (λ v. v.items ≡ replicate count 0) }
{
    vec![in alloc; 0u64; count]
}
