//! A desk that has a book to itself.
ghost use Rattle.std.specs.Prelude.{◌≡◌, ◌<◌, ◌++◌, [], ◌∷◌};
ghost use Rattle.ct_vectors.specs.Words.{latest};

use ct_book::Book;
use ct_version::{Desk, Helped, Pin, Stop};
use std::alloc::Global;
use std::process::Abort;
use std::sync::Wait;

// Its pins find the number of the book's version, and its help completes the book. A desk whose turn another has is busy,
// and one without memory shares no version in a pin.
#[derive(Drop)]
pub struct BookDesk<'a, R> {
    pub rt: &'a R,
    pub book: Book,
    pub words: Vec<u64>,
    pub is_busy: bool,
    pub has_memory: bool,
    pub refused: u64,
    ghost some_pass: { 0 < book.passes },
}

impl<'a, R: Abort> Desk for BookDesk<'a, R> {
    ghost use Rattle.ct_book.specs.Books.{place_of};

    type Home = u64;

    ghost home = { λ _. 0 };

    ghost loan = { λ _. 0 };

    ghost place = { λ s. place_of s.book };

    ghost words = { λ s. s.words.items };

    ghost refused = { λ s. s.refused };

    fn pin(&mut self, held: u64) -> Pin {
        let number = self.book.version().number();
        if self.is_busy {
            let word = 2 * number + 1;
            note(self.rt, &mut self.words, word);
            return Pin::Busy { word };
        }
        note(self.rt, &mut self.words, 2 * number);
        if number <= held {
            return Pin::NotNewer { number };
        }
        if !self.has_memory {
            self.refused = self.refused.saturating_add(1);
            return Pin::Memory;
        }
        Pin::Newer(self.book.version().clone().expect(self.rt, "room"))
    }

    fn help<W: Wait>(&mut self, _: &W, alloc: Global, target: u64) -> Result<Helped, Stop> {
        self.book.complete(alloc, 0, target)
    }
}

// Writes a word down.
fn note(rt: &impl Abort, words: &mut Vec<u64>, word: u64)
    ensures one_take { words.new.items ≡ words.old.items ++ latest words.new.items ∷ [] }
    ensures latest { latest words.new.items ≡ word }
{
    words.push(word).expect(rt, "room");
}
