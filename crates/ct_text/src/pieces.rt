//! The pieces of a text between separators.

use std::marker::Model;

/// The pieces of a text between the bytes that equal a separator, from the first to the last, seen as the list of those
/// that are left. A text has one piece more than it has separators: an empty text is one empty piece.
///
/// It borrows the text and takes no memory, and looks once at each byte.
#[derive(Drop)]
pub struct Pieces<'a> {
    separator: u8,
    left: &'a [u8],
    is_done: bool,
}

impl<'a> Model for Pieces<'a> {
    ghost use Rattle.std.specs.Prelude.{ℕ, List};
    ghost use Rattle.ct_text.specs.Pieces.{pieces_left};

    ghost Value = { List (List ℕ) };

    ghost view = { λ s. pieces_left s.separator s.is_done s.left.now };
}

impl<'a> Pieces<'a> {
    ghost use Rattle.std.specs.Prelude.{◌≡◌, ◌↔◌, ◌∷◌, [], MatchOption, IsTrue};
    ghost use Rattle.ct_text.specs.Pieces.{split};

    /// All pieces of a text.
    pub fn new(bytes: &'a [u8], separator: u8) -> Pieces<'a>
        ensures { result ≡ split separator bytes.now }
    {
        Pieces {
            separator,
            left: bytes,
            is_done: false,
        }
    }

    /// The next piece.
    pub fn next(&mut self) -> Option<&'a [u8]>
        ensures { MatchOption result ((self.old ≡ []) × (self.new ≡ [])) (λ piece. self.old ≡ piece.now ∷ self.new) }
    {
        if self.is_done {
            return None;
        }
        let len = piece_len(self.left, self.separator);
        let (piece, rest) = self.left.split_at(len);
        match rest {
            [] => {
                self.is_done = true;
                Some(piece)
            }
            [_, others @ ..] => {
                self.left = others;
                Some(piece)
            }
        }
    }

    /// Whether no piece is left.
    pub fn is_end(&self) -> bool
        ensures { IsTrue result ↔ (self.now ≡ []) }
    {
        self.is_done
    }
}

ghost use Rattle.std.specs.Prelude.{◌≡◌};
ghost use Rattle.ct_text.specs.Pieces.{first_len};

// How many bytes stand before the first separator.
fn piece_len(left: &[u8], separator: u8) -> usize
    ensures { result ≡ first_len separator left.now }
{
    left.iter().take_while(|byte| **byte != separator).count()
}
