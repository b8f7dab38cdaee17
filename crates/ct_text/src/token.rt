//! Tokens, and the one pass over the bytes that finds them.

use crate::place::Place;
use std::marker::Model;

/// A longest run of bytes that are neither blank nor part of a comment.
#[derive(Clone, Copy, Debug)]
pub struct Token<'a> {
    /// The line on which the token stands, from 1.
    pub line: u64,
    /// The column of its first byte, in bytes from 1.
    pub column: u64,
    /// Its bytes, at least one.
    pub text: &'a [u8],
}

/// The tokens of a text, from the first to the last. It borrows the text and takes no memory.
#[derive(Drop)]
pub struct Tokens<'a> {
    left: &'a [u8],
    place: Place,
}

impl<'a> Model for Tokens<'a> {
    ghost use Rattle.std.specs.Prelude.{◌+◌, ◌<◌, ◌^◌, length};
    ghost use Rattle.ct_text.specs.Tokens.{Text, between, text_in};

    ghost Value = { Text };

    ghost view = { λ s. text_in between s.place s.left.now };

    ghost invariant = { λ s. (s.place.line + length s.left.now < 2 ^ 64) × (s.place.column + length s.left.now < 2 ^ 64) };
}

impl<'a> Tokens<'a> {
    ghost use Rattle.std.specs.Prelude.{◌≡◌, ◌∷◌, [], MatchOption};
    ghost use Rattle.ct_text.specs.Tokens.{Text, text_of, past_token};
    ghost use Rattle.ct_text.specs.Token.{lexeme};

    /// The tokens of the whole text.
    pub fn new(bytes: &'a [u8]) -> Tokens<'a>
        ensures { result ≡ text_of bytes.now }
    {
        Tokens {
            left: bytes,
            place: Place { line: 1, column: 1 },
        }
    }

    /// The next token. Each byte of the text is looked at once, or twice where it begins a token.
    pub fn next(&mut self) -> Option<Token<'a>>
        // There is none exactly where no token is left; the place is then the end.
        ensures cases { MatchOption result
            ((self.old.tokens ≡ []) × (self.new.tokens ≡ []) × (self.new.place ≡ self.old.end))
            (λ token. (self.old.tokens ≡ lexeme token ∷ self.new.tokens) × (self.new.place ≡ past_token (lexeme token))) }
        ensures end { self.new.end ≡ self.old.end }
    {
        let (left, place) = after_gap(self.left, self.place);
        let len = token_len(left);
        let (text, rest) = left.split_at(len);
        self.left = rest;
        self.place = Place {
            line: place.line,
            column: place.column + len as u64,
        };
        if len == 0 {
            return None;
        }
        Some(Token {
            line: place.line,
            column: place.column,
            text,
        })
    }

    /// The line and the column past the last byte read: after a token the place where it ends, and
    /// at the end of the text the place of the end.
    pub fn place(&self) -> (u64, u64)
        ensures { result ≡ (self.now.place.line, self.now.place.column) }
    {
        (self.place.line, self.place.column)
    }
}

ghost use Rattle.std.specs.Prelude.{◌≡◌, ◌+◌, ◌<◌, ◌^◌, length};
ghost use Rattle.std.specs.List.{prefix_len};
ghost use Rattle.ct_text.specs.Place.{place_after};
ghost use Rattle.ct_text.specs.Tokens.{is_plain, between, tokens_in, BeginsToken, Roomy};

fn is_plain_byte(byte: u8) -> bool
    ensures { result ≡ is_plain byte }
{
    !matches!(byte, b' ' | b'\t' | b'\n' | b'\r' | b'#')
}

// What is left after blanks and comments, and its place.
fn after_gap(left: &[u8], from: Place) -> (&[u8], Place)
    requires { Roomy from left.now }
    ensures tokens { tokens_in between result.1 result.0.now ≡ tokens_in between from left.now }
    ensures end { place_after result.1 result.0.now ≡ place_after from left.now }
    ensures begins { BeginsToken result.0.now }
    ensures roomy { Roomy result.1 result.0.now }
{
    let mut place = from;
    let mut in_comment = false;
    for (i, byte) in left.iter().enumerate() {
        if !in_comment && is_plain_byte(*byte) {
            return (&left[i..], place);
        }
        in_comment = if in_comment {
            *byte != b'\n'
        } else {
            *byte == b'#'
        };
        place = place.past(*byte);
    }
    (&left[left.len()..], place)
}

// How many bytes of a token stand at the front.
fn token_len(left: &[u8]) -> usize
    ensures { result ≡ prefix_len is_plain left.now }
{
    left.iter().take_while(|byte| is_plain_byte(**byte)).count()
}
