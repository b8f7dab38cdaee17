//! The reader of a text, one token ahead.

ghost use Rattle.std.specs.Prelude.{◌≡◌, if◌then◌else◌};
ghost use Rattle.ct_text.specs.Numbers.{is_natural};
ghost use Rattle.ct_input.specs.declared.fault.TextReason.TheVariants.{Limit, Number};

use crate::fault::{Fault, InputStop, TextReason};
use ct_text::{NumberFault, Token, Tokens, natural, signed};
use std::marker::Model;

/// The tokens of a text, of which the next is known: a sheet with the tokens that are left and the place of the end.
///
/// Each call goes once over the bytes of the tokens that it passes, and takes no memory. After an `Err` the token that was
/// refused still stands next.
#[derive(Drop)]
pub struct Reader<'a> {
    ahead: Option<Token<'a>>,
    tokens: Tokens<'a>,
}

impl<'a> Model for Reader<'a> {
    ghost use Rattle.std.specs.Prelude.{◌≡◌, [], MatchOption};
    ghost use Rattle.ct_input.specs.Sheet.{Sheet};
    ghost use Rattle.ct_input.specs.Reader.{with_ahead};

    ghost Value = { Sheet };

    ghost view = { λ r. record { tokens = with_ahead r.ahead r.tokens.tokens; end = r.tokens.end } };

    ghost invariant = { λ r. MatchOption r.ahead ((r.tokens.tokens ≡ []) × (r.tokens.place ≡ r.tokens.end)) (λ _. Unit {0}) };
}

impl<'a> Reader<'a> {
    ghost use Rattle.std.specs.Prelude.{◌≡◌, ◌<◌, ◌≤◌, ◌^◌, true, drop, IfOk, OnErr, unsigned_abs, if◌then◌else◌};
    ghost use Rattle.ct_text.specs.Tokens.{text_of};
    ghost use Rattle.ct_input.specs.Sheet.{Gives, sheet_of, fault_next};
    ghost use Rattle.ct_input.specs.Grammar.{is_next, after_next, barred_at, token_at, word_in, number_in, signed_in, only_in, nothing_at};

    /// A reader at the first token of a text.
    pub fn new(bytes: &'a [u8]) -> Reader<'a>
        ensures { result ≡ sheet_of (text_of bytes.now) }
    {
        let mut tokens = Tokens::new(bytes);
        let ahead = tokens.next();
        Reader { ahead, tokens }
    }

    fn advance(&mut self)
        ensures { self.new ≡ after_next self.old }
    {
        self.ahead = self.tokens.next();
    }

    /// Passes over so many tokens, or over all that are left.
    pub fn skip(&mut self, count: u32)
        ensures { self.new ≡ record { tokens = drop count self.old.tokens; end = self.old.end } }
    {
        for _ in 0..count {
            self.advance();
        }
    }

    /// The fault at the next token, or at the end.
    pub fn refuse(&self, reason: TextReason) -> InputStop
        ensures { result ≡ InputStop.Fault (fault_next reason self.now) }
    {
        let (line, column) = match &self.ahead {
            Some(token) => (token.line, token.column),
            None => self.tokens.place(),
        };
        InputStop::Fault(Fault::Text {
            line,
            column,
            reason,
        })
    }

    fn is_next(&self, word: &[u8]) -> bool
        ensures { result ≡ is_next word.now self.now }
    {
        match &self.ahead {
            Some(token) => token.text == word,
            None => false,
        }
    }

    /// Takes the word if it stands next.
    pub fn goes(&mut self, word: &[u8]) -> bool
        ensures found { result ≡ is_next word.now self.old }
        ensures after { self.new ≡ (if result then after_next self.old else self.old) }
    {
        let found = self.is_next(word);
        if found {
            self.advance();
        }
        found
    }

    /// The word may not stand next.
    pub fn barred(&self, word: &[u8]) -> Result<(), InputStop>
        ensures { Gives (λ _. true) result (barred_at word.now self.now) }
    {
        if self.is_next(word) {
            return Err(self.refuse(TextReason::Limit));
        }
        Ok(())
    }

    /// Takes the word, which must stand next.
    pub fn word(&mut self, word: &[u8]) -> Result<(), InputStop>
        ensures gives { Gives (λ _. (true, self.new)) result (token_at (word_in word.now) self.old) }
        ensures err { OnErr result (self.new ≡ self.old) }
    {
        let Some(token) = self.ahead else {
            return Err(self.refuse(TextReason::End));
        };
        if token.text != word {
            return Err(self.refuse(TextReason::Word));
        }
        self.advance();
        Ok(())
    }

    /// Takes the word, where a number might stand but none may any more.
    pub fn only(&mut self, word: &[u8]) -> Result<(), InputStop>
        ensures gives { Gives (λ _. (true, self.new)) result (token_at (only_in word.now) self.old) }
        ensures err { OnErr result (self.new ≡ self.old) }
    {
        let Some(token) = self.ahead else {
            return Err(self.refuse(TextReason::End));
        };
        if token.text != word {
            return Err(self.refuse(no_number(token.text)));
        }
        self.advance();
        Ok(())
    }

    /// Takes a natural number from `low` to `high`. One that is out of these bounds is Limit.
    pub fn number(&mut self, low: u64, high: u64) -> Result<u64, InputStop>
        ensures gives { Gives (λ n. (n, self.new)) result (token_at (number_in low high) self.old) }
        ensures within { IfOk result (λ n. (low ≤ n) × (n ≤ high)) }
        ensures err { OnErr result (self.new ≡ self.old) }
    {
        let Some(token) = self.ahead else {
            return Err(self.refuse(TextReason::End));
        };
        match natural(token.text, high) {
            Err(NumberFault::Spelling) => Err(self.refuse(TextReason::Number)),
            Err(NumberFault::Over) => Err(self.refuse(TextReason::Limit)),
            Ok(n) if n < low => Err(self.refuse(TextReason::Limit)),
            Ok(n) => {
                self.advance();
                Ok(n)
            }
        }
    }

    /// Takes a signed number of at most this size. A larger one is Limit.
    pub fn signed(&mut self, size: u64) -> Result<i64, InputStop>
        requires { size < 2 ^ 63 }
        ensures gives { Gives (λ n. (n, self.new)) result (token_at (signed_in size) self.old) }
        ensures within { IfOk result (λ n. unsigned_abs n ≤ size) }
        ensures err { OnErr result (self.new ≡ self.old) }
    {
        let Some(token) = self.ahead else {
            return Err(self.refuse(TextReason::End));
        };
        match signed(token.text, size) {
            Err(NumberFault::Spelling) => Err(self.refuse(TextReason::Number)),
            Err(NumberFault::Over) => Err(self.refuse(TextReason::Limit)),
            Ok(n) => {
                self.advance();
                Ok(n)
            }
        }
    }

    /// Nothing follows.
    pub fn nothing(&self) -> Result<(), InputStop>
        ensures { Gives (λ _. true) result (nothing_at self.now) }
    {
        match self.ahead {
            Some(_) => Err(self.refuse(TextReason::Extra)),
            None => Ok(()),
        }
    }
}

// Why a text can't stand where no number may any more.
#[tactic(auto, unfolding(ct_text::specs::Numbers::natural_of))]
fn no_number(text: &[u8]) -> TextReason
    ensures { result ≡ (if is_natural text.now then Limit else Number) }
{
    match natural(text, 0) {
        Err(NumberFault::Spelling) => TextReason::Number,
        _ => TextReason::Limit,
    }
}
