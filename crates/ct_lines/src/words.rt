//! The reader of a line, one word ahead.

use crate::stop::LineStop;
use ct_text::{Pieces, natural, signed_wide};
use ct_vectors::limits::{GRADE_LIMIT, MOVE_LIMIT};
use std::alloc::{AllocError, Global};
use std::marker::Model;

/// The words of a line that are left, of which the next is known. It borrows the line and takes no memory.
///
/// Each call that takes what stands next answers `Refused` where something else, or nothing, stands there.
#[derive(Drop)]
pub struct Words<'a> {
    ahead: Option<&'a [u8]>,
    pieces: Pieces<'a>,
}

impl<'a> Model for Words<'a> {
    ghost use Rattle.std.specs.Prelude.{◌≡◌, ℕ, List, [], MatchOption};
    ghost use Rattle.std.specs.Option.{option_copied};
    ghost use Rattle.ct_lines.specs.Reading.{with_ahead};

    ghost Value = { List (List ℕ) };

    ghost view = { λ w. with_ahead (option_copied w.ahead) w.pieces };

    ghost invariant = { λ w. MatchOption w.ahead (w.pieces ≡ []) (λ _. Unit {0}) };
}

impl<'a> Words<'a> {
    ghost use Rattle.std.specs.Prelude.{◌≡◌, ◌<◌, ◌≤◌, ◌^◌, unsigned_abs, [], drop, All, IfOk, IfSome, decimal, vec_len, MatchOption, None, Some, if◌then◌else◌};
    ghost use Rattle.ct_text.specs.Pieces.{split};
    ghost use Rattle.ct_lines.specs.Reading.{Gives, is_next, word_left, number_left, numbers_left, first_step, steps_left, walk_left, signed_left, signeds_left, is_last, rest_left, end_left};
    ghost use Rattle.ct_lines.specs.Texts.{IsStep};

    /// The words of a line: what stands between its spaces.
    pub fn new(line: &'a [u8]) -> Words<'a>
        ensures { result ≡ split 32 line.now }
    {
        let mut pieces = Pieces::new(line, b' ');
        let ahead = pieces.next();
        Words { ahead, pieces }
    }

    fn advance(&mut self)
        ensures { self.new ≡ drop 1 self.old }
    {
        self.ahead = self.pieces.next();
    }

    fn is_next(&self, word: &[u8]) -> bool
        ensures { result ≡ is_next word.now self.now }
    {
        match self.ahead {
            Some(next) => next == word,
            None => false,
        }
    }

    /// Takes the word if it stands next.
    pub fn goes(&mut self, word: &[u8]) -> bool
        ensures found { result ≡ is_next word.now self.old }
        ensures after { self.new ≡ (if result then drop 1 self.old else self.old) }
    {
        let found = self.is_next(word);
        if found {
            self.advance();
        }
        found
    }

    /// Takes this word.
    pub fn word(&mut self, word: &[u8]) -> Result<(), LineStop>
        ensures { Gives (λ _. self.new) result (word_left word.now self.old) }
    {
        if !self.goes(word) {
            return Err(LineStop::Refused);
        }
        Ok(())
    }

    /// Takes a number within these bounds.
    pub fn number(&mut self, low: u64, high: u64) -> Result<u64, LineStop>
        ensures gives { Gives (λ n. (n, self.new)) result (number_left low high self.old) }
        ensures within { IfOk result (λ n. (low ≤ n) × (n ≤ high)) }
    {
        let Some(word) = self.ahead else {
            return Err(LineStop::Refused);
        };
        match number_in(word, low, high) {
            None => Err(LineStop::Refused),
            Some(n) => {
                self.advance();
                Ok(n)
            }
        }
    }

    /// Takes the decimal text of this number.
    #[tactic(auto, using(crate::proofs::Spelling::numbered_word))]
    pub fn numbered(&mut self, number: u64) -> Result<(), LineStop>
        ensures { Gives (λ _. self.new) result (word_left (decimal number) self.old) }
    {
        let Some(word) = self.ahead else {
            return Err(LineStop::Refused);
        };
        if natural(word, number) != Ok(number) {
            return Err(LineStop::Refused);
        }
        self.advance();
        Ok(())
    }

    /// Takes so many numbers up to a limit.
    pub fn numbers(&mut self, alloc: Global, count: usize, high: u64) -> Result<Vec<u64>, LineStop>
        ensures gives { Gives (λ v. (v.items, self.new)) result (numbers_left count high self.old) }
        ensures count { IfOk result (λ v. vec_len v ≡ count) }
        ensures within { IfOk result (λ v. All (λ n. n ≤ high) v.items) }
    {
        let mut found = Vec::with_capacity(alloc, count)?;
        for _ in 0..count {
            let n = self.number(0, high)?;
            found.push(n)?;
        }
        Ok(found)
    }

    /// Takes a signed number of at most this size.
    pub fn signed(&mut self, size: u128) -> Result<i128, LineStop>
        requires { size < 2 ^ 124 }
        ensures gives { Gives (λ n. (n, self.new)) result (signed_left size self.old) }
        ensures within { IfOk result (λ n. unsigned_abs n ≤ size) }
    {
        let Some(word) = self.ahead else {
            return Err(LineStop::Refused);
        };
        match signed_wide(word, size) {
            Err(_) => Err(LineStop::Refused),
            Ok(n) => {
                self.advance();
                Ok(n)
            }
        }
    }

    /// Takes one signed number or several, up to a number of them and a size, and the word that ends them.
    pub fn signeds(
        &mut self,
        alloc: Global,
        most: usize,
        size: u128,
        word: &[u8],
    ) -> Result<Vec<i128>, LineStop>
        requires { size < 2 ^ 124 }
        ensures gives { Gives (λ v. (v.items, self.new)) result (signeds_left most size word.now self.old) }
        ensures within { IfOk result (λ v. All (λ n. unsigned_abs n ≤ size) v.items) }
        ensures count { IfOk result (λ v. (1 ≤ vec_len v) × (vec_len v ≤ most)) }
    {
        let mut found = Vec::new(alloc);
        for _ in 0..most {
            let n = self.signed(size)?;
            found.push(n)?;
            if self.goes(word) {
                return Ok(found);
            }
        }
        Err(LineStop::Refused)
    }

    fn is_last(&self) -> bool
        ensures { result ≡ is_last self.now }
    {
        self.ahead.is_none()
    }

    /// Takes one number or several, up to a number of them and a limit, and with them the line ends.
    pub fn rest(&mut self, alloc: Global, most: usize, high: u64) -> Result<Vec<u64>, LineStop>
        ensures gives { Gives (λ v. (v.items, self.new)) result (rest_left most high self.old) }
        ensures within { IfOk result (λ v. All (λ n. n ≤ high) v.items) }
        ensures count { IfOk result (λ v. (1 ≤ vec_len v) × (vec_len v ≤ most)) }
    {
        let mut found = Vec::new(alloc);
        for _ in 0..most {
            let n = self.number(0, high)?;
            found.push(n)?;
            if self.is_last() {
                return Ok(found);
            }
        }
        Err(LineStop::Refused)
    }

    // Takes a step if one stands next.
    fn next_step(&mut self) -> Option<(u32, u64)>
        ensures within { IfSome result IsStep }
        ensures takes { MatchOption result ((first_step self.old ≡ None) × (self.new ≡ self.old)) (λ step. first_step self.old ≡ Some (step, self.new)) }
    {
        let step = step_in(self.ahead?)?;
        self.advance();
        Some(step)
    }

    // Takes all steps that stand next.
    fn steps(&mut self, alloc: Global) -> Result<Vec<(u32, u64)>, AllocError>
        ensures steps { IfOk result (λ steps. steps_left self.old ≡ (steps.items, self.new)) }
        ensures within { IfOk result (λ steps. All IsStep steps.items) }
    {
        let mut steps = Vec::new(alloc);
        while let Some(step) = self.next_step() {
            steps.push(step)?;
        }
        Ok(steps)
    }

    /// Takes a walk: as many steps `number*times` as stand next, or `-` for the walk without steps. Numbers of moves
    /// count from 1.
    pub fn walk(&mut self, alloc: Global) -> Result<Vec<(u32, u64)>, LineStop>
        ensures gives { Gives (λ steps. (steps.items, self.new)) result (walk_left self.old) }
        ensures within { IfOk result (λ steps. All IsStep steps.items) }
    {
        if self.goes(b"-") {
            return Ok(Vec::new(alloc));
        }
        let steps = self.steps(alloc)?;
        if steps.is_empty() {
            return Err(LineStop::Refused);
        }
        Ok(steps)
    }

    /// The line ends here.
    pub fn end(&self) -> Result<(), LineStop>
        ensures { Gives (λ _. []) result (end_left self.now) }
    {
        match self.ahead {
            Some(_) => Err(LineStop::Refused),
            None => Ok(()),
        }
    }
}

ghost use Rattle.std.specs.Prelude.{◌≡◌, ◌≤◌, IfSome};
ghost use Rattle.ct_lines.specs.Reading.{number_of, step_of};
ghost use Rattle.ct_lines.specs.Texts.{IsStep};

fn number_in(word: &[u8], low: u64, high: u64) -> Option<u64>
    ensures exact { result ≡ number_of low high word.now }
    ensures within { IfSome result (λ n. (low ≤ n) × (n ≤ high)) }
{
    match natural(word, high) {
        Ok(n) if low <= n => Some(n),
        _ => None,
    }
}

// A step is spelled `number*times`.
#[tactic(auto, unfolding(crate::specs::Reading::step_of))]
fn step_in(word: &[u8]) -> Option<(u32, u64)>
    ensures exact { result ≡ step_of word.now }
    ensures within { IfSome result IsStep }
{
    let mut parts = Pieces::new(word, b'*');
    let number = parts.next()?;
    let times = parts.next()?;
    if !parts.is_end() {
        return None;
    }
    let number = number_in(number, 1, MOVE_LIMIT as u64)?;
    let times = number_in(times, 1, GRADE_LIMIT)?;
    Some((number as u32, times))
}
