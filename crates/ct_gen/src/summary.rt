//! The summary of what was answered to a made input.

ghost use Rattle.std.specs.Prelude.{◌≡◌, ◌++◌, codes, decimal, IfOk, OnOk};
ghost use Rattle.std.specs.Fmt.{signed_decimal};
ghost use Rattle.ct_gen.specs.SummaryText.{entry, level_text, summary_text};
ghost use Rattle.ct_gen.specs.Tallies.{summary_of};

use crate::tally::Tally;
use ct_text::{push_natural, push_signed};
use ct_version::Finished;
use std::alloc::{AllocError, Global};

/// What was answered to the input made of a number.
#[derive(Clone, Copy, Debug, PartialEq, Eq)]
pub struct Summary {
    /// The number that the input was made of.
    pub number: u64,
    /// How many requests were answered.
    pub requests: u64,
    /// How many of the answers are an optimum.
    pub optimum: u64,
    /// How many say that there is no solution.
    pub infeasible: u64,
    /// How many say that the list of moves is full.
    pub full: u64,
    /// The sum of the first costs of the optima.
    pub cost: i128,
    /// How many moves the version at the end has.
    pub moves: u32,
    /// Its level.
    pub level: Finished,
}

fn push_entry(out: &mut Vec<u8>, word: &[u8], number: u64) -> Result<(), AllocError>
    ensures { OnOk result (out.new.items ≡ out.old.items ++ entry word.now (decimal number)) }
{
    out.extend_from_slice(word)?;
    out.extend_from_slice(b" ")?;
    push_natural(out, number)?;
    out.extend_from_slice(b"\n")?;
    Ok(())
}

fn push_cost(out: &mut Vec<u8>, cost: i128) -> Result<(), AllocError>
    ensures { OnOk result (out.new.items ≡ out.old.items ++ entry (codes "cost") (signed_decimal cost)) }
{
    out.extend_from_slice(b"cost ")?;
    push_signed(out, cost)?;
    out.extend_from_slice(b"\n")?;
    Ok(())
}

fn push_level(out: &mut Vec<u8>, level: Finished) -> Result<(), AllocError>
    ensures { OnOk result (out.new.items ≡ out.old.items ++ entry (codes "level") (level_text level)) }
{
    match level {
        Finished::Upto(level) => push_entry(out, b"level", level),
        Finished::All => out.extend_from_slice(b"level all\n"),
    }
}

impl Summary {
    /// The summary of a tally, with the moves and the level of the version at the end.
    pub fn of(number: u64, tally: Tally, moves: u32, level: Finished) -> Summary
        ensures { result ≡ summary_of number tally moves level }
    {
        Summary {
            number,
            requests: tally.requests,
            optimum: tally.optimum,
            infeasible: tally.infeasible,
            full: tally.full,
            cost: tally.cost,
            moves,
            level,
        }
    }

    /// Its text, ten lines.
    pub fn print(&self, alloc: Global) -> Result<Vec<u8>, AllocError>
        ensures { IfOk result (λ text. text.items ≡ summary_text self.now) }
    {
        let mut out = Vec::new(alloc);
        push_entry(&mut out, b"made", self.number)?;
        out.extend_from_slice(b"columns 6\n")?;
        push_entry(&mut out, b"requests", self.requests)?;
        push_entry(&mut out, b"optimum", self.optimum)?;
        push_entry(&mut out, b"infeasible", self.infeasible)?;
        push_entry(&mut out, b"full", self.full)?;
        push_cost(&mut out, self.cost)?;
        push_entry(&mut out, b"moves", u64::from(self.moves))?;
        push_level(&mut out, self.level)?;
        out.extend_from_slice(b"end\n")?;
        Ok(out)
    }
}
