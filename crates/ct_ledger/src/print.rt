//! The lines of a ledger text as they are written.

ghost use Rattle.std.specs.Prelude.{◌≡◌, ◌++◌, ◌∷◌, [], map, OnOk};
ghost use Rattle.ct_lines.specs.Texts.{text_of};
ghost use Rattle.ct_ledger.specs.declared.entries.LedgerEntry.TheVariants.{Coprime, Walks};
ghost use Rattle.ct_ledger.specs.LedgerText.{title_words, size_words, grade_words, move_words, entry_words, job_front};

use crate::entries::LedgerEntry;
use ct_instance::Job;
use ct_lines::{push_number, push_numbers, push_walk};
use ct_point::Point;
use std::alloc::AllocError;

// The title, the size and the grade.
pub fn push_head(out: &mut Vec<u8>, rows: u32, columns: u32, grade: u64) -> Result<(), AllocError>
    ensures { OnOk result (out.new.items ≡ out.old.items ++ text_of (title_words ∷ size_words rows columns ∷ grade_words grade ∷ [])) }
{
    out.extend_from_slice(b"ledger 1\nsize")?;
    push_number(out, u64::from(rows))?;
    push_number(out, u64::from(columns))?;
    out.extend_from_slice(b"\ngrade")?;
    push_number(out, grade)?;
    out.extend_from_slice(b"\n")?;
    Ok(())
}

fn push_move(out: &mut Vec<u8>, head: &[u64], tail: &[u64]) -> Result<(), AllocError>
    ensures { OnOk result (out.new.items ≡ out.old.items ++ text_of (move_words (head.now, tail.now) ∷ [])) }
{
    out.extend_from_slice(b"move")?;
    push_numbers(out, head)?;
    out.extend_from_slice(b" to")?;
    push_numbers(out, tail)?;
    out.extend_from_slice(b"\n")?;
    Ok(())
}

pub fn push_moves(out: &mut Vec<u8>, moves: &[(Point, Point)]) -> Result<(), AllocError>
    ensures { OnOk result (out.new.items ≡ out.old.items ++ text_of (map move_words moves.now)) }
{
    for (head, tail) in moves {
        push_move(out, head.as_slice(), tail.as_slice())?;
    }
    Ok(())
}

fn push_job(out: &mut Vec<u8>, job: Job) -> Result<(), AllocError>
    ensures { OnOk result (out.new.items ≡ out.old.items ++ job_front job) }
{
    match job {
        Job::Generator(column) => {
            out.extend_from_slice(b"generator")?;
            push_number(out, u64::from(column))
        }
        Job::Pair(first, second) => {
            out.extend_from_slice(b"pair")?;
            push_number(out, u64::from(first))?;
            push_number(out, u64::from(second))
        }
    }
}

fn push_coprime(out: &mut Vec<u8>, job: Job) -> Result<(), AllocError>
    ensures { OnOk result (out.new.items ≡ out.old.items ++ text_of (entry_words (Coprime job) ∷ [])) }
{
    push_job(out, job)?;
    out.extend_from_slice(b" coprime\n")?;
    Ok(())
}

fn push_walks(
    out: &mut Vec<u8>,
    job: Job,
    first: &[(u32, u64)],
    second: &[(u32, u64)],
) -> Result<(), AllocError>
    ensures { OnOk result (out.new.items ≡ out.old.items ++ text_of (entry_words (Walks job first.now second.now) ∷ [])) }
{
    push_job(out, job)?;
    push_walk(out, first)?;
    out.extend_from_slice(b" |")?;
    push_walk(out, second)?;
    out.extend_from_slice(b"\n")?;
    Ok(())
}

fn push_entry(out: &mut Vec<u8>, entry: &LedgerEntry) -> Result<(), AllocError>
    ensures { OnOk result (out.new.items ≡ out.old.items ++ text_of (entry_words entry.now ∷ [])) }
{
    match entry {
        LedgerEntry::Coprime(job) => push_coprime(out, *job),
        LedgerEntry::Walks(job, first, second) => {
            push_walks(out, *job, first.as_slice(), second.as_slice())
        }
    }
}

pub fn push_entries(out: &mut Vec<u8>, entries: &[LedgerEntry]) -> Result<(), AllocError>
    ensures { OnOk result (out.new.items ≡ out.old.items ++ text_of (map entry_words entries.now)) }
{
    for entry in entries {
        push_entry(out, entry)?;
    }
    Ok(())
}
