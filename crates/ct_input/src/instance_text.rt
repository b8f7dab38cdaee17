//! The instance text.

ghost use Rattle.std.specs.Prelude.{◌≡◌, ◌-◌, ◌*◌, ◌%◌, ◌≤◌, nat_abs, length, vec_len, All, IfOk};
ghost use Rattle.ct_vectors.specs.declared.limits.TheConstants.{COST_ROW_LIMIT, COST_LIMIT};
ghost use Rattle.ct_text.specs.Tokens.{text_of};
ghost use Rattle.ct_input.specs.Sheet.{Gives, sheet_of};
ghost use Rattle.ct_input.specs.Files.{HasCounts, instance_file};
ghost use Rattle.ct_input.specs.Refusals.{stop_of};
ghost use Rattle.ct_input.specs.Grammar.{read};
ghost use Rattle.ct_input.specs.InstanceText.{more_rows, cost_rows, instance_text};

use crate::draft::Draft;
use crate::fault::{Fault, InputStop, TextReason};
use crate::limits::INSTANCE_FILE_LIMIT;
use crate::lists::{numbers, signeds};
use crate::reader::Reader;
use ct_instance::{BadMatrix, Instance};
use ct_point::Seq;
use ct_vectors::limits::{COLUMN_LIMIT, COST_LIMIT, COST_ROW_LIMIT, ENTRY_LIMIT, ROW_LIMIT};
use std::alloc::Global;

// The rows of costs after the first, one after another.
fn later_costs(alloc: Global, reader: &mut Reader, columns: usize) -> Result<Vec<i64>, InputStop>
    requires { 1 ≤ columns }
    ensures gives { Gives (λ v. (v.items, reader.new)) result (read (more_rows (COST_ROW_LIMIT - 1) columns) reader.old) }
    ensures whole_rows { IfOk result (λ v. vec_len v % columns ≡ 0) }
    ensures row_limit { IfOk result (λ v. vec_len v ≤ (COST_ROW_LIMIT - 1) * columns) }
    ensures limit { IfOk result (λ v. All (λ c. nat_abs c ≤ COST_LIMIT) v.items) }
{
    let mut costs = Vec::new(alloc);
    for _ in 0..COST_ROW_LIMIT - 1 {
        if !reader.goes(b"cost") {
            return Ok(costs);
        }
        let row = signeds(alloc, reader, columns, COST_LIMIT)?;
        costs.extend_from_slice(&row)?;
    }
    reader.barred(b"cost")?;
    Ok(costs)
}

/// One to eight rows of costs, each after the word `cost`. The memory that it takes is that of the numbers, 8 bytes each.
#[tactic(auto, using(crate::proofs::Parts::read_part), unfolding(crate::specs::InstanceText::cost_rows))]
pub fn costs_in(alloc: Global, reader: &mut Reader, columns: usize) -> Result<Vec<i64>, InputStop>
    requires { 1 ≤ columns }
    ensures gives { Gives (λ v. (v.items, reader.new)) result (read (cost_rows columns) reader.old) }
    ensures whole_rows { IfOk result (λ v. vec_len v % columns ≡ 0) }
    ensures some_row { IfOk result (λ v. columns ≤ vec_len v) }
    ensures row_limit { IfOk result (λ v. vec_len v ≤ COST_ROW_LIMIT * columns) }
    ensures limit { IfOk result (λ v. All (λ c. nat_abs c ≤ COST_LIMIT) v.items) }
{
    reader.word(b"cost")?;
    let mut costs = signeds(alloc, reader, columns, COST_LIMIT)?;
    let later = later_costs(alloc, reader, columns)?;
    costs.extend_from_slice(&later)?;
    Ok(costs)
}

#[tactic(auto, using(crate::proofs::Parts::read_part), unfolding(crate::specs::InstanceText::instance_text))]
fn draft_of(alloc: Global, reader: &mut Reader) -> Result<Draft, InputStop>
    ensures gives { Gives (λ d. (d, reader.new)) result (read instance_text reader.old) }
    ensures counts { IfOk result HasCounts }
{
    reader.word(b"instance")?;
    reader.word(b"1")?;
    reader.word(b"rows")?;
    let rows = reader.number(1, ROW_LIMIT as u64)?;
    reader.word(b"columns")?;
    let columns = reader.number(1, COLUMN_LIMIT as u64)?;
    reader.word(b"matrix")?;
    let entries = numbers(alloc, reader, (rows * columns) as usize, ENTRY_LIMIT)?;
    let costs = costs_in(alloc, reader, columns as usize)?;
    reader.word(b"end")?;
    reader.nothing()?;
    Ok(Draft {
        rows,
        columns,
        entries: Seq::from_vec(entries),
        costs: Seq::from_vec(costs),
    })
}

/// Why the numbers of a text make no instance: its first zero column, whose entry in row 1 has the fault, or want of
/// memory. Before that entry stand 7 tokens and the entries to its left; it goes over them once more.
pub fn refused(bytes: &[u8], bad: BadMatrix) -> InputStop
    ensures { result ≡ stop_of (sheet_of (text_of bytes.now)) bad }
{
    match bad {
        BadMatrix::ZeroColumn { col } => {
            let mut reader = Reader::new(bytes);
            reader.skip(6);
            reader.skip(col);
            reader.refuse(TextReason::ZeroColumn)
        }
        BadMatrix::Memory => InputStop::Memory,
    }
}

/// The instance of a file of at most 1,048,576 bytes, in one pass over its bytes. The memory that it takes is that of
/// the instance, of its at most 1,024 entries and of its at most 512 costs.
#[tactic(auto, unfolding(crate::specs::Files::instance_file))]
pub fn read_instance(alloc: Global, bytes: &[u8]) -> Result<Instance, InputStop>
    ensures { Gives (λ instance. instance) result (instance_file bytes.now) }
{
    if bytes.len() > INSTANCE_FILE_LIMIT {
        return Err(InputStop::Fault(Fault::TooLong));
    }
    let mut reader = Reader::new(bytes);
    let draft = draft_of(alloc, &mut reader)?;
    let made = Instance::from_limited(
        alloc,
        draft.rows as u32,
        draft.columns as u32,
        draft.entries.as_slice(),
        draft.costs.as_slice(),
    );
    match made {
        Ok(instance) => Ok(instance),
        Err(bad) => Err(refused(bytes, bad)),
    }
}
