//! The form text.

ghost use Rattle.std.specs.Prelude.{◌≡◌, ◌-◌, ◌≤◌, IfOk, length, sum_by, vec_len};
ghost use Rattle.ct_vectors.specs.declared.limits.TheConstants.{ROW_LIMIT, COLUMN_LIMIT};
ghost use Rattle.ct_input.specs.Sheet.{Gives};
ghost use Rattle.ct_input.specs.Grammar.{read};
ghost use Rattle.ct_form_text.specs.FormText.{slacks_of, full_relation, free_relation, relation, relations, full_bound, free_bound, bound, bounds, form_number, given_limits, limits, form_text};
ghost use Rattle.ct_form.specs.Made.{given_of};
ghost use Rattle.ct_form_text.specs.Files.{draft_file, form_file, HasRoom, AreNumbers};

use crate::draft::FormDraft;
use ct_form::{Form, Limits, Relation};
use ct_input::limits::INSTANCE_FILE_LIMIT;
use ct_input::{Fault, InputStop, Reader, costs_in, numbers, refused};
use ct_point::Seq;
use ct_vectors::limits::{COLUMN_LIMIT, ENTRY_LIMIT, RIGHT_LIMIT, ROW_LIMIT};
use std::alloc::Global;

fn slacks(relation: Relation) -> usize
    ensures { result ≡ slacks_of relation }
{
    match relation {
        Relation::Eq => 0,
        Relation::Le => 1,
    }
}

fn given(bound: Option<u64>) -> usize
    ensures { result ≡ given_of bound }
{
    match bound {
        None => 0,
        Some(_) => 1,
    }
}

// Where no column is spare.
fn full_relation(reader: &mut Reader) -> Result<Relation, InputStop>
    ensures { Gives (λ r. (r, reader.new)) result (read full_relation reader.old) }
{
    reader.barred(b"le")?;
    reader.word(b"eq")?;
    Ok(Relation::Eq)
}

fn free_relation(reader: &mut Reader) -> Result<Relation, InputStop>
    ensures { Gives (λ r. (r, reader.new)) result (read free_relation reader.old) }
{
    if reader.goes(b"le") {
        return Ok(Relation::Le);
    }
    reader.word(b"eq")?;
    Ok(Relation::Eq)
}

fn relation(reader: &mut Reader, spare: usize) -> Result<Relation, InputStop>
    ensures { Gives (λ r. (r, reader.new)) result (read (relation spare) reader.old) }
{
    if spare == 0 {
        return full_relation(reader);
    }
    free_relation(reader)
}

// The relations of so many rows, which take the columns of their slacks from what is spare.
fn relations(
    alloc: Global,
    reader: &mut Reader,
    rows: usize,
    spare: &mut usize,
) -> Result<Vec<Relation>, InputStop>
    ensures gives { Gives (λ v. (v.items, reader.new)) result (read (relations rows spare.old) reader.old) }
    ensures spare { IfOk result (λ v. spare.new ≡ spare.old - sum_by slacks_of v.items) }
{
    let mut found = Vec::new(alloc);
    for _ in 0..rows {
        let next = relation(reader, *spare)?;
        *spare = spare.saturating_sub(slacks(next));
        found.push(next)?;
    }
    Ok(found)
}

// Where no row or no column is spare.
fn full_bound(reader: &mut Reader) -> Result<Option<u64>, InputStop>
    ensures { Gives (λ u. (u, reader.new)) result (read full_bound reader.old) }
{
    reader.only(b"-")?;
    Ok(None)
}

fn free_bound(reader: &mut Reader) -> Result<Option<u64>, InputStop>
    ensures { Gives (λ u. (u, reader.new)) result (read free_bound reader.old) }
{
    if reader.goes(b"-") {
        return Ok(None);
    }
    let most = reader.number(0, RIGHT_LIMIT)?;
    Ok(Some(most))
}

fn bound(reader: &mut Reader, spare: usize) -> Result<Option<u64>, InputStop>
    ensures { Gives (λ u. (u, reader.new)) result (read (bound spare) reader.old) }
{
    if spare == 0 {
        return full_bound(reader);
    }
    free_bound(reader)
}

// The bounds of so many columns, each of which takes one from what is spare.
fn bounds(
    alloc: Global,
    reader: &mut Reader,
    columns: usize,
    mut spare: usize,
) -> Result<Vec<Option<u64>>, InputStop>
    ensures { Gives (λ v. (v.items, reader.new)) result (read (bounds columns spare) reader.old) }
{
    let mut found = Vec::new(alloc);
    for _ in 0..columns {
        let next = bound(reader, spare)?;
        spare = spare.saturating_sub(given(next));
        found.push(next)?;
    }
    Ok(found)
}

// Whether the text is of form 2.
#[tactic(auto, unfolding(crate::specs::FormText::form_number))]
fn is_limited(reader: &mut Reader) -> Result<bool, InputStop>
    ensures { Gives (λ t. (t, reader.new)) result (read form_number reader.old) }
{
    if reader.goes(b"1") {
        return Ok(false);
    }
    reader.word(b"2")?;
    Ok(true)
}

#[tactic(auto, using(ct_input::proofs::Parts::read_part), unfolding(crate::specs::FormText::given_limits))]
fn given_limits(
    alloc: Global,
    reader: &mut Reader,
    rows: usize,
    columns: usize,
) -> Result<Limits, InputStop>
    requires rows { rows ≤ ROW_LIMIT }
    requires columns { columns ≤ COLUMN_LIMIT }
    ensures { Gives (λ l. (l, reader.new)) result (read (given_limits rows columns) reader.old) }
{
    reader.word(b"relations")?;
    let mut spare = COLUMN_LIMIT - columns;
    let relations = relations(alloc, reader, rows, &mut spare)?;
    reader.word(b"bounds")?;
    let bounds = bounds(alloc, reader, columns, (ROW_LIMIT - rows).min(spare))?;
    Ok(Limits {
        relations: Seq::from_vec(relations),
        bounds: Seq::from_vec(bounds),
    })
}

fn limits(
    alloc: Global,
    reader: &mut Reader,
    limited: bool,
    rows: usize,
    columns: usize,
) -> Result<Limits, InputStop>
    requires rows { rows ≤ ROW_LIMIT }
    requires columns { columns ≤ COLUMN_LIMIT }
    ensures gives { Gives (λ l. (l, reader.new)) result (read (limits limited rows columns) reader.old) }
    ensures room { IfOk result (HasRoom rows columns) }
{
    if limited {
        return given_limits(alloc, reader, rows, columns);
    }
    let limits = Limits::plain(alloc, rows, columns)?;
    Ok(limits)
}

#[tactic(auto, using(ct_input::proofs::Parts::read_part), unfolding(crate::specs::FormText::form_text))]
fn draft_in(alloc: Global, reader: &mut Reader) -> Result<FormDraft, InputStop>
    ensures gives { Gives (λ d. (d, reader.new)) result (read form_text reader.old) }
    ensures numbers { IfOk result AreNumbers }
{
    reader.word(b"instance")?;
    let limited = is_limited(reader)?;
    reader.word(b"rows")?;
    let rows = reader.number(1, ROW_LIMIT as u64)?;
    reader.word(b"columns")?;
    let columns = reader.number(1, COLUMN_LIMIT as u64)?;
    reader.word(b"matrix")?;
    let entries = numbers(alloc, reader, (rows * columns) as usize, ENTRY_LIMIT)?;
    let limits = limits(alloc, reader, limited, rows as usize, columns as usize)?;
    let costs = costs_in(alloc, reader, columns as usize)?;
    reader.word(b"end")?;
    reader.nothing()?;
    Ok(FormDraft {
        rows,
        columns,
        entries: Seq::from_vec(entries),
        limits,
        costs: Seq::from_vec(costs),
    })
}

// The numbers of a form file.
#[tactic(auto, unfolding(crate::specs::Files::draft_file))]
fn draft_of(alloc: Global, bytes: &[u8]) -> Result<FormDraft, InputStop>
    ensures gives { Gives (λ draft. draft) result (draft_file bytes.now) }
    ensures numbers { IfOk result AreNumbers }
{
    if bytes.len() > INSTANCE_FILE_LIMIT {
        return Err(InputStop::Fault(Fault::TooLong));
    }
    let mut reader = Reader::new(bytes);
    draft_in(alloc, &mut reader)
}

/// The form of a file of at most 1,048,576 bytes, in one pass over its bytes. A row `le` or a bound that has no room,
/// since the equality form would have more than 64 columns or 16 rows, is Limit. Where no token has a fault, a column that
/// is zero and has no bound has one at its entry in row 1. The memory that it takes is that of the form, of its at most
/// 1,024 entries and of its at most 512 costs.
pub fn read_form(alloc: Global, bytes: &[u8]) -> Result<Form, InputStop>
    ensures { Gives (λ form. form) result (form_file bytes.now) }
{
    let FormDraft {
        rows,
        columns,
        entries,
        limits,
        costs,
    } = draft_of(alloc, bytes)?;
    let made = Form::new(
        alloc,
        rows as usize,
        columns as usize,
        entries.as_slice(),
        limits,
        costs.as_slice(),
    );
    match made {
        Ok(form) => Ok(form),
        Err(bad) => Err(refused(bytes, bad)),
    }
}
