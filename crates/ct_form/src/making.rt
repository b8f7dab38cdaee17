//! From the numbers of a form to the columns and costs of its equality form.

ghost use Rattle.std.specs.Prelude.{◌≡◌, ◌+◌, ◌*◌, ◌/◌, ◌%◌, ◌≤◌, ◌<◌, ◌++◌, [], length, map, nat_abs, All, IfOk, OnOk, IfErr, None};
ghost use Rattle.ct_vectors.specs.Vectors.{zeros, unit};
ghost use Rattle.ct_vectors.specs.declared.limits.TheConstants.{ROW_LIMIT, COLUMN_LIMIT, COST_LIMIT};
ghost use Rattle.ct_instance.specs.Made.{column_of, columns_of};
ghost use Rattle.ct_form.specs.Forms.{given_in};
ghost use Rattle.ct_form.specs.EqualityForms.{over, row_slacks, bound_parts, bound_slacks};
ghost use Rattle.ct_form.specs.EqualityForms.{equal_of, equal_columns};
ghost use Rattle.ct_form.specs.Kept.{free_zero_of};
ghost use Rattle.ct_instance.specs.Made.{NamesZeroColumn};
ghost use Rattle.ct_form.specs.Made.{form_of, given_of, part_at, slack_at, padded_costs, HasNumbers};

use crate::relation::{Limits, Relation};
use ct_instance::{BadMatrix, Instance};
use ct_point::Point;
use std::alloc::{AllocError, Global};

fn given(bound: Option<u64>) -> usize
    ensures { result ≡ given_of bound }
{
    match bound {
        None => 0,
        Some(_) => 1,
    }
}

// The bounds that there are.
pub fn given_bounds(alloc: Global, bounds: &[Option<u64>]) -> Result<Vec<u64>, AllocError>
    ensures { IfOk result (λ v. v.items ≡ given_in bounds.now) }
{
    let mut found = Vec::new(alloc);
    for j in 0..bounds.len() {
        if let Some(most) = bounds[j] {
            found.push(most)?;
        }
    }
    Ok(found)
}

fn unit_of(alloc: Global, len: usize, place: usize) -> Result<Vec<u64>, AllocError>
    requires { place < len }
    ensures { IfOk result (λ v. v.items ≡ unit len place) }
{
    let mut numbers = vec![in alloc; 0u64; len]?;
    numbers[place] = 1;
    Ok(numbers)
}

fn joined(alloc: Global, above: &[u64], below: &[u64]) -> Result<Point, AllocError>
    requires some { 1 ≤ length above.now }
    requires limit { length above.now + length below.now ≤ ROW_LIMIT }
    ensures { IfOk result (λ p. p ≡ above.now ++ below.now) }
{
    let mut column = Vec::from_slice(alloc, above)?;
    column.extend_from_slice(below)?;
    Point::from_slice(alloc, &column)
}

fn column(
    alloc: Global,
    rows: usize,
    columns: usize,
    j: usize,
    entries: &[u64],
) -> Result<Vec<u64>, AllocError>
    requires most { rows ≤ ROW_LIMIT }
    requires few { columns ≤ COLUMN_LIMIT }
    requires column { j < columns }
    requires entry_count { length entries.now ≡ rows * columns }
    ensures { IfOk result (λ v. v.items ≡ column_of rows columns j entries.now) }
{
    let mut column = Vec::with_capacity(alloc, rows)?;
    for r in 0..rows {
        column.push(entries[r * columns + j])?;
    }
    Ok(column)
}

// What a column has in the rows of the bounds.
fn bound_part(
    alloc: Global,
    bound: Option<u64>,
    given: usize,
    place: usize,
) -> Result<Vec<u64>, AllocError>
    requires { place + given_of bound ≤ given }
    ensures { IfOk result (λ v. v.items ≡ part_at bound given place) }
{
    match bound {
        None => Ok(vec![in alloc; 0u64; given]?),
        Some(_) => unit_of(alloc, given, place),
    }
}

// The columns of the entries with their parts in the rows of the bounds.
pub fn columns_with_parts(
    alloc: Global,
    rows: usize,
    columns: usize,
    entries: &[u64],
    bounds: &[Option<u64>],
    bound_count: usize,
) -> Result<Vec<Point>, AllocError>
    requires some { 1 ≤ rows }
    requires most { rows + bound_count ≤ ROW_LIMIT }
    requires few { columns ≤ COLUMN_LIMIT }
    requires entry_count { length entries.now ≡ rows * columns }
    requires bound_for_each { length bounds.now ≡ columns }
    requires bounds { bound_count ≡ length (given_in bounds.now) }
    ensures { IfOk result (λ v. v.items ≡ over (columns_of rows columns entries.now) (bound_parts bounds.now)) }
{
    let mut made = Vec::new(alloc);
    let mut place = 0;
    for j in 0..columns {
        let above = column(alloc, rows, columns, j, entries)?;
        let below = bound_part(alloc, bounds[j], bound_count, place)?;
        made.push(joined(alloc, &above, &below)?)?;
        place += given(bounds[j]);
    }
    Ok(made)
}

// The slack column of a row, if it has one.
fn push_row_slack(
    alloc: Global,
    made: &mut Vec<Point>,
    relation: Relation,
    rows: usize,
    i: usize,
    below: &[u64],
) -> Result<(), AllocError>
    requires place { i < rows }
    requires limit { rows + length below.now ≤ ROW_LIMIT }
    ensures { IfOk result (λ _. made.new.items ≡ made.old.items ++ map (λ c. c ++ below.now) (slack_at relation rows i)) }
{
    match relation {
        Relation::Eq => Ok(()),
        Relation::Le => {
            let above = unit_of(alloc, rows, i)?;
            made.push(joined(alloc, &above, below)?)?;
            Ok(())
        }
    }
}

pub fn push_row_slacks(
    alloc: Global,
    made: &mut Vec<Point>,
    relations: &[Relation],
    bound_count: usize,
) -> Result<(), AllocError>
    requires { length relations.now + bound_count ≤ ROW_LIMIT }
    ensures { IfOk result (λ _. made.new.items ≡ made.old.items ++ map (λ c. c ++ zeros bound_count) (row_slacks relations.now)) }
{
    let below = vec![in alloc; 0u64; bound_count]?;
    for i in 0..relations.len() {
        push_row_slack(alloc, made, relations[i], relations.len(), i, &below)?;
    }
    Ok(())
}

pub fn push_bound_slacks(
    alloc: Global,
    made: &mut Vec<Point>,
    rows: usize,
    bound_count: usize,
) -> Result<(), AllocError>
    requires some { 1 ≤ rows }
    requires limit { rows + bound_count ≤ ROW_LIMIT }
    ensures { IfOk result (λ _. made.new.items ≡ made.old.items ++ map (λ c. zeros rows ++ c) (bound_slacks bound_count)) }
{
    let above = vec![in alloc; 0u64; rows]?;
    for place in 0..bound_count {
        let below = unit_of(alloc, bound_count, place)?;
        made.push(joined(alloc, &above, &below)?)?;
    }
    Ok(())
}

// The columns of the equality form.
fn equal_columns(
    alloc: Global,
    rows: usize,
    columns: usize,
    entries: &[u64],
    limits: &Limits,
    bound_count: usize,
) -> Result<Vec<Point>, AllocError>
    requires some { 1 ≤ rows }
    requires most { rows + bound_count ≤ ROW_LIMIT }
    requires few { columns ≤ COLUMN_LIMIT }
    requires entry_count { length entries.now ≡ rows * columns }
    requires relation_count { length limits.now.relations ≡ rows }
    requires bound_for_each { length limits.now.bounds ≡ columns }
    requires bounds { bound_count ≡ length (given_in limits.now.bounds) }
    ensures { IfOk result (λ v. v.items ≡ equal_columns (form_of rows columns entries.now limits.now [])) }
{
    let mut made = columns_with_parts(
        alloc,
        rows,
        columns,
        entries,
        limits.bounds.as_slice(),
        bound_count,
    )?;
    push_row_slacks(alloc, &mut made, limits.relations.as_slice(), bound_count)?;
    push_bound_slacks(alloc, &mut made, rows, bound_count)?;
    Ok(made)
}

// So many rows of costs, each with costs of 0 behind.
fn costs_with_slacks(
    alloc: Global,
    rows: usize,
    columns: usize,
    slacks: usize,
    costs: &[i64],
) -> Result<Vec<i64>, AllocError>
    requires { length costs.now ≡ rows * columns }
    ensures { IfOk result (λ v. v.items ≡ padded_costs rows columns slacks costs.now) }
{
    let behind = vec![in alloc; 0i64; slacks]?;
    let mut made = Vec::new(alloc);
    for row in 0..rows {
        made.extend_from_slice(&costs[row * columns..row * columns + columns])?;
        made.extend_from_slice(&behind)?;
    }
    Ok(made)
}

// The equality form of the form with these numbers, and how many bounds it has.
pub fn equality_form(
    alloc: Global,
    rows: usize,
    columns: usize,
    entries: &[u64],
    limits: &Limits,
    bound_count: usize,
    costs: &[i64],
) -> Result<Instance, BadMatrix>
    requires numbers { HasNumbers rows columns entries.now limits.now costs.now }
    requires bounds { bound_count ≡ length (given_in limits.now.bounds) }
    ensures ok { IfOk result (λ i. i ≡ equal_of (form_of rows columns entries.now limits.now costs.now)) }
    ensures none { OnOk result (free_zero_of (columns_of rows columns entries.now) limits.now.bounds ≡ None) }
    ensures zero_column { IfErr result (λ e. NamesZeroColumn e (free_zero_of (columns_of rows columns entries.now) limits.now.bounds)) }
{
    let made = equal_columns(alloc, rows, columns, entries, limits, bound_count)?;
    let slacks = made.len() - columns;
    let costs = costs_with_slacks(alloc, costs.len() / columns, columns, slacks, costs)?;
    match Instance::from_columns(alloc, rows + bound_count, made, &costs) {
        Ok(instance) => Ok(instance),
        Err(bad) => Err(bad),
    }
}
