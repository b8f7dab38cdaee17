//! The JSON form of an instance.

ghost use Rattle.std.specs.Prelude.{◌≡◌, ◌<◌, ◌≤◌, ◌+◌, [], map, length, IfOk};
ghost use Rattle.serde_json.specs.View.{view};
ghost use Rattle.ct_vectors.specs.declared.limits.TheConstants.{ROW_LIMIT, COLUMN_LIMIT, ENTRY_LIMIT};
ghost use Rattle.ct_input.specs.Sheet.{Gives};
ghost use Rattle.ct_input.specs.Files.{HasCounts};
ghost use Rattle.ct_json.specs.declared.here.TheConstants.{STEP_LIMIT};
ghost use Rattle.ct_json.specs.Shapes.{each, naturals};
ghost use Rattle.ct_json.specs.InstanceShape.{joined, row_length, rows_at, IsMatrix, matrix_at, begins_with_array, cost_row, cost_rows_at, costs_at, draft_at};

use crate::here::Here;
use crate::number_shapes::{Natural, SignedCost, form};
use crate::shape::{ListOf, Shaped, each, items};
use crate::values::{member, no_others, object};
use ct_input::{Draft, InputStop, Name, PathStep};
use ct_point::Seq;
use ct_vectors::limits::{COLUMN_LIMIT, COST_ROW_LIMIT, ENTRY_LIMIT, ROW_LIMIT};
use serde_json::Value;
use std::alloc::{AllocError, Global};

fn joined_entries(alloc: Global, rows: &[Seq<u64>]) -> Result<Vec<u64>, AllocError>
    ensures { IfOk result (λ all. all.items ≡ joined rows.now) }
{
    let mut all = Vec::new(alloc);
    for row in rows {
        all.extend_from_slice(row.as_slice())?;
    }
    Ok(all)
}

fn joined_costs(alloc: Global, rows: &[Seq<i64>]) -> Result<Vec<i64>, AllocError>
    ensures { IfOk result (λ all. all.items ≡ joined rows.now) }
{
    let mut all = Vec::new(alloc);
    for row in rows {
        all.extend_from_slice(row.as_slice())?;
    }
    Ok(all)
}

fn entry_row(low: u32, high: u32) -> ListOf<Natural>
    ensures { result ≡ record { low = low; high = high; item = record { high = ENTRY_LIMIT } } }
{
    ListOf {
        low,
        high,
        item: Natural { high: ENTRY_LIMIT },
    }
}

fn cost_row(columns: u32) -> ListOf<SignedCost>
    ensures { (result.low ≡ columns) × (result.high ≡ columns) }
{
    ListOf {
        low: columns,
        high: columns,
        item: SignedCost,
    }
}

fn row_in(alloc: Global, here: &Here, value: &Value) -> Result<Seq<u64>, InputStop>
    requires { length here.now < STEP_LIMIT }
    ensures { Gives (λ row. row) result ((naturals 1 COLUMN_LIMIT ENTRY_LIMIT).reads 0 here.now (view value.now)) }
{
    entry_row(1, COLUMN_LIMIT as u32).read(alloc, here, value, &mut 0)
}

fn first_row(alloc: Global, here: &Here, value: &Value) -> Result<Seq<u64>, InputStop>
    requires { length here.now < STEP_LIMIT }
    ensures gives { Gives (λ row. row) result ((naturals 1 COLUMN_LIMIT ENTRY_LIMIT).reads 0 here.now (view value.now)) }
    ensures few { IfOk result (λ row. length row ≤ COLUMN_LIMIT) }
{
    row_in(alloc, here, value)
}

fn later_rows(
    alloc: Global,
    here: &Here,
    values: &[Value],
    columns: u32,
) -> Result<Vec<Seq<u64>>, InputStop>
    requires place { length here.now + 2 ≤ STEP_LIMIT }
    requires few { length values.now ≤ ROW_LIMIT }
    ensures { Gives (λ rows. rows.items) result (each (naturals columns columns ENTRY_LIMIT) here.now 1 0 (map view values.now)) }
{
    each(alloc, &entry_row(columns, columns), here, 1, values, &mut 0)
}

// The rows in order, each with as many entries as the first.
fn rows_in(alloc: Global, here: &Here, values: &[Value]) -> Result<Vec<Seq<u64>>, InputStop>
    requires place { length here.now + 2 ≤ STEP_LIMIT }
    requires some { 1 ≤ length values.now }
    requires few { length values.now ≤ ROW_LIMIT }
    ensures { Gives (λ rows. rows.items) result (rows_at here.now (map view values.now)) }
{
    let first = first_row(alloc, &here.then(PathStep::Index(0)), &values[0])?;
    let columns = first.as_slice().len() as u32;
    let mut rows = later_rows(alloc, here, &values[1..], columns)?;
    rows.insert(0, first)?;
    Ok(rows)
}

fn matrix_in(alloc: Global, here: &Here, value: &Value) -> Result<Vec<Seq<u64>>, InputStop>
    requires { length here.now + 2 ≤ STEP_LIMIT }
    ensures { Gives (λ rows. rows.items) result (matrix_at here.now (view value.now)) }
{
    let values = items(alloc, here, value, 1, ROW_LIMIT as u32)?;
    rows_in(alloc, here, values)
}

fn matrix(alloc: Global, here: &Here, value: &Value) -> Result<Vec<Seq<u64>>, InputStop>
    requires { length here.now + 2 ≤ STEP_LIMIT }
    ensures gives { Gives (λ rows. rows.items) result (matrix_at here.now (view value.now)) }
    ensures matrix { IfOk result (λ rows. IsMatrix rows.items) }
{
    matrix_in(alloc, here, value)
}

fn columns_of(rows: &[Seq<u64>]) -> u32
    requires { IsMatrix rows.now }
    ensures { result ≡ row_length rows.now }
{
    rows[0].as_slice().len() as u32
}

fn begins_with_array(value: &Value) -> bool
    ensures { result ≡ begins_with_array (view value.now) }
{
    match value.get(0usize) {
        Some(first) => first.is_array(),
        None => false,
    }
}

// One to eight rows of costs in an array.
fn rows_of_costs(
    alloc: Global,
    here: &Here,
    value: &Value,
    columns: u32,
) -> Result<Vec<i64>, InputStop>
    requires { length here.now + 2 ≤ STEP_LIMIT }
    ensures { Gives (λ costs. costs.items) result (cost_rows_at columns here.now (view value.now)) }
{
    let rows = ListOf {
        low: 1,
        high: COST_ROW_LIMIT as u32,
        item: cost_row(columns),
    };
    let found = rows.read(alloc, here, value, &mut 0)?;
    Ok(joined_costs(alloc, found.as_slice())?)
}

fn row_of_costs(
    alloc: Global,
    here: &Here,
    value: &Value,
    columns: u32,
) -> Result<Vec<i64>, InputStop>
    requires { length here.now + 2 ≤ STEP_LIMIT }
    ensures { Gives (λ costs. costs.items) result ((cost_row columns).reads 0 here.now (view value.now)) }
{
    let row = cost_row(columns).read(alloc, here, value, &mut 0)?;
    Ok(Vec::from_slice(alloc, row.as_slice())?)
}

fn costs(alloc: Global, here: &Here, value: &Value, columns: u32) -> Result<Vec<i64>, InputStop>
    requires { length here.now + 2 ≤ STEP_LIMIT }
    ensures { Gives (λ costs. costs.items) result (costs_at columns here.now (view value.now)) }
{
    if begins_with_array(value) {
        rows_of_costs(alloc, here, value, columns)
    } else {
        row_of_costs(alloc, here, value, columns)
    }
}

#[tactic(auto, unfolding(crate::specs::InstanceShape::draft_at))]
fn draft_in(alloc: Global, value: &Value) -> Result<Draft, InputStop>
    ensures { Gives (λ draft. draft) result (draft_at [] (view value.now)) }
{
    let top = Here::top();
    object(alloc, &top, value)?;
    let number = member(alloc, &top, value, Name::Instance)?;
    form(alloc, &top.then(PathStep::Member(Name::Instance)), number)?;
    let entries = member(alloc, &top, value, Name::Matrix)?;
    let rows = matrix(alloc, &top.then(PathStep::Member(Name::Matrix)), entries)?;
    let columns = columns_of(&rows);
    let cost = member(alloc, &top, value, Name::Cost)?;
    let at = top.then(PathStep::Member(Name::Cost));
    let costs = costs(alloc, &at, cost, columns)?;
    no_others(
        alloc,
        &top,
        value,
        &[Name::Instance, Name::Matrix, Name::Cost],
    )?;
    Ok(Draft {
        rows: rows.len() as u64,
        columns: u64::from(columns),
        entries: Seq::from_vec(joined_entries(alloc, &rows)?),
        costs: Seq::from_vec(costs),
    })
}

/// The numbers of an instance object.
pub fn draft(alloc: Global, value: &Value) -> Result<Draft, InputStop>
    ensures gives { Gives (λ draft. draft) result (draft_at [] (view value.now)) }
    ensures counts { IfOk result HasCounts }
{
    draft_in(alloc, value)
}
