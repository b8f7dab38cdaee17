//! From the numbers of a file to the columns and sums of an instance.
ghost use Rattle.std.specs.Prelude.{◌≡◌, ◌*◌, ◌^◌, ◌<◌, ◌≤◌, None, Some, length, map, nat_abs, nat_lt, nat_eq, position, All, IfOk, OnOk, IfErr, IfSome, IfNone, MatchResult};
ghost use Rattle.ct_vectors.specs.Vectors.{total};
ghost use Rattle.ct_vectors.specs.declared.limits.TheConstants.{ROW_LIMIT, COLUMN_LIMIT, ENTRY_LIMIT, COST_LIMIT};
ghost use Rattle.ct_instance.specs.Instance.{IsColumn};
ghost use Rattle.ct_instance.specs.Made.{column_of, columns_of, refused_entry, refused_cost, zero_column_of, NamesZeroColumn};

use crate::refusals::{BadInstance, BadMatrix};
use ct_order::sum;
use ct_point::Point;
use ct_vectors::limits::{COST_LIMIT, ENTRY_LIMIT, ROW_LIMIT};
use std::alloc::{AllocError, Global};

fn first_over(numbers: &[u64], limit: u64) -> Option<usize>
    ensures place { result ≡ position (λ a. nat_lt limit a) numbers.now }
    ensures none { IfNone result (All (λ a. a ≤ limit) numbers.now) }
    ensures within { IfSome result (λ k. k < length numbers.now) }
{
    numbers.iter().position(|a| *a > limit)
}

fn first_zero(numbers: &[u64]) -> Option<usize>
    ensures place { result ≡ position (λ a. nat_eq a 0) numbers.now }
    ensures none { IfNone result (All (λ a. 1 ≤ a) numbers.now) }
    ensures within { IfSome result (λ k. k < length numbers.now) }
{
    numbers.iter().position(|a| *a == 0)
}

fn first_cost_over(costs: &[i64], limit: u64) -> Option<usize>
    ensures place { result ≡ position (λ c. nat_lt limit (nat_abs c)) costs.now }
    ensures none { IfNone result (All (λ c. nat_abs c ≤ limit) costs.now) }
    ensures within { IfSome result (λ k. k < length costs.now) }
{
    costs.iter().position(|c| c.unsigned_abs() > limit)
}

// Refuses the first entry over the limit, row by row.
pub fn check_entries(columns: u32, entries: &[u64]) -> Result<(), BadInstance>
    requires some { 1 ≤ columns }
    requires few { length entries.now < 2 ^ 31 }
    ensures limit { OnOk result (All (λ a. a ≤ ENTRY_LIMIT) entries.now) }
    ensures refused { MatchResult result (λ _. refused_entry columns entries.now ≡ None) (λ e. refused_entry columns entries.now ≡ Some e) }
{
    match first_over(entries, ENTRY_LIMIT) {
        None => Ok(()),
        Some(k) => Err(BadInstance::Entry {
            row: (k as u32) / columns + 1,
            col: (k as u32) % columns + 1,
        }),
    }
}

// Refuses the first column whose sum is 0.
fn check_sums(sums: &[u64]) -> Result<(), BadMatrix>
    requires { length sums.now ≤ COLUMN_LIMIT }
    ensures none { OnOk result (position (λ s. nat_eq s 0) sums.now ≡ None) }
    ensures positive { OnOk result (All (λ s. 1 ≤ s) sums.now) }
    ensures zero_column { IfErr result (λ e. NamesZeroColumn e (position (λ s. nat_eq s 0) sums.now)) }
{
    match first_zero(sums) {
        None => Ok(()),
        Some(j) => Err(BadMatrix::ZeroColumn { col: j as u32 + 1 }),
    }
}

// Refuses the first cost out of its limit, row by row.
pub fn check_costs(columns: u32, costs: &[i64]) -> Result<(), BadInstance>
    requires some { 1 ≤ columns }
    requires few { length costs.now < 2 ^ 31 }
    ensures limit { OnOk result (All (λ c. nat_abs c ≤ COST_LIMIT) costs.now) }
    ensures refused { MatchResult result (λ _. refused_cost columns costs.now ≡ None) (λ e. refused_cost columns costs.now ≡ Some e) }
{
    match first_cost_over(costs, COST_LIMIT) {
        None => Ok(()),
        Some(k) => Err(BadInstance::Cost {
            row: (k as u32) / columns + 1,
            col: (k as u32) % columns + 1,
        }),
    }
}

// One column, of rows that stand one after another.
fn column_from(
    alloc: Global,
    rows: usize,
    columns: usize,
    j: usize,
    entries: &[u64],
) -> Result<Point, AllocError>
    requires some { 1 ≤ rows }
    requires most { rows ≤ ROW_LIMIT }
    requires column { j < columns }
    requires few { columns ≤ COLUMN_LIMIT }
    requires entry_count { length entries.now ≡ rows * columns }
    ensures { IfOk result (λ c. c ≡ column_of rows columns j entries.now) }
{
    let mut column = [0u64; ROW_LIMIT];
    for r in 0..rows {
        column[r] = entries[r * columns + j];
    }
    Point::from_slice(alloc, &column[..rows])
}

// The columns in order.
fn columns_from(
    alloc: Global,
    rows: usize,
    columns: usize,
    entries: &[u64],
) -> Result<Vec<Point>, AllocError>
    requires some { 1 ≤ rows }
    requires most { rows ≤ ROW_LIMIT }
    requires few { columns ≤ COLUMN_LIMIT }
    requires entry_count { length entries.now ≡ rows * columns }
    ensures { IfOk result (λ v. v.items ≡ columns_of rows columns entries.now) }
{
    let mut points = Vec::new(alloc);
    for j in 0..columns {
        points.push(column_from(alloc, rows, columns, j, entries)?)?;
    }
    Ok(points)
}

// The sum of each column.
fn sums_of(alloc: Global, columns: &[Point]) -> Result<Vec<u64>, AllocError>
    requires { All (λ c. total c ≤ ROW_LIMIT * ENTRY_LIMIT) columns.now }
    ensures { IfOk result (λ v. v.items ≡ map total columns.now) }
{
    let mut sums = Vec::new(alloc);
    for c in columns {
        sums.push(sum(c.as_slice()))?;
    }
    Ok(sums)
}

// The sum of each column, where none is zero.
pub fn positive_sums(alloc: Global, columns: &[Point]) -> Result<Vec<u64>, BadMatrix>
    requires count { length columns.now ≤ COLUMN_LIMIT }
    requires limit { All (λ c. total c ≤ ROW_LIMIT * ENTRY_LIMIT) columns.now }
    ensures sums { IfOk result (λ v. v.items ≡ map total columns.now) }
    ensures positive { OnOk result (All (λ s. 1 ≤ s) (map total columns.now)) }
    ensures none { OnOk result (position (λ s. nat_eq s 0) (map total columns.now) ≡ None) }
    ensures zero_column { IfErr result (λ e. NamesZeroColumn e (position (λ s. nat_eq s 0) (map total columns.now))) }
{
    let sums = sums_of(alloc, columns)?;
    check_sums(&sums)?;
    Ok(sums)
}

// The columns in order and the sum of each, where none is zero.
pub fn matrix_from(
    alloc: Global,
    rows: usize,
    columns: usize,
    entries: &[u64],
) -> Result<(Vec<Point>, Vec<u64>), BadMatrix>
    requires some { 1 ≤ rows }
    requires most { rows ≤ ROW_LIMIT }
    requires few { columns ≤ COLUMN_LIMIT }
    requires entry_count { length entries.now ≡ rows * columns }
    requires entry_limit { All (λ a. a ≤ ENTRY_LIMIT) entries.now }
    ensures columns { IfOk result (λ m. m.0.items ≡ columns_of rows columns entries.now) }
    ensures count { IfOk result (λ m. length m.0.items ≡ columns) }
    ensures are_columns { IfOk result (λ m. All (IsColumn rows) m.0.items) }
    ensures sums { IfOk result (λ m. m.1.items ≡ map total m.0.items) }
    ensures none { OnOk result (zero_column_of rows columns entries.now ≡ None) }
    ensures zero_column { IfErr result (λ e. NamesZeroColumn e (zero_column_of rows columns entries.now)) }
{
    let points = columns_from(alloc, rows, columns, entries)?;
    let sums = positive_sums(alloc, &points)?;
    Ok((points, sums))
}
