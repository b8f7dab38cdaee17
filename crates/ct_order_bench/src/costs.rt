//! The costs that the points are compared by.
ghost use Rattle.std.specs.Prelude.{◌≡◌, ◌≤◌, IfOk};

use anyhow::Result;
use ct_order::Costs;
use std::alloc::Global;

/// The number of columns.
pub const COLUMNS: usize = 8;

/// So many rows in which each column costs 1.
pub fn costs_of_ones(alloc: Global, rows: usize) -> Result<Costs>
    requires some { 1 ≤ rows }
    requires limit { rows ≤ 8 }
    ensures { IfOk result (λ costs. costs.columns ≡ COLUMNS) }
{
    let ones = vec![in alloc; 1i64; COLUMNS * rows]?;
    Ok(Costs::new(alloc, COLUMNS, &ones)?)
}
