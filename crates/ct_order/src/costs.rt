//! The rows of costs of an instance.
ghost use Rattle.std.specs.Prelude.{◌≡◌, ◌-◌, ◌*◌, ◌/◌, ◌%◌, ◌≤◌, [], length, nat_abs, slice_index_or, All, IfOk};
ghost use Rattle.ct_vectors.specs.declared.limits.TheConstants.{COLUMN_LIMIT, COST_ROW_LIMIT, COST_LIMIT};
ghost use Rattle.ct_order.specs.Costs.{IsCostTable, rows_of};

use std::alloc::{AllocError, Global};
use std::marker::Model;

/// One to eight rows of costs, in each a cost for each of 1 to 64 columns, at most 10^12 in size. Clauses see the
/// number of columns and the rows.
///
/// It keeps 8 bytes a cost on the heap, row after row.
#[derive(Debug, Drop)]
pub struct Costs {
    columns: usize,
    count: usize,
    costs: Vec<i64>,
}

impl Model for Costs {
    ghost use Rattle.std.specs.Prelude.{◌≡◌, ◌*◌, length};
    ghost use Rattle.ct_order.specs.Costs.{CostTable, IsCostTable, rows_of};

    ghost Value = { CostTable };

    ghost view = { λ c. record { columns = c.columns; rows = rows_of c.count c.columns c.costs.items } };

    ghost invariant = { λ c. IsCostTable (record { columns = c.columns; rows = rows_of c.count c.columns c.costs.items }) × (length c.costs.items ≡ c.count * c.columns) };
}

impl Costs {
    /// The rows that stand one after another, each with a cost for each column.
    pub fn new(alloc: Global, columns: usize, rows: &[i64]) -> Result<Costs, AllocError>
        requires some_column { 1 ≤ columns }
        requires column_limit { columns ≤ COLUMN_LIMIT }
        requires whole_rows { length rows.now % columns ≡ 0 }
        requires some_row { columns ≤ length rows.now }
        requires row_limit { length rows.now ≤ COST_ROW_LIMIT * columns }
        requires limit { All (λ x. nat_abs x ≤ COST_LIMIT) rows.now }
        ensures { IfOk result (λ costs. costs ≡ record { columns = columns; rows = rows_of (length rows.now / columns) columns rows.now }) }
    {
        let costs = rows.to_vec(alloc)?;
        Ok(Costs {
            columns,
            count: rows.len() / columns,
            costs,
        })
    }

    /// The number of columns.
    pub fn columns(&self) -> usize
        ensures columns { result ≡ self.now.columns }
        ensures table { IsCostTable self.now }
    {
        self.columns
    }

    /// The number of rows.
    pub fn row_count(&self) -> usize
        ensures rows { result ≡ length self.now.rows }
        ensures table { IsCostTable self.now }
    {
        self.count
    }

    /// The costs of the row with this number, counted from 1.
    pub fn row(&self, row: usize) -> &[i64]
        requires some { 1 ≤ row }
        requires row_limit { row ≤ length self.now.rows }
        ensures row { result.now ≡ slice_index_or self.now.rows (row - 1) [] }
        ensures columns { length result.now ≡ self.now.columns }
        ensures column_limit { length result.now ≤ COLUMN_LIMIT }
        ensures cost_limit { All (λ x. nat_abs x ≤ COST_LIMIT) result.now }
    {
        let first = (row - 1) * self.columns;
        &self.costs[first..first + self.columns]
    }
}
