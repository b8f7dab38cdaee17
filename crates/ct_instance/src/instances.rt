//! The checked instance.
ghost use Rattle.std.specs.Prelude.{◌≡◌, ◌≢◌, ◌+◌, ◌-◌, ◌*◌, ◌/◌, ◌%◌, ◌<◌, ◌≤◌, ◌++◌, [], ◌∷◌, None, Some, IsOk, length, map, nat_abs, nat_eq, position, All, slice_index, IfOk, IfErr, OnOk};
ghost use Rattle.ct_vectors.specs.Vectors.{total, zeros};
ghost use Rattle.ct_vectors.specs.declared.limits.TheConstants.{ROW_LIMIT, COLUMN_LIMIT, COST_ROW_LIMIT, ENTRY_LIMIT, COST_LIMIT, JOB_GRADE_LIMIT};
ghost use Rattle.ct_order.specs.Costs.{rows_of};

use crate::making::{check_costs, check_entries, matrix_from, positive_sums};
use crate::refusals::{BadInstance, BadMatrix};
use crate::sums::{degree_by_columns, grade_by_sums, wide_grade_by_sums};
use ct_order::Costs;
use ct_point::Point;
use ct_vectors::limits::{COLUMN_LIMIT, ROW_LIMIT};
use std::alloc::{AllocError, Global};
use std::marker::Model;

/// A checked instance: m rows, n columns of m entries each, none of them zero, and one to eight rows of a cost for each
/// column.
///
/// It keeps each column as a point, which has room for 16 entries in itself whatever m is, with its sum, and the costs:
/// about 16 words a column, one more for its sum and one for each of its costs.
#[derive(Debug, Drop)]
pub struct Instance {
    rows: usize,
    columns: Vec<Point>,
    sums: Vec<u64>,
    costs: Costs,
}

impl Model for Instance {
    ghost use Rattle.ct_instance.specs.Instance.{Problem};
    ghost use Rattle.ct_instance.specs.Made.{IsKept};

    ghost Value = { Problem };

    ghost view = { λ i. record { rows = i.rows; columns = i.columns.items; cost_rows = i.costs.rows } };

    ghost invariant = { λ i. IsKept (record { rows = i.rows; columns = i.columns.items; cost_rows = i.costs.rows }) i.sums.items i.costs.columns };
}

impl Instance {
    ghost use Rattle.ct_instance.specs.Instance.{IsInstance, IsColumn, IsPoint, column_count, width_of, grade_of, degree_of, start_of, unit_of};
    ghost use Rattle.ct_instance.specs.Made.{problem_of, refusal_of, refused_rows, refused_columns, zero_column_of, NamesZeroColumn};
    ghost use Rattle.ct_instance.specs.Jobs.{the_column};

    /// The instance with these entries, row after row, and these costs, one to eight rows of one cost a column that
    /// stand one after another. It refuses the first thing that is wrong: the count of rows, of columns, an entry over
    /// the limit, a zero column, a cost out of its limit. Want of memory may come in place of what is found after the
    /// two counts. It is linear in the number of entries and costs.
    pub fn new(
        alloc: Global,
        rows: u32,
        columns: u32,
        entries: &[u64],
        cost: &[i64],
    ) -> Result<Instance, BadInstance>
        requires entry_count { length entries.now ≡ rows * columns }
        requires whole_rows { 1 ≤ columns → columns ≤ COLUMN_LIMIT → length cost.now % columns ≡ 0 }
        requires some_cost_row { 1 ≤ columns → columns ≤ COLUMN_LIMIT → columns ≤ length cost.now }
        requires cost_row_limit { 1 ≤ columns → columns ≤ COLUMN_LIMIT → length cost.now ≤ COST_ROW_LIMIT * columns }
        ensures ok { IfOk result (λ i. i ≡ problem_of rows columns entries.now cost.now) }
        ensures accepted { IsOk result → refusal_of rows columns entries.now cost.now ≡ None }
        ensures refused { IfErr result (λ e. e ≢ BadInstance.Memory → refusal_of rows columns entries.now cost.now ≡ Some e) }
        ensures memory { IfErr result (λ e. e ≡ BadInstance.Memory → (refused_rows rows ≡ None) × (refused_columns columns ≡ None)) }
    {
        if rows < 1 || rows > ROW_LIMIT as u32 {
            return Err(BadInstance::Rows);
        }
        if columns < 1 || columns > COLUMN_LIMIT as u32 {
            return Err(BadInstance::Columns);
        }
        Instance::with_counts(alloc, rows, columns, entries, cost)
    }

    // The same, where the counts are within their limits.
    fn with_counts(
        alloc: Global,
        rows: u32,
        columns: u32,
        entries: &[u64],
        cost: &[i64],
    ) -> Result<Instance, BadInstance>
        requires some_row { 1 ≤ rows }
        requires few_rows { rows ≤ ROW_LIMIT }
        requires some_column { 1 ≤ columns }
        requires few_columns { columns ≤ COLUMN_LIMIT }
        requires entry_count { length entries.now ≡ rows * columns }
        requires whole_rows { length cost.now % columns ≡ 0 }
        requires some_cost_row { columns ≤ length cost.now }
        requires cost_row_limit { length cost.now ≤ COST_ROW_LIMIT * columns }
        ensures ok { IfOk result (λ i. i ≡ problem_of rows columns entries.now cost.now) }
        ensures accepted { IsOk result → refusal_of rows columns entries.now cost.now ≡ None }
        ensures refused { IfErr result (λ e. e ≢ BadInstance.Memory → refusal_of rows columns entries.now cost.now ≡ Some e) }
    {
        check_entries(columns, entries)?;
        let (points, sums) = matrix_from(alloc, rows as usize, columns as usize, entries)?;
        check_costs(columns, cost)?;
        let made = Instance::with_matrix(alloc, rows as usize, points, sums, cost)?;
        Ok(made)
    }

    /// The same, where each number is within its limit. All that it can refuse is a zero column.
    pub fn from_limited(
        alloc: Global,
        rows: u32,
        columns: u32,
        entries: &[u64],
        cost: &[i64],
    ) -> Result<Instance, BadMatrix>
        requires some_row { 1 ≤ rows }
        requires row_limit { rows ≤ ROW_LIMIT }
        requires some_column { 1 ≤ columns }
        requires column_limit { columns ≤ COLUMN_LIMIT }
        requires entry_count { length entries.now ≡ rows * columns }
        requires entry_limit { All (λ a. a ≤ ENTRY_LIMIT) entries.now }
        requires whole_rows { length cost.now % columns ≡ 0 }
        requires some_cost_row { columns ≤ length cost.now }
        requires cost_row_limit { length cost.now ≤ COST_ROW_LIMIT * columns }
        requires cost_limit { All (λ c. nat_abs c ≤ COST_LIMIT) cost.now }
        ensures ok { IfOk result (λ i. i ≡ problem_of rows columns entries.now cost.now) }
        ensures none { OnOk result (zero_column_of rows columns entries.now ≡ None) }
        ensures zero_column { IfErr result (λ e. NamesZeroColumn e (zero_column_of rows columns entries.now)) }
    {
        let (points, sums) = matrix_from(alloc, rows as usize, columns as usize, entries)?;
        let made = Instance::with_matrix(alloc, rows as usize, points, sums, cost)?;
        Ok(made)
    }

    /// The instance of these columns, of so many entries each, with these costs. All that it can refuse is a zero column.
    /// It takes the columns over, and memory for their sums and the costs.
    pub fn from_columns(
        alloc: Global,
        rows: usize,
        columns: Vec<Point>,
        cost: &[i64],
    ) -> Result<Instance, BadMatrix>
        requires some_row { 1 ≤ rows }
        requires row_limit { rows ≤ ROW_LIMIT }
        requires some_column { 1 ≤ length columns.items }
        requires column_limit { length columns.items ≤ COLUMN_LIMIT }
        requires entries { All (λ c. (length c ≡ rows) × All (λ a. a ≤ ENTRY_LIMIT) c) columns.items }
        requires whole_rows { length cost.now % length columns.items ≡ 0 }
        requires some_cost_row { length columns.items ≤ length cost.now }
        requires cost_row_limit { length cost.now ≤ COST_ROW_LIMIT * length columns.items }
        requires cost_limit { All (λ c. nat_abs c ≤ COST_LIMIT) cost.now }
        ensures ok { IfOk result (λ i. i ≡ record { rows = rows; columns = columns.items; cost_rows = rows_of (length cost.now / length columns.items) (length columns.items) cost.now }) }
        ensures none { OnOk result (position (λ s. nat_eq s 0) (map total columns.items) ≡ None) }
        ensures zero_column { IfErr result (λ e. NamesZeroColumn e (position (λ s. nat_eq s 0) (map total columns.items))) }
    {
        let sums = positive_sums(alloc, &columns)?;
        let made = Instance::with_matrix(alloc, rows, columns, sums, cost)?;
        Ok(made)
    }

    // The instance of these columns, their sums, and rows of costs.
    fn with_matrix(
        alloc: Global,
        rows: usize,
        columns: Vec<Point>,
        sums: Vec<u64>,
        cost: &[i64],
    ) -> Result<Instance, AllocError>
        requires some_row { 1 ≤ rows }
        requires row_limit { rows ≤ ROW_LIMIT }
        requires some_column { 1 ≤ length columns.items }
        requires column_limit { length columns.items ≤ COLUMN_LIMIT }
        requires are_columns { All (IsColumn rows) columns.items }
        requires sums_of_columns { sums.items ≡ map total columns.items }
        requires whole_rows { length cost.now % length columns.items ≡ 0 }
        requires some_cost_row { length columns.items ≤ length cost.now }
        requires cost_row_limit { length cost.now ≤ COST_ROW_LIMIT * length columns.items }
        requires cost_limit { All (λ c. nat_abs c ≤ COST_LIMIT) cost.now }
        ensures { IfOk result (λ i. i ≡ record { rows = rows; columns = columns.items; cost_rows = rows_of (length cost.now / length columns.items) (length columns.items) cost.now }) }
    {
        let costs = Costs::new(alloc, columns.len(), cost)?;
        Ok(Instance {
            rows,
            columns,
            sums,
            costs,
        })
    }

    /// The number of rows, m.
    pub fn rows(&self) -> usize
        ensures rows { result ≡ self.now.rows }
        ensures instance { IsInstance self.now }
    {
        self.rows
    }

    /// The number of columns, n.
    pub fn columns(&self) -> usize
        ensures columns { result ≡ column_count self.now }
        ensures instance { IsInstance self.now }
    {
        self.columns.len()
    }

    /// The rows of costs.
    pub fn costs(&self) -> &Costs
        ensures rows { result.now.rows ≡ self.now.cost_rows }
        ensures columns { result.now.columns ≡ column_count self.now }
        ensures instance { IsInstance self.now }
    {
        &self.costs
    }

    /// The entry in this row and this column, both counted from 1.
    pub fn entry(&self, row: usize, col: usize) -> u64
        requires some_row { 1 ≤ row }
        requires in_rows { row ≤ self.now.rows }
        requires some_column { 1 ≤ col }
        requires in_columns { col ≤ column_count self.now }
        ensures { result ≡ slice_index (the_column self.now col) (row - 1) }
    {
        self.column(col).as_slice()[row - 1]
    }

    /// The column with this number, counted from 1: m numbers.
    pub fn column(&self, col: usize) -> &Point
        requires some { 1 ≤ col }
        requires limit { col ≤ column_count self.now }
        ensures column { result.now ≡ the_column self.now col }
        ensures rows { length result.now ≡ self.now.rows }
        ensures positive { 1 ≤ total result.now }
    {
        &self.columns[col - 1]
    }

    /// The sum of each column, in order.
    pub fn sums(&self) -> &[u64]
        ensures sums { result.now ≡ map total self.now.columns }
        ensures count { length result.now ≡ column_count self.now }
        ensures instance { IsInstance self.now }
    {
        &self.sums
    }

    /// The grade, for a point whose coordinates are within the limit of what may come up: it is below 2^128. It is
    /// linear in the width of the point.
    pub fn grade_wide(&self, p: &Point) -> u128
        requires point { IsPoint self.now p.now }
        requires limit { All (λ x. x ≤ JOB_GRADE_LIMIT) p.now }
        ensures { result ≡ grade_of self.now.columns p.now }
    {
        wide_grade_by_sums(&self.sums, p.as_slice())
    }

    /// The grade, where it is within the limit. It is linear in the width of the point.
    pub fn grade(&self, p: &Point) -> u64
        requires point { IsPoint self.now p.now }
        requires limit { grade_of self.now.columns p.now ≤ JOB_GRADE_LIMIT }
        ensures { result ≡ grade_of self.now.columns p.now }
    {
        grade_by_sums(&self.sums, p.as_slice())
    }

    /// Writes the degree of p, m numbers, over what stood there. It is linear in m times n.
    pub fn degree_into(&self, p: &Point, out: &mut [u64])
        requires point { IsPoint self.now p.now }
        requires room { length out.old ≡ self.now.rows }
        requires limit { grade_of self.now.columns p.now ≤ JOB_GRADE_LIMIT }
        ensures { out.new ≡ degree_of self.now.columns p.now }
    {
        out.copy_from_slice(&p.as_slice()[self.columns.len()..]);
        degree_by_columns(&self.columns, p.as_slice(), out);
    }

    /// The point (0, b).
    pub fn start(&self, alloc: Global, b: &[u64]) -> Result<Point, AllocError>
        requires right { length b.now ≡ self.now.rows }
        ensures { IfOk result (λ p. p ≡ start_of self.now b.now) }
    {
        let mut p = Point::zero(alloc, self.columns.len() + self.rows)?;
        self.start_into(b, &mut p);
        Ok(p)
    }

    /// Makes p the point (0, b), in place.
    pub fn start_into(&self, b: &[u64], p: &mut Point)
        requires right { length b.now ≡ self.now.rows }
        requires point { IsPoint self.now p.old }
        ensures { p.new ≡ start_of self.now b.now }
    {
        p.copy_from_parts(self.columns.len(), b);
    }

    /// The point with `x_j = 1`, the column counted from 1.
    pub fn unit(&self, alloc: Global, j: u32) -> Result<Point, AllocError>
        requires some { 1 ≤ j }
        requires limit { j ≤ column_count self.now }
        ensures { IfOk result (λ p. p ≡ unit_of self.now (j - 1)) }
    {
        let mut p = Point::zero(alloc, self.columns.len() + self.rows)?;
        p.set(j as usize - 1, 1);
        Ok(p)
    }

    /// The point with column j in its artificials, the column counted from 1.
    pub fn column_point(&self, alloc: Global, j: u32) -> Result<Point, AllocError>
        requires some { 1 ≤ j }
        requires limit { j ≤ column_count self.now }
        ensures { IfOk result (λ p. p ≡ start_of self.now (the_column self.now j)) }
    {
        self.start(alloc, self.column(j as usize).as_slice())
    }
}
