//! The parts of the refined order, and the order itself.
ghost use Rattle.std.specs.Prelude.{◌≡◌, ◌+◌, ◌-◌, ◌^◌, ◌<◌, ◌≤◌, [], length, map, slice_index_or, nat_abs, pos, ◌+ℤ◌, ◌*ℤ◌, All};
ghost use Rattle.ct_vectors.specs.Vectors.{total};
ghost use Rattle.ct_vectors.specs.declared.limits.TheConstants.{ROW_LIMIT, COLUMN_LIMIT, COST_LIMIT, JOB_GRADE_LIMIT};
ghost use Rattle.ct_order.specs.Order.{refined_order, art_total_of, cost_of, cost_order, first_difference};

use crate::cost_list::CostList;
use crate::costs::Costs;
use ct_vectors::limits::COST_ROW_LIMIT;
use std::cmp::Ordering;

/// The refined order of two points of one width, which have the columns of the costs and then 1 to 16 artificials. It
/// goes once over both for the artificial totals, once more for each row of costs as long as they tie, and once for
/// the first coordinate that differs. It takes no memory.
pub fn compare(costs: &Costs, p: &[u64], q: &[u64]) -> Ordering
    requires same_width { length p.now ≡ length q.now }
    requires some_artificial { costs.now.columns < length p.now }
    requires most_artificials { length p.now ≤ costs.now.columns + ROW_LIMIT }
    requires p_limit { All (λ x. x ≤ JOB_GRADE_LIMIT) p.now }
    requires q_limit { All (λ x. x ≤ JOB_GRADE_LIMIT) q.now }
    ensures { result ≡ refined_order costs.now.columns costs.now.rows p.now q.now }
{
    let by_artificials = art_total(costs, p).cmp(&art_total(costs, q));
    if by_artificials != Ordering::Equal {
        return by_artificials;
    }
    by_costs(costs, p, q)
}

/// The artificial total: the sum of the coordinates after those of the columns.
pub fn art_total(costs: &Costs, p: &[u64]) -> u64
    requires some_artificial { costs.now.columns < length p.now }
    requires most_artificials { length p.now ≤ costs.now.columns + ROW_LIMIT }
    requires limit { All (λ x. x ≤ JOB_GRADE_LIMIT) p.now }
    ensures { result ≡ art_total_of costs.now.columns p.now }
{
    sum(&p[costs.columns()..])
}

/// The cost of the coordinates of the columns by the row with this number, counted from 1. It is at most 64 times
/// 3.2 times 10^25 in size.
pub fn cost(costs: &Costs, row: usize, p: &[u64]) -> i128
    requires some_row { 1 ≤ row }
    requires row_limit { row ≤ length costs.now.rows }
    requires some_artificial { costs.now.columns < length p.now }
    requires most_artificials { length p.now ≤ costs.now.columns + ROW_LIMIT }
    requires limit { All (λ x. x ≤ JOB_GRADE_LIMIT) p.now }
    ensures { result ≡ cost_of (slice_index_or costs.now.rows (row - 1) []) p.now }
{
    weighted_sum(costs.row(row), p)
}

/// The costs of the coordinates of the columns by each row.
pub fn costs_of(costs: &Costs, p: &[u64]) -> CostList
    requires some_artificial { costs.now.columns < length p.now }
    requires most_artificials { length p.now ≤ costs.now.columns + ROW_LIMIT }
    requires limit { All (λ x. x ≤ JOB_GRADE_LIMIT) p.now }
    ensures { result ≡ map (λ row. cost_of row p.now) costs.now.rows }
{
    let mut found = [0i128; COST_ROW_LIMIT];
    let count = costs.row_count();
    for k in 0..count {
        found[k] = weighted_sum(costs.row(k + 1), p);
    }
    CostList::new(&found[..count])
}

/// The sum of the numbers.
pub fn sum(numbers: &[u64]) -> u64
    requires { total numbers.now < 2 ^ 64 }
    ensures { result ≡ total numbers.now }
{
    let mut sum = 0;
    for i in 0..numbers.len() {
        sum += numbers[i];
    }
    sum
}

// By the rows of costs in turn, and then by the first coordinate that differs.
fn by_costs(costs: &Costs, p: &[u64], q: &[u64]) -> Ordering
    requires same_width { length p.now ≡ length q.now }
    requires some_artificial { costs.now.columns < length p.now }
    requires p_limit { All (λ x. x ≤ JOB_GRADE_LIMIT) p.now }
    requires q_limit { All (λ x. x ≤ JOB_GRADE_LIMIT) q.now }
    ensures { result ≡ cost_order costs.now.rows p.now q.now }
{
    for k in 0..costs.row_count() {
        let row = costs.row(k + 1);
        let here = weighted_sum(row, p).cmp(&weighted_sum(row, q));
        if here != Ordering::Equal {
            return here;
        }
    }
    by_first_difference(p, q)
}

// The sum of cost times coordinate.
fn weighted_sum(costs: &[i64], p: &[u64]) -> i128
    requires columns { length costs.now ≤ COLUMN_LIMIT }
    requires width { length costs.now ≤ length p.now }
    requires cost_limit { All (λ x. nat_abs x ≤ COST_LIMIT) costs.now }
    requires limit { All (λ x. x ≤ JOB_GRADE_LIMIT) p.now }
    ensures { result ≡ cost_of costs.now p.now }
{
    let mut sum = 0i128;
    for i in 0..costs.len() {
        sum = with_product(sum, costs[i], p[i]);
    }
    sum
}

// The sum and one product more.
fn with_product(sum: i128, cost: i64, x: u64) -> i128
    requires room { nat_abs sum ≤ 2 ^ 126 }
    requires cost_limit { nat_abs cost ≤ COST_LIMIT }
    requires limit { x ≤ JOB_GRADE_LIMIT }
    ensures { result ≡ sum +ℤ (cost *ℤ pos x) }
{
    let product = cost as i128 * x as i128;
    sum + product
}

// By the first coordinate that differs.
fn by_first_difference(p: &[u64], q: &[u64]) -> Ordering
    requires { length p.now ≡ length q.now }
    ensures { result ≡ first_difference p.now q.now }
{
    for i in 0..p.len() {
        let here = p[i].cmp(&q[i]);
        if here != Ordering::Equal {
            return here;
        }
    }
    Ordering::Equal
}
