//! Solutions with their costs.
ghost use Rattle.std.specs.Prelude.{◌≡◌, ◌≤◌, length, take, map, All, IfOk};
ghost use Rattle.ct_vectors.specs.declared.limits.TheConstants.{JOB_GRADE_LIMIT};
ghost use Rattle.ct_instance.specs.Instance.{column_count};
ghost use Rattle.ct_instance.specs.Answer.{costs_of as costs_in};

use crate::reports::Solution;
use ct_best::BestList;
use ct_instance::Instance;
use ct_order::{CostList, costs_of};
use ct_point::{Point, Seq};
use ct_vectors::limits::WIDTH_LIMIT;
use std::alloc::{AllocError, Global};

// The costs of n numbers by each row.
fn cost_list(inst: &Instance, x: &Point) -> CostList
    requires numbers { length x.now ≡ column_count inst.now }
    requires limit { All (λ a. a ≤ JOB_GRADE_LIMIT) x.now }
    ensures { result ≡ costs_in inst.now x.now }
{
    let n = inst.columns();
    // One artificial behind them, which is 0 and has no cost.
    let mut padded = [0u64; WIDTH_LIMIT];
    padded[..n].copy_from_slice(x.as_slice());
    costs_of(inst.costs(), &padded[..n + 1])
}

// Keeps the first coordinates, at most so many.
fn cut(point: &mut Point, columns: usize)
    requires { 1 ≤ columns }
    ensures { point.new ≡ take columns point.old }
{
    if columns < point.as_slice().len() {
        point.truncate(columns);
    }
}

// A solution, of which so many columns are shown, with the costs of all.
fn solution_of(
    alloc: Global,
    inst: &Instance,
    x: &Point,
    columns: usize,
) -> Result<Solution, AllocError>
    requires numbers { length x.now ≡ column_count inst.now }
    requires limit { All (λ a. a ≤ JOB_GRADE_LIMIT) x.now }
    requires columns { 1 ≤ columns }
    ensures shown { IfOk result (λ s. s.point ≡ take columns x.now) }
    ensures paid { IfOk result (λ s. s.costs ≡ costs_in inst.now x.now) }
{
    let costs = cost_list(inst, x);
    let mut point = x.copy(alloc)?;
    cut(&mut point, columns);
    Ok(Solution { point, costs })
}

/// Each, cut to the columns that are shown, with its costs.
pub fn with_costs(
    alloc: Global,
    inst: &Instance,
    list: &BestList,
    columns: usize,
) -> Result<Seq<Solution>, AllocError>
    requires numbers { All (λ x. length x ≡ column_count inst.now) list.now }
    requires limit { All (λ x. All (λ a. a ≤ JOB_GRADE_LIMIT) x) list.now }
    requires columns { 1 ≤ columns }
    ensures shown { IfOk result (λ solutions. map (λ s. s.point) solutions ≡ map (take columns) list.now) }
    ensures paid { IfOk result (λ solutions. map (λ s. s.costs) solutions ≡ map (costs_in inst.now) list.now) }
{
    let mut solutions = Vec::new(alloc);
    for i in 0..list.len() {
        solutions.push(solution_of(alloc, inst, list.get(i), columns)?)?;
    }
    Ok(Seq::from_vec(solutions))
}
