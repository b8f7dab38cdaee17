//! The least solutions of each request.
ghost use Rattle.std.specs.Prelude.{◌≡◌, ◌≤◌, ◌<◌, [], length, get_or, map, All, IfOk};
ghost use Rattle.std.specs.Arc.{arc_value};
ghost use Rattle.std.specs.List.{AllZip};
ghost use Rattle.std.specs.Prelude.{false};
ghost use Rattle.ct_vectors.specs.Vectors.{total};
ghost use Rattle.ct_vectors.specs.declared.limits.TheConstants.{GRADE_LIMIT, MOVE_LIMIT};
ghost use Rattle.ct_instance.specs.Versions.{Covers, level_of};
ghost use Rattle.ct_legal.specs.Cases.{plain_case};
ghost use Rattle.ct_solo.specs.Seen.{place_of};
ghost use Rattle.ct_best_report.specs.BestReport.{IsAsked, AreBestWithCosts, IsBestAnswer};
ghost use Rattle.ct_best_report.specs.Found.{IsFound};

use crate::costs::with_costs;
use crate::reports::{BestAnswer, BestReport};
use ct_best::{BestStop, best};
use ct_instance::Instance;
use ct_order::sum;
use ct_point::Seq;
use ct_solo::Solo;
use ct_version::{Stop, Version};
use std::alloc::{AllocError, Global};
use std::sync::Arc;

// The least solutions by a version that covers the sum of b.
fn found(
    alloc: Global,
    version: &Version,
    b: &[u64],
    columns: usize,
    count: u32,
) -> Result<BestAnswer, AllocError>
    requires asked { IsAsked version.now.instance b.now }
    requires covers { Covers (level_of version.now.instance version.now.number) (total b.now) }
    requires columns { 1 ≤ columns }
    requires some { 1 ≤ count }
    requires most { count ≤ 100 }
    ensures { IfOk result (IsFound version.now.instance columns count b.now) }
{
    let inst = version.moves().instance();
    match best(alloc, version, b, count) {
        Err(BestStop::Memory) => Err(AllocError),
        Err(BestStop::NotYet { finished: _ }) => unreachable!(),
        Ok(list) => {
            let solutions = with_costs(alloc, inst, &list, columns)?;
            Ok(BestAnswer::Found { solutions })
        }
    }
}

// What is told of b. It completes up to the sum of b, where the version doesn't cover that already.
fn told_of(
    alloc: Global,
    solo: &mut Solo,
    b: &[u64],
    columns: usize,
    count: u32,
) -> Result<BestAnswer, AllocError>
    requires asked { IsAsked solo.old.instance b.now }
    requires sum { total b.now ≤ solo.old.top }
    requires columns { 1 ≤ columns }
    requires some { 1 ≤ count }
    requires most { count ≤ 100 }
    ensures place { place_of solo.new ≡ place_of solo.old }
    ensures top { solo.new.top ≡ solo.old.top }
    ensures told { IfOk result (IsBestAnswer (plain_case solo.old.instance solo.old.limit false false) columns count b.now) }
{
    // Called for what it ensures: the greatest grade is within its limit.
    let _top = solo.top();
    match solo.complete(alloc, sum(b)) {
        Ok(helped) => found(alloc, &helped.version, b, columns, count),
        Err(Stop::Full(mark)) => Ok(BestAnswer::Full { grade: mark.grade }),
        Err(Stop::Memory) => Err(AllocError),
    }
}

// The k-th right-hand side, counted from 0.
fn right_at<'a>(rights: &[&'a [u64]], k: usize) -> &'a [u64]
    requires { k < length rights.now }
    ensures { result.now ≡ get_or (map (λ b. b.now) rights.now) k [] }
{
    rights[k]
}

// The greatest sum of a right-hand side, 0 where there is none.
fn greatest_sum(inst: &Instance, rights: &[&[u64]]) -> u64
    requires { All (IsAsked inst.now) (map (λ b. b.now) rights.now) }
    ensures most { All (λ b. total b ≤ result) (map (λ b. b.now) rights.now) }
    ensures limit { result ≤ GRADE_LIMIT }
{
    // Called for what it ensures: the instance is within the limits.
    let _columns = inst.columns();
    let mut top: u64 = 0;
    for k in 0..rights.len() {
        top = top.max(sum(right_at(rights, k)));
    }
    top
}

/// The `count` least solutions of each right-hand side, each told by its numbers in the first `columns` columns, or the full
/// grade where it is at most its sum. One completion goes up to the sum of each in turn, or up to the limit on the number
/// of moves.
pub fn best_report(
    alloc: Global,
    inst: Arc<Instance>,
    rights: &[&[u64]],
    limit: u32,
    columns: usize,
    count: u32,
) -> Result<BestReport, AllocError>
    requires some_move { 1 ≤ limit }
    requires most_moves { limit ≤ MOVE_LIMIT }
    requires asked { All (IsAsked (arc_value inst)) (map (λ b. b.now) rights.now) }
    requires columns { 1 ≤ columns }
    requires some { 1 ≤ count }
    requires most { count ≤ 100 }
    ensures { IfOk result (λ report. AllZip (IsBestAnswer (plain_case (arc_value inst) limit false false) columns count) (map (λ b. b.now) rights.now) report.answers) }
{
    let top = greatest_sum(&inst, rights);
    let mut solo = Solo::open(alloc, inst, limit, top)?;
    let mut answers = Vec::new(alloc);
    for k in 0..rights.len() {
        let b = right_at(rights, k);
        answers.push(told_of(alloc, &mut solo, b, columns, count)?)?;
    }
    Ok(BestReport {
        answers: Seq::from_vec(answers),
    })
}
