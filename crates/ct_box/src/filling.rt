//! The completion of a box.
ghost use Rattle.std.specs.Prelude.{◌≡◌, ◌≤◌, ◌<◌, ◌+◌, ◌++◌, [], Some, length, All, IfOk, IfSome, IfNone};
ghost use Rattle.std.specs.Arc.{arc_value};
ghost use Rattle.ct_vectors.specs.declared.limits.TheConstants.{RIGHT_LIMIT, MOVE_LIMIT};
ghost use Rattle.ct_instance.specs.Instance.{IsRight};
ghost use Rattle.ct_walk.specs.Moves.{IsSmallMove};
ghost use Rattle.ct_jobs.specs.GradedJobs.{AreJobsOf, next_grade};
ghost use Rattle.ct_box.specs.Completing.{IsBeyond, IsBoxDone};

use crate::reducing::moves_brought;
use ct_instance::Instance;
use ct_jobs::{Addition, Buckets};
use ct_order::sum;
use ct_walk::{Move, Moves};
use std::alloc::{AllocError, Global};
use std::sync::Arc;

/// A box that is completed: its moves, all of them or those below the box full grade, and that grade where there is one.
#[derive(Drop)]
pub struct BoxDone {
    pub moves: Moves,
    pub full: Option<u64>,
}

/// Completes the box of a bound with at most as many moves as the limit says. It always returns.
pub fn complete_box(
    alloc: Global,
    inst: &Arc<Instance>,
    beta: &[u64],
    limit: u32,
) -> Result<BoxDone, AllocError>
    requires right { IsRight (arc_value inst.now) beta.now }
    requires right_limit { All (λ x. x ≤ RIGHT_LIMIT) beta.now }
    requires most { limit ≤ MOVE_LIMIT }
    ensures instance { IfOk result (λ done. done.moves.instance ≡ arc_value inst.now) }
    ensures done { IfOk result (λ done. IsBoxDone (arc_value inst.now) beta.now limit done.moves.moves done.full) }
{
    // For its facts alone: the instance is within the limits.
    let _rows = inst.rows();
    let most = sum(beta);
    let mut moves = Moves::new(alloc, Arc::try_clone(inst)?);
    let mut buckets = Buckets::new(alloc, inst)?;
    let none = Addition::none(alloc);
    let mut last = 0;
    while let Some(grade) = next_up_to(&buckets, &none, last, most) {
        let jobs = buckets.jobs_with(alloc, grade, &none)?;
        let new = moves_brought(alloc, &moves, beta, grade, jobs.as_slice())?;
        if moves.len() as usize + new.len() > limit as usize {
            return Ok(BoxDone {
                moves,
                full: Some(grade),
            });
        }
        moves = grown(alloc, &moves, &mut buckets, new)?;
        last = grade;
    }
    Ok(BoxDone { moves, full: None })
}

// The next grade of a job above a number, where it is at most the greatest.
fn next_up_to(buckets: &Buckets, none: &Addition, last: u64, most: u64) -> Option<u64>
    requires { none.now ≡ [] }
    ensures some { IfSome result (λ d. (next_grade last buckets.now.jobs ≡ Some d) × (d ≤ most)) }
    ensures none { IfNone result (IsBeyond most (next_grade last buckets.now.jobs)) }
{
    match buckets.next_with(last, none) {
        Some(grade) if grade <= most => Some(grade),
        _ => None,
    }
}

// The list with the new moves, and the jobs of that list.
fn grown(
    alloc: Global,
    moves: &Moves,
    buckets: &mut Buckets,
    new: Vec<Move>,
) -> Result<Moves, AllocError>
    requires small { All (IsSmallMove moves.now.instance) new.items }
    requires room { length moves.now.moves + length new.items ≤ MOVE_LIMIT }
    requires jobs { AreJobsOf moves.now.instance moves.now.moves buckets.old.jobs }
    ensures list { IfOk result (λ l. l ≡ record moves.now { moves = moves.now.moves ++ new.items }) }
    ensures jobs { IfOk result (λ l. AreJobsOf l.instance l.moves buckets.new.jobs) }
{
    let longer = moves.extended(alloc, new)?;
    let pairs = Buckets::prepare(alloc, longer.instance(), &longer, moves.len() + 1)?;
    buckets.reserve()?;
    buckets.absorb(pairs);
    Ok(longer)
}
