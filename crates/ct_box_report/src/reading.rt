//! What a least point says.
ghost use Rattle.std.specs.Prelude.{◌≡◌, ◌≤◌, All, IfOk, Some, None, cond};
ghost use Rattle.ct_vectors.specs.declared.limits.TheConstants.{GRADE_LIMIT};
ghost use Rattle.ct_instance.specs.Instance.{IsPoint};
ghost use Rattle.ct_instance.specs.Answer.{outcome_of};
ghost use Rattle.ct_version.specs.Answers.{outcome_seen};

use ct_instance::Instance;
use ct_order::{art_total, costs_of};
use ct_point::{Point, Seq};
use ct_version::Answer;
use ct_walk::Walk;
use std::alloc::{AllocError, Global};

// What the point says, with its first coordinates where it is an optimum.
pub fn answer_at(alloc: Global, inst: &Instance, p: &Point) -> Result<Answer, AllocError>
    requires point { IsPoint inst.now p.now }
    requires limit { All (λ x. x ≤ GRADE_LIMIT) p.now }
    ensures { IfOk result (λ a. outcome_seen a ≡ outcome_of inst.now p.now) }
{
    // Called for what it ensures: the instance is within the limits.
    let _rows = inst.rows();
    let short = art_total(inst.costs(), p.as_slice());
    if short > 0 {
        return Ok(Answer::Infeasible { short });
    }
    let costs = costs_of(inst.costs(), p.as_slice());
    let point = Point::from_slice(alloc, &p.as_slice()[..inst.columns()])?;
    Ok(Answer::Optimum { point, costs })
}

// The steps, where walks are asked for.
pub fn shown(walk: Walk, walks: bool) -> Option<Seq<(u32, u64)>>
    ensures { result ≡ cond walks (Some walk.steps) None }
{
    if !walks {
        return None;
    }
    let (steps, _end) = walk.into_parts();
    Some(Seq::from_vec(steps))
}
