//! What a least point says.
ghost use Rattle.std.specs.Prelude.{◌≡◌, ◌≤◌, ◌<◌, length, take, All, IfOk};
ghost use Rattle.ct_vectors.specs.declared.limits.TheConstants.{GRADE_LIMIT};
ghost use Rattle.ct_instance.specs.Instance.{IsPoint, column_count};
ghost use Rattle.ct_instance.specs.Answer.{outcome_of};
ghost use Rattle.ct_version.specs.Answers.{outcome_seen, kind_of};

use crate::answers::{Answer, AnswerKind};
use ct_instance::Instance;
use ct_order::{art_total, costs_of};
use ct_point::Point;
use std::alloc::{AllocError, Global};

// What the point says, without its coordinates.
pub fn kind_at(inst: &Instance, p: &Point) -> AnswerKind
    requires point { IsPoint inst.now p.now }
    requires limit { All (λ x. x ≤ GRADE_LIMIT) p.now }
    ensures { result ≡ kind_of (outcome_of inst.now p.now) }
{
    // Called for what it ensures: the instance is within the limits.
    let _rows = inst.rows();
    let short = art_total(inst.costs(), p.as_slice());
    if short > 0 {
        return AnswerKind::Infeasible { short };
    }
    AnswerKind::Optimum {
        costs: costs_of(inst.costs(), p.as_slice()),
    }
}

// What the point says, with its first coordinates where it is an optimum.
pub fn answer_at(alloc: Global, inst: &Instance, p: &Point) -> Result<Answer, AllocError>
    requires point { IsPoint inst.now p.now }
    requires limit { All (λ x. x ≤ GRADE_LIMIT) p.now }
    ensures { IfOk result (λ a. outcome_seen a ≡ outcome_of inst.now p.now) }
{
    match kind_at(inst, p) {
        AnswerKind::Infeasible { short } => Ok(Answer::Infeasible { short }),
        AnswerKind::Optimum { costs } => {
            let point = Point::from_slice(alloc, &p.as_slice()[..inst.columns()])?;
            Ok(Answer::Optimum { point, costs })
        }
    }
}
