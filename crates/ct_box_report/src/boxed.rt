//! A completed box that answers.
ghost use Rattle.std.specs.Prelude.{◌≡◌, ◌≤◌, All, None, IfOk};
ghost use Rattle.std.specs.Arc.{arc_value};
ghost use Rattle.ct_vectors.specs.declared.limits.TheConstants.{RIGHT_LIMIT, MOVE_LIMIT};
ghost use Rattle.ct_vectors.specs.Vectors.{total, Divides};
ghost use Rattle.ct_instance.specs.Instance.{IsRight, start_of};
ghost use Rattle.ct_instance.specs.Fiber.{least_of};
ghost use Rattle.ct_instance.specs.Walk.{IsWalk};

use ct_box::{BoxDone, complete_box};
use ct_instance::Instance;
use ct_point::Point;
use ct_walk::{Walk, walk};
use std::alloc::{AllocError, Global};
use std::marker::Model;
use std::sync::Arc;

// The moves of a box, all of them or those below the box full grade, seen as the instance, the bound and the limit.
#[derive(Drop)]
pub struct Boxed {
    top: Point,
    limit: u32,
    done: BoxDone,
}

impl Model for Boxed {
    ghost use Rattle.ct_box.specs.Completing.{IsBoxDone};
    ghost use Rattle.ct_box_report.specs.Boxes.{BoxSeen};

    ghost Value = { BoxSeen };

    ghost view = { λ s. record { instance = s.done.moves.instance; top = s.top; limit = s.limit } };

    ghost invariant = { λ s. IsBoxDone s.done.moves.instance s.top s.limit s.done.moves.moves s.done.full };
}

impl Boxed {
    ghost use Rattle.ct_box.specs.Box.{box_list, box_full_grade};
    ghost use Rattle.ct_box_report.specs.BoxReport.{if_within};

    // Completes the box of the bound.
    pub fn complete(
        alloc: Global,
        inst: &Arc<Instance>,
        top: Point,
        limit: u32,
    ) -> Result<Boxed, AllocError>
        requires right { IsRight (arc_value inst.now) top }
        requires right_limit { All (λ x. x ≤ RIGHT_LIMIT) top }
        requires most { limit ≤ MOVE_LIMIT }
        ensures { IfOk result (λ s. s ≡ record { instance = arc_value inst.now; top = top; limit = limit }) }
    {
        let done = complete_box(alloc, inst, top.as_slice(), limit)?;
        Ok(Boxed { top, limit, done })
    }

    // The box full grade, where it is at most this grade.
    pub fn full_up_to(&self, grade: u64) -> Option<u64>
        ensures { result ≡ if_within grade (box_full_grade self.now.instance self.now.top self.now.limit) }
    {
        // Called for what it ensures: the instance is within the limits.
        let _rows = self.done.moves.instance().rows();
        match self.done.full {
            Some(full) if full <= grade => Some(full),
            _ => None,
        }
    }

    // The walk of the right-hand side, by the moves that there are: below the box full grade it is that by the box.
    pub fn walked(&self, alloc: Global, right: &[u64]) -> Result<Walk, AllocError>
        requires right { IsRight self.now.instance right.now }
        requires right_limit { All (λ x. x ≤ RIGHT_LIMIT) right.now }
        requires within { Divides right.now self.now.top }
        requires room { if_within (total right.now) (box_full_grade self.now.instance self.now.top self.now.limit) ≡ None }
        ensures walk { IfOk result (λ w. IsWalk (box_list self.now.instance self.now.top) (start_of self.now.instance right.now) w.steps w.end) }
        ensures least { IfOk result (λ w. w.end ≡ least_of self.now.instance right.now) }
    {
        let inst = self.done.moves.instance();
        // Called for what it ensures: the instance is within the limits.
        let _rows = inst.rows();
        let start = inst.start(alloc, right)?;
        walk(alloc, &self.done.moves, start)
    }
}
