//! A move of an instance.
ghost use Rattle.std.specs.Prelude.{◌≡◌, ◌≤◌, length, All, IfOk, MatchResult};
ghost use Rattle.ct_vectors.specs.declared.limits.TheConstants.{GRADE_LIMIT};
ghost use Rattle.ct_instance.specs.Instance.{IsPoint, grade_of, degree_of};
ghost use Rattle.ct_instance.specs.Walk.{IsMove};
ghost use Rattle.ct_walk.specs.Moves.{IsFault};

use crate::degrees::{have_one_degree, is_below};
use crate::faults::MoveFault;
use crate::heights::Height;
use ct_index::HasHead;
use ct_instance::Instance;
use ct_point::Point;
use std::alloc::{AllocError, Global};
use std::marker::Model;

/// A move: the head is taken away and the tail is added, each as often. Both are points of one instance with one
/// degree, and the tail is below the head.
#[derive(Debug, Drop)]
pub struct Move {
    head: Point,
    tail: Point,
    rise: Height,
}

impl Model for Move {
    ghost use Rattle.ct_instance.specs.TestSet.{Binomial};

    ghost Value = { Binomial };

    ghost view = { λ m. record { head = m.head; tail = m.tail } };
}

impl Move {
    /// The move from the head to the tail, within a limit of the head's grade. It takes no memory; on a fault, the
    /// first that holds, both points are dropped. It is linear in the number of entries of the instance.
    pub fn new(inst: &Instance, limit: u64, head: Point, tail: Point) -> Result<Move, MoveFault>
        requires limit { limit ≤ GRADE_LIMIT }
        requires head_point { IsPoint inst.now head }
        requires tail_point { IsPoint inst.now tail }
        requires head_limit { All (λ x. x ≤ GRADE_LIMIT) head }
        requires tail_limit { All (λ x. x ≤ GRADE_LIMIT) tail }
        ensures { MatchResult result (λ m. (m ≡ record { head = head; tail = tail }) × IsMove inst.now m × (grade_of inst.now.columns head ≤ limit)) (λ e. IsFault inst.now limit head tail e) }
    {
        if inst.grade_wide(&head) > limit as u128 {
            return Err(MoveFault::Grade);
        }
        if !have_one_degree(inst, &head, &tail) {
            return Err(MoveFault::Degree);
        }
        if !is_below(inst, &tail, &head) {
            return Err(MoveFault::Order);
        }
        let rise = Height::of(inst, &tail).less(Height::of(inst, &head));
        Ok(Move { head, tail, rise })
    }

    /// What is taken away.
    pub fn head(&self) -> &Point
        ensures { result.now ≡ self.now.head }
    {
        &self.head
    }

    /// What is added.
    pub fn tail(&self) -> &Point
        ensures { result.now ≡ self.now.tail }
    {
        &self.tail
    }

    /// By how much the tail is above the head: the order has it below, so artificials or costs mostly fall.
    pub fn rise(&self) -> Height {
        self.rise
    }

    /// An equal move.
    pub fn copy(&self, alloc: Global) -> Result<Move, AllocError>
        ensures { IfOk result (λ m. m ≡ self.now) }
    {
        let head = self.head.copy(alloc)?;
        let tail = self.tail.copy(alloc)?;
        Ok(Move {
            head,
            tail,
            rise: self.rise,
        })
    }
}

impl HasHead for Move {
    ghost head_of = { λ m. m.head };

    fn head(&self) -> &Point {
        &self.head
    }

    fn copy(&self, alloc: Global) -> Result<Move, AllocError> {
        Move::copy(self, alloc)
    }
}
