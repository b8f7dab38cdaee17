//! Walking, and following steps that a caller names.
ghost use Rattle.std.specs.Prelude.{◌≡◌, ◌≤◌, length, MatchOption, IfOk, OnOk, IfErr, IsTrue, ◌↔◌};
ghost use Rattle.ct_vectors.specs.declared.limits.TheConstants.{GRADE_LIMIT};
ghost use Rattle.ct_instance.specs.Instance.{IsPoint, grade_of};
ghost use Rattle.ct_instance.specs.Walk.{IsNormal, IsStep, IsWalk, IsWalkEnd, moved};
ghost use Rattle.ct_vectors.specs.Vectors.{scale, Divides};
ghost use Rattle.ct_instance.specs.Jobs.{the_move};
ghost use Rattle.ct_walk.specs.Moves.{Follows, CanApply, IsRefused};

use crate::move_list::Moves;
use crate::walks::Walk;
use ct_point::Point;
use std::alloc::{AllocError, Global};

/// The walk of p. It takes memory for the steps alone, 16 bytes each; their number isn't bounded but by the fiber. For
/// want of memory p is dropped.
pub fn walk(alloc: Global, moves: &Moves, p: Point) -> Result<Walk, AllocError>
    requires point { IsPoint moves.now.instance p }
    requires grade { grade_of moves.now.instance.columns p ≤ GRADE_LIMIT }
    ensures { IfOk result (λ w. IsWalk moves.now.moves p w.steps w.end) }
{
    // Called for what it ensures: these are moves of an instance within the limits.
    let _inst = moves.instance();
    let mut steps = Vec::new(alloc);
    let mut here = p;
    while let Some(step) = step_on(moves, &mut here) {
        steps.push(step)?;
    }
    Ok(Walk::from_parts(steps, here))
}

/// Moves p to the end of its walk. It takes no memory.
pub fn walk_end(moves: &Moves, p: &mut Point)
    requires point { IsPoint moves.now.instance p.old }
    requires grade { grade_of moves.now.instance.columns p.old ≤ GRADE_LIMIT }
    ensures { IsWalkEnd moves.now.moves p.old p.new }
{
    // Called for what it ensures: these are moves of an instance within the limits.
    let _inst = moves.instance();
    while let Some(_) = step_on(moves, p) {}
}

// One step of the walk: the first move that fits, as many times as it fits. Where none fits, the point stays.
pub fn step_on(moves: &Moves, p: &mut Point) -> Option<(u32, u64)>
    requires point { IsPoint moves.now.instance p.old }
    requires grade { grade_of moves.now.instance.columns p.old ≤ GRADE_LIMIT }
    ensures step { MatchOption result (IsNormal moves.now.moves p.old × (p.new ≡ p.old)) (λ s. IsStep moves.now.moves p.old s.0 s.1 p.new) }
    ensures point { IsPoint moves.now.instance p.new }
    ensures grade { grade_of moves.now.instance.columns p.new ≡ grade_of moves.now.instance.columns p.old }
{
    match moves.first_dividing(p) {
        None => None,
        Some(number) => {
            let times = moves.times_in(number, p);
            make_move(moves, number, times, p);
            Some((number, times))
        }
    }
}

// Makes the move with this number so many times.
fn make_move(moves: &Moves, number: u32, times: u64, p: &mut Point)
    requires some { 1 ≤ number }
    requires within { number ≤ length moves.now.moves }
    requires point { IsPoint moves.now.instance p.old }
    requires grade { grade_of moves.now.instance.columns p.old ≤ GRADE_LIMIT }
    requires fits { Divides (scale times (the_move moves.now.moves number).head) p.old }
    ensures moved { p.new ≡ moved (the_move moves.now.moves number) times p.old }
    ensures point { IsPoint moves.now.instance p.new }
    ensures grade { grade_of moves.now.instance.columns p.new ≡ grade_of moves.now.instance.columns p.old }
{
    // Called for what it ensures: these are moves of an instance within the limits.
    let _inst = moves.instance();
    let mv = moves.get(number);
    p.shift(mv.head(), mv.tail(), times);
}

/// Makes the steps in turn. It refuses with the index, from 0, of the first step that doesn't apply: its number is no
/// move's, its count is 0, or the head so many times isn't at most the point. Then p stands after the steps before it.
/// It takes no memory.
pub fn follow(moves: &Moves, p: &mut Point, steps: &[(u32, u64)]) -> Result<(), usize>
    requires point { IsPoint moves.now.instance p.old }
    requires grade { grade_of moves.now.instance.columns p.old ≤ GRADE_LIMIT }
    ensures ok { OnOk result (Follows moves.now.moves p.old steps.now p.new) }
    ensures refused { IfErr result (λ k. IsRefused moves.now.moves p.old steps.now k p.new) }
{
    for k in 0..steps.len() {
        let (number, times) = steps[k];
        if !applies(moves, p, number, times) {
            return Err(k);
        }
        make_move(moves, number, times, p);
    }
    Ok(())
}

// Whether the step applies: there is such a move, and it fits as often as is said, at least once.
fn applies(moves: &Moves, p: &Point, number: u32, times: u64) -> bool
    requires point { IsPoint moves.now.instance p.now }
    ensures applies { IsTrue result ↔ CanApply moves.now.moves p.now number times }
{
    if number < 1 || number > moves.len() {
        return false;
    }
    times >= 1 && times <= moves.times_in(number, p)
}
