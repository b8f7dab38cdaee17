//! Walking two points at once.
ghost use Rattle.std.specs.Prelude.{◌≡◌, ◌≤◌, ◌↔◌, IsTrue};
ghost use Rattle.std.specs.Bool.{OnTrue, OnFalse};
ghost use Rattle.ct_vectors.specs.declared.limits.TheConstants.{GRADE_LIMIT};
ghost use Rattle.ct_instance.specs.Instance.{IsPoint, grade_of};
ghost use Rattle.ct_instance.specs.Walk.{IsWalkEnd};
ghost use Rattle.ct_walk.specs.Moves.{HaveOneEnd, OneSteps};

use crate::degrees::{are_equal, is_below};
use crate::heights::Height;
use crate::move_list::Moves;
use crate::walking::{step_on, walk_end};
use ct_point::Point;
use std::cmp::Ordering;

/// Whether the walks of both points end at one point. Where they do, the points are left where that was seen; else each
/// is moved to the end of its walk.
///
/// The higher point in the refined order takes the next step, so two walks that share a point are left at the first one
/// that they share, and what would follow is walked by neither. `above` is by how much the first point is higher; where
/// it isn't, the answer is the same after more steps. It takes no memory.
pub fn have_one_end(moves: &Moves, first: &mut Point, second: &mut Point, above: Height) -> bool
    requires first_point { IsPoint moves.now.instance first.old }
    requires second_point { IsPoint moves.now.instance second.old }
    requires first_grade { grade_of moves.now.instance.columns first.old ≤ GRADE_LIMIT }
    requires second_grade { grade_of moves.now.instance.columns second.old ≤ GRADE_LIMIT }
    ensures one_end { IsTrue result ↔ HaveOneEnd moves.now.moves first.old second.old }
    ensures two_ends { OnFalse result (IsWalkEnd moves.now.moves first.old first.new × IsWalkEnd moves.now.moves second.old second.new) }
    ensures first_stays_point { IsPoint moves.now.instance first.new }
    ensures second_stays_point { IsPoint moves.now.instance second.new }
{
    // Called for what it ensures: these are moves of an instance within the limits.
    let _inst = moves.instance();
    let mut above = above;
    while higher_steps(moves, first, second, &mut above) {}
    if are_equal(first.as_slice(), second.as_slice()) {
        return true;
    }
    walk_end(moves, first);
    walk_end(moves, second);
    are_equal(first.as_slice(), second.as_slice())
}

// The higher point takes a step, and then it is known by how much the first is above the second. Where both are one
// point, or no head fits the higher one, both stay.
fn higher_steps(moves: &Moves, first: &mut Point, second: &mut Point, above: &mut Height) -> bool
    requires first_point { IsPoint moves.now.instance first.old }
    requires second_point { IsPoint moves.now.instance second.old }
    requires first_grade { grade_of moves.now.instance.columns first.old ≤ GRADE_LIMIT }
    requires second_grade { grade_of moves.now.instance.columns second.old ≤ GRADE_LIMIT }
    ensures stepped { OnTrue result (OneSteps moves.now.moves first.old second.old first.new second.new) }
    ensures stayed { OnFalse result ((first.new ≡ first.old) × (second.new ≡ second.old)) }
{
    match ordering(moves, first, second, *above) {
        Ordering::Equal => false,
        Ordering::Greater => match step_on(moves, first) {
            None => false,
            Some((number, times)) => {
                *above = above.plus(moves.get(number).rise().times(times));
                true
            }
        },
        Ordering::Less => match step_on(moves, second) {
            None => false,
            Some((number, times)) => {
                *above = above.less(moves.get(number).rise().times(times));
                true
            }
        },
    }
}

// Which of both is higher, where the first is so much above the second. Only speed rests on it.
fn ordering(moves: &Moves, first: &Point, second: &Point, above: Height) -> Ordering
    requires first_point { IsPoint moves.now.instance first.now }
    requires second_point { IsPoint moves.now.instance second.now }
    requires first_grade { grade_of moves.now.instance.columns first.now ≤ GRADE_LIMIT }
    requires second_grade { grade_of moves.now.instance.columns second.now ≤ GRADE_LIMIT }
{
    if above.is_some() {
        return above.sign();
    }
    if are_equal(first.as_slice(), second.as_slice()) {
        return Ordering::Equal;
    }
    if is_below(moves.instance(), first, second) {
        Ordering::Less
    } else {
        Ordering::Greater
    }
}
