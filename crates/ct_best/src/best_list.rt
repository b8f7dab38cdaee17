//! The least solutions by a version.
ghost use Rattle.std.specs.Prelude.{◌≡◌, ◌≤◌, ◌<◌, ℕ, [], length, get_or, map, take, All, IfOk, IfErr};
ghost use Rattle.ct_vectors.specs.Vectors.{total};
ghost use Rattle.ct_vectors.specs.declared.limits.TheConstants.{RIGHT_LIMIT};
ghost use Rattle.ct_instance.specs.Instance.{IsRight};
ghost use Rattle.ct_instance.specs.Versions.{Covers, level_of};
ghost use Rattle.ct_version.specs.Answers.{IsNotYet};
ghost use Rattle.ct_best.specs.Best.{AreBest};

use crate::search::least_found;
use crate::stops::BestStop;
use ct_point::Point;
use ct_version::{AnswerKind, Version};
use std::alloc::Global;
use std::marker::Model;

/// Solutions of n numbers each, least first.
#[derive(Debug, Drop)]
pub struct BestList {
    points: Vec<Point>,
}

impl Model for BestList {
    ghost use Rattle.std.specs.Prelude.{List, ℕ};

    ghost Value = { List (List ℕ) };

    ghost view = { λ l. l.points.items };
}

impl BestList {
    /// How many there are.
    pub fn len(&self) -> usize
        ensures { result ≡ length self.now }
    {
        self.points.len()
    }

    /// The one with this index, from 0.
    pub fn get(&self, i: usize) -> &Point
        requires { i < length self.now }
        ensures { result.now ≡ get_or self.now i [] }
    {
        &self.points[i]
    }
}

/// The `count` least solutions for b, or all where there are fewer. `NotYet` comes where the version doesn't cover the
/// sum of b.
///
/// It walks once to the least point, and then tests each move of the version at most `count` times. Beside the list it
/// keeps one point. No fiber is listed: the moves of a test set, taken backwards, come to each solution from the least
/// one on (Thomas 1995).
pub fn best(alloc: Global, version: &Version, b: &[u64], count: u32) -> Result<BestList, BestStop>
    requires right { IsRight version.now.instance b.now }
    requires limit { All (λ x. x ≤ RIGHT_LIMIT) b.now }
    requires some { 1 ≤ count }
    requires most { count ≤ 100 }
    ensures covers { IfOk result (λ _. Covers (level_of version.now.instance version.now.number) (total b.now)) }
    ensures best { IfOk result (AreBest version.now.instance count b.now) }
    ensures not_yet { IfErr result (λ e. (f : ℕ) → e ≡ BestStop.NotYet f → IsNotYet version.now b.now f) }
{
    let moves = version.moves();
    let mut least = moves.instance().start(alloc, b)?;
    match version.answer_into(b, &mut least)? {
        AnswerKind::Infeasible { short: _ } => Ok(BestList {
            points: Vec::new(alloc),
        }),
        AnswerKind::Optimum { costs: _ } => {
            let mut points = least_found(alloc, moves, b, least, count as usize)?;
            cut(&mut points, moves.instance().columns());
            Ok(BestList { points })
        }
    }
}

// Keeps the first coordinates of each point, as many as there are columns.
fn cut(points: &mut Vec<Point>, columns: usize)
    requires some { 1 ≤ columns }
    requires wide { All (λ p. columns ≤ length p) points.old.items }
    ensures { points.new.items ≡ map (take columns) points.old.items }
{
    for k in 0..points.len() {
        points[k].truncate(columns);
    }
}
