//! A version of the test set, and its answers.
ghost use Rattle.std.specs.Prelude.{◌≡◌, ◌≤◌, ◌<◌, ◌^◌, ℕ, All, IfOk, IfErr, MatchResult};
ghost use Rattle.ct_vectors.specs.declared.limits.TheConstants.{RIGHT_LIMIT};

use crate::answers::{AnswerKind, Answered};
use crate::asking::{check, descend, walk_of};
use crate::finished::Finished;
use crate::readings::{answer_at, kind_at};
use crate::stops::{AskStop, NotYet};
use ct_point::Point;
use ct_walk::Moves;
use std::alloc::Global;
use std::marker::Model;

/// Version k of an instance: its list of moves and the level up to which that is finished.
///
/// Clauses see the instance and the number, from which list and level follow. It keeps the list, which shares the
/// instance.
#[derive(Drop)]
pub struct Version {
    moves: Moves,
    number: u64,
    finished: Finished,
}

impl Model for Version {
    ghost use Rattle.std.specs.Prelude.{◌≡◌};
    ghost use Rattle.ct_instance.specs.Versions.{level_of, version_list};
    ghost use Rattle.ct_version.specs.Editions.{Edition, IsEdition, level_seen};

    ghost Value = { Edition };

    ghost view = { λ v. record { instance = v.moves.instance; number = v.number } };

    ghost invariant = { λ v. IsEdition (record { instance = v.moves.instance; number = v.number }) × (v.moves.moves ≡ version_list v.moves.instance v.number) × (level_seen v.finished ≡ level_of v.moves.instance v.number) };
}

impl Version {
    ghost use Rattle.ct_vectors.specs.Vectors.{total};
    ghost use Rattle.ct_instance.specs.Instance.{IsPoint, IsRight};
    ghost use Rattle.ct_instance.specs.Fiber.{least_of};
    ghost use Rattle.ct_instance.specs.Answer.{answer_of};
    ghost use Rattle.ct_instance.specs.Versions.{Covers, level_of, version_list, IsVersion};
    ghost use Rattle.ct_walk.specs.Moves.{IsMoveList};
    ghost use Rattle.ct_version.specs.Editions.{IsEdition, level_seen};
    ghost use Rattle.ct_version.specs.Answers.{kind_of, IsNotYet, IsAnswered};

    /// The version with this number of the instance of the moves.
    pub fn new(moves: Moves, number: u64, finished: Finished) -> Version
        requires version { IsVersion moves.instance number }
        requires small { number < 2 ^ 62 }
        requires list { moves.moves ≡ version_list moves.instance number }
        requires level { level_seen finished ≡ level_of moves.instance number }
        ensures { result ≡ record { instance = moves.instance; number = number } }
    {
        // Called for what it ensures: these are moves of an instance within the limits.
        let _inst = moves.instance();
        Version {
            moves,
            number,
            finished,
        }
    }

    /// The number, from 0.
    pub fn number(&self) -> u64
        ensures number { result ≡ self.now.number }
        ensures version { IsEdition self.now }
    {
        self.number
    }

    /// The level: the grades that the version covers.
    pub fn finished(&self) -> Finished
        ensures { level_seen result ≡ level_of self.now.instance self.now.number }
    {
        self.finished
    }

    /// The list of moves.
    pub fn moves(&self) -> &Moves
        ensures instance { result.now.instance ≡ self.now.instance }
        ensures list { result.now.moves ≡ version_list self.now.instance self.now.number }
        ensures version { IsEdition self.now }
    {
        &self.moves
    }

    /// The answer to b, with its least point left in `scratch`, which is any point of the instance. Where the version
    /// doesn't cover the sum of b, `scratch` is unchanged. It takes no memory; the number of steps of the walk isn't
    /// bounded but by the fiber.
    pub fn answer_into(&self, b: &[u64], scratch: &mut Point) -> Result<AnswerKind, NotYet>
        requires right { IsRight self.now.instance b.now }
        requires limit { All (λ x. x ≤ RIGHT_LIMIT) b.now }
        requires point { IsPoint self.now.instance scratch.old }
        ensures covers { IfOk result (λ _. Covers (level_of self.now.instance self.now.number) (total b.now)) }
        ensures answer { IfOk result (λ a. a ≡ kind_of (answer_of self.now.instance b.now)) }
        ensures least { IfOk result (λ _. scratch.new ≡ least_of self.now.instance b.now) }
        ensures not_yet { IfErr result (λ e. IsNotYet self.now b.now e.finished) }
        ensures unchanged { IfErr result (λ _. scratch.new ≡ scratch.old) }
    {
        check(self, b)?;
        descend(self, b, scratch);
        Ok(kind_at(self.moves().instance(), scratch))
    }

    /// The answer to b with its walk, whose steps take 16 bytes each.
    pub fn answer(&self, alloc: Global, b: &[u64]) -> Result<Answered, AskStop>
        requires right { IsRight self.now.instance b.now }
        requires limit { All (λ x. x ≤ RIGHT_LIMIT) b.now }
        ensures answer { IfOk result (IsAnswered self.now b.now) }
        ensures not_yet { IfErr result (λ e. (f : ℕ) → e ≡ AskStop.NotYet f → IsNotYet self.now b.now f) }
    {
        check(self, b)?;
        let walk = walk_of(alloc, self, b)?;
        let answer = answer_at(alloc, self.moves().instance(), walk.end())?;
        Ok(Answered { answer, walk })
    }
}
