//! Sessions.
ghost use Rattle.std.specs.Prelude.{◌≡◌, ◌≤◌, ◌<◌, IfOk};

use crate::stops::SolveStop;
use ct_instance::Instance;
use ct_order::sum;
use ct_point::Point;
use ct_version::{
    AnswerKind, Answered, AskStop, Desk, Finished, FullMark, NotYet, Pin, Stop, Version,
};
use std::alloc::{AllocError, Global};
use std::marker::Model;
use std::sync::{Arc, Wait};

/// Who asks: a desk, the version that is pinned, and a point to work on.
///
/// The number of the pinned version never falls. A session that is dropped drops its desk and lets its version go.
#[derive(Drop)]
pub struct Session<D: Desk + Drop> {
    desk: D,
    version: Arc<Version>,
    scratch: Point,
}

impl<D: Desk + Drop> Model for Session<D> {
    ghost use Rattle.std.specs.Arc.{arc_value};
    ghost use Rattle.ct_instance.specs.Instance.{IsPoint};
    ghost use Rattle.ct_version.specs.Desks.{IsOfPlace};
    ghost use Rattle.ct_session.specs.Sessions.{SessionSeen};

    ghost Value = { SessionSeen D };

    ghost view = { λ s. record { desk = s.desk; pinned = arc_value s.version; point = s.scratch } };

    ghost invariant = { λ s. IsOfPlace (D.place s.desk) (arc_value s.version) × IsPoint (D.place s.desk).instance s.scratch };
}

impl<D: Desk + Drop> Session<D> {
    ghost use Rattle.std.specs.Prelude.{◌≡◌, ◌≤◌, ◌<◌, ◌-◌, ◌++◌, [], ◌∷◌, ℕ, All, None, Some, IfOk, IfErr};
    ghost use Rattle.std.specs.Arc.{arc_value};
    ghost use Rattle.ct_vectors.specs.declared.limits.TheConstants.{RIGHT_LIMIT, GRADE_LIMIT};
    ghost use Rattle.ct_vectors.specs.Vectors.{total};
    ghost use Rattle.ct_instance.specs.Instance.{IsPoint, IsRight};
    ghost use Rattle.ct_instance.specs.Fiber.{least_of};
    ghost use Rattle.ct_instance.specs.Answer.{answer_of};
    ghost use Rattle.ct_instance.specs.Versions.{Covers, level_of};
    ghost use Rattle.ct_version.specs.Editions.{IsEdition, level_seen};
    ghost use Rattle.ct_version.specs.Answers.{kind_of, IsNotYet, IsAnswered};
    ghost use Rattle.ct_version.specs.Desks.{IsOfPlace, IsFullMark};
    ghost use Rattle.ct_vectors.specs.Words.{latest, Extends};
    ghost use Rattle.ct_session.specs.Sessions.{IsRepinned, IsOpenTo, IsFullAt};

    /// A session that has this version pinned. It takes the memory of one point.
    pub fn open(
        alloc: Global,
        inst: Arc<Instance>,
        desk: D,
        first: Arc<Version>,
    ) -> Result<Session<D>, AllocError>
        requires instance { arc_value inst ≡ (D.place desk).instance }
        requires first { IsOfPlace (D.place desk) (arc_value first) }
        ensures desk { IfOk result (λ s. s.desk ≡ desk) }
        ensures pinned { IfOk result (λ s. s.pinned ≡ arc_value first) }
    {
        let scratch = Point::zero(alloc, inst.columns() + inst.rows())?;
        Ok(Session {
            desk,
            version: first,
            scratch,
        })
    }

    /// The number of the pinned version.
    pub fn pinned(&self) -> u64
        ensures number { result ≡ self.now.pinned.number }
        ensures version { IsOfPlace (D.place self.now.desk) self.now.pinned }
        ensures edition { IsEdition self.now.pinned }
    {
        self.version.number()
    }

    /// The level of the pinned version: the grades that it covers.
    pub fn finished(&self) -> Finished
        ensures { level_seen result ≡ level_of self.now.pinned.instance self.now.pinned.number }
    {
        self.version.finished()
    }

    /// The least point of the last right-hand side that `ask` answered, and some point of the instance before.
    pub fn point(&self) -> &Point
        ensures point { result.now ≡ self.now.point }
        ensures of_instance { IsPoint (D.place self.now.desk).instance result.now }
    {
        &self.scratch
    }

    /// Pins once, and answers by the version that is then pinned. Where the pin gives no newer version, for whatever
    /// reason, that is the one from before. It waits for nobody, and takes memory in the pin alone, which may be refused
    /// it: the answer is then that of the version from before too.
    pub fn ask(&mut self, b: &[u64]) -> Result<AnswerKind, NotYet>
        requires right { IsRight (D.place self.old.desk).instance b.now }
        requires limit { All (λ x. x ≤ RIGHT_LIMIT) b.now }
        ensures home { D.home self.new.desk ≡ D.home self.old.desk }
        ensures loan { D.loan self.new.desk ≡ D.loan self.old.desk }
        ensures place { D.place self.new.desk ≡ D.place self.old.desk }
        ensures one_word { D.words self.new.desk ≡ D.words self.old.desk ++ latest (D.words self.new.desk) ∷ [] }
        ensures pinned { IsRepinned self.old.pinned.number (latest (D.words self.new.desk)) (D.refused self.old.desk) (D.refused self.new.desk) self.new.pinned.number }
        ensures never_falls { self.old.pinned.number ≤ self.new.pinned.number }
        ensures version { IsOfPlace (D.place self.old.desk) self.new.pinned }
        ensures covers { IfOk result (λ _. Covers (level_of self.new.pinned.instance self.new.pinned.number) (total b.now)) }
        ensures answer { IfOk result (λ a. a ≡ kind_of (answer_of self.new.pinned.instance b.now)) }
        ensures least { IfOk result (λ _. self.new.point ≡ least_of self.new.pinned.instance b.now) }
        ensures not_yet { IfErr result (λ e. IsNotYet self.new.pinned b.now e.finished) }
        ensures unchanged { IfErr result (λ _. self.new.point ≡ self.old.point) }
    {
        self.repin();
        // for the fact that the version is one
        let _number = self.version.number();
        self.version.answer_into(b, &mut self.scratch)
    }

    // Pins once.
    fn repin(&mut self)
        ensures home { D.home self.new.desk ≡ D.home self.old.desk }
        ensures loan { D.loan self.new.desk ≡ D.loan self.old.desk }
        ensures place { D.place self.new.desk ≡ D.place self.old.desk }
        ensures one_word { D.words self.new.desk ≡ D.words self.old.desk ++ latest (D.words self.new.desk) ∷ [] }
        ensures pinned { IsRepinned self.old.pinned.number (latest (D.words self.new.desk)) (D.refused self.old.desk) (D.refused self.new.desk) self.new.pinned.number }
        ensures never_falls { self.old.pinned.number ≤ self.new.pinned.number }
        ensures version { IsOfPlace (D.place self.old.desk) self.new.pinned }
        ensures point { self.new.point ≡ self.old.point }
    {
        match self.desk.pin(self.version.number()) {
            Pin::Newer(version) => self.version = version,
            Pin::NotNewer { number: _ } => {}
            Pin::Busy { word: _ } => {}
            Pin::Memory => {}
        }
    }

    /// The same with the walk, whose steps take 16 bytes each. Want of memory leaves the session as it is after the pin.
    pub fn ask_walk(&mut self, alloc: Global, b: &[u64]) -> Result<Answered, AskStop>
        requires right { IsRight (D.place self.old.desk).instance b.now }
        requires limit { All (λ x. x ≤ RIGHT_LIMIT) b.now }
        ensures home { D.home self.new.desk ≡ D.home self.old.desk }
        ensures loan { D.loan self.new.desk ≡ D.loan self.old.desk }
        ensures place { D.place self.new.desk ≡ D.place self.old.desk }
        ensures one_word { D.words self.new.desk ≡ D.words self.old.desk ++ latest (D.words self.new.desk) ∷ [] }
        ensures pinned { IsRepinned self.old.pinned.number (latest (D.words self.new.desk)) (D.refused self.old.desk) (D.refused self.new.desk) self.new.pinned.number }
        ensures never_falls { self.old.pinned.number ≤ self.new.pinned.number }
        ensures version { IsOfPlace (D.place self.old.desk) self.new.pinned }
        ensures answer { IfOk result (IsAnswered self.new.pinned b.now) }
        ensures least { IfOk result (λ _. self.new.point ≡ least_of self.new.pinned.instance b.now) }
        ensures not_yet { IfErr result (λ e. (f : ℕ) → e ≡ AskStop.NotYet f → IsNotYet self.new.pinned b.now f) }
        ensures unchanged { IfErr result (λ _. self.new.point ≡ self.old.point) }
    {
        self.repin();
        // for the fact that the version is one
        let _number = self.version.number();
        let answered = self.version.answer(alloc, b)?;
        self.settle(answered.walk.end());
        Ok(answered)
    }

    // Makes the point this one.
    fn settle(&mut self, end: &Point)
        requires point { IsPoint (D.place self.old.desk).instance end.now }
        ensures { self.new ≡ record self.old { point = end.now } }
    {
        self.scratch.copy_from(end);
    }

    /// Answers, after help where the pinned version doesn't cover the sum of b. What help gave is pinned where its number
    /// is above the pinned one, also where it stops at the limit of moves. It may wait for others. Want of memory leaves
    /// what was reached.
    pub fn solve<R: Wait>(
        &mut self,
        rt: &R,
        alloc: Global,
        b: &[u64],
    ) -> Result<Answered, SolveStop>
        requires right { IsRight (D.place self.old.desk).instance b.now }
        requires limit { All (λ x. x ≤ RIGHT_LIMIT) b.now }
        ensures home { D.home self.new.desk ≡ D.home self.old.desk }
        ensures loan { D.loan self.new.desk ≡ D.loan self.old.desk }
        ensures place { D.place self.new.desk ≡ D.place self.old.desk }
        ensures words { Extends (D.words self.old.desk) (D.words self.new.desk) }
        ensures refused { D.refused self.new.desk ≡ D.refused self.old.desk }
        ensures never_falls { self.old.pinned.number ≤ self.new.pinned.number }
        ensures version { IsOfPlace (D.place self.old.desk) self.new.pinned }
        ensures point { self.new.point ≡ self.old.point }
        ensures unhelped { Covers (level_of self.old.pinned.instance self.old.pinned.number) (total b.now) → self.new ≡ self.old }
        ensures answer { IfOk result (IsAnswered self.new.pinned b.now) }
        ensures open_to { IfOk result (λ _. IsOpenTo (D.place self.old.desk) (total b.now)) }
        ensures full { IfErr result (λ e. (f : ℕ) → e ≡ SolveStop.Full f → IsFullAt (D.place self.old.desk) (total b.now) self.new.pinned.number f) }
    {
        // for the fact that the version is one
        let _number = self.version.number();
        self.reach(rt, alloc, sum(b))?;
        match self.version.answer(alloc, b) {
            Ok(answered) => Ok(answered),
            Err(AskStop::NotYet { finished: _ }) => unreachable!(),
            Err(AskStop::Memory) => Err(SolveStop::Memory),
        }
    }

    // Gets a version that covers the grade, or finds the limit before it.
    fn reach<R: Wait>(&mut self, rt: &R, alloc: Global, target: u64) -> Result<(), SolveStop>
        requires { target ≤ GRADE_LIMIT }
        ensures home { D.home self.new.desk ≡ D.home self.old.desk }
        ensures loan { D.loan self.new.desk ≡ D.loan self.old.desk }
        ensures place { D.place self.new.desk ≡ D.place self.old.desk }
        ensures words { Extends (D.words self.old.desk) (D.words self.new.desk) }
        ensures refused { D.refused self.new.desk ≡ D.refused self.old.desk }
        ensures never_falls { self.old.pinned.number ≤ self.new.pinned.number }
        ensures version { IsOfPlace (D.place self.old.desk) self.new.pinned }
        ensures point { self.new.point ≡ self.old.point }
        ensures unhelped { Covers (level_of self.old.pinned.instance self.old.pinned.number) target → self.new ≡ self.old }
        ensures covers { IfOk result (λ _. Covers (level_of (D.place self.old.desk).instance self.new.pinned.number) target) }
        ensures open_to { IfOk result (λ _. IsOpenTo (D.place self.old.desk) target) }
        ensures full { IfErr result (λ e. (f : ℕ) → e ≡ SolveStop.Full f → IsFullAt (D.place self.old.desk) target self.new.pinned.number f) }
    {
        // for the fact that the version is one
        let _number = self.version.number();
        if self.version.finished().covers(target) {
            return Ok(());
        }
        match self.desk.help(rt, alloc, target) {
            Ok(helped) => {
                self.hold(helped.version);
                Ok(())
            }
            Err(Stop::Full(mark)) => Err(self.stop_at(mark, target)),
            Err(Stop::Memory) => Err(SolveStop::Memory),
        }
    }

    // Pins what the mark has.
    fn stop_at(&mut self, mark: FullMark, target: u64) -> SolveStop
        requires { IsFullMark (D.place self.old.desk) target mark }
        ensures desk { self.new.desk ≡ self.old.desk }
        ensures point { self.new.point ≡ self.old.point }
        ensures never_falls { self.old.pinned.number ≤ self.new.pinned.number }
        ensures version { IsOfPlace (D.place self.old.desk) self.new.pinned }
        ensures full { (result ≡ SolveStop.Full mark.grade) × IsFullAt (D.place self.old.desk) target self.new.pinned.number mark.grade }
    {
        let grade = mark.grade;
        self.hold(mark.version);
        SolveStop::Full { grade }
    }

    // Pins the version where its number is above the pinned one.
    fn hold(&mut self, version: Arc<Version>)
        requires version { IsOfPlace (D.place self.old.desk) (arc_value version) }
        ensures desk { self.new.desk ≡ self.old.desk }
        ensures point { self.new.point ≡ self.old.point }
        ensures never_falls { self.old.pinned.number ≤ self.new.pinned.number }
        ensures at_least { (arc_value version).number ≤ self.new.pinned.number }
        ensures version { IsOfPlace (D.place self.old.desk) self.new.pinned }
        ensures edition { IsEdition self.new.pinned }
    {
        if version.number() > self.version.number() {
            self.version = version;
        }
    }

    /// Lets the version go and gives the desk back with it.
    pub fn close(self) -> (D, Arc<Version>)
        ensures desk { result.0 ≡ self.desk }
        ensures pinned { arc_value result.1 ≡ self.pinned }
    {
        let Session {
            desk,
            version,
            scratch: _,
        } = self;
        (desk, version)
    }
}
