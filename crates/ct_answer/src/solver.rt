//! A completion that goes as far as requests need.
ghost use Rattle.std.specs.Prelude.{◌≡◌, ◌≤◌, ℕ, List, All, IfOk, IfErr, Some, None, cond};
ghost use Rattle.ct_vectors.specs.declared.limits.TheConstants.{ROW_LIMIT, RIGHT_LIMIT, GRADE_LIMIT, MOVE_LIMIT};
ghost use Rattle.ct_vectors.specs.Vectors.{total};
ghost use Rattle.ct_instance.specs.Instance.{IsRight};
ghost use Rattle.ct_instance.specs.Answer.{answer_of};
ghost use Rattle.ct_instance.specs.Versions.{Covers, level_of};
ghost use Rattle.ct_instance.specs.Reach.{reach_of};
ghost use Rattle.ct_input.specs.Script.{IsPhase};
ghost use Rattle.ct_version.specs.Editions.{Edition, level_seen};
ghost use Rattle.ct_version.specs.Answers.{IsAnswered};
ghost use Rattle.ct_session.specs.Lines.{IsAnsweredLine, IsSolveLine};
ghost use Rattle.ct_version.specs.Desks.{IsHelp, IsStop};
ghost use Rattle.ct_solo.specs.Seen.{place_of};
ghost use Rattle.ct_answer.specs.Extents.{IsExtent};

use crate::extent::Extent;
use crate::gathering::covered_in;
use crate::prepared::{Prepared, prepare, taken_for};
use ct_input::Phase;
use ct_instance::Instance;
use ct_order::sum;
use ct_point::Seq;
use ct_session::Line;
use ct_solo::Solo;
use ct_version::{Answered, AskStop, Finished, Helped, Stop, Version};
use ct_walk::Walk;
use std::alloc::{AllocError, Global};
use std::marker::Model;
use std::sync::Arc;
use std::thread::Threads;

/// A completion for one caller, seen as its instance and limit, which never change.
///
/// It may have answers that were found beforehand, those to the next requests last.
#[derive(Drop)]
pub struct Solver {
    solo: Solo,
    prepared: Vec<Prepared>,
}

impl Model for Solver {
    ghost use Rattle.std.specs.Prelude.{All};
    ghost use Rattle.ct_version.specs.Desks.{Place};
    ghost use Rattle.ct_solo.specs.Seen.{place_of};
    ghost use Rattle.ct_answer.specs.Prepared.{IsPrepared};

    ghost Value = { Place };

    ghost view = { λ s. place_of s.solo };

    ghost invariant = { λ s. All (IsPrepared (place_of s.solo)) s.prepared.items };
}

impl Solver {
    ghost use Rattle.std.specs.Arc.{arc_value};
    ghost use Rattle.ct_version.specs.Desks.{IsOfPlace};

    /// A solver with no moves yet, linear in the columns. Up to the greatest grade `top` each request goes on from where
    /// the one before it came to; one past it starts anew.
    pub fn open(
        alloc: Global,
        inst: Arc<Instance>,
        limit: u32,
        top: u64,
    ) -> Result<Solver, AllocError>
        requires some { 1 ≤ limit }
        requires most { limit ≤ MOVE_LIMIT }
        requires top { top ≤ GRADE_LIMIT }
        ensures { IfOk result (λ s. s ≡ record { instance = arc_value inst; limit = limit }) }
    {
        let solo = Solo::open(alloc, inst, limit, top)?;
        Ok(Solver {
            solo,
            prepared: Vec::new(alloc),
        })
    }

    /// A solver that has its moves for a grade, or up to the limit on their number, with how far they come.
    pub fn open_at(
        alloc: Global,
        inst: Arc<Instance>,
        limit: u32,
        grade: u64,
    ) -> Result<(Solver, Extent), AllocError>
        requires some { 1 ≤ limit }
        requires most { limit ≤ MOVE_LIMIT }
        requires grade { grade ≤ GRADE_LIMIT }
        ensures place { IfOk result (λ r. r.0 ≡ record { instance = arc_value inst; limit = limit }) }
        ensures extent { IfOk result (λ r. IsExtent (arc_value inst) limit grade r.1) }
    {
        let mut solo = Solo::open(alloc, inst, limit, grade)?;
        match solo.complete(alloc, grade) {
            Ok(helped) => {
                let moves = helped.version.moves().len();
                let level = helped.level;
                let prepared = Vec::new(alloc);
                Ok((Solver { solo, prepared }, Extent { moves, level }))
            }
            Err(Stop::Full(mark)) => {
                let moves = mark.version.moves().len();
                let level = Finished::below(Some(mark.grade));
                let prepared = Vec::new(alloc);
                Ok((Solver { solo, prepared }, Extent { moves, level }))
            }
            Err(Stop::Memory) => Err(AllocError),
        }
    }

    // Help up to the grade.
    fn help(&mut self, alloc: Global, grade: u64) -> Result<Helped, Stop>
        requires { grade ≤ GRADE_LIMIT }
        ensures place { self.new ≡ self.old }
        ensures ok { IfOk result (IsHelp self.old grade) }
        ensures stop { IfErr result (IsStop self.old grade) }
    {
        help_from(alloc, &mut self.solo, grade)
    }

    /// Completes up to the grade, or up to the limit on the number of moves, and answers the requests of these phases whose
    /// sums that covers, in several threads.
    pub fn prepare<R: Threads + Sync>(
        &mut self,
        rt: &R,
        alloc: Global,
        grade: u64,
        phases: &[Phase],
    ) -> Result<(), AllocError>
        requires grade { grade ≤ GRADE_LIMIT }
        requires phases { All (IsPhase self.old.instance.rows) phases.now }
        ensures { self.new ≡ self.old }
    {
        let version = self.reached(alloc, grade)?;
        // Called for what it ensures: there is such a version.
        let _number = version.number();
        let rights = covered_in(alloc, &version, phases)?;
        self.prepared = prepare(rt, alloc, &version, rights)?;
        Ok(())
    }

    // The version to which a completion for the grade comes.
    fn reached(&mut self, alloc: Global, grade: u64) -> Result<Arc<Version>, AllocError>
        requires { grade ≤ GRADE_LIMIT }
        ensures place { self.new ≡ self.old }
        ensures version { IfOk result (λ v. IsOfPlace self.old (arc_value v)) }
    {
        match self.help(alloc, grade) {
            Ok(helped) => Ok(helped.version),
            Err(Stop::Full(mark)) => Ok(mark.version),
            Err(Stop::Memory) => Err(AllocError),
        }
    }

    /// The number of rows of the instance.
    pub fn rows(&self) -> usize
        ensures rows { result ≡ self.now.instance.rows }
        ensures limit { result ≤ ROW_LIMIT }
    {
        self.solo.version().moves().instance().rows()
    }

    /// The line of a solve of b. Where the answer isn't the next that was found beforehand, it completes up to the sum of b,
    /// if the version doesn't cover that already, and walks once.
    pub fn line(&mut self, alloc: Global, b: &[u64], walks: bool) -> Result<Line, AllocError>
        requires right { IsRight self.old.instance b.now }
        requires limit { All (λ x. x ≤ RIGHT_LIMIT) b.now }
        ensures place { self.new ≡ self.old }
        ensures line { IfOk result (IsSolveLine self.old.instance self.old.limit walks (answer_of self.old.instance b.now) b.now) }
    {
        // Called for what it ensures: the rows of an instance are within their limit.
        let _rows = self.rows();
        if let Some(found) = taken_for(&mut self.prepared, b) {
            return Ok(line_of(found, walks));
        }
        match self.help(alloc, sum(b)) {
            Ok(helped) => answered(alloc, &helped.version, b, walks),
            Err(Stop::Full(mark)) => Ok(Line::Full { grade: mark.grade }),
            Err(Stop::Memory) => Err(AllocError),
        }
    }

    /// How far a completion for this grade comes. It completes so far.
    #[tactic(auto, using(crate::proofs::ToldReports::reach_helped, crate::proofs::ToldReports::reach_marked))]
    pub fn level(&mut self, alloc: Global, grade: u64) -> Result<Finished, AllocError>
        requires { grade ≤ GRADE_LIMIT }
        ensures place { self.new ≡ self.old }
        ensures level { IfOk result (λ f. level_seen f ≡ reach_of self.old.instance self.old.limit grade) }
    {
        match self.help(alloc, grade) {
            Ok(helped) => Ok(helped.level),
            Err(Stop::Full(mark)) => Ok(Finished::below(Some(mark.grade))),
            Err(Stop::Memory) => Err(AllocError),
        }
    }
}

// Help up to the grade. Where that is past the greatest grade so far, the completion starts anew.
fn help_from(alloc: Global, solo: &mut Solo, grade: u64) -> Result<Helped, Stop>
    requires { grade ≤ GRADE_LIMIT }
    ensures place { place_of solo.new ≡ place_of solo.old }
    ensures ok { IfOk result (IsHelp (place_of solo.old) grade) }
    ensures stop { IfErr result (IsStop (place_of solo.old) grade) }
{
    if solo.top() < grade {
        match anew(alloc, solo, grade) {
            Ok(higher) => *solo = higher,
            Err(_) => return Err(Stop::Memory),
        }
    }
    solo.complete(alloc, grade)
}

// A completion of the same place from the beginning, up to another greatest grade.
fn anew(alloc: Global, solo: &Solo, top: u64) -> Result<Solo, AllocError>
    requires { top ≤ GRADE_LIMIT }
    ensures place { IfOk result (λ s. place_of s ≡ place_of solo.now) }
    ensures top { IfOk result (λ s. s.top ≡ top) }
{
    let inst = Arc::try_clone(solo.version().moves().instance())?;
    Solo::open(alloc, inst, solo.limit(), top)
}

// The line of b by a version that covers its sum.
fn answered(alloc: Global, version: &Version, b: &[u64], walks: bool) -> Result<Line, AllocError>
    requires right { IsRight version.now.instance b.now }
    requires limit { All (λ x. x ≤ RIGHT_LIMIT) b.now }
    requires covers { Covers (level_of version.now.instance version.now.number) (total b.now) }
    ensures { IfOk result (IsAnsweredLine version.now.instance walks (answer_of version.now.instance b.now) b.now) }
{
    match version.answer(alloc, b) {
        Err(AskStop::Memory) => Err(AllocError),
        Err(AskStop::NotYet { finished: _ }) => unreachable!(),
        Ok(found) => Ok(line_of(found, walks)),
    }
}

// The line of an answer.
fn line_of(found: Answered, walks: bool) -> Line
    ensures { (v : Edition) (b : List ℕ) → IsAnswered v b found → IsAnsweredLine v.instance walks (answer_of v.instance b) b result }
{
    let Answered { answer, walk } = found;
    Line::Answered {
        answer,
        walk: shown(walk, walks),
    }
}

// The steps, where walks are asked for.
fn shown(walk: Walk, walks: bool) -> Option<Seq<(u32, u64)>>
    ensures { result ≡ cond walks (Some walk.steps) None }
{
    if !walks {
        return None;
    }
    let (steps, _end) = walk.into_parts();
    Some(Seq::from_vec(steps))
}
