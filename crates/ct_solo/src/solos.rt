//! The completion for one caller.
ghost use Rattle.std.specs.Prelude.{◌≡◌, ◌≤◌, ◌<◌, ◌↔◌, ◌∷◌, [], ℕ, Some, true, suc, length, IfOk, OnErr, MatchResult, IsTrue};
ghost use Rattle.ct_vectors.specs.declared.limits.TheConstants.{GRADE_LIMIT, MOVE_LIMIT};

use crate::agenda::Agenda;
use crate::filling::take_generators;
use crate::steps::{following, moves_brought};
use ct_handing::{helped, marked, shared};
use ct_instance::Instance;
use ct_version::{Finished, FullMark, Helped, Stop, Version};
use ct_walk::Moves;
use std::alloc::{AllocError, Global};
use std::marker::Model;
use std::sync::Arc;

/// The completion of the test set of an instance, within a limit on the number of moves, for one caller that asks for grades
/// up to a greatest one. It keeps no journal, and no pair of moves that can't bring a move for such a grade.
///
/// Beside the list of moves it takes 12 bytes a pair of moves whose heads share a variable and whose grade lies between the
/// one that was opened last and the greatest, in lists that may have room for as many again, and some 50 to 150 bytes a
/// grade there.
#[derive(Drop)]
pub struct Solo {
    version: Arc<Version>,
    limit: u32,
    full: bool,
    levels: Vec<Finished>,
    // Whether no want of memory came while the agenda was changed.
    whole: bool,
    agenda: Agenda,
}

impl Model for Solo {
    ghost use Rattle.std.specs.Arc.{arc_value};
    ghost use Rattle.ct_solo.specs.Seen.{SoloSeen};
    ghost use Rattle.ct_solo.specs.Insides.{solo_in, IsSolo};

    ghost Value = { SoloSeen };

    ghost view = { λ s. solo_in (record { version = arc_value s.version; limit = s.limit; full = s.full; levels = s.levels.items; whole = s.whole; agenda = s.agenda }) };

    ghost invariant = { λ s. IsSolo (record { version = arc_value s.version; limit = s.limit; full = s.full; levels = s.levels.items; whole = s.whole; agenda = s.agenda }) };
}

impl Solo {
    ghost use Rattle.std.specs.Arc.{arc_value};
    ghost use Rattle.ct_instance.specs.Versions.{upto, level_of, IsFullGrade};
    ghost use Rattle.ct_instance.specs.Reach.{opened_grade};
    ghost use Rattle.ct_version.specs.Desks.{IsOfPlace, IsHelp, IsFullMark};
    ghost use Rattle.ct_version.specs.Editions.{IsEdition};
    ghost use Rattle.ct_solo.specs.Seen.{place_of, edition_of, IsCovered, IsSameSolo, IsAdvanced, IsCompleted, IsEnded};

    /// A completion at version 0, for an instance, a limit of up to 4,096 moves and the greatest grade that will be asked
    /// for. It is linear in the columns.
    pub fn open(
        alloc: Global,
        inst: Arc<Instance>,
        limit: u32,
        top: u64,
    ) -> Result<Solo, AllocError>
        requires most { limit ≤ MOVE_LIMIT }
        requires top { top ≤ GRADE_LIMIT }
        ensures { IfOk result (λ s. s ≡ record { instance = arc_value inst; limit = limit; top = top; number = 0 }) }
    {
        let moves = Moves::new(alloc, inst);
        let mut agenda = Agenda::new(alloc, top);
        take_generators(&mut agenda, &moves)?;
        let finished = Finished::below(agenda.next());
        let levels = only(alloc, finished)?;
        let version = shared(alloc, Version::new(moves, 0, finished))?;
        // For its facts alone: there is such a version.
        let _number = version.number();
        Ok(Solo {
            version,
            limit,
            full: false,
            levels,
            whole: true,
            agenda,
        })
    }

    /// The version.
    pub fn version(&self) -> &Arc<Version>
        ensures version { arc_value result.now ≡ edition_of self.now }
        ensures edition { IsEdition (edition_of self.now) }
        ensures place { IsOfPlace (place_of self.now) (arc_value result.now) }
    {
        &self.version
    }

    /// The limit on the number of moves.
    pub fn limit(&self) -> u32
        ensures limit { result ≡ self.now.limit }
        ensures most { result ≤ MOVE_LIMIT }
    {
        self.limit
    }

    /// The greatest grade that it may be asked for.
    pub fn top(&self) -> u64
        ensures top { result ≡ self.now.top }
        ensures most { result ≤ GRADE_LIMIT }
    {
        self.agenda.top
    }

    /// Goes on until the grade is covered, or the limit on the number of moves is found to stand before it. It always
    /// returns. Where the version covers the grade already, nothing changes; else the version in the answer is the first
    /// that covers it. After want of memory it may be that what is covered by then is given, and for everything past that
    /// want of memory again.
    pub fn complete(&mut self, alloc: Global, grade: u64) -> Result<Helped, Stop>
        requires { grade ≤ self.old.top }
        ensures same { IsSameSolo self.old self.new }
        ensures answer { MatchResult result (IsCompleted self.old grade self.new) (IsEnded self.old grade self.new) }
    {
        while !self.covers(grade) {
            match self.advance(alloc) {
                Err(_) => return Err(Stop::Memory),
                Ok(true) => {}
                Ok(false) => return Err(self.stop(grade)),
            }
        }
        match self.help(grade) {
            Ok(help) => Ok(help),
            Err(_) => Err(Stop::Memory),
        }
    }

    // Whether the version covers the grade.
    fn covers(&self, grade: u64) -> bool
        ensures { IsTrue result ↔ IsCovered self.now grade }
    {
        self.version.finished().covers(grade)
    }

    // The version, which covers the grade, with the first level that does.
    fn help(&self, grade: u64) -> Result<Helped, AllocError>
        requires { IsCovered self.now grade }
        ensures help { IfOk result (λ h. IsHelp (place_of self.now) grade h) }
        ensures version { IfOk result (λ h. arc_value h.version ≡ edition_of self.now) }
    {
        helped(&self.version, &self.levels, grade)
    }

    // The mark at the grade that the version opens, or want of memory.
    fn stop(&self, grade: u64) -> Stop
        requires grade { grade ≤ self.now.top }
        requires beyond { IsCovered self.now grade → ⊥ }
        requires full { (d : ℕ) × (opened_grade self.now.instance self.now.number ≡ Some d) × IsFullGrade self.now.instance self.now.limit d }
        ensures { IsEnded self.now grade self.now result }
    {
        match marked(&self.version) {
            Ok(mark) => Stop::Full(mark),
            Err(_) => Stop::Memory,
        }
    }

    // Opens the next grade, or finds that it is full: then false.
    fn advance(&mut self, alloc: Global) -> Result<bool, AllocError>
        requires { (l : ℕ) × (level_of self.old.instance self.old.number ≡ upto l) × (l < self.old.top) }
        ensures advanced { IfOk result (IsAdvanced self.old self.new) }
        ensures refused { OnErr result (self.new ≡ self.old) }
    {
        if self.full {
            return Ok(false);
        }
        if !self.whole {
            return Err(AllocError);
        }
        let new = moves_brought(alloc, &self.version, &self.agenda)?;
        if self.version.moves().len() as usize + new.len() > self.limit as usize {
            self.full = true;
            return Ok(false);
        }
        self.levels.reserve(1)?;
        self.whole = false;
        let version = following(alloc, &self.version, &mut self.agenda, new)?;
        // For its facts alone: there is such a version.
        let _number = version.number();
        self.levels.push_reserved(version.finished());
        self.version = version;
        self.whole = true;
        Ok(true)
    }
}

// The one level.
fn only(alloc: Global, level: Finished) -> Result<Vec<Finished>, AllocError>
    ensures { IfOk result (λ v. v.items ≡ level ∷ []) }
{
    let mut levels = Vec::new(alloc);
    levels.push(level)?;
    Ok(levels)
}
