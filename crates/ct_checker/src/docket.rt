//! What there is to check of the entries of a ledger.
ghost use Rattle.std.specs.Prelude.{◌≡◌, ◌<◌, ◌&&◌, nat_eq, None, length, map, All, OnOk, IfOk, IfErr};
ghost use Rattle.std.specs.Arc.{arc_value};
ghost use Rattle.ct_instance.specs.Instance.{column_count};
ghost use Rattle.ct_checker.specs.Refusals.{entry_reason as reason_of_entry};
ghost use Rattle.ct_checker.specs.Checking.{IsRefusedBy, IsJobWithin};
ghost use Rattle.ct_checker.specs.Dockets.{docket_of as docket_of_ledger, job_at, refused_before};

use crate::job_list::list_jobs;
use crate::ledger_entries::wrong_with;
use crate::ledger_moves::take_moves;
use crate::stops::CheckStop;
use crate::verdicts::Reason;
use ct_instance::Instance;
use ct_jobs::GradedJob;
use ct_ledger::{Ledger, LedgerEntry};
use ct_point::Point;
use ct_walk::Moves;
use std::alloc::{AllocError, Global};
use std::marker::Model;
use std::sync::Arc;

/// The moves of a ledger, and the jobs that its entries have to speak of, in order.
///
/// Each entry can be looked at by itself, in any order and from several threads.
#[derive(Drop)]
pub struct Docket {
    moves: Moves,
    jobs: Vec<GradedJob>,
}

impl Model for Docket {
    ghost use Rattle.std.specs.Prelude.{map, All};
    ghost use Rattle.ct_checker.specs.Checking.{IsJobWithin};
    ghost use Rattle.ct_checker.specs.Dockets.{DocketParts};

    ghost Value = { DocketParts };

    ghost view = { λ d. record { instance = d.moves.instance; moves = d.moves.moves; jobs = map (λ j. j.job) d.jobs.items } };

    ghost invariant = { λ d. All (λ j. IsJobWithin d.moves.instance d.moves.moves j.job) d.jobs.items };
}

impl Docket {
    /// How many entries there have to be.
    pub fn len(&self) -> usize
        ensures { result ≡ length self.now.jobs }
    {
        self.jobs.len()
    }

    /// What is wrong with an entry in this place, from 0, if anything is. It follows the steps that the entry names, and
    /// takes the memory of two points.
    pub fn entry_reason(
        &self,
        alloc: Global,
        place: usize,
        entry: &LedgerEntry,
    ) -> Result<Option<Reason>, AllocError>
        requires { place < length self.now.jobs }
        ensures { IfOk result (λ r. r ≡ reason_of_entry self.now.instance self.now.moves (job_at self.now place) entry.now) }
    {
        let inst = self.moves.instance();
        let width = inst.columns() + inst.rows();
        let mut first = Point::zero(alloc, width)?;
        let mut second = Point::zero(alloc, width)?;
        let job = self.jobs[place].job;
        Ok(wrong_with(inst, &self.moves, job, entry, &mut first, &mut second))
    }

    // The moves.
    pub(crate) fn moves(&self) -> &Moves
        ensures instance { result.now.instance ≡ self.now.instance }
        ensures moves { result.now.moves ≡ self.now.moves }
    {
        &self.moves
    }

    // The jobs with their grades.
    pub(crate) fn jobs(&self) -> &[GradedJob]
        ensures jobs { map (λ j. j.job) result.now ≡ self.now.jobs }
        ensures within { All (λ j. IsJobWithin self.now.instance self.now.moves j.job) result.now }
    {
        self.jobs.as_slice()
    }

    // The moves alone.
    pub(crate) fn into_moves(self) -> Moves
        ensures { result ≡ record { instance = self.instance; moves = self.moves } }
    {
        self.moves
    }
}

/// The docket of a ledger, or its first refused line before the entries.
///
/// It looks once at each pair of moves, which is all of the list's jobs. It takes the memory of the moves and 24 bytes a
/// job of at most the grade, half as much again while it sorts them.
pub fn docket_of(alloc: Global, inst: &Arc<Instance>, ledger: &Ledger) -> Result<Docket, CheckStop>
    ensures docket { IfOk result (λ d. d ≡ docket_of_ledger (arc_value inst.now) ledger.now) }
    ensures none { OnOk result (refused_before (arc_value inst.now) ledger.now ≡ None) }
    ensures refused { IfErr result (IsRefusedBy (refused_before (arc_value inst.now) ledger.now)) }
{
    if !is_of_size(inst, ledger) {
        return Err(CheckStop::Refused(2, Reason::Size));
    }
    let moves = take_moves(alloc, inst, ledger.grade(), ledger.moves())?;
    let jobs = list_jobs(alloc, inst, &moves, ledger.grade())?;
    Ok(Docket { moves, jobs })
}

// Whether the size is the instance's.
fn is_of_size(inst: &Instance, ledger: &Ledger) -> bool
    ensures { result ≡ (nat_eq ledger.now.rows inst.now.rows && nat_eq ledger.now.columns (column_count inst.now)) }
{
    let (rows, columns) = ledger.size();
    rows as usize == inst.rows() && columns as usize == inst.columns()
}
