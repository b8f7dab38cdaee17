//! The ledger of a test list.
ghost use Rattle.std.specs.Prelude.{◌≡◌, ◌≤◌, [], map, All, OnOk, IfOk};
ghost use Rattle.ct_vectors.specs.declared.limits.TheConstants.{GRADE_LIMIT};
ghost use Rattle.ct_instance.specs.Instance.{IsPoint, column_count, grade_of};
ghost use Rattle.ct_instance.specs.TestSet.{test_list};
ghost use Rattle.ct_ledger.specs.Parts.{IsEntry, AreSteps};
ghost use Rattle.ct_checker.specs.Accepted.{job_of, IsAccepted};
ghost use Rattle.ct_checker.specs.Certified.{IsWalkOf, IsCertifiedEntry, IsCertified, pair_of};
ghost use Rattle.ct_checker.specs.Checking.{IsJobWithin};

use crate::job_list::list_jobs;
use ct_instance::{Instance, Job};
use ct_jobs::{GradedJob, coprime, ends};
use ct_ledger::{Ledger, LedgerEntry};
use ct_point::{Point, Seq};
use ct_walk::{Moves, walk};
use std::alloc::{AllocError, Global};

/// The ledger of the test list of a grade: its moves, and of each of its jobs up to the grade, in order, that it is a
/// coprime pair or the walks of both its ends. `check` accepts it.
///
/// It looks at each pair of moves once, and walks from both ends of each job of at most the grade. It takes the memory of
/// the ledger, where a step takes 16 bytes, and 24 bytes a job beside it.
pub fn certify(
    alloc: Global,
    inst: &Instance,
    moves: &Moves,
    grade: u64,
) -> Result<Ledger, AllocError>
    requires instance { moves.now.instance ≡ inst.now }
    requires grade_limit { grade ≤ GRADE_LIMIT }
    requires test_list { moves.now.moves ≡ test_list inst.now grade }
    ensures certified { IfOk result (IsCertified inst.now moves.now.moves grade) }
    ensures accepted { IfOk result (IsAccepted inst.now) }
{
    let mut ledger = Ledger::open(alloc, inst.rows() as u32, inst.columns() as u32, grade);
    put_moves(alloc, moves, &mut ledger)?;
    let jobs = list_jobs(alloc, inst, moves, grade)?;
    put_entries(alloc, inst, moves, jobs.as_slice(), &mut ledger)?;
    Ok(ledger)
}

// Adds all moves.
fn put_moves(alloc: Global, moves: &Moves, ledger: &mut Ledger) -> Result<(), AllocError>
    requires rows { ledger.old.rows ≡ moves.now.instance.rows }
    requires columns { ledger.old.columns ≡ column_count moves.now.instance }
    requires none { ledger.old.moves ≡ [] }
    ensures { OnOk result (ledger.new ≡ record ledger.old { moves = map pair_of moves.now.moves }) }
{
    // For its facts alone: these are moves of the instance, within the limits.
    let _inst = moves.instance();
    for k in 0..moves.len() {
        let mv = moves.get(k + 1);
        ledger.push_move(mv.head().copy(alloc)?, mv.tail().copy(alloc)?)?;
    }
    Ok(())
}

// Adds what there is to say of each of the jobs.
fn put_entries(
    alloc: Global,
    inst: &Instance,
    moves: &Moves,
    jobs: &[GradedJob],
    ledger: &mut Ledger,
) -> Result<(), AllocError>
    requires instance { moves.now.instance ≡ inst.now }
    requires jobs { All (λ j. IsJobWithin inst.now moves.now.moves j.job) jobs.now }
    requires none { ledger.old.entries ≡ [] }
    ensures kept { OnOk result (ledger.new ≡ record ledger.old { entries = ledger.new.entries }) }
    ensures jobs { OnOk result (map job_of ledger.new.entries ≡ map (λ j. j.job) jobs.now) }
    ensures entries { OnOk result (All (IsCertifiedEntry inst.now moves.now.moves) ledger.new.entries) }
{
    for k in 0..jobs.len() {
        let entry = entry_of(alloc, inst, moves, jobs[k].job)?;
        ledger.push_entry(entry)?;
    }
    Ok(())
}

// What there is to say of a job.
fn entry_of(
    alloc: Global,
    inst: &Instance,
    moves: &Moves,
    job: Job,
) -> Result<LedgerEntry, AllocError>
    requires instance { moves.now.instance ≡ inst.now }
    requires job { IsJobWithin inst.now moves.now.moves job }
    ensures job { IfOk result (λ e. job_of e ≡ job) }
    ensures entry { IfOk result IsEntry }
    ensures certified { IfOk result (IsCertifiedEntry inst.now moves.now.moves) }
{
    // For its facts alone: these are moves of the instance, within the limits.
    let _inst = moves.instance();
    if coprime(moves, job) {
        return Ok(LedgerEntry::Coprime(job));
    }
    let (first, second) = ends(alloc, inst, moves, job)?;
    let one = steps_from(alloc, moves, first)?;
    let other = steps_from(alloc, moves, second)?;
    Ok(LedgerEntry::Walks(job, one, other))
}

// The steps of the walk of a point.
fn steps_from(alloc: Global, moves: &Moves, p: Point) -> Result<Seq<(u32, u64)>, AllocError>
    requires point { IsPoint moves.now.instance p }
    requires grade { grade_of moves.now.instance.columns p ≤ GRADE_LIMIT }
    ensures walk { IfOk result (IsWalkOf moves.now.moves p) }
    ensures steps { IfOk result AreSteps }
{
    // For its facts alone: these are moves of the instance, within the limits.
    let _inst = moves.instance();
    let (steps, _end) = walk(alloc, moves, p)?.into_parts();
    Ok(Seq::from_vec(steps))
}
