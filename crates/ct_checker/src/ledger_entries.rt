//! The entries of a ledger, checked.
ghost use Rattle.std.specs.Prelude.{◌≡◌, ◌≤◌, ◌+◌, None, Some, cond, length, All, map, OnOk, IfErr};
ghost use Rattle.ct_vectors.specs.declared.limits.TheConstants.{GRADE_LIMIT};
ghost use Rattle.ct_instance.specs.Instance.{IsPoint, grade_of};
ghost use Rattle.ct_instance.specs.Jobs.{IsJob};
ghost use Rattle.ct_checker.specs.Refusals.{same_numbers, is_coprime, end_of_steps, walks_reason, entry_reason, refused_entry};
ghost use Rattle.ct_checker.specs.declared.verdicts.Reason.TheVariants.{Coprime};
ghost use Rattle.ct_checker.specs.Accepted.{job_of as job_named};
ghost use Rattle.ct_checker.specs.Checking.{IsRefusedBy, IsJobWithin};

use crate::stops::CheckStop;
use crate::verdicts::Reason;
use ct_instance::{Instance, Job};
use ct_jobs::{GradedJob, coprime, ends_into};
use ct_ledger::LedgerEntry;
use ct_point::Point;
use ct_walk::{Moves, follow};
use std::alloc::Global;

// Whether the entries say of each job in turn what is so; else the first line that is refused. They begin in the line after
// the moves. It takes the memory of two points.
pub fn check_entries(
    alloc: Global,
    inst: &Instance,
    moves: &Moves,
    jobs: &[GradedJob],
    entries: &[LedgerEntry],
) -> Result<(), CheckStop>
    requires instance { moves.now.instance ≡ inst.now }
    requires jobs { All (λ j. IsJobWithin inst.now moves.now.moves j.job) jobs.now }
    ensures none { OnOk result (refused_entry inst.now moves.now.moves (4 + length moves.now.moves) (map (λ j. j.job) jobs.now) entries.now ≡ None) }
    ensures refused { IfErr result (IsRefusedBy (refused_entry inst.now moves.now.moves (4 + length moves.now.moves) (map (λ j. j.job) jobs.now) entries.now)) }
{
    let width = inst.columns() + inst.rows();
    let mut first = Point::zero(alloc, width)?;
    let mut second = Point::zero(alloc, width)?;
    let line = 4 + moves.len() as u64;
    for k in 0..entries.len() {
        if k >= jobs.len() {
            return Err(CheckStop::Refused(line + k as u64, Reason::Entry));
        }
        let job = jobs[k].job;
        let wrong = wrong_with(inst, moves, job, &entries[k], &mut first, &mut second);
        if let Some(reason) = wrong {
            return Err(CheckStop::Refused(line + k as u64, reason));
        }
    }
    if entries.len() < jobs.len() {
        return Err(CheckStop::Refused(line + entries.len() as u64, Reason::Entry));
    }
    Ok(())
}

// What is wrong with the entry where this job is next, if anything is. The two points are overwritten.
pub fn wrong_with(
    inst: &Instance,
    moves: &Moves,
    job: Job,
    entry: &LedgerEntry,
    first: &mut Point,
    second: &mut Point,
) -> Option<Reason>
    requires instance { moves.now.instance ≡ inst.now }
    requires job { IsJobWithin inst.now moves.now.moves job }
    requires first_point { IsPoint inst.now first.old }
    requires second_point { IsPoint inst.now second.old }
    ensures reason { result ≡ entry_reason inst.now moves.now.moves job entry.now }
    ensures first_point { IsPoint inst.now first.new }
    ensures second_point { IsPoint inst.now second.new }
{
    // For its facts alone: these are moves of the instance, within the limits.
    let _inst = moves.instance();
    if job != job_of(entry) {
        return Some(Reason::Entry);
    }
    match entry {
        LedgerEntry::Coprime(_) => wrong_coprime(moves, job),
        LedgerEntry::Walks(_, one, other) => {
            if coprime(moves, job) {
                return Some(Reason::Coprime);
            }
            ends_into(inst, moves, job, first, second);
            wrong_walks(moves, first, one.as_slice(), second, other.as_slice())
        }
    }
}

// The job of an entry.
fn job_of(entry: &LedgerEntry) -> Job
    ensures { result ≡ job_named entry.now }
{
    match entry {
        LedgerEntry::Coprime(job) => *job,
        LedgerEntry::Walks(job, _, _) => *job,
    }
}

// What is wrong with the word that the job is coprime.
fn wrong_coprime(moves: &Moves, job: Job) -> Option<Reason>
    requires { IsJob moves.now.instance moves.now.moves job }
    ensures { result ≡ cond (is_coprime moves.now.moves job) None (Some Coprime) }
{
    if coprime(moves, job) {
        None
    } else {
        Some(Reason::Coprime)
    }
}

// What is wrong with two walks from these points, which are moved along them.
fn wrong_walks(
    moves: &Moves,
    first: &mut Point,
    one: &[(u32, u64)],
    second: &mut Point,
    other: &[(u32, u64)],
) -> Option<Reason>
    requires first_point { IsPoint moves.now.instance first.old }
    requires first_grade { grade_of moves.now.instance.columns first.old ≤ GRADE_LIMIT }
    requires second_point { IsPoint moves.now.instance second.old }
    requires second_grade { grade_of moves.now.instance.columns second.old ≤ GRADE_LIMIT }
    ensures reason { result ≡ walks_reason (end_of_steps moves.now.moves first.old one.now) (end_of_steps moves.now.moves second.old other.now) }
    ensures first_point { IsPoint moves.now.instance first.new }
    ensures second_point { IsPoint moves.now.instance second.new }
{
    if !leads(moves, first, one) {
        return Some(Reason::Step);
    }
    if !leads(moves, second, other) {
        return Some(Reason::Step);
    }
    if is_same_point(first, second) {
        None
    } else {
        Some(Reason::End)
    }
}

// Whether each of the steps applies in turn. The point is moved along them, up to the first that doesn't.
fn leads(moves: &Moves, p: &mut Point, steps: &[(u32, u64)]) -> bool
    requires point { IsPoint moves.now.instance p.old }
    requires grade { grade_of moves.now.instance.columns p.old ≤ GRADE_LIMIT }
    ensures end { end_of_steps moves.now.moves p.old steps.now ≡ cond result (Some p.new) None }
    ensures point { IsPoint moves.now.instance p.new }
{
    // For its facts alone: these are moves of the instance, within the limits.
    let _inst = moves.instance();
    match follow(moves, p, steps) {
        Ok(()) => true,
        Err(_) => false,
    }
}

// Whether they are one point.
fn is_same_point(p: &Point, q: &Point) -> bool
    ensures { result ≡ same_numbers p.now q.now }
{
    p.as_slice() == q.as_slice()
}
