//! The jobs of a list of moves up to a grade, in the order in which a ledger has them.
ghost use Rattle.std.specs.Prelude.{◌≡◌, ◌≤◌, ◌++◌, ◌∷◌, [], length, map, flat_map, IfOk, OnOk};
ghost use Rattle.ct_instance.specs.Instance.{column_count};
ghost use Rattle.ct_instance.specs.Jobs.{IsJob, jobs_up_to, numbers_after};
ghost use Rattle.ct_checker.specs.JobList.{graded_up_to};

use ct_instance::{Instance, Job};
use ct_jobs::{GradedJob, job_grade};
use ct_walk::Moves;
use std::alloc::{AllocError, Global};

// All jobs of at most the grade, by grade and then in job order. It looks at each pair once, and takes 24 bytes a job that it
// lists, and half as much again while it sorts them.
pub fn list_jobs(
    alloc: Global,
    inst: &Instance,
    moves: &Moves,
    limit: u64,
) -> Result<Vec<GradedJob>, AllocError>
    requires instance { moves.now.instance ≡ inst.now }
    ensures { IfOk result (λ js. map (λ j. j.job) js.items ≡ jobs_up_to inst.now moves.now.moves limit) }
{
    let mut jobs = Vec::new(alloc);
    add_generators(inst, moves, limit, &mut jobs)?;
    add_pairs(inst, moves, limit, &mut jobs)?;
    jobs.sort_by_key(|entry| entry.grade)?;
    Ok(jobs)
}

// Appends the generators of at most the grade.
fn add_generators(
    inst: &Instance,
    moves: &Moves,
    limit: u64,
    jobs: &mut Vec<GradedJob>,
) -> Result<(), AllocError>
    requires instance { moves.now.instance ≡ inst.now }
    ensures { OnOk result (jobs.new.items ≡ jobs.old.items ++ graded_up_to inst.now moves.now.moves limit (map Job.Generator (numbers_after 0 (column_count inst.now)))) }
{
    let count = inst.columns() as u32;
    for j in 0..count {
        add_job(inst, moves, limit, Job::Generator(j + 1), jobs)?;
    }
    Ok(())
}

// Appends the pairs of at most the grade.
fn add_pairs(
    inst: &Instance,
    moves: &Moves,
    limit: u64,
    jobs: &mut Vec<GradedJob>,
) -> Result<(), AllocError>
    requires instance { moves.now.instance ≡ inst.now }
    ensures { OnOk result (jobs.new.items ≡ jobs.old.items ++ graded_up_to inst.now moves.now.moves limit (flat_map (λ a. map (Job.Pair a) (numbers_after a (length moves.now.moves))) (numbers_after 0 (length moves.now.moves)))) }
{
    let count = moves.len();
    for i in 0..count {
        add_row(inst, moves, limit, i + 1, jobs)?;
    }
    Ok(())
}

// Appends the pairs of at most the grade of the move i and those after it.
fn add_row(
    inst: &Instance,
    moves: &Moves,
    limit: u64,
    i: u32,
    jobs: &mut Vec<GradedJob>,
) -> Result<(), AllocError>
    requires instance { moves.now.instance ≡ inst.now }
    requires some { 1 ≤ i }
    requires within { i ≤ length moves.now.moves }
    ensures { OnOk result (jobs.new.items ≡ jobs.old.items ++ graded_up_to inst.now moves.now.moves limit (map (Job.Pair i) (numbers_after i (length moves.now.moves)))) }
{
    let count = moves.len();
    for k in i..count {
        add_job(inst, moves, limit, Job::Pair(i, k + 1), jobs)?;
    }
    Ok(())
}

// Appends the job if it has at most the grade.
fn add_job(
    inst: &Instance,
    moves: &Moves,
    limit: u64,
    job: Job,
    jobs: &mut Vec<GradedJob>,
) -> Result<(), AllocError>
    requires instance { moves.now.instance ≡ inst.now }
    requires job { IsJob inst.now moves.now.moves job }
    ensures { OnOk result (jobs.new.items ≡ jobs.old.items ++ graded_up_to inst.now moves.now.moves limit (job ∷ [])) }
{
    let grade = job_grade(inst, moves, job);
    if grade <= limit {
        jobs.push(GradedJob { grade, job })?;
    }
    Ok(())
}
