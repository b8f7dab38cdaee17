//! What a job is about: its grade, its two ends, and whether it is a pair of coprime heads.
ghost use Rattle.std.specs.Prelude.{◌≡◌, ◌-◌, ◌≤◌, ◌<◌, ◌↔◌, length, IfOk, IsTrue};
ghost use Rattle.ct_vectors.specs.Vectors.{total};
ghost use Rattle.ct_instance.specs.Instance.{IsPoint, column_count, start_of, unit_of};
ghost use Rattle.ct_instance.specs.Jobs.{IsJob, IsCoprime, the_move, the_column, job_grade_of, first_end_of, second_end_of};
ghost use Rattle.ct_jobs.specs.Leaves.{left_of};

use crate::heads::{lcm_grade, write_left};
use ct_instance::{Instance, Job};
use ct_point::Point;
use ct_walk::Moves;
use std::alloc::{AllocError, Global};

/// The two ends of a job, the first one first: of a generator the unit of its column and the column in artificials, of
/// a pair what each of its moves leaves of the least common multiple of the heads. It is linear in the width.
pub fn ends(
    alloc: Global,
    inst: &Instance,
    moves: &Moves,
    job: Job,
) -> Result<(Point, Point), AllocError>
    requires instance { moves.now.instance ≡ inst.now }
    requires job { IsJob inst.now moves.now.moves job }
    ensures first { IfOk result (λ e. e.0 ≡ first_end_of inst.now moves.now.moves job) }
    ensures second { IfOk result (λ e. e.1 ≡ second_end_of inst.now moves.now.moves job) }
{
    let width = inst.columns() + inst.rows();
    let mut first = Point::zero(alloc, width)?;
    let mut second = Point::zero(alloc, width)?;
    ends_into(inst, moves, job, &mut first, &mut second);
    Ok((first, second))
}

/// Makes two points of the instance the ends of a job, in place. It takes no memory, and is linear in the width.
pub fn ends_into(inst: &Instance, moves: &Moves, job: Job, first: &mut Point, second: &mut Point)
    requires instance { moves.now.instance ≡ inst.now }
    requires job { IsJob inst.now moves.now.moves job }
    requires first_point { IsPoint inst.now first.old }
    requires second_point { IsPoint inst.now second.old }
    ensures first { first.new ≡ first_end_of inst.now moves.now.moves job }
    ensures second { second.new ≡ second_end_of inst.now moves.now.moves job }
{
    match job {
        Job::Generator(j) => {
            unit_into(inst, j, first);
            column_into(inst, j, second);
        }
        Job::Pair(i, k) => {
            left_into(moves, i, k, first);
            left_into(moves, k, i, second);
        }
    }
}

/// The grade of a job: of a generator the sum of its column, of a pair the grade of the least common multiple of the
/// heads. It is linear in the width and takes no memory.
pub fn job_grade(inst: &Instance, moves: &Moves, job: Job) -> u64
    requires instance { moves.now.instance ≡ inst.now }
    requires job { IsJob inst.now moves.now.moves job }
    ensures { result ≡ job_grade_of inst.now moves.now.moves job }
{
    match job {
        Job::Generator(j) => column_grade(inst, j),
        Job::Pair(i, k) => pair_grade(inst, moves, i, k),
    }
}

/// Whether the job is a pair whose heads share no variable; so not for a generator. It is linear in the width and takes
/// no memory.
pub fn coprime(moves: &Moves, job: Job) -> bool
    requires { IsJob moves.now.instance moves.now.moves job }
    ensures { IsTrue result ↔ IsCoprime moves.now.moves job }
{
    match job {
        Job::Generator(_) => false,
        Job::Pair(i, k) => have_coprime_heads(moves, i, k),
    }
}

// The same for the pair of two moves.
fn have_coprime_heads(moves: &Moves, i: u32, k: u32) -> bool
    requires { IsJob moves.now.instance moves.now.moves (Job.Pair i k) }
    ensures { IsTrue result ↔ IsCoprime moves.now.moves (Job.Pair i k) }
{
    // For its facts alone: these are moves of the instance, within the limits.
    let _instance = moves.instance();
    moves.get(i).head().disjoint(moves.get(k).head())
}

// Makes the point the first end of a generator: 1 at the column, counted from 1.
fn unit_into(inst: &Instance, j: u32, p: &mut Point)
    requires some { 1 ≤ j }
    requires limit { j ≤ column_count inst.now }
    requires point { IsPoint inst.now p.old }
    ensures { p.new ≡ unit_of inst.now (j - 1) }
{
    let width = inst.columns() + inst.rows();
    p.copy_from_parts(width, &[]);
    p.set(j as usize - 1, 1);
}

// Makes the point the second end of a generator: the column in artificials.
fn column_into(inst: &Instance, j: u32, p: &mut Point)
    requires some { 1 ≤ j }
    requires limit { j ≤ column_count inst.now }
    requires point { IsPoint inst.now p.old }
    ensures { p.new ≡ start_of inst.now (the_column inst.now j) }
{
    inst.start_into(inst.column(j as usize).as_slice(), p);
}

// Makes the point what the move i leaves of the least common multiple of its head and that of the move k.
fn left_into(moves: &Moves, i: u32, k: u32, p: &mut Point)
    requires some_i { 1 ≤ i }
    requires within_i { i ≤ length moves.now.moves }
    requires some_k { 1 ≤ k }
    requires within_k { k ≤ length moves.now.moves }
    requires point { IsPoint moves.now.instance p.old }
    ensures { p.new ≡ left_of (the_move moves.now.moves i) (the_move moves.now.moves k) }
{
    // For its facts alone: these are moves of the instance, within the limits.
    let _instance = moves.instance();
    write_left(p, moves.get(i), moves.get(k));
}

// The grade of the pair of two moves, the smaller number first.
fn pair_grade(inst: &Instance, moves: &Moves, i: u32, k: u32) -> u64
    requires instance { moves.now.instance ≡ inst.now }
    requires job { IsJob inst.now moves.now.moves (Job.Pair i k) }
    ensures { result ≡ job_grade_of inst.now moves.now.moves (Job.Pair i k) }
{
    // For its facts alone: these are moves of the instance, within the limits.
    let _instance = moves.instance();
    let first = moves.get(i).head().as_slice();
    let second = moves.get(k).head().as_slice();
    lcm_grade(inst.sums(), first, second)
}

// The sum of a column, counted from 1.
pub fn column_grade(inst: &Instance, j: u32) -> u64
    requires some { 1 ≤ j }
    requires limit { j ≤ column_count inst.now }
    ensures { result ≡ total (the_column inst.now j) }
{
    inst.sums()[j as usize - 1]
}
