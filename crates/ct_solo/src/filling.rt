//! Taking the jobs of a list of moves in.
ghost use Rattle.std.specs.Prelude.{◌≡◌, ◌+◌, ◌≤◌, ◌-◌, ◌++◌, ◌↔◌, [], List, length, map, IfOk, OnOk, IsTrue};
ghost use Rattle.ct_instance.specs.Jobs.{IsJob, IsCoprime, job_grade_of};
ghost use Rattle.ct_jobs.specs.declared.graded.GradedJob.{GradedJob};
ghost use Rattle.ct_jobs.specs.GradedJobs.{with_grade, graded_jobs, graded_pairs_from, row_from};
ghost use Rattle.ct_jobs.specs.Supports.{supports_between};
ghost use Rattle.ct_solo.specs.Agendas.{IsAgenda};
ghost use Rattle.ct_solo.specs.HeadGrades.{head_grade_of, grades_to};

use crate::agenda::Agenda;
use ct_instance::Job;
use ct_jobs::{Supports, job_grade};
use ct_walk::Moves;
use std::alloc::{AllocError, Global};

// Takes in the generator of each column: the jobs of the empty list.
pub fn take_generators(agenda: &mut Agenda, moves: &Moves) -> Result<(), AllocError>
    requires { moves.now.moves ≡ [] }
    ensures taken { OnOk result (IsAgenda [] [] agenda.old → IsAgenda [] (graded_jobs moves.now.instance []) agenda.new) }
    ensures opened { agenda.new.opened ≡ agenda.old.opened }
    ensures top { agenda.new.top ≡ agenda.old.top }
{
    let count = moves.instance().columns() as u32;
    for j in 0..count {
        let job = Job::Generator(j + 1);
        agenda.take_in(job, job_grade(moves.instance(), moves, job), false)?;
    }
    Ok(())
}

// Takes in the pairs of the moves whose greater number is at least `from`. Where no move has such a number, which is so of
// most versions where each pair has a grade of its own, it looks at none.
pub fn take_pairs(agenda: &mut Agenda, moves: &Moves, from: u32) -> Result<(), AllocError>
    requires from { 1 ≤ from }
    requires within { from - 1 ≤ length moves.now.moves }
    ensures taken { OnOk result ((js : List GradedJob) → IsAgenda moves.now.moves js agenda.old → IsAgenda moves.now.moves (js ++ graded_pairs_from moves.now.instance moves.now.moves from) agenda.new) }
    ensures opened { agenda.new.opened ≡ agenda.old.opened }
    ensures top { agenda.new.top ≡ agenda.old.top }
{
    if from > moves.len() {
        return Ok(());
    }
    let supports = Supports::of_new_moves(agenda.alloc, moves.instance(), moves, from - 1)?;
    let grades = head_grades(agenda.alloc, moves)?;
    for i in 0..moves.len() {
        take_row(agenda, moves, from, &supports, grades.as_slice(), i + 1)?;
    }
    Ok(())
}

// The grades of the heads of all moves.
fn head_grades(alloc: Global, moves: &Moves) -> Result<Vec<u64>, AllocError>
    ensures { IfOk result (λ v. v.items ≡ grades_to moves.now.instance moves.now.moves (length moves.now.moves)) }
{
    let mut grades = Vec::with_capacity(alloc, moves.len() as usize)?;
    for k in 0..moves.len() {
        grades.push(moves.instance().grade(moves.get(k + 1).head()))?;
    }
    Ok(grades)
}

// Takes in the pairs of the move i with the moves after it, from `from` on; these are the supports of the heads from there
// on, and the grades of all heads.
fn take_row(
    agenda: &mut Agenda,
    moves: &Moves,
    from: u32,
    supports: &Supports,
    grades: &[u64],
    i: u32,
) -> Result<(), AllocError>
    requires from { 1 ≤ from }
    requires supports { supports.now ≡ supports_between moves.now.instance moves.now.moves (from - 1) (length moves.now.moves) }
    requires grades { grades.now ≡ grades_to moves.now.instance moves.now.moves (length moves.now.moves) }
    requires some { 1 ≤ i }
    requires in_list { i ≤ length moves.now.moves }
    ensures taken { OnOk result ((js : List GradedJob) → IsAgenda moves.now.moves js agenda.old → IsAgenda moves.now.moves (js ++ map (with_grade moves.now.instance moves.now.moves) (row_from from i (length moves.now.moves))) agenda.new) }
    ensures opened { agenda.new.opened ≡ agenda.old.opened }
    ensures top { agenda.new.top ≡ agenda.old.top }
{
    let own = grades[i as usize - 1];
    for k in i.max(from - 1)..moves.len() {
        let grade = supports.pair_grade(moves, from - 1, i, k, own);
        let out = are_coprime(moves, i, k, grade, own, grades[k as usize]);
        agenda.take_in(Job::Pair(i, k + 1), grade, out)?;
    }
    Ok(())
}

// Whether the heads of the moves i and k + 1 share no variable. Their pair has this grade, and they have these: the grade of
// what they share is what the pair's grade lacks of their sum.
fn are_coprime(moves: &Moves, i: u32, k: u32, grade: u64, own: u64, later: u64) -> bool
    requires job { IsJob moves.now.instance moves.now.moves (Job.Pair i (k + 1)) }
    requires grade { grade ≡ job_grade_of moves.now.instance moves.now.moves (Job.Pair i (k + 1)) }
    requires own { own ≡ head_grade_of moves.now.instance moves.now.moves i }
    requires later { later ≡ head_grade_of moves.now.instance moves.now.moves (k + 1) }
    ensures { IsTrue result ↔ IsCoprime moves.now.moves (Job.Pair i (k + 1)) }
{
    // For its facts alone: these are moves of the instance, within the limits.
    let _instance = moves.instance();
    grade == own + later
}
