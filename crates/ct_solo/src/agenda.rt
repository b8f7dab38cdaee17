//! What is kept of the jobs of a list of moves.
ghost use Rattle.std.specs.Prelude.{◌≡◌, ◌≤◌, ◌<◌, ◌++◌, ◌∷◌, [], List, Some, Contains, OnOk, IsTrue};
ghost use Rattle.ct_instance.specs.TestSet.{Binomial};
ghost use Rattle.ct_instance.specs.Jobs.{IsCoprime};
ghost use Rattle.ct_jobs.specs.declared.graded.GradedJob.{GradedJob};
ghost use Rattle.ct_jobs.specs.GradedJobs.{next_grade};
ghost use Rattle.std.specs.Ordering.{nat_cmp};
ghost use Rattle.std.specs.BTreeMap.{Updates};
ghost use Rattle.ct_solo.specs.Agendas.{IsAgenda, IsPut, IsLesserOf, graded, jobs_of, unless};

use ct_instance::Job;
use std::alloc::{AllocError, Global};
use std::collections::BTreeMap;

// The grades of jobs past the one that was opened last: up to the greatest that is asked for each grade that a job has,
// with those of its jobs that aren't pairs of coprime heads, and past that the least alone. A job takes 12 bytes in the
// list of its grade, which may have room for as many again, and a grade some 50 to 150 bytes.
#[derive(Drop)]
pub struct Agenda {
    pub alloc: Global,
    // The grade that was opened last.
    pub opened: u64,
    // The greatest grade that is asked for.
    pub top: u64,
    pub grades: BTreeMap<u64, Vec<Job>>,
    // The least grade of a job above the greatest.
    pub beyond: Option<u64>,
}

impl Agenda {
    // No jobs.
    pub fn new(alloc: Global, top: u64) -> Agenda
        ensures none { (ms : List Binomial) → IsAgenda ms [] result }
        ensures opened { result.opened ≡ 0 }
        ensures top { result.top ≡ top }
    {
        Agenda {
            alloc,
            opened: 0,
            top,
            grades: BTreeMap::new(alloc),
            beyond: None,
        }
    }

    // Takes a job in, which has this grade, and keeps its grade alone where it is to be left out: a pair of coprime heads.
    pub fn take_in(&mut self, job: Job, grade: u64, out: bool) -> Result<(), AllocError>
        ensures taken { OnOk result ((ms : List Binomial) → (js : List GradedJob) → (IsTrue out → IsCoprime ms job) → IsAgenda ms js self.old → IsAgenda ms (js ++ graded grade job ∷ []) self.new) }
        ensures opened { self.new.opened ≡ self.old.opened }
        ensures top { self.new.top ≡ self.old.top }
    {
        if self.top < grade {
            self.beyond = Some(lesser(self.beyond, grade));
            return Ok(());
        }
        if grade <= self.opened {
            return Ok(());
        }
        self.put(grade, job, out)
    }

    // Puts the grade in, and the job beside it unless it is left out.
    fn put(&mut self, grade: u64, job: Job, out: bool) -> Result<(), AllocError>
        ensures put { OnOk result (IsPut self.old grade job out self.new) }
        ensures opened { self.new.opened ≡ self.old.opened }
        ensures top { self.new.top ≡ self.old.top }
        ensures beyond { self.new.beyond ≡ self.old.beyond }
    {
        match self.grades.get_mut(&grade) {
            Some(jobs) => push_unless(jobs, job, out),
            None => {
                let mut jobs = Vec::new(self.alloc);
                push_unless(&mut jobs, job, out)?;
                put_grade(&mut self.grades, grade, jobs)
            }
        }
    }

    // Drops the least grade, which is opened.
    pub fn close(&mut self, grade: u64)
        requires { self.old.opened ≤ grade }
        ensures closed { (ms : List Binomial) → (js : List GradedJob) → IsAgenda ms js self.old → ((e : GradedJob) → Contains js e → self.old.opened < e.grade → grade ≤ e.grade) → IsAgenda ms js self.new }
        ensures opened { self.new.opened ≡ grade }
        ensures top { self.new.top ≡ self.old.top }
    {
        self.grades.remove(&grade);
        self.opened = grade;
    }

    // The least grade past the opened one that a job has.
    pub fn next(&self) -> Option<u64>
        requires { self.now.opened ≤ self.now.top }
        ensures { (ms : List Binomial) → (js : List GradedJob) → IsAgenda ms js self.now → result ≡ next_grade self.now.opened js }
    {
        match self.grades.first_key_value() {
            Some((grade, _)) => Some(*grade),
            None => self.beyond,
        }
    }

    // The jobs of a grade that are kept.
    pub fn jobs(&self, grade: u64) -> &[Job]
        ensures { result.now ≡ jobs_of self.now grade }
    {
        match self.grades.get(&grade) {
            Some(jobs) => jobs.as_slice(),
            None => &[],
        }
    }
}

// The lesser of two grades, as far as there is a first.
fn lesser(least: Option<u64>, grade: u64) -> u64
    ensures most { result ≤ grade }
    ensures at { IsLesserOf least grade result }
{
    match least {
        None => grade,
        Some(so_far) => so_far.min(grade),
    }
}

// Appends the job unless it is left out.
fn push_unless(jobs: &mut Vec<Job>, job: Job, out: bool) -> Result<(), AllocError>
    ensures { OnOk result (jobs.new.items ≡ jobs.old.items ++ unless out job) }
{
    if out {
        return Ok(());
    }
    jobs.push(job)?;
    Ok(())
}

// Adds the jobs of a grade that the map has not.
fn put_grade(
    map: &mut BTreeMap<u64, Vec<Job>>,
    grade: u64,
    jobs: Vec<Job>,
) -> Result<(), AllocError>
    ensures { OnOk result (Updates nat_cmp map.old map.new grade (Some jobs)) }
{
    map.insert(grade, jobs)?;
    Ok(())
}
