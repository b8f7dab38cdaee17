//! The loops over lists of graded jobs.
ghost use Rattle.std.specs.Prelude.{◌≡◌, ◌++◌, [], ◌∷◌, map, OnOk};
ghost use Rattle.ct_instance.specs.Versions.{least_above};
ghost use Rattle.ct_jobs.specs.GradedJobs.{next_grade, of_grade, lesser_of};

use crate::graded::Graded;
use ct_instance::Job;
use std::alloc::AllocError;

// The least grade above a number.
pub fn next_among<G: Graded>(jobs: &[G], above: u64) -> Option<u64>
    ensures { result ≡ next_grade above (map G.graded_of jobs.now) }
{
    let mut least = None;
    for entry in jobs {
        least = lesser(least, if_above(entry.graded().grade, above));
    }
    least
}

// This grade, if it is above the number.
fn if_above(grade: u64, above: u64) -> Option<u64>
    ensures { result ≡ least_above above (grade ∷ []) }
{
    if above < grade { Some(grade) } else { None }
}

// The lesser of two grades, as far as there are any.
pub fn lesser(a: Option<u64>, b: Option<u64>) -> Option<u64>
    ensures { result ≡ lesser_of a b }
{
    match a {
        None => b,
        Some(x) => match b {
            None => Some(x),
            Some(y) => Some(x.min(y)),
        },
    }
}

// Appends the jobs of one grade.
pub fn gather<G: Graded>(out: &mut Vec<Job>, jobs: &[G], grade: u64) -> Result<(), AllocError>
    ensures { OnOk result (out.new.items ≡ out.old.items ++ of_grade grade (map G.graded_of jobs.now)) }
{
    for entry in jobs {
        let here = entry.graded();
        if here.grade == grade {
            out.push(here.job)?;
        }
    }
    Ok(())
}
