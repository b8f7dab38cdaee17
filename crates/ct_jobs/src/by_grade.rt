//! The map from grades to pairs.
ghost use Rattle.std.specs.Prelude.{◌≡◌, ◌++◌, ◌∷◌, [], IsPermutation, OnOk, OnErr};
ghost use Rattle.ct_jobs.specs.GradedJobs.{next_grade, of_grade};
ghost use Rattle.ct_jobs.specs.PairsByGrade.{graded_pair, pairs_in, jobs_in};
ghost use Rattle.std.specs.Ordering.{nat_cmp};
ghost use Rattle.std.specs.BTreeMap.{insert_entry};

use crate::one_grade::OneGrade;
use ct_instance::Job;
use std::alloc::{AllocError, Global};
use std::collections::BTreeMap;
use std::marker::Model;
use std::ops::Bound;

// Pairs of moves by their grades, 8 bytes a pair beside the entry of its grade.
#[derive(Debug, Drop)]
pub struct ByGrade {
    alloc: Global,
    map: BTreeMap<u64, OneGrade>,
}

impl Model for ByGrade {
    ghost use Rattle.std.specs.Prelude.{List};
    ghost use Rattle.ct_jobs.specs.declared.graded.GradedJob.{GradedJob};
    ghost use Rattle.ct_jobs.specs.PairsByGrade.{graded_entries};

    ghost Value = { List GradedJob };

    ghost view = { λ b. graded_entries b.map.entries };
}

impl ByGrade {
    // No pairs.
    pub fn new(alloc: Global) -> ByGrade
        ensures { result ≡ [] }
    {
        ByGrade {
            alloc,
            map: BTreeMap::new(alloc),
        }
    }

    // Adds a pair. A refusal leaves the pairs as they were.
    pub fn add(&mut self, grade: u64, pair: (u32, u32)) -> Result<(), AllocError>
        ensures more { OnOk result (IsPermutation (graded_pair grade pair ∷ self.old) self.new) }
        ensures refused { OnErr result (self.new ≡ self.old) }
    {
        match self.map.get_mut(&grade) {
            Some(pairs) => push_pair(pairs, pair),
            None => {
                let pairs = OneGrade {
                    first: pair,
                    rest: Vec::new(self.alloc),
                };
                put_grade(&mut self.map, grade, pairs)
            }
        }
    }

    // The least grade above a number. It is logarithmic in the number of grades.
    pub fn next_above(&self, above: u64) -> Option<u64>
        ensures { result ≡ next_grade above self.now }
    {
        match self
            .map
            .range((Bound::Excluded(above), Bound::Unbounded))
            .next()
        {
            Some((grade, _)) => Some(*grade),
            None => None,
        }
    }

    // Appends the pairs of one grade.
    pub fn gather_pairs(&self, out: &mut Vec<Job>, grade: u64) -> Result<(), AllocError>
        ensures { OnOk result (out.new.items ≡ out.old.items ++ of_grade grade self.now) }
    {
        // For its facts alone: the grades of the map rise.
        let _grades = self.map.len();
        match self.map.get(&grade) {
            Some(pairs) => push_pairs(out, pairs),
            None => Ok(()),
        }
    }
}

// Adds a pair to those of its grade.
fn push_pair(pairs: &mut OneGrade, pair: (u32, u32)) -> Result<(), AllocError>
    ensures more { OnOk result (pairs_in pairs.new ≡ pairs_in pairs.old ++ pair ∷ []) }
    ensures refused { OnErr result (pairs_in pairs.new ≡ pairs_in pairs.old) }
{
    pairs.rest.push(pair)?;
    Ok(())
}

// Adds the pairs of a grade that the map has not.
fn put_grade(
    map: &mut BTreeMap<u64, OneGrade>,
    grade: u64,
    pairs: OneGrade,
) -> Result<(), AllocError>
    ensures more { OnOk result (map.new.entries ≡ insert_entry nat_cmp map.old.entries grade pairs) }
    ensures refused { OnErr result (map.new.entries ≡ map.old.entries) }
{
    map.insert(grade, pairs)?;
    Ok(())
}

// Appends these pairs.
fn push_pairs(out: &mut Vec<Job>, pairs: &OneGrade) -> Result<(), AllocError>
    ensures { OnOk result (out.new.items ≡ out.old.items ++ jobs_in pairs.now) }
{
    out.push(Job::Pair(pairs.first.0, pairs.first.1))?;
    for pair in &pairs.rest {
        out.push(Job::Pair(pair.0, pair.1))?;
    }
    Ok(())
}
