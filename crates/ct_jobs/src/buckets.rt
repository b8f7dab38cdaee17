//! The jobs of a list of moves as that grows.
ghost use Rattle.std.specs.Prelude.{◌≡◌, ◌≤◌, List, [], ◌++◌, map, IsPermutation, IfOk, OnOk, OnErr};
ghost use Rattle.ct_instance.specs.Jobs.{jobs_at};
ghost use Rattle.ct_jobs.specs.GradedJobs.{room_beside};
ghost use Rattle.ct_jobs.specs.Kept.{pair_of};

use crate::addition::Addition;
use crate::by_grade::ByGrade;
use crate::critical::column_grade;
use crate::graded::{GradedGenerator, GradedPair};
use crate::scans::{gather, lesser, next_among};
use ct_instance::{Instance, Job};
use ct_walk::Moves;
use std::alloc::{AllocError, Global};
use std::marker::Model;

/// The jobs of a list of moves, with their grades.
///
/// The pairs stand in an ordered map by grade: 8 bytes each in the list of their grade, which may have room for as many
/// again, and some 50 to 150 bytes for a grade. The generators and the last addition stand beside it, with 16 bytes a job.
/// While an addition is prepared each coordinate of a new head that isn't 0 takes 24 bytes more; that is linear in the
/// pairs times the number of such coordinates of a head, and in the moves times the width.
#[derive(Debug, Drop)]
pub struct Buckets {
    generators: Vec<GradedGenerator>,
    merged: ByGrade,
    parked: Vec<GradedPair>,
}

impl Model for Buckets {
    ghost use Rattle.std.specs.Prelude.{◌++◌, map};
    ghost use Rattle.ct_jobs.specs.GradedJobs.{Store, room_beside};
    ghost use Rattle.ct_jobs.specs.Kept.{generator_of, pair_of};

    ghost Value = { Store };

    ghost view = { λ b. record { jobs = (map generator_of b.generators.items ++ b.merged) ++ map pair_of b.parked.items; spare = room_beside b.parked.items } };
}

impl Buckets {
    ghost use Rattle.ct_instance.specs.Instance.{Problem};
    ghost use Rattle.ct_instance.specs.TestSet.{Binomial};
    ghost use Rattle.ct_jobs.specs.GradedJobs.{graded_pairs_from, AreJobsOf, next_grade, of_grade, IsInJobOrder};

    /// The jobs of the empty list: a generator for each column.
    pub fn new(alloc: Global, inst: &Instance) -> Result<Buckets, AllocError>
        ensures { IfOk result (λ b. AreJobsOf inst.now [] b.jobs) }
    {
        let mut generators = Vec::new(alloc);
        let count = inst.columns() as u32;
        for j in 0..count {
            generators.push(GradedGenerator {
                grade: column_grade(inst, j + 1),
                column: j + 1,
            })?;
        }
        Ok(Buckets {
            generators,
            merged: ByGrade::new(alloc),
            parked: Vec::new(alloc),
        })
    }

    /// The pairs of the moves whose greater number is at least `from`, with their grades. It is linear in the number of
    /// those pairs times the support of a new head, the coordinates of it that aren't 0, and in the moves times the width.
    /// It takes 16 bytes a pair, and while it prepares 24 bytes a coordinate of those supports and 16 bytes a new move;
    /// where there are no new moves it returns at once.
    pub fn prepare(
        alloc: Global,
        inst: &Instance,
        moves: &Moves,
        from: u32,
    ) -> Result<Addition, AllocError>
        requires { moves.now.instance ≡ inst.now }
        ensures { IfOk result (λ a. a ≡ graded_pairs_from inst.now moves.now.moves from) }
    {
        Addition::prepare(alloc, inst, moves, from)
    }

    /// How many additions can be absorbed before the next `reserve`: 0 or 1.
    pub fn spare(&self) -> u64
        ensures { result ≡ self.now.spare }
    {
        if self.parked.is_empty() { 1 } else { 0 }
    }

    /// Makes room for one addition, by taking the last one into the map, pair by pair, and then giving back its memory.
    /// The jobs stay as they are, also where memory is refused; what is in the map by then stays there. It is linear in
    /// the last addition times the logarithm of the number of grades.
    pub fn reserve(&mut self) -> Result<(), AllocError>
        ensures jobs { IsPermutation self.old.jobs self.new.jobs }
        ensures room { OnOk result (1 ≤ self.new.spare) }
        ensures refused { OnErr result (self.new.spare ≡ self.old.spare) }
    {
        merge(&mut self.merged, &mut self.parked)
    }

    /// Adds the pairs. It takes no memory and can't fail.
    pub fn absorb(&mut self, more: Addition)
        requires { 1 ≤ self.old.spare }
        ensures { IsPermutation (self.old.jobs ++ more) self.new.jobs }
    {
        self.parked = more.into_pairs();
    }

    /// The least grade above a number, among the jobs and those of an addition. It is logarithmic in the number of grades
    /// in the map, and linear in the generators, in that addition and in the one that was absorbed since `reserve`.
    pub fn next_with(&self, above: u64, more: &Addition) -> Option<u64>
        ensures { result ≡ next_grade above (self.now.jobs ++ more.now) }
    {
        let merged = lesser(
            next_among(&self.generators, above),
            self.merged.next_above(above),
        );
        let here = lesser(merged, next_among(&self.parked, above));
        lesser(here, next_among(more.as_slice(), above))
    }

    /// The jobs of one grade, among the jobs and those of an addition, in job order. It looks at what `next_with` looks
    /// at, and sorts the jobs of that grade. Each addition has left one rising or falling run of them, so where these are
    /// few and long that is nearly linear. While it sorts it takes a buffer as long as their list.
    pub fn jobs_with(
        &self,
        alloc: Global,
        grade: u64,
        more: &Addition,
    ) -> Result<Vec<Job>, AllocError>
        ensures jobs { IfOk result (λ js. IsPermutation (of_grade grade (self.now.jobs ++ more.now)) js.items) }
        ensures order { IfOk result (λ js. IsInJobOrder js.items) }
        ensures exact { IfOk result (λ js. (i : Problem) → (ms : List Binomial) → AreJobsOf i ms (self.now.jobs ++ more.now) → js.items ≡ jobs_at i ms grade) }
    {
        let mut jobs = Vec::new(alloc);
        gather(&mut jobs, &self.generators, grade)?;
        self.merged.gather_pairs(&mut jobs, grade)?;
        gather(&mut jobs, &self.parked, grade)?;
        gather(&mut jobs, more.as_slice(), grade)?;
        jobs.sort()?;
        Ok(jobs)
    }
}

// Takes all parked pairs in, from the last. A refusal leaves those that are not taken in.
fn merge(merged: &mut ByGrade, parked: &mut Vec<GradedPair>) -> Result<(), AllocError>
    ensures jobs { IsPermutation (merged.old ++ map pair_of parked.old.items) (merged.new ++ map pair_of parked.new.items) }
    ensures taken { OnOk result (parked.new.items ≡ []) }
    ensures refused { OnErr result (room_beside parked.new.items ≡ room_beside parked.old.items) }
{
    while let Some(last) = parked.last() {
        let entry = *last;
        merged.add(entry.grade, (entry.first, entry.second))?;
        parked.pop();
    }
    parked.shrink_to_fit();
    Ok(())
}
