//! A job with its grade, and what is kept of one.
ghost use Rattle.std.specs.Prelude.{◌≡◌};

use ct_instance::Job;

/// A job with its grade.
#[derive(Clone, Copy, Debug, PartialEq, Eq)]
pub struct GradedJob {
    /// The grade of the job.
    pub grade: u64,
    /// The job.
    pub job: Job,
}

// What is kept of jobs of one kind.
pub trait Graded: Copy {
    ghost use Rattle.ct_jobs.specs.declared.graded.GradedJob.{GradedJob};

    ghost graded_of: { Self → GradedJob };

    // The job with its grade.
    fn graded(&self) -> GradedJob
        ensures { result ≡ graded_of self.now };
}

// A generator with its grade.
#[derive(Clone, Copy, Debug)]
pub struct GradedGenerator {
    // The sum of the column.
    pub grade: u64,
    // The column, from 1.
    pub column: u32,
}

impl Graded for GradedGenerator {
    ghost use Rattle.ct_jobs.specs.Kept.{generator_of};

    ghost graded_of = { generator_of };

    fn graded(&self) -> GradedJob {
        GradedJob {
            grade: self.grade,
            job: Job::Generator(self.column),
        }
    }
}

// A pair with its grade, 16 bytes.
#[derive(Clone, Copy, Debug)]
pub struct GradedPair {
    // The grade of the pair.
    pub grade: u64,
    // The number of the earlier move, from 1.
    pub first: u32,
    // The number of the later move.
    pub second: u32,
}

impl Graded for GradedPair {
    ghost use Rattle.ct_jobs.specs.Kept.{pair_of};

    ghost graded_of = { pair_of };

    fn graded(&self) -> GradedJob {
        GradedJob {
            grade: self.grade,
            job: Job::Pair(self.first, self.second),
        }
    }
}
