//! What is told, as values.
ghost use Rattle.std.specs.Prelude.{◌≡◌, IfOk};
ghost use Rattle.ct_best_report.specs.BestText.{best_text};

use crate::print::push_answers;
use ct_order::CostList;
use ct_point::{Point, Seq};
use std::alloc::{AllocError, Global};

/// A solution by the numbers of the columns that are shown, with its cost by each row.
#[derive(Debug, Drop)]
pub struct Solution {
    pub point: Point,
    pub costs: CostList,
}

/// What is told of a request.
#[derive(Debug, Drop)]
pub enum BestAnswer {
    /// The test list of this grade, which is at most the request's sum, has more moves than the limit.
    Full { grade: u64 },
    /// The least solutions, least first.
    Found { solutions: Seq<Solution> },
}

/// What is told of all requests, in the order of the file.
#[derive(Debug, Drop)]
pub struct BestReport {
    pub answers: Seq<BestAnswer>,
}

impl BestReport {
    /// The text, made in one buffer: linear in its length.
    pub fn print(&self, alloc: Global) -> Result<Vec<u8>, AllocError>
        ensures { IfOk result (λ text. text.items ≡ best_text self.now.answers) }
    {
        let mut out = Vec::new(alloc);
        out.extend_from_slice(b"best 1\n")?;
        push_answers(&mut out, self.answers.as_slice())?;
        out.extend_from_slice(b"end\n")?;
        Ok(out)
    }
}
