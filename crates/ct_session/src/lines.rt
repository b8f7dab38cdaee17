//! What a session tells of a request.

use ct_point::Seq;
use ct_version::Answer;

/// What a request is told.
#[derive(Debug, Drop)]
pub enum Line {
    /// The answer, and the walk that found it where walks are asked for: numbers of moves, from 1, each with how many
    /// times it is taken.
    Answered {
        answer: Answer,
        walk: Option<Seq<(u32, u64)>>,
    },
    /// The pinned version is finished up to this grade, which is below the sum of the right-hand side.
    NotYet {
        finished: u64,
    },
    /// The list of moves is full at this grade, which is at most the sum of the right-hand side.
    Full {
        grade: u64,
    },
}
