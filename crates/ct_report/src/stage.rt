//! What was read of a report text.

use crate::reports::PhaseReport;
use ct_point::Seq;
use ct_session::Line;
use ct_version::Answer;

/// What was read so far, which says what the next line may be: whole phases, the whole sessions of the phase that is
/// read, the whole lines of its session, and an answer that a walk may follow.
#[derive(Drop)]
pub enum Stage {
    Title,
    Between(Vec<PhaseReport>),
    InPhase(Vec<PhaseReport>, Vec<Seq<Line>>),
    InSession(Vec<PhaseReport>, Vec<Seq<Line>>, Vec<Line>),
    InAnswer(Vec<PhaseReport>, Vec<Seq<Line>>, Vec<Line>, Answer),
    Closed(Vec<PhaseReport>),
}
