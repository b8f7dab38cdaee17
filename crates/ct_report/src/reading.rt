//! The reader of a report text.

ghost use Rattle.std.specs.Prelude.{◌≡◌, MatchResult};
ghost use Rattle.ct_text.specs.Pieces.{split};
ghost use Rattle.ct_lines.specs.Reading.{Gives};
ghost use Rattle.ct_lines.specs.Wording.{read, read_from};
ghost use Rattle.ct_lines.specs.Stops.{Found};
ghost use Rattle.ct_report.specs.Grammar.{Stage as Seen, title, seen, closed_of, one_more, phase_of, between_line, phase_line, optimum_line, session_line, answer_line, next_line, is_closed};

use crate::reports::{PhaseReport, Report};
use crate::stage::Stage;
use ct_lines::{LineReader, LineStop, TextStop as ReportStop, Words, read_text};
use ct_order::CostList;
use ct_point::{Point, Seq};
use ct_session::Line;
use ct_vectors::limits::{COLUMN_LIMIT, COST_LIMIT, COST_ROW_LIMIT, GRADE_LIMIT, JOB_GRADE_LIMIT};
use ct_version::{Answer, Finished};
use std::alloc::Global;

// No list in memory is as long as this.
const COUNT_LIMIT: usize = 1 << 62;

// The greatest size of a cost of a point.
const TOTAL_COST_LIMIT: u128 = COST_LIMIT as u128 * JOB_GRADE_LIMIT as u128;

fn after_title(alloc: Global, words: &mut Words) -> Result<Stage, LineStop>
    ensures { Gives seen result (read (next_line title) words.old) }
{
    words.word(b"report")?;
    words.word(b"1")?;
    words.end()?;
    Ok(Stage::Between(Vec::new(alloc)))
}

// Between phases: another phase, or the end.
#[tactic(auto, unfolding(crate::specs::Grammar::between_line))]
fn after_phases(
    alloc: Global,
    phases: Vec<PhaseReport>,
    words: &mut Words,
) -> Result<Stage, LineStop>
    ensures { Gives seen result (read (between_line phases.items) words.old) }
{
    if words.goes(b"phase") {
        let number = phases.len() + 1;
        if number >= COUNT_LIMIT {
            return Err(LineStop::Refused);
        }
        words.numbered(number as u64)?;
        words.end()?;
        return Ok(Stage::InPhase(phases, Vec::new(alloc)));
    }
    words.word(b"end")?;
    words.end()?;
    Ok(Stage::Closed(phases))
}

// A phase that has ended.
fn with_phase(
    mut phases: Vec<PhaseReport>,
    sessions: Vec<Seq<Line>>,
    level: Option<Finished>,
) -> Result<Vec<PhaseReport>, LineStop>
    ensures { MatchResult result (λ v. v.items ≡ one_more phases.items (phase_of sessions.items level)) (λ stop. stop ≡ LineStop.Memory) }
{
    phases.push(PhaseReport {
        sessions: Seq::from_vec(sessions),
        level,
    })?;
    Ok(phases)
}

// In a phase: another session, its level, or what may stand after it.
#[tactic(auto, unfolding(crate::specs::Grammar::phase_line))]
fn after_sessions(
    alloc: Global,
    phases: Vec<PhaseReport>,
    sessions: Vec<Seq<Line>>,
    words: &mut Words,
) -> Result<Stage, LineStop>
    ensures { Gives seen result (read (phase_line phases.items sessions.items) words.old) }
{
    if words.goes(b"session") {
        let number = sessions.len() + 1;
        if number >= COUNT_LIMIT {
            return Err(LineStop::Refused);
        }
        words.numbered(number as u64)?;
        words.end()?;
        return Ok(Stage::InSession(phases, sessions, Vec::new(alloc)));
    }
    if words.goes(b"level") {
        if words.goes(b"all") {
            words.end()?;
            let phases = with_phase(phases, sessions, Some(Finished::All))?;
            return Ok(Stage::Between(phases));
        }
        let level = words.number(0, JOB_GRADE_LIMIT)?;
        words.end()?;
        let phases = with_phase(phases, sessions, Some(Finished::Upto(level)))?;
        return Ok(Stage::Between(phases));
    }
    let phases = with_phase(phases, sessions, None)?;
    after_phases(alloc, phases, words)
}

// After `optimum`.
#[tactic(auto, unfolding(crate::specs::Grammar::optimum_line))]
fn after_optimum(
    alloc: Global,
    phases: Vec<PhaseReport>,
    sessions: Vec<Seq<Line>>,
    lines: Vec<Line>,
    words: &mut Words,
) -> Result<Stage, LineStop>
    ensures { Gives seen result (read (optimum_line phases.items sessions.items lines.items) words.old) }
{
    let costs = words.signeds(alloc, COST_ROW_LIMIT, TOTAL_COST_LIMIT, b"at")?;
    let point = words.rest(alloc, COLUMN_LIMIT, GRADE_LIMIT)?;
    words.end()?;
    let point = Point::from_slice(alloc, point.as_slice())?;
    let costs = CostList::new(costs.as_slice());
    let answer = Answer::Optimum { point, costs };
    Ok(Stage::InAnswer(phases, sessions, lines, answer))
}

// In a session: another line, or what may stand after it.
#[tactic(auto, unfolding(crate::specs::Grammar::session_line))]
fn after_lines(
    alloc: Global,
    phases: Vec<PhaseReport>,
    mut sessions: Vec<Seq<Line>>,
    mut lines: Vec<Line>,
    words: &mut Words,
) -> Result<Stage, LineStop>
    ensures { Gives seen result (read (session_line phases.items sessions.items lines.items) words.old) }
{
    if words.goes(b"optimum") {
        return after_optimum(alloc, phases, sessions, lines, words);
    }
    if words.goes(b"infeasible") {
        words.word(b"short")?;
        let short = words.number(1, GRADE_LIMIT)?;
        words.end()?;
        return Ok(Stage::InAnswer(phases, sessions, lines, Answer::Infeasible { short }));
    }
    if words.goes(b"notyet") {
        let finished = words.number(0, JOB_GRADE_LIMIT)?;
        words.end()?;
        lines.push(Line::NotYet { finished })?;
        return Ok(Stage::InSession(phases, sessions, lines));
    }
    if words.goes(b"full") {
        let grade = words.number(1, GRADE_LIMIT)?;
        words.end()?;
        lines.push(Line::Full { grade })?;
        return Ok(Stage::InSession(phases, sessions, lines));
    }
    sessions.push(Seq::from_vec(lines))?;
    after_sessions(alloc, phases, sessions, words)
}

// After an answer: its walk, or what may stand after it.
#[tactic(auto, unfolding(crate::specs::Grammar::answer_line))]
fn after_answer(
    alloc: Global,
    phases: Vec<PhaseReport>,
    sessions: Vec<Seq<Line>>,
    mut lines: Vec<Line>,
    answer: Answer,
    words: &mut Words,
) -> Result<Stage, LineStop>
    ensures { Gives seen result (read (answer_line phases.items sessions.items lines.items answer) words.old) }
{
    if words.goes(b"walk") {
        let steps = words.walk(alloc)?;
        words.end()?;
        lines.push(Line::Answered {
            answer,
            walk: Some(Seq::from_vec(steps)),
        })?;
        return Ok(Stage::InSession(phases, sessions, lines));
    }
    lines.push(Line::Answered { answer, walk: None })?;
    after_lines(alloc, phases, sessions, lines, words)
}

// What a report text is read by.
#[derive(Drop)]
struct ReportReader {
    alloc: Global,
}

impl LineReader for ReportReader {
    type Stage = Stage;

    type Value = Report;

    ghost Seen = { Seen };

    ghost seen = { seen };

    ghost next_line = { next_line };

    ghost is_closed = { is_closed };

    ghost closed = { closed_of };

    ghost IsStage = { λ _. Unit {0} };

    fn stage_after(&self, stage: Stage, line: &[u8]) -> Result<Stage, LineStop> {
        let alloc = self.alloc;
        let mut words = Words::new(line);
        match stage {
            Stage::Title => after_title(alloc, &mut words),
            Stage::Between(phases) => after_phases(alloc, phases, &mut words),
            Stage::InPhase(phases, sessions) => after_sessions(alloc, phases, sessions, &mut words),
            Stage::InSession(phases, sessions, lines) => {
                after_lines(alloc, phases, sessions, lines, &mut words)
            }
            Stage::InAnswer(phases, sessions, lines, answer) => {
                after_answer(alloc, phases, sessions, lines, answer, &mut words)
            }
            Stage::Closed(_) => Err(LineStop::Refused),
        }
    }

    fn value_of(&self, stage: Stage) -> Option<Report> {
        match stage {
            Stage::Closed(phases) => Some(Report {
                phases: Seq::from_vec(phases),
            }),
            _ => None,
        }
    }
}

// The report of the whole text.
pub fn report_of(alloc: Global, bytes: &[u8]) -> Result<Report, ReportStop>
    ensures { Found closed_of result (read_from next_line is_closed 1 title (split 10 bytes.now)) }
{
    read_text(&ReportReader { alloc }, Stage::Title, bytes)
}
