//! The lines of a report text as they are written.

ghost use Rattle.std.specs.Prelude.{◌≡◌, ◌++◌, ◌∷◌, [], decimal, OnOk};
ghost use Rattle.std.specs.List.{flat_map};
ghost use Rattle.ct_lines.specs.Texts.{text_of};
ghost use Rattle.ct_version.specs.declared.answers.Answer.TheVariants.{Optimum};
ghost use Rattle.ct_report.specs.ReportText.{answer_words, walk_line_words, line_lines, level_lines, sessions_lines, phases_lines, phase_lines};

use crate::reports::PhaseReport;
use ct_lines::{push_number, push_numbers, push_signeds, push_walk};
use ct_point::Seq;
use ct_session::Line;
use ct_version::{Answer, Finished};
use std::alloc::AllocError;

// A line of a word and a number.
fn push_line(out: &mut Vec<u8>, word: &[u8], number: u64) -> Result<(), AllocError>
    ensures { OnOk result (out.new.items ≡ out.old.items ++ text_of ((word.now ∷ decimal number ∷ []) ∷ [])) }
{
    out.extend_from_slice(word)?;
    push_number(out, number)?;
    out.extend_from_slice(b"\n")?;
    Ok(())
}

fn push_optimum(out: &mut Vec<u8>, point: &[u64], costs: &[i128]) -> Result<(), AllocError>
    ensures { OnOk result (out.new.items ≡ out.old.items ++ text_of (answer_words (Optimum point.now costs.now) ∷ [])) }
{
    out.extend_from_slice(b"optimum")?;
    push_signeds(out, costs)?;
    out.extend_from_slice(b" at")?;
    push_numbers(out, point)?;
    out.extend_from_slice(b"\n")?;
    Ok(())
}

fn push_answer(out: &mut Vec<u8>, answer: &Answer) -> Result<(), AllocError>
    ensures { OnOk result (out.new.items ≡ out.old.items ++ text_of (answer_words answer.now ∷ [])) }
{
    match answer {
        Answer::Optimum { point, costs } => push_optimum(out, point.as_slice(), costs.as_slice()),
        Answer::Infeasible { short } => push_line(out, b"infeasible short", *short),
    }
}

fn push_walk_line(out: &mut Vec<u8>, steps: &[(u32, u64)]) -> Result<(), AllocError>
    ensures { OnOk result (out.new.items ≡ out.old.items ++ text_of (walk_line_words steps.now ∷ [])) }
{
    out.extend_from_slice(b"walk")?;
    push_walk(out, steps)?;
    out.extend_from_slice(b"\n")?;
    Ok(())
}

fn push_told(out: &mut Vec<u8>, line: &Line) -> Result<(), AllocError>
    ensures { OnOk result (out.new.items ≡ out.old.items ++ text_of (line_lines line.now)) }
{
    match line {
        Line::Answered { answer, walk } => {
            push_answer(out, answer)?;
            match walk {
                None => Ok(()),
                Some(steps) => push_walk_line(out, steps.as_slice()),
            }
        }
        Line::NotYet { finished } => push_line(out, b"notyet", *finished),
        Line::Full { grade } => push_line(out, b"full", *grade),
    }
}

fn push_lines(out: &mut Vec<u8>, lines: &[Line]) -> Result<(), AllocError>
    ensures { OnOk result (out.new.items ≡ out.old.items ++ text_of (flat_map line_lines lines.now)) }
{
    for line in lines {
        push_told(out, line)?;
    }
    Ok(())
}

fn push_sessions(out: &mut Vec<u8>, sessions: &[Seq<Line>]) -> Result<(), AllocError>
    ensures { OnOk result (out.new.items ≡ out.old.items ++ text_of (sessions_lines 1 sessions.now)) }
{
    for (i, lines) in sessions.iter().enumerate() {
        push_line(out, b"session", i as u64 + 1)?;
        push_lines(out, lines.as_slice())?;
    }
    Ok(())
}

fn push_level(out: &mut Vec<u8>, level: Option<Finished>) -> Result<(), AllocError>
    ensures { OnOk result (out.new.items ≡ out.old.items ++ text_of (level_lines level)) }
{
    match level {
        None => Ok(()),
        Some(Finished::All) => out.extend_from_slice(b"level all\n"),
        Some(Finished::Upto(level)) => push_line(out, b"level", level),
    }
}

fn push_phase(out: &mut Vec<u8>, number: u64, phase: &PhaseReport) -> Result<(), AllocError>
    ensures { OnOk result (out.new.items ≡ out.old.items ++ text_of (phase_lines number phase.now)) }
{
    push_line(out, b"phase", number)?;
    push_sessions(out, phase.sessions.as_slice())?;
    push_level(out, phase.level)?;
    Ok(())
}

pub fn push_phases(out: &mut Vec<u8>, phases: &[PhaseReport]) -> Result<(), AllocError>
    ensures { OnOk result (out.new.items ≡ out.old.items ++ text_of (phases_lines 1 phases.now)) }
{
    for (i, phase) in phases.iter().enumerate() {
        push_phase(out, i as u64 + 1, phase)?;
    }
    Ok(())
}
