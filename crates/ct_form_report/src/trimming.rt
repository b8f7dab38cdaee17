//! From a report of an equality form to one of its form.

ghost use Rattle.std.specs.Prelude.{◌≡◌, ◌≤◌, [], length, map, take, IfOk};
ghost use Rattle.ct_form_report.specs.FormCases.{trimmed_answer, trimmed_line, trimmed_phase, trimmed};

use ct_point::{Point, Seq};
use ct_report::{PhaseReport, Report};
use ct_session::Line;
use ct_version::Answer;
use std::alloc::{AllocError, Global};

fn trim_point(point: &mut Point, columns: usize)
    requires { 1 ≤ columns }
    ensures { point.new ≡ take columns point.old }
{
    if columns < point.as_slice().len() {
        point.truncate(columns);
    }
}

/// Cuts the point of an optimum to the columns of the form. A point of no more numbers stays.
pub fn trim(answer: &mut Answer, columns: usize)
    requires { 1 ≤ columns }
    ensures { answer.new ≡ trimmed_answer columns answer.old }
{
    if let Answer::Optimum { point, .. } = answer {
        trim_point(point, columns);
    }
}

fn trim_line(line: Line, columns: usize) -> Line
    requires { 1 ≤ columns }
    ensures { result ≡ trimmed_line columns line }
{
    match line {
        Line::Answered { mut answer, walk } => {
            trim(&mut answer, columns);
            Line::Answered { answer, walk }
        }
        Line::NotYet { finished } => Line::NotYet { finished },
        Line::Full { grade } => Line::Full { grade },
    }
}

fn trim_lines(alloc: Global, lines: Seq<Line>, columns: usize) -> Result<Seq<Line>, AllocError>
    requires { 1 ≤ columns }
    ensures { IfOk result (λ s. s ≡ map (trimmed_line columns) lines) }
{
    let mut made = Vec::with_capacity(alloc, lines.as_slice().len())?;
    for line in lines.into_vec() {
        made.push(trim_line(line, columns))?;
    }
    Ok(Seq::from_vec(made))
}

fn trim_sessions(
    alloc: Global,
    sessions: Seq<Seq<Line>>,
    columns: usize,
) -> Result<Seq<Seq<Line>>, AllocError>
    requires { 1 ≤ columns }
    ensures { IfOk result (λ s. s ≡ map (map (trimmed_line columns)) sessions) }
{
    let mut made = Vec::with_capacity(alloc, sessions.as_slice().len())?;
    for lines in sessions.into_vec() {
        made.push(trim_lines(alloc, lines, columns)?)?;
    }
    Ok(Seq::from_vec(made))
}

fn trim_phases(
    alloc: Global,
    phases: Seq<PhaseReport>,
    columns: usize,
) -> Result<Seq<PhaseReport>, AllocError>
    requires { 1 ≤ columns }
    ensures { IfOk result (λ s. s ≡ map (trimmed_phase columns) phases) }
{
    let mut made = Vec::with_capacity(alloc, phases.as_slice().len())?;
    for told in phases.into_vec() {
        let sessions = trim_sessions(alloc, told.sessions, columns)?;
        made.push(PhaseReport {
            sessions,
            level: told.level,
        })?;
    }
    Ok(Seq::from_vec(made))
}

/// The report with the point of each optimum cut to the columns of the form. It is linear in the report, whose lists it
/// makes anew.
pub fn trim_report(alloc: Global, report: Report, columns: usize) -> Result<Report, AllocError>
    requires { 1 ≤ columns }
    ensures { IfOk result (λ r. r ≡ trimmed columns report) }
{
    let phases = trim_phases(alloc, report.phases, columns)?;
    Ok(Report { phases })
}
