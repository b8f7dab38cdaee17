//! The grades that scripts work for.
ghost use Rattle.std.specs.Prelude.{◌≡◌, ◌≤◌, max, map, true, All};
ghost use Rattle.std.specs.List.{flat_map};
ghost use Rattle.ct_vectors.specs.declared.limits.TheConstants.{ROW_LIMIT, GRADE_LIMIT};
ghost use Rattle.ct_input.specs.Script.{IsRequest, IsPhase};
ghost use Rattle.ct_version.specs.Desks.{Place};
ghost use Rattle.ct_legal.specs.Scripts.{greatest, phase_with_solves};
ghost use Rattle.ct_answer.specs.declared.options.Options.{Options};
ghost use Rattle.ct_answer.specs.Told.{case_at, worked_for, all_worked_for};
ghost use Rattle.ct_answer.specs.Extents.{grade_upto};

use ct_input::{Phase, Request};
use ct_order::sum;
use ct_point::Seq;

// The grade that a request works for, with m rows.
fn worked_by(rows: usize, request: &Request, asks: bool) -> u64
    requires rows { rows ≤ ROW_LIMIT }
    requires request { IsRequest rows request.now }
    ensures grade { result ≡ worked_for asks request.now }
    ensures limit { result ≤ GRADE_LIMIT }
{
    match request {
        Request::Solve(b) => sum(b.as_slice()),
        Request::Ask(b) if asks => sum(b.as_slice()),
        Request::Ask(_) => 0,
    }
}

// The greater of the grade and all that the requests work for.
fn raised_by(grade: u64, rows: usize, requests: &[Request], asks: bool) -> u64
    requires rows { rows ≤ ROW_LIMIT }
    requires grade { grade ≤ GRADE_LIMIT }
    requires requests { All (IsRequest rows) requests.now }
    ensures greatest { result ≡ max grade (greatest (map (worked_for asks) requests.now)) }
    ensures limit { result ≤ GRADE_LIMIT }
{
    let mut top = grade;
    for request in requests {
        top = top.max(worked_by(rows, request, asks));
    }
    top
}

// The same over sessions.
fn raised_in(grade: u64, rows: usize, sessions: &[Seq<Request>], asks: bool) -> u64
    requires rows { rows ≤ ROW_LIMIT }
    requires grade { grade ≤ GRADE_LIMIT }
    requires sessions { All (λ requests. All (IsRequest rows) requests) sessions.now }
    ensures greatest { result ≡ max grade (greatest (all_worked_for asks sessions.now)) }
    ensures limit { result ≤ GRADE_LIMIT }
{
    let mut top = grade;
    for requests in sessions {
        top = raised_by(top, rows, requests.as_slice(), asks);
    }
    top
}

/// The greatest of the grade, the target of the phase and the sums of its solves, for an instance with so many rows; of its
/// asks too, where `asks` says that they are taken as solves.
pub fn raised(grade: u64, rows: usize, phase: &Phase, asks: bool) -> u64
    requires rows { rows ≤ ROW_LIMIT }
    requires grade { grade ≤ GRADE_LIMIT }
    requires phase { IsPhase rows phase.now }
    ensures greatest { result ≡ max grade (max phase.now.target (greatest (all_worked_for asks phase.now.sessions))) }
    ensures limit { result ≤ GRADE_LIMIT }
{
    raised_in(
        grade.max(phase.target),
        rows,
        phase.sessions.as_slice(),
        asks,
    )
}

// The greatest grade that the phases work for, with asks as solves, for an instance with so many rows.
pub fn grade_of(rows: usize, phases: &[Phase]) -> u64
    requires rows { rows ≤ ROW_LIMIT }
    requires phases { All (IsPhase rows) phases.now }
    ensures grade { (p : Place) (o : Options) → result ≡ grade_upto (case_at p o) 0 (map phase_with_solves phases.now) }
    ensures limit { result ≤ GRADE_LIMIT }
{
    let mut grade = 0;
    for phase in phases {
        grade = raised(grade, rows, phase, true);
    }
    grade
}

// The greatest sum of a request, with m rows.
pub fn greatest_sum(rows: usize, phases: &[Phase]) -> u64
    requires rows { rows ≤ ROW_LIMIT }
    requires phases { All (IsPhase rows) phases.now }
    ensures greatest { result ≡ greatest (flat_map (λ phase. all_worked_for true phase.sessions) phases.now) }
    ensures limit { result ≤ GRADE_LIMIT }
{
    let mut top = 0;
    for phase in phases {
        top = raised_in(top, rows, phase.sessions.as_slice(), true);
    }
    top
}

// The greatest grade that a report of the phases asks for: with levels targets count, too.
pub fn top_of(rows: usize, phases: &[Phase], levels: bool) -> u64
    requires rows { rows ≤ ROW_LIMIT }
    requires phases { All (IsPhase rows) phases.now }
    ensures { result ≤ GRADE_LIMIT }
{
    if levels {
        grade_of(rows, phases)
    } else {
        greatest_sum(rows, phases)
    }
}
