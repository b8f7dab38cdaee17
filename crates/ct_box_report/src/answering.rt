//! The report of a script.
ghost use Rattle.std.specs.Prelude.{◌≡◌, ◌≤◌, length, All, IfOk};
ghost use Rattle.ct_vectors.specs.declared.limits.TheConstants.{RIGHT_LIMIT, MOVE_LIMIT};
ghost use Rattle.ct_vectors.specs.Vectors.{Divides};
ghost use Rattle.ct_form.specs.EqualityForms.{equal_of, right_for};
ghost use Rattle.ct_input.specs.Script.{IsScript};
ghost use Rattle.ct_box_report.specs.BoxReport.{IsBoxLine, AreBoxLines, AreBoxSessions, IsBoxPhase, AreBoxPhases, IsBoxReport};
ghost use Rattle.ct_box_report.specs.Boxes.{IsCovered, IsCoveredPhase};

use crate::bounding::{top_of, wide_right};
use crate::boxed::Boxed;
use crate::reading::{answer_at, shown};
use ct_form::Form;
use ct_form_report::trim;
use ct_input::{Phase, Request, Script};
use ct_order::sum;
use ct_point::Seq;
use ct_report::{PhaseReport, Report};
use ct_session::Line;
use std::alloc::{AllocError, Global};

// The line of b.
fn line_of(
    alloc: Global,
    form: &Form,
    boxed: &Boxed,
    b: &[u64],
    walks: bool,
) -> Result<Line, AllocError>
    requires equal { boxed.now.instance ≡ equal_of form.now }
    requires right { length b.now ≡ form.now.rows }
    requires right_limit { All (λ x. x ≤ RIGHT_LIMIT) b.now }
    requires within { Divides (right_for form.now b.now) boxed.now.top }
    ensures { IfOk result (IsBoxLine form.now boxed.now.top boxed.now.limit walks b.now) }
{
    // Called for what it ensures: what is kept is a form.
    let columns = form.columns();
    let right = wide_right(alloc, form, b)?;
    if let Some(grade) = boxed.full_up_to(sum(right.as_slice())) {
        return Ok(Line::Full { grade });
    }
    let walk = boxed.walked(alloc, right.as_slice())?;
    let mut answer = answer_at(alloc, form.equal(), walk.end())?;
    trim(&mut answer, columns);
    Ok(Line::Answered {
        answer,
        walk: shown(walk, walks),
    })
}

// The lines of a session.
fn lines_of(
    alloc: Global,
    form: &Form,
    boxed: &Boxed,
    requests: &[Request],
    walks: bool,
) -> Result<Seq<Line>, AllocError>
    requires equal { boxed.now.instance ≡ equal_of form.now }
    requires requests { All (IsCovered form.now boxed.now.top) requests.now }
    ensures { IfOk result (AreBoxLines form.now boxed.now.top boxed.now.limit walks requests.now) }
{
    let mut lines = Vec::new(alloc);
    for request in requests {
        lines.push(line_of(alloc, form, boxed, request.right(), walks)?)?;
    }
    Ok(Seq::from_vec(lines))
}

// The lines of the sessions of a phase.
fn sessions_of(
    alloc: Global,
    form: &Form,
    boxed: &Boxed,
    sessions: &[Seq<Request>],
    walks: bool,
) -> Result<Seq<Seq<Line>>, AllocError>
    requires equal { boxed.now.instance ≡ equal_of form.now }
    requires sessions { All (λ requests. All (IsCovered form.now boxed.now.top) requests) sessions.now }
    ensures { IfOk result (AreBoxSessions form.now boxed.now.top boxed.now.limit walks sessions.now) }
{
    let mut told = Vec::new(alloc);
    for requests in sessions {
        told.push(lines_of(alloc, form, boxed, requests.as_slice(), walks)?)?;
    }
    Ok(Seq::from_vec(told))
}

// The report of a phase.
fn phase_of(
    alloc: Global,
    form: &Form,
    boxed: &Boxed,
    phase: &Phase,
    walks: bool,
) -> Result<PhaseReport, AllocError>
    requires equal { boxed.now.instance ≡ equal_of form.now }
    requires phase { IsCoveredPhase form.now boxed.now.top phase.now }
    ensures { IfOk result (IsBoxPhase form.now boxed.now.top boxed.now.limit walks phase.now) }
{
    let sessions = sessions_of(alloc, form, boxed, phase.sessions.as_slice(), walks)?;
    Ok(PhaseReport {
        sessions,
        level: None,
    })
}

// The report of each phase.
fn phases_of(
    alloc: Global,
    form: &Form,
    boxed: &Boxed,
    phases: &[Phase],
    walks: bool,
) -> Result<Seq<PhaseReport>, AllocError>
    requires equal { boxed.now.instance ≡ equal_of form.now }
    requires phases { All (IsCoveredPhase form.now boxed.now.top) phases.now }
    ensures { IfOk result (AreBoxPhases form.now boxed.now.top boxed.now.limit walks phases.now) }
{
    let mut told = Vec::new(alloc);
    for phase in phases {
        told.push(phase_of(alloc, form, boxed, phase, walks)?)?;
    }
    Ok(Seq::from_vec(told))
}

/// Answers a script of the form, each ask as a solve, by the box of the greatest number in each row of its right-hand sides.
/// It takes the memory of that one completion and of the report, and with walks 16 bytes a step.
pub fn box_report(
    alloc: Global,
    form: &Form,
    script: &Script,
    limit: u32,
    walks: bool,
) -> Result<Report, AllocError>
    requires most { limit ≤ MOVE_LIMIT }
    requires script { IsScript form.now.rows script.now }
    ensures { IfOk result (IsBoxReport form.now limit walks script.now) }
{
    // Called for what it ensures: what is kept is a form.
    let _rows = form.rows();
    let top = top_of(alloc, form, script)?;
    let boxed = Boxed::complete(alloc, form.equal(), top, limit)?;
    let phases = phases_of(alloc, form, &boxed, script.phases.as_slice(), walks)?;
    Ok(Report { phases })
}
