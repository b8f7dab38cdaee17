//! The greatest number in each row of the right-hand sides of a script.
ghost use Rattle.std.specs.Prelude.{◌≡◌, length, All, IfOk};
ghost use Rattle.std.specs.List.{fold};
ghost use Rattle.ct_input.specs.Script.{IsRequest, IsPhase, IsScript};
ghost use Rattle.ct_form.specs.EqualityForms.{equal_of, right_for};
ghost use Rattle.ct_box_report.specs.BoxReport.{top_with_session, top_with_phase, box_top};
ghost use Rattle.ct_box_report.specs.Boxes.{IsTop};

use ct_form::Form;
use ct_input::{Phase, Request, Script};
use ct_point::{Point, Seq};
use std::alloc::{AllocError, Global};

// The right-hand side of the equality form for b: its numbers, and the bounds.
pub fn wide_right(alloc: Global, form: &Form, b: &[u64]) -> Result<Point, AllocError>
    requires { length b.now ≡ form.now.rows }
    ensures { IfOk result (λ p. p ≡ right_for form.now b.now) }
{
    // Called for what it ensures: the rows of the equality form are within their limit.
    let _rows = form.rows();
    let mut right = Vec::from_slice(alloc, b)?;
    right.extend_from_slice(form.bounds())?;
    Point::from_slice(alloc, right.as_slice())
}

// The bound raised to the right-hand sides of these requests.
fn raised_by(
    alloc: Global,
    form: &Form,
    top: Point,
    requests: &[Request],
) -> Result<Point, AllocError>
    requires top { IsTop form.now top }
    requires requests { All (IsRequest form.now.rows) requests.now }
    ensures top { IfOk result (λ t. t ≡ top_with_session form.now top requests.now) }
    ensures stays { IfOk result (IsTop form.now) }
{
    // Called for what it ensures: what is kept is a form.
    let _rows = form.rows();
    let mut most = top;
    for request in requests {
        let right = wide_right(alloc, form, request.right())?;
        most = most.lcm(alloc, &right)?;
    }
    Ok(most)
}

// The same over sessions.
fn raised_in(
    alloc: Global,
    form: &Form,
    top: Point,
    sessions: &[Seq<Request>],
) -> Result<Point, AllocError>
    requires top { IsTop form.now top }
    requires sessions { All (λ requests. All (IsRequest form.now.rows) requests) sessions.now }
    ensures top { IfOk result (λ t. t ≡ fold (top_with_session form.now) top sessions.now) }
    ensures stays { IfOk result (IsTop form.now) }
{
    let mut most = top;
    for requests in sessions {
        most = raised_by(alloc, form, most, requests.as_slice())?;
    }
    Ok(most)
}

// The same over phases.
fn raised_over(
    alloc: Global,
    form: &Form,
    top: Point,
    phases: &[Phase],
) -> Result<Point, AllocError>
    requires top { IsTop form.now top }
    requires phases { All (IsPhase form.now.rows) phases.now }
    ensures top { IfOk result (λ t. t ≡ fold (top_with_phase form.now) top phases.now) }
    ensures stays { IfOk result (IsTop form.now) }
{
    let mut most = top;
    for phase in phases {
        most = raised_in(alloc, form, most, phase.sessions.as_slice())?;
    }
    Ok(most)
}

/// The greatest number in each row, from zeros.
pub fn top_of(alloc: Global, form: &Form, script: &Script) -> Result<Point, AllocError>
    requires { IsScript form.now.rows script.now }
    ensures top { IfOk result (λ t. t ≡ box_top form.now script.now) }
    ensures right { IfOk result (IsTop form.now) }
{
    let zero = Point::zero(alloc, form.equal().rows())?;
    raised_over(alloc, form, zero, script.phases.as_slice())
}
