//! From a script of a form to one of its equality form.

ghost use Rattle.std.specs.Prelude.{◌≡◌, [], ◌++◌, length, map, IfOk};
ghost use Rattle.ct_form_report.specs.FormCases.{request_with, phase_with, script_with};

use ct_input::{Phase, Request, Script};
use ct_point::Seq;
use std::alloc::{AllocError, Global};

fn wide_right(b: Seq<u64>, given: &[u64]) -> Result<Seq<u64>, AllocError>
    ensures { IfOk result (λ r. r ≡ b ++ given.now) }
{
    let mut right = b.into_vec();
    right.extend_from_slice(given)?;
    Ok(Seq::from_vec(right))
}

fn wide_request(request: Request, given: &[u64]) -> Result<Request, AllocError>
    ensures { IfOk result (λ r. r ≡ request_with given.now request) }
{
    match request {
        Request::Ask(b) => Ok(Request::Ask(wide_right(b, given)?)),
        Request::Solve(b) => Ok(Request::Solve(wide_right(b, given)?)),
    }
}

fn wide_session(
    alloc: Global,
    requests: Seq<Request>,
    given: &[u64],
) -> Result<Seq<Request>, AllocError>
    ensures { IfOk result (λ s. s ≡ map (request_with given.now) requests) }
{
    let mut made = Vec::with_capacity(alloc, requests.as_slice().len())?;
    for request in requests.into_vec() {
        made.push(wide_request(request, given)?)?;
    }
    Ok(Seq::from_vec(made))
}

fn wide_sessions(
    alloc: Global,
    sessions: Seq<Seq<Request>>,
    given: &[u64],
) -> Result<Seq<Seq<Request>>, AllocError>
    ensures { IfOk result (λ s. s ≡ map (map (request_with given.now)) sessions) }
{
    let mut made = Vec::with_capacity(alloc, sessions.as_slice().len())?;
    for requests in sessions.into_vec() {
        made.push(wide_session(alloc, requests, given)?)?;
    }
    Ok(Seq::from_vec(made))
}

fn wide_phases(alloc: Global, phases: Seq<Phase>, given: &[u64]) -> Result<Seq<Phase>, AllocError>
    ensures { IfOk result (λ s. s ≡ map (phase_with given.now) phases) }
{
    let mut made = Vec::with_capacity(alloc, phases.as_slice().len())?;
    for phase in phases.into_vec() {
        let sessions = wide_sessions(alloc, phase.sessions, given)?;
        made.push(Phase {
            target: phase.target,
            sessions,
        })?;
    }
    Ok(Seq::from_vec(made))
}

/// The script with the bounds behind the numbers of each request: the script of an equality form for that of its form. It
/// is linear in the script, whose lists it makes anew; with no bounds it gives the script back and takes no memory. Where
/// memory runs out the script is dropped.
pub fn widen(alloc: Global, script: Script, given: &[u64]) -> Result<Script, AllocError>
    ensures { IfOk result (λ s. s ≡ script_with given.now script) }
{
    if given.is_empty() {
        return Ok(script);
    }
    let phases = wide_phases(alloc, script.phases, given)?;
    Ok(Script { phases })
}
