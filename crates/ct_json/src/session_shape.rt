//! The JSON form of sessions.

ghost use Rattle.std.specs.Prelude.{◌≡◌, ◌≤◌, ◌+◌, [], min, length};
ghost use Rattle.serde_json.specs.View.{view};
ghost use Rattle.ct_input.specs.Sheet.{Gives};
ghost use Rattle.ct_json.specs.declared.here.TheConstants.{STEP_LIMIT};
ghost use Rattle.ct_json.specs.SessionShape.{right_in, request_in, request, session, phase, script_at};

use crate::here::Here;
use crate::number_shapes::{Natural, form};
use crate::shape::{ListOf, Shaped, each};
use crate::values::{array, has, member, no_others, object};
use ct_input::limits::{PHASE_LIMIT, REQUEST_LIMIT};
use ct_input::{InputStop, JsonReason, Name, PathStep, Phase, Request, Script};
use ct_point::Seq;
use ct_vectors::limits::{GRADE_LIMIT, RIGHT_LIMIT, SESSION_LIMIT};
use serde_json::Value;
use std::alloc::Global;

// The numbers of a request's one member.
fn right(
    alloc: Global,
    here: &Here,
    value: &Value,
    rows: u32,
    name: Name,
) -> Result<Seq<u64>, InputStop>
    requires { length here.now + 2 ≤ STEP_LIMIT }
    ensures { Gives (λ b. b) result (right_in rows name here.now (view value.now)) }
{
    let list = member(alloc, here, value, name)?;
    let numbers = ListOf {
        low: rows,
        high: rows,
        item: Natural { high: RIGHT_LIMIT },
    };
    let b = numbers.read(alloc, &here.then(PathStep::Member(name)), list, &mut 0)?;
    no_others(alloc, here, value, &[name])?;
    Ok(b)
}

fn request_of(alloc: Global, here: &Here, value: &Value, rows: u32) -> Result<Request, InputStop>
    requires { length here.now + 2 ≤ STEP_LIMIT }
    ensures { Gives (λ request. request) result (request_in rows here.now (view value.now)) }
{
    if has(value, Name::Solve) {
        return Ok(Request::Solve(right(alloc, here, value, rows, Name::Solve)?));
    }
    if has(value, Name::Ask) {
        return Ok(Request::Ask(right(alloc, here, value, rows, Name::Ask)?));
    }
    Err(here.refuse(alloc, JsonReason::Missing))
}

/// A request of an instance with so many rows.
#[derive(Drop)]
pub struct RequestShape {
    pub rows: u32,
}

impl Shaped for RequestShape {
    type Made = Request;

    ghost shape = { λ s. request s.rows };

    ghost steps = { 2 };

    #[tactic(auto, unfolding(crate::specs::SessionShape::request_at))]
    fn read(
        &self,
        alloc: Global,
        here: &Here,
        value: &Value,
        spare: &mut usize,
    ) -> Result<Request, InputStop> {
        object(alloc, here, value)?;
        if *spare == 0 {
            return Err(here.refuse(alloc, JsonReason::Limit));
        }
        *spare -= 1;
        request_of(alloc, here, value, self.rows)
    }
}

fn at_most(count: usize, most: usize) -> usize
    ensures { result ≡ min count most }
{
    if count < most { count } else { most }
}

/// The requests of a session, for an instance with so many rows.
#[derive(Drop)]
pub struct SessionShape {
    pub rows: u32,
}

impl Shaped for SessionShape {
    type Made = Seq<Request>;

    ghost shape = { λ s. session s.rows };

    ghost steps = { 3 };

    #[tactic(auto, unfolding(crate::specs::SessionShape::session_at))]
    fn read(
        &self,
        alloc: Global,
        here: &Here,
        value: &Value,
        spare: &mut usize,
    ) -> Result<Seq<Request>, InputStop> {
        let values = array(alloc, here, value)?;
        // The first that isn't spare is refused, so none after it is read.
        let read = at_most(values.len(), *spare + 1);
        let request = RequestShape { rows: self.rows };
        let found = each(alloc, &request, here, 0, &values[..read], spare)?;
        Ok(Seq::from_vec(found))
    }
}

/// A phase, for an instance with so many rows.
#[derive(Drop)]
pub struct PhaseShape {
    pub rows: u32,
}

impl Shaped for PhaseShape {
    type Made = Phase;

    ghost shape = { λ s. phase s.rows };

    ghost steps = { 5 };

    #[tactic(auto, unfolding(crate::specs::SessionShape::phase_at))]
    fn read(
        &self,
        alloc: Global,
        here: &Here,
        value: &Value,
        spare: &mut usize,
    ) -> Result<Phase, InputStop> {
        object(alloc, here, value)?;
        let number = member(alloc, here, value, Name::Target)?;
        let at = here.then(PathStep::Member(Name::Target));
        let target = Natural { high: GRADE_LIMIT }.read(alloc, &at, number, &mut 0)?;
        let list = member(alloc, here, value, Name::Sessions)?;
        let sessions = ListOf {
            low: 0,
            high: SESSION_LIMIT as u32,
            item: SessionShape { rows: self.rows },
        };
        let at = here.then(PathStep::Member(Name::Sessions));
        let sessions = sessions.read(alloc, &at, list, spare)?;
        no_others(alloc, here, value, &[Name::Target, Name::Sessions])?;
        Ok(Phase { target, sessions })
    }
}

/// The script of a session object, for an instance with so many rows.
#[tactic(auto, unfolding(crate::specs::SessionShape::script_at))]
pub fn script(alloc: Global, value: &Value, rows: u32) -> Result<Script, InputStop>
    ensures { Gives (λ script. script) result (script_at rows [] (view value.now)) }
{
    let top = Here::top();
    object(alloc, &top, value)?;
    let number = member(alloc, &top, value, Name::Sessions)?;
    form(alloc, &top.then(PathStep::Member(Name::Sessions)), number)?;
    let list = member(alloc, &top, value, Name::Phases)?;
    let phases = ListOf {
        low: 0,
        high: PHASE_LIMIT as u32,
        item: PhaseShape { rows },
    };
    let at = top.then(PathStep::Member(Name::Phases));
    let phases = phases.read(alloc, &at, list, &mut REQUEST_LIMIT)?;
    no_others(alloc, &top, value, &[Name::Sessions, Name::Phases])?;
    Ok(Script { phases })
}
