//! Values by their kinds, and members by their names.

ghost use Rattle.std.specs.Prelude.{◌≡◌, ◌<◌, true, map, length};
ghost use Rattle.serde_json.specs.Find.{as_object};
ghost use Rattle.serde_json.specs.View.{view, members_view};
ghost use Rattle.ct_input.specs.Sheet.{Gives};
ghost use Rattle.ct_json.specs.declared.here.TheConstants.{STEP_LIMIT};
ghost use Rattle.ct_json.specs.Values.{array_at, object_at, has, member_at, is_among, are_among, has_only, no_others};

use crate::here::Here;
use ct_input::{InputStop, JsonReason, Name, PathStep};
use serde_json::{Map, Value};
use std::alloc::Global;

/// The items of an array.
pub fn array<'v>(alloc: Global, here: &Here, value: &'v Value) -> Result<&'v [Value], InputStop>
    ensures { Gives (λ values. map view values.now) result (array_at here.now (view value.now)) }
{
    match value.as_array() {
        Some(values) => Ok(values.as_slice()),
        None => Err(here.refuse(alloc, JsonReason::Kind)),
    }
}

/// The value is an object.
pub fn object(alloc: Global, here: &Here, value: &Value) -> Result<(), InputStop>
    ensures { Gives (λ _. view value.now) result (object_at here.now (view value.now)) }
{
    if value.is_object() {
        Ok(())
    } else {
        Err(here.refuse(alloc, JsonReason::Kind))
    }
}

/// Whether it has this member.
pub fn has(value: &Value, name: Name) -> bool
    ensures { result ≡ has name (view value.now) }
{
    value.get(name.text()).is_some()
}

/// The member of this name.
pub fn member<'v>(
    alloc: Global,
    here: &Here,
    value: &'v Value,
    name: Name,
) -> Result<&'v Value, InputStop>
    requires { length here.now < STEP_LIMIT }
    ensures { Gives (λ found. view found.now) result (member_at name here.now (view value.now)) }
{
    match value.get(name.text()) {
        Some(found) => Ok(found),
        None => Err(
            here.then(PathStep::Member(name))
                .refuse(alloc, JsonReason::Missing),
        ),
    }
}

fn is_among(names: &[Name], key: &str) -> bool
    ensures { result ≡ is_among names.now key.now }
{
    names.iter().any(|name| key == name.text())
}

fn are_among(names: &[Name], members: &Map<String, Value>) -> bool
    ensures { result ≡ are_among names.now (members_view members.now.entries) }
{
    for (key, _) in members.iter() {
        if !is_among(names, key.as_str()) {
            return false;
        }
    }
    true
}

fn has_only(names: &[Name], value: &Value) -> bool
    ensures { result ≡ has_only names.now (as_object (view value.now)) }
{
    match value.as_object() {
        Some(members) => are_among(names, members),
        None => true,
    }
}

/// The object has no members but these.
pub fn no_others(alloc: Global, here: &Here, value: &Value, names: &[Name]) -> Result<(), InputStop>
    ensures { Gives (λ _. true) result (no_others names.now here.now (view value.now)) }
{
    if has_only(names, value) {
        Ok(())
    } else {
        Err(here.refuse(alloc, JsonReason::Extra))
    }
}
