//! Whole JSON files.

ghost use Rattle.std.specs.Prelude.{◌≡◌, IfOk};
ghost use Rattle.serde_json.specs.View.{view};
ghost use Rattle.ct_text.specs.Tokens.{is_blank};
ghost use Rattle.ct_input.specs.Sheet.{Gives};
ghost use Rattle.ct_input.specs.Script.{IsScript};
ghost use Rattle.ct_json.specs.Refusing.{RefusesColumn, IsUnread};
ghost use Rattle.ct_json.specs.Values.{is_json};
ghost use Rattle.ct_json.specs.Files.{value_of, instance_json, sessions_json};

use crate::here::Here;
use crate::instance_shape::draft;
use crate::session_shape::script;
use ct_input::limits::{INSTANCE_FILE_LIMIT, SESSION_FILE_LIMIT};
use ct_input::{Fault, InputStop, JsonReason, Name, PathStep, Script};
use ct_instance::{BadMatrix, Instance};
use serde_json::{Error, Value};
use std::alloc::Global;

fn is_blank(byte: u8) -> bool
    ensures { result ≡ is_blank byte }
{
    byte == b' ' || byte == b'\t' || byte == b'\n' || byte == b'\r'
}

/// Whether the first byte that is no space, tab, LF or CR is `{`. It looks at the bytes up to there.
pub fn is_json(bytes: &[u8]) -> bool
    ensures { result ≡ is_json bytes.now }
{
    for byte in bytes {
        if !is_blank(*byte) {
            return *byte == b'{';
        }
    }
    false
}

fn unread(error: &Error) -> InputStop
    ensures { IsUnread result error.now }
{
    if error.is_memory() {
        InputStop::Memory
    } else {
        InputStop::Fault(Fault::JsonSyntax)
    }
}

fn value_of(alloc: Global, bytes: &[u8]) -> Result<Value, InputStop>
    ensures { Gives view result (value_of bytes.now) }
{
    match Value::from_slice(alloc, bytes) {
        Ok(value) => Ok(value),
        Err(error) => Err(unread(&error)),
    }
}

// The refusal of the first zero column, whose entry in the first row has the fault.
fn refused(alloc: Global, bad: BadMatrix) -> InputStop
    ensures { RefusesColumn result bad }
{
    match bad {
        BadMatrix::ZeroColumn { col } => Here::top()
            .then(PathStep::Member(Name::Matrix))
            .then(PathStep::Index(0))
            .then(PathStep::Index(col.saturating_sub(1)))
            .refuse(alloc, JsonReason::ZeroColumn),
        BadMatrix::Memory => InputStop::Memory,
    }
}

/// The instance of a JSON file of at most 1,048,576 bytes, as `{"instance":1,"matrix":[[3,5]],"cost":[2,3]}`. A member
/// that is repeated has its last value. The value of the file is held whole while it is read, in some tens of bytes for
/// each value in it; the time is linear in the file.
#[tactic(auto, unfolding(crate::specs::Files::instance_json))]
pub fn read_instance_json(alloc: Global, bytes: &[u8]) -> Result<Instance, InputStop>
    ensures { Gives (λ instance. instance) result (instance_json bytes.now) }
{
    if bytes.len() > INSTANCE_FILE_LIMIT {
        return Err(InputStop::Fault(Fault::TooLong));
    }
    let value = value_of(alloc, bytes)?;
    let draft = draft(alloc, &value)?;
    let made = Instance::from_limited(
        alloc,
        draft.rows as u32,
        draft.columns as u32,
        draft.entries.as_slice(),
        draft.costs.as_slice(),
    );
    match made {
        Ok(instance) => Ok(instance),
        Err(bad) => Err(refused(alloc, bad)),
    }
}

/// The script of a JSON file of at most 16,777,216 bytes for an instance with so many rows, as
/// `{"sessions":1,"phases":[{"target":0,"sessions":[[{"solve":[15]},{"ask":[7]}]]}]}`. Memory and time are those of
/// [`read_instance_json`].
#[tactic(auto, unfolding(crate::specs::Files::sessions_json))]
pub fn read_sessions_json(alloc: Global, rows: u32, bytes: &[u8]) -> Result<Script, InputStop>
    ensures gives { Gives (λ script. script) result (sessions_json rows bytes.now) }
    ensures script { IfOk result (IsScript rows) }
{
    if bytes.len() > SESSION_FILE_LIMIT {
        return Err(InputStop::Fault(Fault::TooLong));
    }
    let value = value_of(alloc, bytes)?;
    script(alloc, &value, rows)
}
