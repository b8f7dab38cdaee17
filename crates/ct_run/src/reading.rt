//! Files, fetched by their names, and read as JSON or as text.
ghost use Rattle.std.specs.Prelude.{◌≡◌, ◌≤◌, ◌+◌, Err, take, OnErr, IfOk, IfErr};
ghost use Rattle.ct_form.specs.Forms.{Form as FormParts};
ghost use Rattle.ct_form.specs.EqualityForms.{plain_form};
ghost use Rattle.ct_input.specs.declared.script.Script.{Script};
ghost use Rattle.ct_vectors.specs.declared.limits.TheConstants.{ROW_LIMIT};
ghost use Rattle.ct_input.specs.Script.{IsScript};
ghost use Rattle.ct_input.specs.Sheet.{Gives};
ghost use Rattle.ct_outside.specs.Shelf.{KeepsShelf};
ghost use Rattle.ct_run.specs.Forms.{form_json, form_file, session_file};
ghost use Rattle.ct_run.specs.Plan.{Plan, instance_plan, script_plan};
ghost use Rattle.ct_run.specs.Running.{HasBytes};
ghost use Rattle.ct_run.specs.Stopping.{StoppedAt, Ran, LeadsTo};

use crate::ending::{bad_instance_ending, bad_sessions_ending};
use crate::sharing::shared;
use crate::stop::Stop;
use ct_form::Form;
use ct_form_text::read_form;
use ct_input::limits::{INSTANCE_FILE_LIMIT, SESSION_FILE_LIMIT};
use ct_input::{InputStop, Script, read_sessions};
use ct_instance::Instance;
use ct_json::{is_json, read_instance_json, read_sessions_json};
use ct_outside::{FetchFault, Shelf};
use std::alloc::{AllocError, Global};

/// The bytes of the file of this name, of a longer one the first `limit + 1`.
pub fn file_at<S: Shelf>(
    alloc: Global,
    name: &str,
    limit: u64,
    shelf: &mut S,
) -> Result<Vec<u8>, Stop>
    ensures read { IfOk result (λ got. HasBytes (S.told shelf.old name.now) (λ bytes. got.items ≡ take (limit + 1) bytes)) }
    ensures cause { IfErr result (λ stop. StoppedAt stop (S.faults shelf.old name.now) (S.faults shelf.new name.now)) }
    ensures shelf { KeepsShelf (S.told shelf.old) (S.told shelf.new) (S.faults shelf.old) (S.faults shelf.new) (λ other. other ≡ name.now) }
{
    let mut bytes = Vec::new(alloc);
    match shelf.fetch(alloc, name, limit, &mut bytes) {
        Ok(()) | Err(FetchFault::TooLong) => Ok(bytes),
        Err(FetchFault::Failed) => Err(Stop::ReadFault),
        Err(FetchFault::Memory) => Err(Stop::Memory),
    }
}

// The form of an instance.
fn form_of(alloc: Global, inst: Instance) -> Result<Form, AllocError>
    ensures { IfOk result (λ form. form ≡ plain_form inst) }
{
    Form::of(alloc, shared(alloc, inst)?)
}

// The form of the instance of a JSON file.
fn json_form(alloc: Global, bytes: &[u8]) -> Result<Form, InputStop>
    ensures { Gives (λ form. form) result (form_json bytes.now) }
{
    let inst = read_instance_json(alloc, bytes)?;
    let form = form_of(alloc, inst)?;
    Ok(form)
}

// The form of an instance file, in JSON or as text.
#[tactic(auto, unfolding(crate::specs::Forms::form_file))]
fn form_in(alloc: Global, bytes: &[u8]) -> Result<Form, InputStop>
    ensures { Gives (λ form. form) result (form_file bytes.now) }
{
    if is_json(bytes) {
        json_form(alloc, bytes)
    } else {
        read_form(alloc, bytes)
    }
}

// The script of a session file, in JSON or as text, for a form with so many rows.
#[tactic(auto, unfolding(crate::specs::Forms::session_file))]
fn script_in(alloc: Global, rows: usize, bytes: &[u8]) -> Result<Script, InputStop>
    requires { rows ≤ ROW_LIMIT }
    ensures gives { Gives (λ script. script) result (session_file rows bytes.now) }
    ensures script { IfOk result (IsScript rows) }
{
    if is_json(bytes) {
        read_sessions_json(alloc, rows as u32, bytes)
    } else {
        read_sessions(alloc, rows, bytes)
    }
}

/// The form of the instance file of this name.
pub fn form_at<S: Shelf>(alloc: Global, name: &str, shelf: &mut S) -> Result<Form, Stop>
    ensures read { IfOk result (λ form. (go : FormParts → Plan) → LeadsTo (instance_plan name.now go) (go form) (S.told shelf.old) (S.faults shelf.old) (S.faults shelf.new)) }
    ensures stopped { IfErr result (λ stop. (go : FormParts → Plan) → Ran (instance_plan name.now go) (S.told shelf.old) (S.faults shelf.old) (S.faults shelf.new) (Err stop)) }
    ensures shelf { KeepsShelf (S.told shelf.old) (S.told shelf.new) (S.faults shelf.old) (S.faults shelf.new) (λ other. other ≡ name.now) }
{
    let bytes = file_at(alloc, name, INSTANCE_FILE_LIMIT as u64, shelf)?;
    match form_in(alloc, &bytes) {
        Ok(form) => Ok(form),
        Err(InputStop::Fault(fault)) => Err(Stop::Refused(bad_instance_ending(alloc, &fault)?)),
        Err(InputStop::Memory) => Err(Stop::Memory),
    }
}

/// The script of the session file of this name, for a form with so many rows.
pub fn script_at<S: Shelf>(
    alloc: Global,
    rows: usize,
    name: &str,
    shelf: &mut S,
) -> Result<Script, Stop>
    requires { rows ≤ ROW_LIMIT }
    ensures script { IfOk result (IsScript rows) }
    ensures read { IfOk result (λ script. (go : Script → Plan) → LeadsTo (script_plan name.now rows go) (go script) (S.told shelf.old) (S.faults shelf.old) (S.faults shelf.new)) }
    ensures stopped { IfErr result (λ stop. (go : Script → Plan) → Ran (script_plan name.now rows go) (S.told shelf.old) (S.faults shelf.old) (S.faults shelf.new) (Err stop)) }
    ensures shelf { KeepsShelf (S.told shelf.old) (S.told shelf.new) (S.faults shelf.old) (S.faults shelf.new) (λ other. other ≡ name.now) }
{
    let bytes = file_at(alloc, name, SESSION_FILE_LIMIT as u64, shelf)?;
    match script_in(alloc, rows, &bytes) {
        Ok(script) => Ok(script),
        Err(InputStop::Fault(fault)) => Err(Stop::Refused(bad_sessions_ending(alloc, &fault)?)),
        Err(InputStop::Memory) => Err(Stop::Memory),
    }
}
