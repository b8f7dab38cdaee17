//! The texts of faults.

ghost use Rattle.std.specs.Prelude.{◌≡◌, ◌++◌, ℕ, List, IfOk, OnOk, OnErr};
ghost use Rattle.ct_input.specs.FaultText.{reason_text, json_reason_text, step_text, path_text, fault_text};

use crate::fault::{Fault, TextReason};
use crate::path::{JsonReason, PathStep};
use ct_text::push_natural;
use std::alloc::AllocError;

fn reason_word(reason: TextReason) -> &'static [u8]
    ensures { result.now ≡ reason_text reason }
{
    match reason {
        TextReason::End => b"end",
        TextReason::Word => b"word",
        TextReason::Number => b"number",
        TextReason::Limit => b"limit",
        TextReason::ZeroColumn => b"zero column",
        TextReason::Extra => b"extra",
    }
}

fn json_reason_word(reason: JsonReason) -> &'static [u8]
    ensures { result.now ≡ json_reason_text reason }
{
    match reason {
        JsonReason::Missing => b"missing",
        JsonReason::Kind => b"kind",
        JsonReason::Limit => b"limit",
        JsonReason::Extra => b"extra",
        JsonReason::ZeroColumn => b"zero column",
    }
}

fn push_step(out: &mut Vec<u8>, step: PathStep) -> Result<(), AllocError>
    ensures ok { OnOk result (out.new.items ≡ out.old.items ++ step_text step) }
    ensures err { OnErr result ((front : List ℕ) × (out.new.items ≡ out.old.items ++ front)) }
{
    out.extend_from_slice(b"/")?;
    match step {
        PathStep::Member(name) => out.extend_from_slice(name.text().as_bytes()),
        PathStep::Index(index) => push_natural(out, u64::from(index)),
    }
}

fn push_path(out: &mut Vec<u8>, path: &[PathStep]) -> Result<(), AllocError>
    ensures ok { OnOk result (out.new.items ≡ out.old.items ++ path_text path.now) }
    ensures err { OnErr result ((front : List ℕ) × (out.new.items ≡ out.old.items ++ front)) }
{
    if path.is_empty() {
        return out.extend_from_slice(b"/");
    }
    push_steps(out, path)
}

ghost use Rattle.std.specs.List.{flat_map};

fn push_steps(out: &mut Vec<u8>, path: &[PathStep]) -> Result<(), AllocError>
    ensures ok { OnOk result (out.new.items ≡ out.old.items ++ flat_map step_text path.now) }
    ensures err { OnErr result ((front : List ℕ) × (out.new.items ≡ out.old.items ++ front)) }
{
    for step in path {
        push_step(out, *step)?;
    }
    Ok(())
}

/// Appends the fault's text without an end of line, as `line 4 column 7: limit`, `json at /matrix/0/1: kind` or
/// `too long`.
///
/// After an `Err` a part of the text may stand at the end.
pub fn push_fault(out: &mut Vec<u8>, fault: &Fault) -> Result<(), AllocError>
    ensures ok { OnOk result (out.new.items ≡ out.old.items ++ fault_text fault.now) }
    ensures err { OnErr result ((front : List ℕ) × (out.new.items ≡ out.old.items ++ front)) }
{
    match fault {
        Fault::TooLong => out.extend_from_slice(b"too long"),
        Fault::Text {
            line,
            column,
            reason,
        } => {
            out.extend_from_slice(b"line ")?;
            push_natural(out, *line)?;
            out.extend_from_slice(b" column ")?;
            push_natural(out, *column)?;
            out.extend_from_slice(b": ")?;
            out.extend_from_slice(reason_word(*reason))
        }
        Fault::JsonSyntax => out.extend_from_slice(b"json syntax"),
        Fault::Json { path, reason } => {
            out.extend_from_slice(b"json at ")?;
            push_path(out, path.as_slice())?;
            out.extend_from_slice(b": ")?;
            out.extend_from_slice(json_reason_word(*reason))
        }
    }
}
