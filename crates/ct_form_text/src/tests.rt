//! Texts from outside, with the faults that they have.

use crate::read_form;
use ct_input::{Fault, InputStop, TextReason};
use std::alloc::AllocError;
use std::test::Fail;

// Line, column and reason.
type Place = (u64, u64, TextReason);

fn fault_of<T: Drop>(read: Result<T, InputStop>) -> Option<Place> {
    match read {
        Err(
            InputStop::Fault(
                Fault::Text {
                    line,
                    column,
                    reason,
                },
            ),
        ) => Some((line, column, reason)),
        _ => None,
    }
}

fn at(line: u64, column: u64, reason: TextReason) -> Option<Place> {
    Some((line, column, reason))
}

#[test]
fn faults_of_forms(rt: HostRuntime) -> Result<(), Fail> {
    for (text, fault) in [
        (
            &b"instance 2 rows 1 columns 2 matrix 3 5 relations ge"[..],
            at(1, 50, TextReason::Word),
        ),
        (
            b"instance 2 rows 1 columns 2 matrix 3 5 relations le bounds x",
            at(1, 60, TextReason::Number),
        ),
        (
            b"instance 2 rows 1 columns 2 matrix 3 5 relations eq bounds 1000000000001",
            at(1, 60, TextReason::Limit),
        ),
        (
            b"instance 2 rows 1 columns 2 matrix 3 5 cost 2 3 end",
            at(1, 40, TextReason::Word),
        ),
        (b"instance 3 rows 1", at(1, 10, TextReason::Word)),
        (
            b"instance 1 rows 1 columns 2 matrix 3 5 relations",
            at(1, 40, TextReason::Word),
        ),
    ] {
        assert!(rt; fault_of(read_form(rt.alloc(), text)) == fault);
    }
    Ok(())
}

// Sixteen rows and a bound, then one row `le` beside 64 columns.
#[test]
fn forms_with_no_room(rt: HostRuntime) -> Result<(), Fail> {
    for (bound, fault) in [
        ("5", at(1, 134, TextReason::Limit)),
        ("x", at(1, 134, TextReason::Number)),
        ("-", None),
    ] {
        let mut text = Vec::from_slice(rt.alloc(), b"instance 2 rows 16 columns 1 matrix ")?;
        push_times(&mut text, b"1 ", 16)?;
        text.extend_from_slice(b"relations ")?;
        push_times(&mut text, b"eq ", 16)?;
        text.extend_from_slice(b"bounds ")?;
        text.extend_from_slice(bound.as_bytes())?;
        text.extend_from_slice(b" cost 1 end")?;
        assert!(rt; fault_of(read_form(rt.alloc(), text.as_slice())) == fault);
    }
    let mut text = Vec::from_slice(rt.alloc(), b"instance 2 rows 1 columns 64 matrix ")?;
    push_times(&mut text, b"1 ", 64)?;
    text.extend_from_slice(b"relations le")?;
    assert!(rt; fault_of(read_form(rt.alloc(), text.as_slice())) == at(1, 175, TextReason::Limit));
    Ok(())
}

fn push_times(text: &mut Vec<u8>, part: &[u8], times: usize) -> Result<(), AllocError> {
    for _ in 0..times {
        text.extend_from_slice(part)?;
    }
    Ok(())
}

#[test]
fn both_forms(rt: HostRuntime) -> Result<(), Fail> {
    let limited = b"instance 2 rows 1 columns 2 matrix 3 5 relations le bounds 2 - cost -2 -3 end";
    let form = read_form(rt.alloc(), limited)
        .ok()
        .ok_or("a text of form 2")?;
    assert!(rt; form.bounds() == [2].as_slice());
    assert_eq!(rt; form.columns(), 2);
    let plain = b"instance 1 rows 1 columns 2 matrix 3 5 cost 2 3 end";
    let form = read_form(rt.alloc(), plain).ok().ok_or("a text of form 1")?;
    assert!(rt; form.bounds().is_empty());
    assert_eq!(rt; form.rows(), 1);
    Ok(())
}
