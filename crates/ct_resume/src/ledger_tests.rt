//! Ledgers of coins of 3 and 5 at cost 2 and 3, and of two moves of which one is not reduced.
ghost use Rattle.std.specs.Prelude.{◌≤◌};
ghost use Rattle.ct_vectors.specs.declared.limits.TheConstants.{MOVE_LIMIT};

use crate::{ResumeStop, Resumed, resume};
use ct_checker::Reason;
use ct_instance::Instance;
use ct_ledger::Ledger;
use std::alloc::Global;
use std::process::Abort;
use std::sync::Arc;

const WHOLE: &[u8] =
    b"ledger 1\nsize 1 2\ngrade 15\nmove 0 0 3 to 1 0 0\nmove 1 0 2 to 0 1 0\nmove 0 1 1 to 2 0 0\nmove 3 0 1 to 0 2 0\nmove 5 0 0 to 0 3 0\ngenerator 1 - | 1*1\ngenerator 2 - | 1*1 2*1\npair 1 2 - | 3*1\npair 1 3 - | 2*1\npair 2 3 - | 4*1\npair 2 4 - | 3*1\npair 1 4 - | 3*2\npair 3 4 5*1 | -\nend\n";

const LACKING: &[u8] =
    b"ledger 1\nsize 1 2\ngrade 15\nmove 0 0 3 to 1 0 0\nmove 1 0 2 to 0 1 0\nmove 0 1 1 to 2 0 0\nmove 3 0 1 to 0 2 0\nmove 5 0 0 to 0 3 0\ngenerator 1 - | 1*1\ngenerator 2 - | 1*1 2*1\npair 1 2 - | 3*1\npair 1 3 - | 2*1\npair 2 4 - | 3*1\npair 1 4 - | 3*2\npair 3 4 5*1 | -\nend\n";

const DIVIDED: &[u8] =
    b"ledger 1\nsize 1 2\ngrade 4\nmove 0 0 3 to 1 0 0\nmove 0 0 4 to 1 0 1\ngenerator 1 - | 1*1\npair 1 2 - | -\nend\n";

const EXCHANGED: &[u8] =
    b"ledger 1\nsize 1 2\ngrade 4\nmove 0 0 4 to 1 0 1\nmove 0 0 3 to 1 0 0\ngenerator 1 - | 2*1\npair 1 2 - | -\nend\n";

// What the ledger of a text is resumed as.
fn resumed(rt: &impl Abort, alloc: Global, text: &[u8], limit: u32) -> Result<Resumed, ResumeStop>
    requires some { 1 ≤ limit }
    requires most { limit ≤ MOVE_LIMIT }
{
    let inst = Instance::new(alloc, 1, 2, &[3, 5], &[2, 3]).expect(rt, "an instance");
    let shared = Arc::new(alloc, inst).expect(rt, "room");
    let ledger = Ledger::read(alloc, text).expect(rt, "a ledger");
    resume(alloc, shared, &ledger, limit)
}

#[test]
fn a_reduced_ledger_is_resumed(rt: HostRuntime) {
    let whole = resumed(&rt, rt.alloc(), WHOLE, 4096).expect(&rt, "resumed");
    assert!(rt; whole.moves.len() == 5 && whole.grade == 15);
}

#[test]
fn moves_end_before_the_full_grade(rt: HostRuntime) {
    for (limit, len, grade) in [(5, 5, 15), (4, 4, 14), (3, 3, 9), (2, 2, 5), (1, 1, 4)] {
        let cut = resumed(&rt, rt.alloc(), WHOLE, limit).expect(&rt, "resumed");
        assert!(rt; cut.moves.len() == len && cut.grade == grade);
    }
}

#[test]
fn the_first_move_that_is_not_reduced(rt: HostRuntime) {
    for (text, number) in [(DIVIDED, 2), (EXCHANGED, 1)] {
        match resumed(&rt, rt.alloc(), text, 4096) {
            Err(ResumeStop::NotReduced(found)) => assert!(rt; found == number),
            _ => panic!(rt; "it isn't reduced"),
        }
    }
}

#[test]
fn a_refused_ledger_is_not_resumed(rt: HostRuntime) {
    match resumed(&rt, rt.alloc(), LACKING, 4096) {
        Err(ResumeStop::Refused(line, reason)) => {
            assert!(rt; line == 13 && reason == Reason::Entry);
        }
        _ => panic!(rt; "it lacks an entry"),
    }
}
