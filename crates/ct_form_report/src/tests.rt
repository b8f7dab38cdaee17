//! A script widened, and a report trimmed, where memory is ample.

use crate::{trim_report, widen};
use ct_input::{Request, read_sessions};
use ct_report::Report;
use std::test::Fail;

#[test]
fn bounds_behind_each_request(rt: HostRuntime) -> Result<(), Fail> {
    let alloc = rt.alloc();
    let text = b"sessions 1 phase 0 session solve 11 ask 3 end";
    for given in [&[2u64, 7][..], &[]] {
        let script = read_sessions(alloc, 1, text).ok().ok_or("a session text")?;
        let script = widen(alloc, script, given)?;
        let mut count = 0u32;
        for phase in script.phases.as_slice() {
            for session in phase.sessions.as_slice() {
                for request in session.as_slice() {
                    let first = match request {
                        Request::Solve(_) => 11u64,
                        Request::Ask(_) => 3,
                    };
                    let mut right = vec![in alloc; first]?;
                    right.extend_from_slice(given)?;
                    assert!(rt; request.right() == right.as_slice());
                    count = count.saturating_add(1);
                }
            }
        }
        assert_eq!(rt; count, 2);
    }
    Ok(())
}

#[test]
fn points_cut_to_two_columns(rt: HostRuntime) -> Result<(), Fail> {
    let alloc = rt.alloc();
    let text =
        b"report 1\nphase 1\nsession 1\noptimum -7 at 2 1 0 0\nwalk 1*2\noptimum 0 at 0 0\nwalk -\nnotyet 3\nfull 5\nlevel 4\nend\n";
    let cut =
        b"report 1\nphase 1\nsession 1\noptimum -7 at 2 1\nwalk 1*2\noptimum 0 at 0 0\nwalk -\nnotyet 3\nfull 5\nlevel 4\nend\n";
    let report = Report::read(alloc, text).ok().ok_or("a report text")?;
    let told = trim_report(alloc, report, 2)?.print(alloc)?;
    assert!(rt; told.as_slice() == cut.as_slice());
    Ok(())
}
