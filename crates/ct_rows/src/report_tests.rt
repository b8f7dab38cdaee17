//! A report whose text is read and written again.

use ct_report::Report;
use std::test::Fail;

// Each kind of line.
const TEXT: &[u8] =
    b"report 1\nphase 1\nsession 1\noptimum 9 at 0 3\nwalk 1*5 5*1\ninfeasible short 1\nwalk -\nnotyet 0\nfull 4\nsession 2\nlevel 15\nphase 2\nlevel all\nphase 3\nsession 1\noptimum -2 0 at 1\nend\n";

#[test]
fn a_text_that_is_read_and_printed(rt: HostRuntime) -> Result<(), Fail> {
    match Report::read(rt.alloc(), TEXT) {
        Ok(report) => assert!(rt; report.print(rt.alloc())?.as_slice() == TEXT),
        Err(_) => panic!(rt; "a report text"),
    }
    Ok(())
}
