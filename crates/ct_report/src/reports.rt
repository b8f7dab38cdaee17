//! Reports as values.

ghost use Rattle.std.specs.Prelude.{◌≡◌, IfOk};
ghost use Rattle.ct_lines.specs.FaultLine.{IsFaultLine};
ghost use Rattle.ct_report.specs.ReportText.{report_text};
ghost use Rattle.ct_report.specs.Limits.{IsReport, IsReportText};
ghost use Rattle.ct_lines.specs.Stops.{AtFault};

use crate::print::push_phases;
use crate::reading::report_of;
use ct_lines::TextStop as ReportStop;
use ct_point::Seq;
use ct_session::Line;
use ct_version::Finished;
use std::alloc::{AllocError, Global};

/// What was told in a phase.
#[derive(Debug, Drop)]
pub struct PhaseReport {
    /// The lines of each session, in request order.
    pub sessions: Seq<Seq<Line>>,
    /// The level of the version at the end of the phase, where levels are asked for.
    pub level: Option<Finished>,
}

/// What was told in a run.
#[derive(Debug, Drop)]
pub struct Report {
    /// The phases in order.
    pub phases: Seq<PhaseReport>,
}

impl Report {
    /// The text of the report, made in one buffer: linear in its length.
    pub fn print(&self, alloc: Global) -> Result<Vec<u8>, AllocError>
        ensures { IfOk result (λ text. text.items ≡ report_text self.now) }
    {
        let mut out = Vec::new(alloc);
        out.extend_from_slice(b"report 1\n")?;
        push_phases(&mut out, self.phases.as_slice())?;
        out.extend_from_slice(b"end\n")?;
        Ok(out)
    }

    /// The report that has this text, within the limits of its numbers. It goes once over the bytes, and takes the memory
    /// of the report.
    pub fn read(alloc: Global, bytes: &[u8]) -> Result<Report, ReportStop>
        ensures ok { IfOk result (λ report. IsReport report × (bytes.now ≡ report_text report)) }

        // The bytes are then the text of no report within the limits, and this is the first line at fault.
        ensures fault { AtFault (IsFaultLine IsReportText bytes.now) result }
    {
        report_of(alloc, bytes)
    }
}
