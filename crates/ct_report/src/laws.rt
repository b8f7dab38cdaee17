//! Laws of report texts.

ghost use Rattle.ct_report.specs.Laws.{OneReportOfAText, NoReportTextIsAPrefix};

/// A text is the text of at most one report within the limits.
pub fn one_report_of_a_text()
    ensures { OneReportOfAText }
{}

/// No report text is a proper prefix of another.
pub fn no_report_text_is_a_prefix()
    ensures { NoReportTextIsAPrefix }
{}
