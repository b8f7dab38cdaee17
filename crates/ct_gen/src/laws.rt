//! Laws of made inputs and of the tallies of legal reports.

ghost use Rattle.ct_gen.specs.Laws.{LegalReportsCanBeTallied, MadeIsInstance, MadeIsScript};

/// A legal report has a line for each request, and no cost in it is above what a tally takes.
pub fn legal_reports_can_be_tallied()
    ensures { LegalReportsCanBeTallied }
{}

/// What is made of a number is an instance and a script for it, as files that are accepted hold them.
pub fn made_inputs_are_inputs()
    ensures instance { MadeIsInstance }
    ensures script { MadeIsScript }
{}
