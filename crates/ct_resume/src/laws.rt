//! Laws of reduced lists of moves and of reduced ledgers, as contracts of functions that do nothing.

ghost use Rattle.ct_resume.specs.Laws.{ReducedHasNone, FirstUnreducedIsFound, DecidingIsTestList, AcceptedIsTestList, CertifiedIsReduced, EntriesCountVersions};

/// The test finds no number exactly where the list is reduced, and else the first number at which it isn't.
pub fn reduced_lists_are_tested()
    ensures none { ReducedHasNone }
    ensures some { FirstUnreducedIsFound }
{}

/// Moves up to a grade that decide each fiber up to it are the test list of the grade exactly where they are reduced.
/// So it is with the moves of an accepted ledger, and the ledger of a test list is reduced. Where an accepted ledger is
/// reduced, the grades of its jobs count the versions before the first that covers its grade.
pub fn reduced_ledgers_have_test_lists()
    ensures moves { DecidingIsTestList }
    ensures ledger { AcceptedIsTestList }
    ensures certified { CertifiedIsReduced }
    ensures count { EntriesCountVersions }
{}
