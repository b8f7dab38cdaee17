//! Laws of accepted ledgers, as contracts of functions that do nothing.

ghost use Rattle.ct_checker.specs.Laws.{AcceptedDecides, StepsShowAnswer, AcceptedHasNoRefusal, CertifiedIsAccepted};

/// Where a ledger is accepted, whoever made it, each fiber up to its grade has exactly one point that no head of its
/// moves divides, and it is the least: by the graded critical-pair lemma. So steps from (0, b) that end at such a point
/// show the answer to b by themselves.
pub fn accepted_ledgers_decide()
    ensures decides { AcceptedDecides }
    ensures steps { StepsShowAnswer }
{}

/// A ledger is accepted exactly where none of its lines is refused, and the ledger of a test list is accepted.
pub fn refusals_decide()
    ensures none { AcceptedHasNoRefusal }
    ensures certified { CertifiedIsAccepted }
{}
