//! Laws of ledger texts.

ghost use Rattle.ct_ledger.specs.Laws.{OneLedgerOfAText, NoLedgerTextIsAPrefix};

/// A text is the text of at most one ledger.
pub fn one_ledger_of_a_text()
    ensures { OneLedgerOfAText }
{}

/// No ledger text is a proper prefix of another.
pub fn no_ledger_text_is_a_prefix()
    ensures { NoLedgerTextIsAPrefix }
{}
