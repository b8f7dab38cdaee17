//! Laws of what a run comes to, as contracts of functions that do nothing.

ghost use Rattle.ct_run.specs.Laws.{LedgerIsWeighed, BadIsNoLedger, LedgerIsResumed, FullIsFullGrade, NoCommandByTable, ServedAsAnswered, ServedOneWay, PlainCanBeTold, FormCanBeTold, ServedIsRead, AnsweredIsRead, PlainFormRunsAsInstance, CutInstanceTextHasFault, CutSessionTextHasFault};

/// Where a file within its limit is the text of a ledger, its check ends by the verdict on that ledger, and where it ends
/// as a bad ledger the file is over its limit or the text of none; and so `serve` ends by the ledger that it begins with.
pub fn checks_are_exact()
    ensures ledger { LedgerIsWeighed }
    ensures none { BadIsNoLedger }
    ensures resumed { LedgerIsResumed }
{}

/// A certificate is refused as full exactly where the full grade is at most the grade that was asked for.
pub fn full_is_exact()
    ensures { FullIsFullGrade }
{}

/// Words are no command exactly where the table says so.
pub fn words_are_exact()
    ensures { NoCommandByTable }
{}

/// For a script without asks, `serve` and `answer` with the same options write the same bytes, and so do any two runs of
/// `serve`, with whatever ledgers they begin.
pub fn serving_solves_is_answering()
    ensures answered { ServedAsAnswered }
    ensures served { ServedOneWay }
{}

/// A legal report of a script, of which there may be as many phases as a list in memory has, is within the limits of
/// reading, and the only report within them that has its text: so `Report::read` gives it back.
pub fn legal_reports_are_read()
    ensures instances { PlainCanBeTold }
    ensures forms { FormCanBeTold }
    ensures served { ServedIsRead }
    ensures answered { AnsweredIsRead }
{}

/// A run of the form of an instance is a run of that instance: so texts of form 1 and JSON files are answered by what
/// holds of instances alone.
pub fn plain_forms_are_instances()
    ensures { PlainFormRunsAsInstance }
{}

/// A text that was cut short before the last byte of its `end` is refused, instance text of either form or sessions: what
/// is left of it isn't read as JSON either.
pub fn cut_texts_have_fault()
    ensures instance { CutInstanceTextHasFault }
    ensures sessions { CutSessionTextHasFault }
{}
