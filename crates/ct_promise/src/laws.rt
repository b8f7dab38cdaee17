//! Laws of what is promised, as contracts of functions that do nothing.

ghost use Rattle.ct_promise.specs.Inputs.{FileIsForm, FileIsScript, ServedFileIsRead, AnsweredFileIsRead};
ghost use Rattle.ct_promise.specs.Promise.{Promise, BatchPromise, PlainPromise};
ghost use Rattle.ct_promise.specs.Beside.{CheckedDecides, OneCertificate, OneSummary};

/// A file of either notation that is accepted stands for a form, or for a script of at most 64 phases.
pub fn files_are_inputs()
    ensures form { FileIsForm }
    ensures script { FileIsScript }
{}

/// A legal report of a script that a file stands for is within the limits of reading, and the only report within them
/// that has its text.
pub fn reports_of_files_are_read()
    ensures served { ServedFileIsRead }
    ensures answered { AnsweredFileIsRead }
{}

/// What `run` of `ct_run` ensures where it ends as Done is enough for the promise, and so is what `run_batch` and `run_plain`
/// ensure.
pub fn done_keeps_the_promise()
    ensures run { Promise }
    ensures batch { BatchPromise }
    ensures plain { PlainPromise }
{}

/// The moves of a ledger file on which `check` ends as Done decide each fiber up to its grade.
pub fn checked_ledgers_decide()
    ensures { CheckedDecides }
{}

/// What `certify` writes is one text, and so is what `make` writes.
pub fn texts_are_one()
    ensures certificate { OneCertificate }
    ensures summary { OneSummary }
{}
