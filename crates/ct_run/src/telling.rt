//! What goes between a form and its equality form.
ghost use Rattle.std.specs.Prelude.{◌≡◌, IfOk};
ghost use Rattle.ct_input.specs.Script.{IsScript};
ghost use Rattle.ct_form.specs.EqualityForms.{equal_of};
ghost use Rattle.ct_form_report.specs.FormCases.{widened};
ghost use Rattle.ct_run.specs.Telling.{IsToldOf};

use ct_form::Form;
use ct_form_report::{trim_report, widen};
use ct_input::Script;
use ct_report::Report;
use std::alloc::{AllocError, Global};

/// The script of the equality form. With no bounds it is the script, and takes no memory.
pub fn wide_script(alloc: Global, form: &Form, script: Script) -> Result<Script, AllocError>
    requires { IsScript form.now.rows script }
    ensures wide { IfOk result (λ wide. wide ≡ widened form.now script) }
    ensures script { IfOk result (IsScript (equal_of form.now).rows) }
{
    // for what a form keeps
    let _rows = form.rows();
    widen(alloc, script, form.bounds())
}

/// What is told of a report of the equality form, cut to the columns of the form. Where that has no slack column the report
/// stays as it is.
pub fn told_of(alloc: Global, form: &Form, report: Report) -> Result<Report, AllocError>
    ensures { IfOk result (IsToldOf form.now report) }
{
    let columns = form.columns();
    if form.equal().columns() == columns {
        return Ok(report);
    }
    trim_report(alloc, report, columns)
}
