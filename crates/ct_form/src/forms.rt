//! The checked form.

ghost use Rattle.std.specs.Prelude.{◌≡◌, length, None, IfOk, OnOk, IfErr};
ghost use Rattle.ct_instance.specs.Made.{columns_of, NamesZeroColumn};
ghost use Rattle.ct_form.specs.Forms.{given_in};
ghost use Rattle.ct_form.specs.EqualityForms.{equal_of, plain_form, IsForm};
ghost use Rattle.ct_form.specs.Kept.{free_zero_of};
ghost use Rattle.ct_form.specs.Made.{form_of, HasNumbers};

use crate::making::{equality_form, given_bounds};
use crate::relation::Limits;
use ct_instance::{BadMatrix, Instance};
use std::alloc::{AllocError, Global};
use std::marker::Model;
use std::sync::Arc;

/// A checked form: m rows, n columns, of each row its relation and of each column its bound, with its equality form.
///
/// The entries and costs stand in the equality form alone, which is shared.
#[derive(Drop)]
pub struct Form {
    rows: usize,
    columns: usize,
    limits: Limits,
    given: Vec<u64>,
    equal: Arc<Instance>,
}

impl Model for Form {
    ghost use Rattle.std.specs.Arc.{arc_value};
    ghost use Rattle.ct_form.specs.Forms.{Form as FormParts};
    ghost use Rattle.ct_form.specs.Kept.{form_in, IsKept};

    ghost Value = { FormParts };

    ghost view = { λ f. form_in f.rows f.columns f.limits.relations f.limits.bounds (arc_value f.equal) };

    ghost invariant = { λ f. IsKept f.rows f.columns f.limits.relations f.limits.bounds f.given.items (arc_value f.equal) };
}

impl Form {
    ghost use Rattle.std.specs.Arc.{arc_value};

    /// The form with these entries, row after row, these relations and bounds, and these costs, one to eight rows that
    /// stand one after another. All that it can refuse is a column that is zero and has no bound, counted from 1. It is
    /// linear in the equality form, whose memory it takes.
    pub fn new(
        alloc: Global,
        rows: usize,
        columns: usize,
        entries: &[u64],
        limits: Limits,
        costs: &[i64],
    ) -> Result<Form, BadMatrix>
        requires { HasNumbers rows columns entries.now limits costs.now }
        ensures ok { IfOk result (λ f. f ≡ form_of rows columns entries.now limits costs.now) }
        ensures none { OnOk result (free_zero_of (columns_of rows columns entries.now) limits.bounds ≡ None) }
        ensures zero_column { IfErr result (λ e. NamesZeroColumn e (free_zero_of (columns_of rows columns entries.now) limits.bounds)) }
    {
        let given = given_bounds(alloc, limits.bounds.as_slice())?;
        let instance = equality_form(alloc, rows, columns, entries, &limits, given.len(), costs)?;
        let _rows = instance.rows();
        let equal = match Arc::new(alloc, instance) {
            Ok(equal) => equal,
            Err(e) => return Err(AllocError::from(e).into()),
        };
        Ok(Form {
            rows,
            columns,
            limits,
            given,
            equal,
        })
    }

    /// The form of an instance: each row is equal to its right-hand side, and no variable has a bound. Its equality form is
    /// the instance, which it shares.
    pub fn of(alloc: Global, instance: Arc<Instance>) -> Result<Form, AllocError>
        ensures { IfOk result (λ f. f ≡ plain_form (arc_value instance)) }
    {
        let rows = instance.rows();
        let columns = instance.columns();
        let limits = Limits::plain(alloc, rows, columns)?;
        Ok(Form {
            rows,
            columns,
            limits,
            given: Vec::new(alloc),
            equal: instance,
        })
    }

    /// The number of rows, m.
    pub fn rows(&self) -> usize
        ensures rows { result ≡ self.now.rows }
        ensures form { IsForm self.now }
    {
        self.rows
    }

    /// The number of columns, n.
    pub fn columns(&self) -> usize
        ensures columns { result ≡ length self.now.columns }
        ensures form { IsForm self.now }
    {
        self.columns
    }

    /// The bounds that there are, in column order.
    pub fn bounds(&self) -> &[u64]
        ensures { result.now ≡ given_in self.now.bounds }
    {
        &self.given
    }

    /// The equality form.
    pub fn equal(&self) -> &Arc<Instance>
        ensures { arc_value result.now ≡ equal_of self.now }
    {
        &self.equal
    }
}
