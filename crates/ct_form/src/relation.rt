//! What a form says beside its numbers.

ghost use Rattle.std.specs.Prelude.{◌≡◌, IfOk};
ghost use Rattle.ct_form.specs.Made.{plain_limits};

use ct_point::Seq;
use std::alloc::{AllocError, Global};

/// How the sum of a row stands to the row's right-hand side.
#[derive(Clone, Copy, Debug, PartialEq, Eq)]
pub enum Relation {
    /// The sum is the right-hand side.
    Eq,
    /// The sum is at most the right-hand side.
    Le,
}

/// Of each row its relation, and of each column its bound, if it has one.
#[derive(Debug, Drop)]
pub struct Limits {
    pub relations: Seq<Relation>,
    pub bounds: Seq<Option<u64>>,
}

impl Limits {
    /// The limits of an instance of so many rows and columns: each row is equal to its right-hand side, and no column has
    /// a bound.
    pub fn plain(alloc: Global, rows: usize, columns: usize) -> Result<Limits, AllocError>
        ensures { IfOk result (λ l. l ≡ plain_limits rows columns) }
    {
        Ok(Limits {
            relations: Seq::from_vec(vec![in alloc; Relation::Eq; rows]?),
            bounds: Seq::from_vec(vec![in alloc; None; columns]?),
        })
    }
}
