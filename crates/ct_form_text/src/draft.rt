//! What the tokens of a form text say.

use ct_form::Limits;
use ct_point::Seq;

/// A form text that has the right tokens. The entries and the costs stand row after row.
#[derive(Debug, Drop)]
pub struct FormDraft {
    pub rows: u64,
    pub columns: u64,
    pub entries: Seq<u64>,
    pub limits: Limits,
    pub costs: Seq<i64>,
}
