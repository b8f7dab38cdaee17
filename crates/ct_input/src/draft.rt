//! What the tokens of an instance text say.

use ct_point::Seq;

/// An instance text that has the right tokens. The entries and the costs stand row after row.
#[derive(Debug, Drop)]
pub struct Draft {
    pub rows: u64,
    pub columns: u64,
    pub entries: Seq<u64>,
    pub costs: Seq<i64>,
}
