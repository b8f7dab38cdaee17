//! What a seat at the table knows.
use std::collections::LinkedList;

/// The view of a pass. No value of it is made.
pub struct Note<V> {
    pub first: Option<V>,
    pub seen: u64,
    pub held: Option<u64>,
    pub words: LinkedList<u64>,
    pub splits: u64,
    pub spent: bool,
}
