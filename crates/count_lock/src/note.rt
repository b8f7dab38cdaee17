//! What a seat at the table knows.
use std::collections::LinkedList;

/// The view of a pass. No value of it is made.
pub struct Note<V> {
    pub first: Option<V>,
    pub pairs: LinkedList<(u32, u64)>,
    pub shown: LinkedList<LinkedList<u64>>,
    pub held: Option<LinkedList<u64>>,
    pub spent: bool,
}
