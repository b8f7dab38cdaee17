//! The index of the heads of a block: what it keeps of them beside the heads themselves.
ghost use Rattle.std.specs.Prelude.{◌++◌, ◌∷◌, replicate, ◌≡◌, ◌<◌, ◌≤◌, [], length, OnOk, OnErr, IfOk, bit_and};
ghost use Rattle.ct_vectors.specs.declared.limits.TheConstants.{WIDTH_LIMIT};
ghost use Rattle.ct_index.specs.Table.{row_count, AreMarked, IsDecided};
ghost use Rattle.ct_index.specs.Bits.{KeepsIndex, AddsHead, AreEqual};

use crate::support::support_of;
use crate::table;
use std::alloc::{AllocError, Global};

/// The table of the heads, the support of each, the heads that the table decides, and the coordinates that are in all
/// supports.
#[derive(Drop)]
pub struct HeadBits {
    pub rows: Vec<u128>,
    pub supports: Vec<u128>,
    pub decided: u128,
    pub shared: u128,
}

impl HeadBits {
    // Of no heads.
    pub fn new(alloc: Global) -> HeadBits
        ensures rows { result.rows.items ≡ [] }
        ensures supports { result.supports.items ≡ [] }
        ensures decided { result.decided ≡ 0 }
    {
        HeadBits {
            rows: Vec::new(alloc),
            supports: Vec::new(alloc),
            decided: 0,
            shared: u128::MAX,
        }
    }

    // An equal index.
    pub fn copy(&self, alloc: Global) -> Result<HeadBits, AllocError>
        ensures { IfOk result (AreEqual self.now) }
    {
        let rows = Vec::from_slice(alloc, &self.rows)?;
        let supports = Vec::from_slice(alloc, &self.supports)?;
        Ok(HeadBits {
            rows,
            supports,
            decided: self.decided,
            shared: self.shared,
        })
    }

    // Adds the head with this index, the number of heads before.
    pub fn add(&mut self, alloc: Global, head: &[u64], index: u32) -> Result<(), AllocError>
        requires index { index < 128 }
        requires width { length head.now ≤ WIDTH_LIMIT }
        ensures ok { OnOk result (AddsHead self.old self.new head.now index) }
        ensures err { OnErr result (KeepsIndex self.old self.new head.now index) }
    {
        if index == 0 {
            self.open(alloc, head.len())?;
        }
        let support = support_of(head);
        self.keep(support)?;
        self.enter(head, index, support);
        Ok(())
    }

    // Takes the table of no heads of this width.
    fn open(&mut self, alloc: Global, width: usize) -> Result<(), AllocError>
        requires { width ≤ WIDTH_LIMIT }
        ensures ok { OnOk result (self.new.rows.items ≡ replicate (row_count width) 0) }
        ensures err { OnErr result (self.new.rows ≡ self.old.rows) }
        ensures supports { self.new.supports ≡ self.old.supports }
        ensures decided { self.new.decided ≡ self.old.decided }
        ensures shared { self.new.shared ≡ self.old.shared }
    {
        self.rows = table::blank(alloc, width)?;
        Ok(())
    }

    // Keeps one support more.
    fn keep(&mut self, support: u128) -> Result<(), AllocError>
        ensures ok { OnOk result (self.new.supports.items ≡ self.old.supports.items ++ support ∷ []) }
        ensures err { OnErr result (self.new.supports.items ≡ self.old.supports.items) }
        ensures rows { self.new.rows ≡ self.old.rows }
        ensures decided { self.new.decided ≡ self.old.decided }
        ensures shared { self.new.shared ≡ self.old.shared }
    {
        self.supports.push(support)?;
        Ok(())
    }

    // Enters the head, whose support is kept already.
    fn enter(&mut self, head: &[u64], index: u32, support: u128)
        requires { index < 128 }
        ensures rows { AreMarked self.old.rows.items self.new.rows.items head.now index }
        ensures supports { self.new.supports.items ≡ self.old.supports.items }
        ensures decided { IsDecided self.old.decided self.new.decided head.now index }
        ensures shared { self.new.shared ≡ bit_and self.old.shared support }
    {
        table::mark(&mut self.rows, head, index);
        if table::is_low(head) {
            self.decided |= 1u128 << index;
        }
        self.shared &= support;
    }
}
