//! An index over heads of its own.
ghost use Rattle.std.specs.Prelude.{◌≡◌, ◌<◌, ◌≤◌, [], ◌∷◌, ◌++◌, length, All, OnOk, OnErr, suc};
ghost use Rattle.std.specs.Option.{option_map};
ghost use Rattle.std.specs.List.{position};
ghost use Rattle.ct_vectors.specs.Vectors.{divides};
ghost use Rattle.ct_vectors.specs.declared.limits.TheConstants.{MOVE_LIMIT};

use crate::block::{BLOCK_SIZE, HeadBlock};
use crate::places::Places;
use ct_point::Point;
use std::alloc::{AllocError, Global};
use std::marker::Model;

/// A list of fewer than 4,096 heads of one width, numbered from 1, that finds the first which is at most a point.
#[derive(Drop)]
pub struct HeadIndex {
    blocks: Vec<HeadBlock<Point>>,
}

impl Model for HeadIndex {
    ghost use Rattle.std.specs.Prelude.{List, ℕ};
    ghost use Rattle.std.specs.List.{flat_map};
    ghost use Rattle.ct_index.specs.Pages.{IsPaged};

    ghost Value = { List (List ℕ) };

    ghost view = { λ x. flat_map (λ b. b) x.blocks.items };

    ghost invariant = { λ x. IsPaged (λ b. b) x.blocks.items };
}

impl HeadIndex {
    /// No heads.
    pub fn new(alloc: Global) -> HeadIndex
        ensures { result ≡ [] }
    {
        HeadIndex {
            blocks: Vec::new(alloc),
        }
    }

    /// Adds a copy of the head, which gets the next number. For want of memory the index is as before. Each 128th head
    /// takes 128 bytes for each coordinate.
    pub fn push(&mut self, alloc: Global, head: &Point) -> Result<(), AllocError>
        requires room { length self.old < MOVE_LIMIT }
        requires width { All (λ h. length h ≡ length head.now) self.old }
        ensures ok { OnOk result (self.new ≡ self.old ++ head.now ∷ []) }
        ensures err { OnErr result (self.new ≡ self.old) }
    {
        let copy = head.copy(alloc)?;
        let count = self.blocks.len();
        if count > 0 && !self.blocks[count - 1].is_full() {
            return add(&mut self.blocks[count - 1], alloc, copy);
        }
        let mut block = HeadBlock::new(alloc);
        add(&mut block, alloc, copy)?;
        self.blocks.push(block)?;
        Ok(())
    }

    /// The least number of a head that is at most p, and `None` exactly where there is none.
    pub fn first_dividing(&self, p: &Point) -> Option<u32>
        requires { All (λ h. length h ≡ length p.now) self.now }
        ensures { result ≡ option_map suc (position (λ h. divides h p.now) self.now) }
    {
        let mut places = Places::new();
        places.look_at(p);
        for k in 0..self.blocks.len() {
            if let Some(j) = self.blocks[k].first_dividing(p, &places) {
                return Some((BLOCK_SIZE * k + j) as u32 + 1);
            }
        }
        None
    }
}

// Adds a head to the block, which stays as it is for want of memory.
fn add(block: &mut HeadBlock<Point>, alloc: Global, head: Point) -> Result<(), AllocError>
    requires room { length block.old < 128 }
    requires width { All (λ h. length h ≡ length head) block.old }
    ensures ok { OnOk result (block.new ≡ block.old ++ head ∷ []) }
    ensures err { OnErr result (block.new ≡ block.old) }
{
    match block.push(alloc, head) {
        Ok(()) => Ok(()),
        Err((_, failed)) => Err(failed),
    }
}
