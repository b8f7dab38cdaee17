//! Lists of moves, as slabs that lists share.
ghost use Rattle.std.specs.Prelude.{◌≡◌, ◌+◌, ◌≤◌, ◌<◌, [], ◌∷◌, ◌++◌, length, map, All, IfOk, OnOk, IfErr};
ghost use Rattle.ct_vectors.specs.declared.limits.TheConstants.{MOVE_LIMIT};
ghost use Rattle.std.specs.List.{flat_map};
ghost use Rattle.std.specs.Arc.{arc_value};
ghost use Rattle.ct_vectors.specs.Vectors.{IsTimes};
ghost use Rattle.ct_index.specs.Pages.{IsPaged};
ghost use Rattle.ct_instance.specs.Instance.{IsPoint};
ghost use Rattle.ct_instance.specs.Walk.{first_dividing};
ghost use Rattle.ct_instance.specs.Jobs.{the_move};
ghost use Rattle.ct_walk.specs.Moves.{IsSmallMove, IsMoveList};

use crate::moves::Move;
use crate::slabs::{self, Slab};
use ct_index::{BLOCK_SIZE, Places};
use ct_instance::Instance;
use ct_point::Point;
use std::alloc::{AllocError, Global};
use std::marker::Model;
use std::sync::Arc;

/// A list of at most 4,096 moves of one instance, numbered from 1 in the order in which they were added.
///
/// It keeps the two points of each move with an index of the heads, in slabs of 128 moves that lists share, and shares
/// the instance.
#[derive(Drop)]
pub struct Moves {
    alloc: Global,
    inst: Arc<Instance>,
    slabs: Vec<Arc<Slab>>,
}

impl Model for Moves {
    ghost use Rattle.std.specs.List.{flat_map};
    ghost use Rattle.std.specs.Arc.{arc_value};
    ghost use Rattle.ct_index.specs.Pages.{ArePages};
    ghost use Rattle.ct_walk.specs.Moves.{MoveList, IsMoveList};

    ghost Value = { MoveList };

    ghost view = { λ l. record { instance = arc_value l.inst; moves = flat_map arc_value l.slabs.items } };

    ghost invariant = { λ l. IsMoveList (record { instance = arc_value l.inst; moves = flat_map arc_value l.slabs.items }) × ArePages arc_value l.slabs.items };
}

impl Moves {
    /// No moves, of this instance.
    pub fn new(alloc: Global, inst: Arc<Instance>) -> Moves
        ensures instance { result.instance ≡ arc_value inst }
        ensures moves { result.moves ≡ [] }
    {
        // Called for what it ensures: the instance is within the limits.
        let _rows = inst.rows();
        Moves {
            alloc,
            inst,
            slabs: Vec::new(alloc),
        }
    }

    /// Adds a move at the end, of which it keeps a copy. For want of memory the move is handed back, and the list is as
    /// before. A last slab that isn't full is made anew.
    pub fn push(&mut self, mv: Move) -> Result<(), (Move, AllocError)>
        requires of_instance { IsSmallMove self.old.instance mv }
        requires room { length self.old.moves < MOVE_LIMIT }
        ensures ok { OnOk result (self.new ≡ record self.old { moves = self.old.moves ++ mv ∷ [] }) }
        ensures err { IfErr result (λ e. (self.new ≡ self.old) × (e.0 ≡ mv)) }
    {
        match self.with_copy(&mv) {
            Ok(slabs) => {
                self.slabs = slabs;
                Ok(())
            }
            Err(failed) => Err((mv, failed)),
        }
    }

    // The slabs of these moves and a copy of this one.
    fn with_copy(&self, mv: &Move) -> Result<Vec<Arc<Slab>>, AllocError>
        requires of_instance { IsSmallMove self.now.instance mv.now }
        requires room { length self.now.moves < MOVE_LIMIT }
        ensures { IfOk result (λ v. IsPaged arc_value v.items × (flat_map arc_value v.items ≡ self.now.moves ++ mv.now ∷ [])) }
    {
        let mut one = Vec::new(self.alloc);
        one.push(mv.copy(self.alloc)?)?;
        self.grown(self.alloc, one)
    }

    /// A new list: these moves and then more. It shares the full slabs, and the last one too where nothing is added; a
    /// last slab that isn't full is made anew with more. For want of memory this list is unchanged, and more is dropped.
    pub fn extended(&self, alloc: Global, more: Vec<Move>) -> Result<Moves, AllocError>
        requires of_instance { All (IsSmallMove self.now.instance) more.items }
        requires room { length self.now.moves + length more.items ≤ MOVE_LIMIT }
        ensures { IfOk result (λ l. l ≡ record self.now { moves = self.now.moves ++ more.items }) }
    {
        let inst = Arc::try_clone(&self.inst)?;
        let slabs = self.grown(alloc, more)?;
        Ok(Moves { alloc, inst, slabs })
    }

    // The slabs of these moves and more.
    fn grown(&self, alloc: Global, more: Vec<Move>) -> Result<Vec<Arc<Slab>>, AllocError>
        requires of_instance { All (IsSmallMove self.now.instance) more.items }
        requires room { length self.now.moves + length more.items ≤ MOVE_LIMIT }
        ensures { IfOk result (λ v. IsPaged arc_value v.items × (flat_map arc_value v.items ≡ self.now.moves ++ more.items)) }
    {
        if more.is_empty() {
            return slabs::shared(alloc, &self.slabs);
        }
        slabs::grown(alloc, &self.inst, &self.slabs, more)
    }

    /// The instance of the moves.
    pub fn instance(&self) -> &Arc<Instance>
        ensures instance { arc_value result.now ≡ self.now.instance }
        ensures checked { IsMoveList self.now }
    {
        &self.inst
    }

    /// The number of moves.
    pub fn len(&self) -> u32
        ensures count { result ≡ length self.now.moves }
        ensures most { result ≤ MOVE_LIMIT }
    {
        let count = self.slabs.len();
        if count == 0 {
            return 0;
        }
        (BLOCK_SIZE * (count - 1) + self.slabs[count - 1].items().len()) as u32
    }

    /// The move with this number, from 1.
    pub fn get(&self, number: u32) -> &Move
        requires some { 1 ≤ number }
        requires within { number ≤ length self.now.moves }
        ensures at { result.now ≡ the_move self.now.moves number }
        ensures of_instance { IsSmallMove self.now.instance result.now }
    {
        let index = number as usize - 1;
        &self.slabs[index / BLOCK_SIZE].items()[index % BLOCK_SIZE]
    }

    // How many times the head of the move with this number fits into p.
    pub(crate) fn times_in(&self, number: u32, p: &Point) -> u64
        requires some { 1 ≤ number }
        requires within { number ≤ length self.now.moves }
        requires point { IsPoint self.now.instance p.now }
        ensures { IsTimes (the_move self.now.moves number).head p.now result }
    {
        let index = number as usize - 1;
        self.slabs[index / BLOCK_SIZE].times_in(index % BLOCK_SIZE, p)
    }

    /// The least number of a move whose head is at most p. It looks into the index of each slab, and takes no memory.
    pub fn first_dividing(&self, p: &Point) -> Option<u32>
        requires { IsPoint self.now.instance p.now }
        ensures { result ≡ first_dividing self.now.moves p.now }
    {
        let mut places = Places::new();
        places.look_at(p);
        for k in 0..self.slabs.len() {
            if let Some(j) = self.slabs[k].first_dividing(p, &places) {
                return Some((BLOCK_SIZE * k + j) as u32 + 1);
            }
        }
        None
    }
}
