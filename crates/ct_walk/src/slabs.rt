//! Slabs of moves: blocks with an index of the heads, full at 128 moves.
ghost use Rattle.std.specs.Prelude.{◌≡◌, ◌+◌, ◌≤◌, ◌<◌, [], ◌∷◌, ◌++◌, length, map, All, IfOk, OnOk, take};
ghost use Rattle.ct_vectors.specs.declared.limits.TheConstants.{MOVE_LIMIT};
ghost use Rattle.std.specs.List.{flat_map};
ghost use Rattle.std.specs.Arc.{arc_value};
ghost use Rattle.ct_index.specs.Pages.{ArePages, IsPaged, AreFullBelow};
ghost use Rattle.ct_walk.specs.Moves.{IsSmallMove};

use crate::moves::Move;
use ct_index::HeadBlock;
use ct_instance::Instance;
use std::alloc::{AllocError, Global};
use std::sync::Arc;

/// Up to 128 moves with the index of their heads.
pub type Slab = HeadBlock<Move>;

// The same slabs.
pub fn shared(alloc: Global, slabs: &[Arc<Slab>]) -> Result<Vec<Arc<Slab>>, AllocError>
    ensures { IfOk result (λ v. map arc_value v.items ≡ map arc_value slabs.now) }
{
    let mut made = Vec::with_capacity(alloc, slabs.len())?;
    for slab in slabs {
        made.push(Arc::try_clone(slab)?)?;
    }
    Ok(made)
}

// The slabs of these moves and more: full ones are shared, and a last one that isn't full is made anew.
pub fn grown(
    alloc: Global,
    inst: &Instance,
    slabs: &[Arc<Slab>],
    more: Vec<Move>,
) -> Result<Vec<Arc<Slab>>, AllocError>
    requires pages { ArePages arc_value slabs.now }
    requires of_instance { All (IsSmallMove inst.now) (flat_map arc_value slabs.now ++ more.items) }
    requires room { length (flat_map arc_value slabs.now ++ more.items) ≤ MOVE_LIMIT }
    ensures { IfOk result (λ v. IsPaged arc_value v.items × (flat_map arc_value v.items ≡ flat_map arc_value slabs.now ++ more.items)) }
{
    let full = full_count(slabs);
    let mut made = shared(alloc, &slabs[..full])?;
    let mut open = last_open(alloc, slabs, full)?;
    for mv in more {
        if open.is_full() {
            made.push(Arc::new(alloc, open)?)?;
            open = HeadBlock::new(alloc);
        }
        add(inst, &mut open, alloc, mv)?;
    }
    made.push(Arc::new(alloc, open)?)?;
    Ok(made)
}

// How many slabs are full: all, or all but the last.
fn full_count(slabs: &[Arc<Slab>]) -> usize
    requires { ArePages arc_value slabs.now }
    ensures full { AreFullBelow arc_value slabs.now result }
    ensures within { result ≤ length slabs.now }
    ensures most { length slabs.now ≤ result + 1 }
{
    let count = slabs.len();
    if count > 0 && !slabs[count - 1].is_full() {
        count - 1
    } else {
        count
    }
}

// A copy of the slab behind the full ones, or an empty one.
fn last_open(alloc: Global, slabs: &[Arc<Slab>], full: usize) -> Result<Slab, AllocError>
    requires within { full ≤ length slabs.now }
    requires most { length slabs.now ≤ full + 1 }
    requires pages { ArePages arc_value slabs.now }
    ensures whole { IfOk result (λ b. flat_map arc_value slabs.now ≡ flat_map arc_value (take full slabs.now) ++ b) }
    ensures few { IfOk result (λ b. length b ≤ 128) }
{
    if full < slabs.len() {
        return slabs[full].copy(alloc);
    }
    Ok(HeadBlock::new(alloc))
}

// Adds a move to a slab of the instance's moves.
fn add(inst: &Instance, slab: &mut Slab, alloc: Global, mv: Move) -> Result<(), AllocError>
    requires room { length slab.old < 128 }
    requires slab_of_instance { All (IsSmallMove inst.now) slab.old }
    requires of_instance { IsSmallMove inst.now mv }
    ensures { OnOk result (slab.new ≡ slab.old ++ mv ∷ []) }
{
    match slab.push(alloc, mv) {
        Ok(()) => Ok(()),
        Err((_, failed)) => Err(failed),
    }
}
