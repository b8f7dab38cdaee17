//! From one version to the next.
ghost use Rattle.std.specs.Prelude.{◌≡◌, ◌+◌, ◌≤◌, ◌<◌, ◌++◌, ℕ, suc, length, All, IfOk};
ghost use Rattle.std.specs.Arc.{arc_value};
ghost use Rattle.ct_vectors.specs.declared.limits.TheConstants.{GRADE_LIMIT, MOVE_LIMIT};
ghost use Rattle.ct_instance.specs.Versions.{upto, level_of, version_list};
ghost use Rattle.ct_walk.specs.Moves.{IsSmallMove};
ghost use Rattle.ct_solo.specs.Insides.{HasAgenda};

use crate::agenda::Agenda;
use crate::filling::take_pairs;
use crate::reducing::{lent, points_left};
use ct_groups::new_moves;
use ct_handing::shared;
use ct_version::{Finished, Version};
use ct_walk::Move;
use std::alloc::{AllocError, Global};
use std::sync::Arc;

// The moves that the jobs of the opened grade bring, in order.
pub fn moves_brought(
    alloc: Global,
    version: &Version,
    agenda: &Agenda,
) -> Result<Vec<Move>, AllocError>
    requires opens { (l : ℕ) × (level_of version.now.instance version.now.number ≡ upto l) × (l < agenda.now.top) }
    requires top { agenda.now.top ≤ GRADE_LIMIT }
    requires agenda { HasAgenda version.now agenda.now }
    ensures list { IfOk result (λ v. version_list version.now.instance version.now.number ++ v.items ≡ version_list version.now.instance (suc version.now.number)) }
    ensures small { IfOk result (λ v. All (IsSmallMove version.now.instance) v.items) }
{
    let moves = version.moves();
    let points = points_left(alloc, moves, agenda.jobs(version.finished().behind()))?;
    let all = lent(alloc, points.as_slice())?;
    new_moves(alloc, moves.instance(), all.as_slice())
}

// The version that follows with these moves more. The agenda is then that of its list; after want of memory it is none.
pub fn following(
    alloc: Global,
    version: &Version,
    agenda: &mut Agenda,
    new: Vec<Move>,
) -> Result<Arc<Version>, AllocError>
    requires opens { (l : ℕ) × (level_of version.now.instance version.now.number ≡ upto l) × (l < agenda.old.top) }
    requires top { agenda.old.top ≤ GRADE_LIMIT }
    requires small { All (IsSmallMove version.now.instance) new.items }
    requires list { version_list version.now.instance version.now.number ++ new.items ≡ version_list version.now.instance (suc version.now.number) }
    requires room { length (version_list version.now.instance version.now.number) + length new.items ≤ MOVE_LIMIT }
    requires agenda { HasAgenda version.now agenda.old }
    ensures version { IfOk result (λ v. arc_value v ≡ record { instance = version.now.instance; number = suc version.now.number }) }
    ensures agenda { IfOk result (λ v. HasAgenda (arc_value v) agenda.new) }
    ensures top { agenda.new.top ≡ agenda.old.top }
{
    let before = version.moves();
    let moves = before.extended(alloc, new)?;
    agenda.close(version.finished().behind());
    take_pairs(agenda, &moves, before.len() + 1)?;
    let finished = Finished::below(agenda.next());
    shared(alloc, Version::new(moves, version.number() + 1, finished))
}
