//! What the main part holds.
ghost use Rattle.std.specs.Prelude.{◌≡◌, ◌≤◌, ◌⊎◌, IfOk};
ghost use Rattle.std.specs.Arc.{arc_value};
ghost use Rattle.ct_vectors.specs.declared.limits.TheConstants.{GRADE_LIMIT};
ghost use Rattle.ct_book.specs.Benches.{desk_place};
ghost use Rattle.ct_host.specs.Hosts.{IsOfHost};
ghost use Rattle.ct_serve.specs.Served.{IsHeld};

use crate::shared::Shared;
use ct_host::HostPass;
use ct_version::{Finished, Stop, Version};
use std::alloc::AllocError;
use std::sync::{Arc, Wait};

/// What is reached once a grade is worked for.
#[derive(Drop)]
pub struct Held {
    /// A version that has reached what the limit on the number of moves allows for the grade.
    pub version: Arc<Version>,
    /// How far a completion for the grade comes.
    pub level: Finished,
}

/// Helps up to a grade, or up to the mark before it.
pub fn reach<R: Wait, G>(
    shared: &Shared<'_, R, G>,
    pass: &mut HostPass,
    grade: u64,
) -> Result<Held, AllocError>
    requires own { IsOfHost shared.now.host.now pass.old }
    requires grade { grade ≤ GRADE_LIMIT }
    ensures own { IsOfHost shared.now.host.now pass.new }
    ensures held { IfOk result (IsHeld (desk_place shared.now.host.now.place) grade) }
{
    match shared.host.help(shared.rt, shared.alloc, pass, grade) {
        Ok(helped) => Ok(Held {
            version: helped.version,
            level: helped.level,
        }),
        Err(Stop::Full(mark)) => Ok(Held {
            level: Finished::below(Some(mark.grade)),
            version: mark.version,
        }),
        Err(Stop::Memory) => Err(AllocError),
    }
}

/// The version with the greater number, which has reached what either has.
pub fn greater_held(held: Arc<Version>, reached: Arc<Version>) -> Arc<Version>
    ensures either { (arc_value result ≡ arc_value held) ⊎ (arc_value result ≡ arc_value reached) }
    ensures held { (arc_value held).number ≤ (arc_value result).number }
    ensures reached { (arc_value reached).number ≤ (arc_value result).number }
{
    if reached.number() < held.number() {
        held
    } else {
        reached
    }
}
