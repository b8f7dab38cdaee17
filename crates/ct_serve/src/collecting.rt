//! What the parts keep is collected.
ghost use Rattle.std.specs.Prelude.{◌≡◌, ◌++◌, OnOk, IfOk, vec_len};
ghost use Rattle.ct_serve.specs.Served.{lines_in, AreCollected};

use crate::parts::{Done, End, Kept};
use ct_host::HostPass;
use ct_point::Seq;
use ct_session::Line;
use std::alloc::{AllocError, Global};

// The lines of a session are told, and of no other part.
fn tell(told: &mut Vec<Seq<Line>>, end: End) -> Result<(), AllocError>
    ensures { OnOk result (told.new.items ≡ told.old.items ++ lines_in end) }
{
    if let End::Told(lines) = end {
        told.push(lines)?;
    }
    Ok(())
}

/// All passes, and the lines of the sessions in order. A part that ended by want of memory makes it end so.
pub fn collect(
    alloc: Global,
    dones: Vec<Done<'_>>,
) -> Result<(Vec<HostPass>, Seq<Seq<Line>>), AllocError>
    ensures count { IfOk result (λ r. vec_len r.0 ≡ vec_len dones.entry) }
    ensures collected { IfOk result (λ r. AreCollected dones.entry.items r.0.items r.1) }
{
    let mut passes = Vec::with_capacity(alloc, dones.len())?;
    let mut told = Vec::new(alloc);
    for done in dones {
        let Done { job: _, outcome } = done;
        let Kept { pass, end } = outcome?;
        passes.push(pass)?;
        tell(&mut told, end)?;
    }
    Ok((passes, Seq::from_vec(told)))
}
