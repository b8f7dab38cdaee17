//! Helping until a version covers a grade.
ghost use Rattle.std.specs.Prelude.{◌≡◌, ◌≤◌, IfOk, IfErr};
ghost use Rattle.ct_vectors.specs.declared.limits.TheConstants.{GRADE_LIMIT};
ghost use Rattle.ct_version.specs.Desks.{IsHelp, IsStop};
ghost use Rattle.ct_vectors.specs.Words.{Extends};
ghost use Rattle.ct_book.specs.Benches.{desk_place};
ghost use Rattle.ct_host.specs.Hosts.{IsOfHost};
ghost use Rattle.ct_host.specs.Steps.{HasSeenHelp, HasSeenStop, Helps};

use crate::host::Host;
use crate::passes::HostPass;
use crate::stepping::{commit_all, step_batch};
use ct_book::{Batch, Step};
use ct_version::{Helped, Stop};
use std::alloc::Global;
use std::sync::Wait;

// Takes steps, reduces what they hand out without the lock and commits it, until a step reaches the target or the limit.
pub fn help<R: Wait>(
    host: &Host,
    rt: &R,
    alloc: Global,
    pass: &mut HostPass,
    target: u64,
) -> Result<Helped, Stop>
    requires own { IsOfHost host.now pass.old }
    requires target { target ≤ GRADE_LIMIT }
    ensures helps { Helps pass.old pass.new }
    ensures ok { IfOk result (IsHelp (desk_place host.now.place) target) }
    ensures stop { IfErr result (IsStop (desk_place host.now.place) target) }
    ensures seen { IfOk result (HasSeenHelp pass.new.seen) }
    ensures seen_full { IfErr result (HasSeenStop pass.new.seen) }
{
    let mut batch = Batch::new(alloc);
    for _ in rt.forever() {
        match step_batch(host, rt, alloc, pass, target, &mut batch) {
            Err(_) => return Err(Stop::Memory),
            Ok(Step::Reached(helped)) => return Ok(helped),
            Ok(Step::Full(mark)) => return Err(Stop::Full(mark)),
            Ok(Step::Published(_version)) => {}
            Ok(Step::Reduce(first)) => match batch.reduce(alloc, first) {
                Err(_) => return Err(Stop::Memory),
                Ok(mut reduced) => commit_all(host, rt, pass, &mut reduced),
            },
        }
    }
    unreachable!()
}
