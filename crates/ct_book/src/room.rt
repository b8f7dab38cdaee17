//! Room for what a grade can bring.
ghost use Rattle.std.specs.Prelude.{◌≡◌, ◌≤◌, ◌<◌, ◌+◌, ◌^◌, [], ◌∷◌, length, vec_len, vec_capacity, IsPermutation, IfOk, OnOk};

use crate::log::Log;
use ct_jobs::Buckets;
use ct_version::Finished;
use std::alloc::{AllocError, Global};

// A journal with room for the entries that so many jobs can bring, and one more.
pub fn room_for(alloc: Global, passes: u32, jobs: usize) -> Result<Log, AllocError>
    requires { jobs < 2 ^ 63 }
    ensures entries { IfOk result (λ l. l.entries ≡ []) }
    ensures passes { IfOk result (λ l. l.passes ≡ passes) }
    ensures room { IfOk result (λ l. jobs + 1 ≤ l.room) }
{
    let mut log = Log::new(alloc, passes)?;
    log.reserve(jobs + 1)?;
    Ok(log)
}

// The one level.
pub fn only(alloc: Global, level: Finished) -> Result<Vec<Finished>, AllocError>
    ensures { IfOk result (λ v. v.items ≡ level ∷ []) }
{
    let mut levels = Vec::new(alloc);
    levels.push(level)?;
    Ok(levels)
}

// Makes room for one addition, one level, and the entries that so many jobs can bring, beside the one of publishing.
pub fn make_room(
    buckets: &mut Buckets,
    levels: &mut Vec<Finished>,
    log: &mut Log,
    jobs: usize,
) -> Result<(), AllocError>
    requires { jobs < 2 ^ 63 }
    ensures jobs { IsPermutation buckets.old.jobs buckets.new.jobs }
    ensures spare { OnOk result (1 ≤ buckets.new.spare) }
    ensures levels { levels.new.items ≡ levels.old.items }
    ensures level_room { OnOk result (vec_len levels.new < vec_capacity levels.new) }
    ensures entries { log.new.entries ≡ log.old.entries }
    ensures passes { log.new.passes ≡ log.old.passes }
    ensures room { log.old.room ≤ log.new.room }
    ensures entry_room { OnOk result (length log.new.entries + (jobs + 2) ≤ log.new.room) }
{
    buckets.reserve()?;
    levels.reserve(1)?;
    log.reserve(jobs + 2)
}
