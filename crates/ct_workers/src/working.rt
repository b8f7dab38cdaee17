//! The loop of a worker.
ghost use Rattle.std.specs.Prelude.{◌≡◌, ◌≤◌, IfOk, IfErr};
ghost use Rattle.ct_vectors.specs.declared.limits.TheConstants.{GRADE_LIMIT};
ghost use Rattle.ct_version.specs.Desks.{IsHelp, IsStop};
ghost use Rattle.ct_book.specs.Benches.{desk_place};

use ct_book::{Batch, Bench, Step};
use ct_version::{Gate, Helped, Stop};
use std::alloc::Global;
use std::sync::Wait;

/// Takes steps of the bench until a version covers the target, or the limit on the number of moves is found to stand
/// before it; what is handed out it reduces and commits. Before its step t, from 0, it passes the gate as `who`.
///
/// It holds nothing of the bench while it reduces. It takes the memory of a `Batch` and of what its jobs leave, beside that
/// of publishing. After want of memory the steps that were made stand; jobs that were handed out and aren't taken in wait
/// for another worker. It may wait for others.
pub fn work<R: Wait, B: Bench, G: Gate>(
    rt: &R,
    alloc: Global,
    bench: &mut B,
    gate: &G,
    who: u32,
    target: u64,
) -> Result<Helped, Stop>
    requires { target ≤ GRADE_LIMIT }
    ensures home { B.home bench.new ≡ B.home bench.old }
    ensures loan { B.loan bench.new ≡ B.loan bench.old }
    ensures place { B.place bench.new ≡ B.place bench.old }
    ensures count { B.count bench.old ≤ B.count bench.new }
    ensures ok { IfOk result (IsHelp (desk_place (B.place bench.old)) target) }
    ensures stop { IfErr result (IsStop (desk_place (B.place bench.old)) target) }
{
    let mut batch = Batch::new(alloc);
    let mut turn: u64 = 0;
    for _ in rt.forever() {
        gate.before(rt, who, turn);
        match bench.step_batch(rt, alloc, target, &mut batch) {
            Err(_) => return Err(Stop::Memory),
            Ok(Step::Reached(helped)) => return Ok(helped),
            Ok(Step::Full(mark)) => return Err(Stop::Full(mark)),
            Ok(Step::Published(_version)) => {}
            Ok(Step::Reduce(first)) => match batch.reduce(alloc, first) {
                Err(_) => return Err(Stop::Memory),
                Ok(mut reduced) => bench.commit_all(rt, &mut reduced),
            },
        }
        turn = turn.saturating_add(1);
    }
    unreachable!()
}
