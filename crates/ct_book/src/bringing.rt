//! The way to a grade over the jobs of its whole test list, on which nothing is reduced.
ghost use Rattle.std.specs.Prelude.{◌≡◌, ◌+◌, ◌≤◌, [], ◌∷◌, ◌++◌, map, length, IfOk, OnOk};
ghost use Rattle.ct_vectors.specs.declared.limits.TheConstants.{GRADE_LIMIT};
ghost use Rattle.ct_instance.specs.TestSet.{test_list};
ghost use Rattle.ct_instance.specs.Reach.{first_version_from};
ghost use Rattle.ct_jobs.specs.GradedJobs.{AreJobsOf};
ghost use Rattle.ct_completion.specs.declared.journals.Act.TheVariants.{Stored, Published};
ghost use Rattle.ct_completion.specs.Journal.{entries_of};
ghost use Rattle.ct_completion.specs.OnePass.{entries_by};
ghost use Rattle.ct_book.specs.Bringing.{IsBrought};

use crate::log::Log;
use crate::opening::{Opening, opened_above};
use crate::queue::Queue;
use crate::room::only;
use ct_completion::Act;
use ct_instance::Instance;
use ct_jobs::{Addition, Buckets};
use ct_version::Finished;
use ct_walk::Moves;
use std::alloc::{AllocError, Global};

// A version on the way: its number, the levels up to its own, its level, the jobs that it opens, and the journal.
#[derive(Drop)]
pub struct Brought {
    pub number: u64,
    pub levels: Vec<Finished>,
    pub finished: Finished,
    pub queue: Queue,
    pub log: Log,
}

// The jobs of a whole list of moves, all in the map by grade.
pub fn buckets_of(alloc: Global, inst: &Instance, moves: &Moves) -> Result<Buckets, AllocError>
    requires { moves.now.instance ≡ inst.now }
    ensures { IfOk result (λ b. AreJobsOf inst.now moves.now.moves b.jobs) }
{
    let mut buckets = Buckets::new(alloc, inst)?;
    let pairs = Buckets::prepare(alloc, inst, moves, 1)?;
    buckets.reserve()?;
    buckets.absorb(pairs);
    buckets.reserve()?;
    Ok(buckets)
}

// The first version that covers the grade, where these are the jobs of the grade's test list. What leads there is
// written down for pass 0, and there is room for what the opened grade can bring. It is linear in the jobs.
pub fn brought_to(
    alloc: Global,
    inst: &Instance,
    buckets: &Buckets,
    passes: u32,
    grade: u64,
) -> Result<Brought, AllocError>
    requires passes { 1 ≤ passes }
    requires grade { grade ≤ GRADE_LIMIT }
    requires jobs { AreJobsOf inst.now (test_list inst.now grade) buckets.now.jobs }
    ensures first { IfOk result (λ b. b.number ≡ first_version_from inst.now grade) }
    ensures brought { IfOk result (λ b. IsBrought inst.now grade b.number b.levels.items b.log.entries b.finished b.queue) }
    ensures passes { IfOk result (λ b. b.log.passes ≡ passes) }
    ensures room { IfOk result (λ b. length b.log.entries + (length b.queue.jobs + 1) ≤ b.log.room) }
{
    // Called for what it ensures: this is an instance within the limits.
    let _rows = inst.rows();
    let none = Addition::none(alloc);
    let mut number = 0;
    let Opening {
        mut finished,
        mut queue,
    } = opened_above(alloc, buckets, &none, 0)?;
    let mut levels = only(alloc, finished)?;
    let mut log = Log::new(alloc, passes)?;
    while !finished.covers(grade) {
        number += 1;
        write_down(&mut log, &queue, number)?;
        let next = opened_above(alloc, buckets, &none, finished.behind())?;
        finished = next.finished;
        queue = next.queue;
        levels.push(finished)?;
    }
    log.reserve(queue.len() + 1)?;
    Ok(Brought {
        number,
        levels,
        finished,
        queue,
        log,
    })
}

// Writes down for pass 0 that each of these jobs is stored, in their order, and that this version is published.
fn write_down(log: &mut Log, queue: &Queue, number: u64) -> Result<(), AllocError>
    requires { 1 ≤ log.old.passes }
    ensures entries { OnOk result (log.new.entries ≡ log.old.entries ++ entries_by 0 (entries_of 0 log.old.entries) (map Stored queue.now.jobs ++ Published number ∷ [])) }
    ensures passes { log.new.passes ≡ log.old.passes }
{
    log.reserve(queue.len() + 1)?;
    for place in 0..queue.len() {
        log.append(0, Act::Stored(queue.job(place)));
    }
    log.append(0, Act::Published(number));
    Ok(())
}
