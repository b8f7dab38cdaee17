//! Hosts of coins of 3 and 5 at cost 2 and 3.
ghost use Rattle.std.specs.Prelude.{◌≡◌, ◌≤◌, []};
ghost use Rattle.ct_host.specs.Hosts.{IsOfHost, fresh_pass};

use ct_book::{Batch, Bench, Committed, Remainder, Step};
use ct_host::{Host, HostPass};
use ct_instance::Instance;
use ct_version::{Desk, Finished, Pin};
use std::alloc::Global;
use std::process::Abort;
use std::sync::{Arc, Wait};

// A host with two passes.
fn two(rt: &impl Abort, alloc: Global) -> (Host, HostPass, HostPass)
    ensures host { result.0.place.passes ≡ 2 }
    ensures first { result.1 ≡ fresh_pass result.0.key 0 }
    ensures second { result.2 ≡ fresh_pass result.0.key 1 }
{
    let inst = Instance::new(alloc, 1, 2, &[3, 5], &[2, 3]).expect(rt, "an instance");
    let shared = Arc::new(alloc, inst).expect(rt, "room");
    let (host, mut passes) = Host::open(alloc, shared, 4096, 2).expect(rt, "room");
    let (Some(second), Some(first)) = (passes.pop(), passes.pop()) else {
        panic!(rt; "there are two passes")
    };
    (host, first, second)
}

// Closes a host with two passes, and tells how many entries each of them has.
fn entries_of_two(
    rt: &impl Abort,
    alloc: Global,
    host: Host,
    first: HostPass,
    second: HostPass,
) -> (u64, u64, usize)
    requires host { host.place.passes ≡ 2 }
    requires first { IsOfHost host first × (first.number ≡ 0) }
    requires second { IsOfHost host second × (second.number ≡ 1) }
{
    let mut passes = Vec::with_capacity(alloc, 2).expect(rt, "room");
    passes.push_reserved(first);
    passes.push_reserved(second);
    let Ok(closed) = host.close(alloc, passes) else {
        panic!(rt; "no room")
    };
    let steps = closed.steps.as_slice();
    (steps[0], steps[1], closed.journal.as_slice().len())
}

#[test]
fn one_pass_helps_and_the_other_pins(rt: HostRuntime) {
    let alloc = rt.alloc();
    let (host, mut first, mut second) = two(&rt, alloc);
    match host.help(&rt, alloc, &mut first, 8) {
        Ok(helped) => {
            assert!(rt; helped.version.number() == 4 && helped.level == Finished::Upto(9));
        }
        Err(_) => panic!(rt; "no room"),
    }
    assert!(rt; matches!(host.pin(&mut second, 0), Pin::Newer(_)));
    let mut desk = host.desk(&mut second);
    assert!(rt; matches!(desk.pin(4), Pin::NotNewer { number: 4 }));
    assert_eq!(rt; entries_of_two(&rt, alloc, host, first, second), (8, 0, 8));
}

// Takes a step that hands out a job, reduces it, and gives the remainder.
fn reduced<R: Wait + Abort>(rt: &R, alloc: Global, host: &Host, pass: &mut HostPass) -> Remainder
    requires { IsOfHost host.now pass.old }
    ensures same { (pass.new.key ≡ pass.old.key) × (pass.new.number ≡ pass.old.number) }
    ensures instance { result.version.instance ≡ host.now.place.instance }
{
    match host.bench(pass).step(rt, alloc, 15) {
        Ok(Step::Reduce(task)) => match task.reduce(alloc) {
            Ok(remainder) => remainder,
            Err(_) => panic!(rt; "no room"),
        },
        _ => panic!(rt; "no job"),
    }
}

#[test]
fn a_job_is_stored_once(rt: HostRuntime) {
    let alloc = rt.alloc();
    let (host, mut first, mut second) = two(&rt, alloc);
    let early = reduced(&rt, alloc, &host, &mut first);
    let late = reduced(&rt, alloc, &host, &mut second);
    let stored = host.bench(&mut first).commit(&rt, early);
    assert_eq!(rt; stored, Committed::Stored { place: 0 });
    let again = host.bench(&mut second).commit(&rt, late);
    assert_eq!(rt; again, Committed::Already { number: 0 });
}

// Takes one step that hands out jobs, and takes in what they leave.
fn taken_in<R: Abort + Wait>(
    rt: &R,
    alloc: Global,
    host: &Host,
    pass: &mut HostPass,
    batch: &mut Batch,
)
    requires own { IsOfHost host.now pass.old }
    requires none { batch.old ≡ [] }
    ensures own { IsOfHost host.now pass.new }
    ensures none { batch.new ≡ [] }
{
    let mut bench = host.bench(pass);
    let Ok(Step::Reduce(first)) = bench.step_batch(rt, alloc, 1, batch) else {
        panic!(rt; "no job")
    };
    let mut reduced = batch.reduce(alloc, first).expect(rt, "room");
    bench.commit_all(rt, &mut reduced);
}

// A host of eight columns of one row, each of them a generator of grade 1.
#[test]
fn a_part_of_the_jobs_that_wait_is_handed_out_at_once(rt: HostRuntime) {
    let alloc = rt.alloc();
    let inst = Instance::new(alloc, 1, 8, &[1; 8], &[1, 2, 3, 4, 5, 6, 7, 8]);
    let shared = Arc::new(alloc, inst.expect(&rt, "an instance")).expect(&rt, "room");
    let (host, mut passes) = Host::open(alloc, shared, 4096, 1).expect(&rt, "room");
    let Some(mut pass) = passes.pop() else {
        panic!(rt; "there is a pass")
    };
    let mut batch = Batch::new(alloc);
    for entries in [1, 3, 5, 6, 7, 8] {
        taken_in(&rt, alloc, &host, &mut pass, &mut batch);
        assert_eq!(rt; pass.steps(), entries);
    }
}
