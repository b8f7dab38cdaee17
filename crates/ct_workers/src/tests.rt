//! Workers at hosts, and turns at books, of coins of 3 and 5 at cost 2 and 3, and of coins of 1, 5, 10 and 25.
ghost use Rattle.std.specs.Prelude.{◌≡◌, ◌≤◌, map, All, IsTrue};
ghost use Rattle.ct_vectors.specs.declared.limits.TheConstants.{GRADE_LIMIT, MOVE_LIMIT, PASS_LIMIT};
ghost use Rattle.ct_instance.specs.Made.{indices};
ghost use Rattle.ct_host.specs.Hosts.{IsOfHost, fresh_pass};
ghost use Rattle.ct_workers.specs.Turns.{IsTurnOf};

use crate::{Turn, Turned, drive, work};
use ct_book::{Act, Bench, Book, Step};
use ct_host::{Host, HostPass};
use ct_instance::{Instance, Job};
use ct_vectors::limits::{GRADE_LIMIT, MOVE_LIMIT};
use ct_version::{Finished, Gate, NoGate, Stop};
use std::alloc::Global;
use std::process::Abort;
use std::sync::atomic::{AtomicU64, Ordering};
use std::sync::{Arc, Wait};
use std::test::Fail;
use std::thread;

fn coins(rt: &impl Abort, alloc: Global, limit: u32, passes: u32) -> (Host, Vec<HostPass>)
    requires some { 1 ≤ limit }
    requires most { limit ≤ MOVE_LIMIT }
    requires some_pass { 1 ≤ passes }
    requires passes { passes ≤ PASS_LIMIT }
    ensures passes { result.1.items ≡ map (fresh_pass result.0.key) (indices passes) }
{
    let inst = Instance::new(alloc, 1, 2, &[3, 5], &[2, 3]).expect(rt, "an instance");
    let shared = Arc::new(alloc, inst).expect(rt, "room");
    Host::open(alloc, shared, limit, passes).expect(rt, "room")
}

#[test]
fn the_limit_stops_a_worker(rt: HostRuntime) {
    let alloc = rt.alloc();
    let (host, mut passes) = coins(&rt, alloc, 2, 1);
    let Some(mut pass) = passes.pop() else {
        panic!(rt; "there is a pass")
    };
    let mut bench = host.bench(&mut pass);
    match work(&rt, alloc, &mut bench, &NoGate, 1, 5) {
        Ok(helped) => {
            assert!(rt; helped.version.number() == 2 && helped.level == Finished::Upto(5));
        }
        Err(_) => panic!(rt; "not helped"),
    }
    match work(&rt, alloc, &mut bench, &NoGate, 1, 6) {
        Err(Stop::Full(mark)) => {
            assert!(rt; mark.grade == 6 && mark.version.finished() == Finished::Upto(5));
        }
        _ => panic!(rt; "no mark"),
    }
    match bench.step(&rt, alloc, 5) {
        Ok(Step::Reached(_helped)) => {}
        _ => panic!(rt; "not reached"),
    }
    match bench.step(&rt, alloc, 6) {
        Ok(Step::Full(_mark)) => {}
        _ => panic!(rt; "not full"),
    }
}

// Counts the turns that it is passed with.
#[derive(Drop)]
struct Turnstile<'a> {
    turns: &'a AtomicU64,
}

impl Gate for Turnstile<'_> {
    fn before<R: Wait>(&self, _: &R, who: u32, turn: u64) {
        if who == 1 && self.turns.load(Ordering::SeqCst) == turn {
            self.turns.store(turn.saturating_add(1), Ordering::SeqCst);
        }
    }
}

#[test]
fn a_gate_is_passed_before_each_step(rt: HostRuntime) {
    let alloc = rt.alloc();
    let (host, mut passes) = coins(&rt, alloc, 4096, 1);
    let Some(mut pass) = passes.pop() else {
        panic!(rt; "there is a pass")
    };
    let turns = AtomicU64::new(0);
    let gate = Turnstile { turns: &turns };
    match work(&rt, alloc, &mut host.bench(&mut pass), &gate, 1, 21) {
        Ok(helped) => assert!(rt; helped.version.number() == 12),
        Err(_) => panic!(rt; "not helped"),
    }
    assert_eq!(rt; turns.load(Ordering::SeqCst), 25);
}

// The number of the version at which a worker ends.
fn worked<R: Wait>(rt: &R, alloc: Global, host: &Host, mut pass: HostPass, who: u32) -> u64
    requires { IsOfHost host.now pass }
{
    match work(rt, alloc, &mut host.bench(&mut pass), &NoGate, who, 21) {
        Ok(helped) => helped.version.number(),
        Err(_) => 0,
    }
}

#[test]
fn two_workers_complete_one_host(rt: HostRuntime) {
    let alloc = rt.alloc();
    let (host, mut passes) = coins(&rt, alloc, 4096, 2);
    let (Some(second), Some(first)) = (passes.pop(), passes.pop()) else {
        panic!(rt; "there are two passes")
    };
    let shared = &host;
    let ended = thread::join(
        &rt,
        move || worked(&rt, alloc, shared, first, 1),
        move || worked(&rt, alloc, shared, second, 2),
    );
    assert_eq!(rt; ended, (12, 12));
}

// The book of these, its limit on the number of moves, and its passes.
fn opened(rt: &impl Abort, alloc: Global, inst: Instance, limit: u32, passes: u32) -> Book
    requires some { 1 ≤ limit }
    requires most { limit ≤ MOVE_LIMIT }
    requires some_pass { 1 ≤ passes }
    requires passes { passes ≤ PASS_LIMIT }
    ensures passes { result.passes ≡ passes }
{
    let shared = Arc::new(alloc, inst).expect(rt, "room");
    Book::open(alloc, shared, limit, passes).expect(rt, "room")
}

fn is_of(passes: u32, turn: Turn) -> bool
    ensures { IsTrue result → IsTurnOf passes turn }
{
    match turn {
        Turn::Take(by) => by < passes,
        Turn::Commit(by) => by < passes,
        Turn::Lose(by) => by < passes,
    }
}

fn are_of(passes: u32, turns: &[Turn]) -> bool
    ensures { IsTrue result → All (IsTurnOf passes) turns.now }
{
    for turn in turns {
        if !is_of(passes, *turn) {
            return false;
        }
    }
    true
}

// Each list of turns of two passes, the limit on the number of moves and the target, and the answers.
#[test]
fn turns_are_answered(rt: HostRuntime) -> Result<(), Fail> {
    use Turn::{Commit, Lose, Take};
    use Turned::{Already, Full, Lost, Nothing, Published, Reached, Stored, Took};
    let first = Job::Generator(1);
    let rows: [(u32, u64, &[Turn], &[Turned]); 6] = [
        (
            4096,
            15,
            &[Take(0), Take(1), Commit(0), Take(0), Commit(1)],
            &[
                Took(first),
                Took(first),
                Stored(0),
                Published(1),
                Already(1),
            ],
        ),
        (
            4096,
            15,
            &[Take(0), Lose(0), Take(1), Commit(1), Take(1)],
            &[Took(first), Lost, Took(first), Stored(0), Published(1)],
        ),
        (4096, 15, &[Commit(0), Lose(1)], &[Nothing, Nothing]),
        (
            4096,
            15,
            &[Take(0), Take(0), Commit(0), Commit(0)],
            &[Took(first), Took(first), Stored(0), Already(0)],
        ),
        (
            2,
            15,
            &[
                Take(0),
                Commit(0),
                Take(0),
                Take(0),
                Commit(0),
                Take(1),
                Take(1),
                Commit(1),
                Take(1),
                Take(0),
            ],
            &[
                Took(first),
                Stored(0),
                Published(1),
                Took(Job::Generator(2)),
                Stored(2),
                Published(2),
                Took(Job::Pair(1, 2)),
                Stored(4),
                Full(6),
                Full(6),
            ],
        ),
        (4096, 2, &[Take(0)], &[Reached]),
    ];
    let alloc = rt.alloc();
    for (row, (limit, target, turns, answers)) in rows.into_iter().enumerate() {
        let inst = Instance::new(alloc, 1, 2, &[3, 5], &[2, 3]).expect(&rt, "an instance");
        assert!(rt; 1 <= limit && limit <= MOVE_LIMIT as u32, "row {row}");
        assert!(rt; target <= GRADE_LIMIT && are_of(2, turns), "row {row}");
        let mut book = opened(&rt, alloc, inst, limit, 2);
        let told = drive(alloc, &mut book, turns, target)?;
        assert!(rt; told.as_slice() == answers, "row {row}");
    }
    Ok(())
}

// Some turns of three passes, of which half are steps.
fn drawn(alloc: Global, count: u32) -> Result<Vec<Turn>, Fail> {
    let mut turns = Vec::new(alloc);
    let mut draw: u64 = 1;
    for _ in 0..count {
        draw = draw
            .wrapping_mul(6_364_136_223_846_793_005)
            .wrapping_add(1_442_695_040_888_963_407);
        let by = ((draw >> 33) % 3) as u32;
        turns.push(match (draw >> 40) % 4 {
            0 => Turn::Lose(by),
            1 => Turn::Commit(by),
            _ => Turn::Take(by),
        })?;
    }
    Ok(turns)
}

// The journal is gone through by hand: no job is stored twice in a grade, and versions follow each other up to the book's.
#[test]
fn many_turns_leave_a_journal(rt: HostRuntime) -> Result<(), Fail> {
    let alloc = rt.alloc();
    let inst = Instance::new(alloc, 1, 4, &[1, 5, 10, 25], &[1, 1, 1, 1]).expect(
        &rt,
        "an instance",
    );
    let mut book = opened(&rt, alloc, inst, 4096, 3);
    let turns = drawn(alloc, 200)?;
    assert!(rt; are_of(3, &turns));
    let answers = drive(alloc, &mut book, &turns, 94)?;
    assert!(rt; answers.len() == 200);
    let mut number = 0;
    let mut resolved = Vec::new(alloc);
    for entry in book.journal() {
        match entry.act {
            Act::Stored(job) => {
                assert!(rt; !resolved.contains(&job));
                resolved.push(job)?;
            }
            Act::Published(next) => {
                assert!(rt; next.checked_sub(1) == Some(number));
                number = next;
                resolved.clear();
            }
            Act::MarkedFull(_) => panic!(rt; "the limit isn't reached"),
        }
    }
    assert!(rt; number > 0 && number == book.number());
    Ok(())
}
