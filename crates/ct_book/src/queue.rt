//! The jobs of the opened grade, and what is left of those that are resolved.
ghost use Rattle.std.specs.Prelude.{◌≡◌, ◌+◌, ◌<◌, ◌≤◌, ◌^◌, ℕ, List, None, Some, true, false, [], ◌∷◌, ◌++◌, ◌↔◌, length, replicate, get_or, IfOk, IsTrue, slice_set, slice_get, MatchOption, map, filter, drop};
ghost use Rattle.ct_instance.specs.Made.{indices};
ghost use Rattle.ct_book.specs.Queues.{slot_seen, waits, waits_at, points_seen};

use crate::ends::Ends;
use crate::publishing::points_in;
use ct_instance::Job;
use ct_point::Point;
use std::alloc::{AllocError, Global};
use std::collections::VecDeque;
use std::marker::Model;

// What is known of one job.
#[derive(Drop)]
pub enum Slot {
    // It isn't resolved.
    Waiting,
    // It is resolved, and leaves nothing.
    Nothing,
    // It is resolved, and leaves two points.
    Differ(Box<Ends>),
}

// The jobs with a slot each: 16 bytes until the ends of a job differ. Places that are resolved stay in the list of those
// that wait until they come to its front.
#[derive(Drop)]
pub struct Queue {
    jobs: Vec<Job>,
    slots: Vec<Slot>,
    waiting: VecDeque<usize>,
    left: usize,
}

impl Model for Queue {
    ghost use Rattle.std.specs.Prelude.{◌≡◌, length, map, filter, vec_len};
    ghost use Rattle.std.specs.VecDeque.{deque_len};
    ghost use Rattle.ct_book.specs.Queues.{QueueSeen, IsQueue, slot_seen, waits_at};

    ghost Value = { QueueSeen };

    ghost view = { λ q. record { jobs = q.jobs.items; stored = map slot_seen q.slots.items; order = filter (waits_at (map slot_seen q.slots.items)) q.waiting.items } };

    ghost invariant = { λ q. IsQueue (record { jobs = q.jobs.items; stored = map slot_seen q.slots.items; order = filter (waits_at (map slot_seen q.slots.items)) q.waiting.items }) × (q.left ≡ length (filter (waits_at (map slot_seen q.slots.items)) q.waiting.items)) };
}

impl Queue {
    ghost use Rattle.ct_instance.specs.Made.{indices};
    ghost use Rattle.ct_completion.specs.Remainders.{points_of};
    ghost use Rattle.ct_groups.specs.Groups.{points_seen as lent};
    ghost use Rattle.ct_book.specs.Openings.{left_in};
    ghost use Rattle.ct_book.specs.Queues.{IsQueue, without};

    // All these jobs wait, in their order.
    pub fn new(alloc: Global, jobs: Vec<Job>) -> Result<Queue, AllocError>
        ensures { IfOk result (λ q. q ≡ record { jobs = jobs.items; stored = replicate (length jobs.items) None; order = indices (length jobs.items) }) }
    {
        let count = jobs.len();
        let slots = all_waiting(alloc, count)?;
        let waiting = places(alloc, count)?;
        Ok(Queue {
            jobs,
            slots,
            waiting,
            left: count,
        })
    }

    // How many jobs there are.
    pub fn len(&self) -> usize
        ensures count { result ≡ length self.now.jobs }
        ensures small { result < 2 ^ 63 }
    {
        self.jobs.len()
    }

    // The job at this place.
    pub fn job(&self, place: usize) -> Job
        requires { place < length self.now.jobs }
        ensures { slice_get self.now.jobs place ≡ Some result }
    {
        self.jobs[place]
    }

    // How many jobs wait.
    pub fn left(&self) -> usize
        ensures left { result ≡ length self.now.order }
        ensures queue { IsQueue self.now }
    {
        self.left
    }

    // Whether the job at this place is resolved.
    pub fn is_resolved(&self, place: usize) -> bool
        requires { place < length self.now.jobs }
        ensures resolved { IsTrue result ↔ (waits_at self.now.stored place ≡ false) }
        ensures queue { IsQueue self.now }
    {
        match &self.slots[place] {
            Slot::Waiting => false,
            Slot::Nothing => true,
            Slot::Differ(_) => true,
        }
    }

    // Hands out the job that waits first: it goes to the end of those that wait. It takes no memory.
    pub fn hand_out(&mut self) -> (usize, Job)
        requires { 0 < length self.old.order }
        ensures first { self.old.order ≡ result.0 ∷ drop 1 self.old.order }
        ensures job { slice_get self.old.jobs result.0 ≡ Some result.1 }
        ensures turned { self.new ≡ record self.old { order = drop 1 self.old.order ++ result.0 ∷ [] } }
    {
        let Some(place) = next_open(&mut self.waiting, &self.slots) else {
            unreachable!()
        };
        self.waiting.rotate_left(1);
        (place, self.jobs[place])
    }

    // Keeps what the job at this place, which waits, leaves. It takes no memory.
    pub fn store(&mut self, place: usize, points: Option<Box<Ends>>)
        requires { waits_at self.old.stored place ≡ true }
        ensures { self.new ≡ record self.old { stored = slice_set self.old.stored place (Some (points_seen points)); order = without place self.old.order } }
    {
        self.slots[place] = slot_of(points);
        self.left -= 1;
    }

    // The points that jobs left.
    pub fn points(&self, alloc: Global) -> Result<Vec<&Point>, AllocError>
        ensures points { IfOk result (λ v. lent v.items ≡ points_of (left_in self.now.stored)) }
        ensures queue { IsQueue self.now }
    {
        points_in(alloc, &self.slots)
    }
}

// The slot of a job that is resolved.
fn slot_of(points: Option<Box<Ends>>) -> Slot
    ensures { slot_seen result ≡ Some (points_seen points) }
{
    match points {
        None => Slot::Nothing,
        Some(ends) => Slot::Differ(ends),
    }
}

// Whether there is a job at this place that waits.
fn is_open(slots: &[Slot], place: usize) -> bool
    ensures { result ≡ waits_at (map slot_seen slots.now) place }
{
    match slots.get(place) {
        None => false,
        Some(slot) => is_waiting(slot),
    }
}

// Whether the job of this slot waits.
fn is_waiting(slot: &Slot) -> bool
    ensures { result ≡ waits (slot_seen slot.now) }
{
    match slot {
        Slot::Waiting => true,
        Slot::Nothing => false,
        Slot::Differ(_) => false,
    }
}

// Drops places that are resolved from the front, and answers the first that isn't.
fn next_open(waiting: &mut VecDeque<usize>, slots: &[Slot]) -> Option<usize>
    ensures same { filter (waits_at (map slot_seen slots.now)) waiting.new.items ≡ filter (waits_at (map slot_seen slots.now)) waiting.old.items }
    ensures first { MatchOption result (waiting.new.items ≡ []) (λ p. (waits_at (map slot_seen slots.now) p ≡ true) × (waiting.new.items ≡ p ∷ drop 1 waiting.new.items)) }
{
    while let Some(place) = waiting.front().copied() {
        if is_open(slots, place) {
            return Some(place);
        }
        waiting.pop_front();
    }
    None
}

// So many slots of jobs that wait.
fn all_waiting(alloc: Global, count: usize) -> Result<Vec<Slot>, AllocError>
    ensures { IfOk result (λ v. map slot_seen v.items ≡ replicate count None) }
{
    let mut slots = Vec::with_capacity(alloc, count)?;
    for _ in 0..count {
        slots.push(Slot::Waiting)?;
    }
    Ok(slots)
}

// The places below a count.
fn places(alloc: Global, count: usize) -> Result<VecDeque<usize>, AllocError>
    ensures { IfOk result (λ w. w.items ≡ indices count) }
{
    let mut places = Vec::with_capacity(alloc, count)?;
    for place in 0..count {
        places.push(place)?;
    }
    Ok(VecDeque::from_vec(places))
}
