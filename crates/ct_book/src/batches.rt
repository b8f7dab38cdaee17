//! Several jobs at once.
ghost use Rattle.std.specs.Prelude.{◌≡◌, ◌<◌, ◌≤◌, ◌∷◌, [], ℕ, false, length, map, reverse, All, IfOk};
ghost use Rattle.ct_vectors.specs.declared.limits.TheConstants.{GRADE_LIMIT};
ghost use Rattle.ct_instance.specs.Instance.{IsPoint};
ghost use Rattle.ct_book.specs.Tasks.{IsTask, IsHeld, task_of, placed, left_at};
ghost use Rattle.ct_book.specs.Books.{CountsRise, IsCovered, edition_of};
ghost use Rattle.ct_book.specs.Batches.{AreHandedOut, AreCommitted};

use crate::books::Book;
use crate::reducing::{blank, left_by};
use crate::remainders::Left;
use crate::tasks::{PlacedJob, Task};
use ct_point::Point;
use ct_version::Version;
use std::alloc::{AllocError, Global};
use std::marker::Model;
use std::sync::Arc;

// The room for jobs that are handed out beside a first one.
const ROOM: usize = 63;

// What part of the jobs that wait is handed out at once. The rest is left to others, so that none of them has to wait
// long for the last jobs of a grade.
const PART: usize = 4;

/// The jobs that a worker has at once, beside the first of them, against whose version they are. It has no memory until it
/// first reduces jobs, and then keeps room for 63 of them, 1.5 kB, if there is memory for that.
#[derive(Drop)]
pub struct Batch {
    pub(crate) jobs: Vec<PlacedJob>,
}

impl Model for Batch {
    ghost use Rattle.std.specs.Prelude.{List};
    ghost use Rattle.ct_book.specs.declared.tasks.PlacedJob.{PlacedJob};

    ghost Value = { List PlacedJob };

    ghost view = { λ b. b.jobs.items };
}

/// What several jobs leave against one version, which it shares once for all of them.
#[derive(Drop)]
pub struct Reduced {
    pub(crate) version: Arc<Version>,
    pub(crate) left: Vec<Left>,
}

impl Model for Reduced {
    ghost use Rattle.std.specs.Prelude.{map, All};
    ghost use Rattle.std.specs.Arc.{arc_value};
    ghost use Rattle.ct_vectors.specs.declared.limits.TheConstants.{GRADE_LIMIT};
    ghost use Rattle.ct_book.specs.Tasks.{IsHeld, left_at};
    ghost use Rattle.ct_book.specs.Batches.{ReducedSeen};

    ghost Value = { ReducedSeen };

    ghost view = { λ r. record { version = arc_value r.version; remainders = map (left_at (arc_value r.version)) r.left.items } };

    ghost invariant = { λ r. All (λ l. IsHeld (left_at (arc_value r.version) l)) r.left.items };
}

impl Batch {
    /// No jobs.
    pub fn new(alloc: Global) -> Batch
        ensures { result ≡ [] }
    {
        Batch {
            jobs: Vec::new(alloc),
        }
    }

    /// Reduces the jobs, from the last to the first, so that what they leave is taken in in their order. Beside what a
    /// job leaves it takes 32 bytes a job, and two points for all of them.
    pub fn reduce(&mut self, alloc: Global, first: Task) -> Result<Reduced, AllocError>
        requires { All (λ p. IsTask (placed first.version p)) self.old }
        ensures jobs { self.new ≡ [] }
        ensures version { IfOk result (λ r. r.version ≡ first.version) }
        ensures reduced { IfOk result (λ r. map task_of r.remainders ≡ reverse (first ∷ map (placed first.version) self.old)) }
    {
        let (version, first) = first.into_parts();
        let left = reduce_all(alloc, &version, first, &mut self.jobs);
        self.jobs.clear();
        Ok(Reduced {
            version,
            left: left?,
        })
    }
}

// What the jobs leave, from the last to the first, and what this one leaves after them. It makes the room for as many jobs
// again; where that is refused, nothing is lost but that fewer are handed out.
fn reduce_all(
    alloc: Global,
    version: &Version,
    first: PlacedJob,
    jobs: &mut Vec<PlacedJob>,
) -> Result<Vec<Left>, AllocError>
    requires first { IsTask (placed version.now first) }
    requires others { All (λ p. IsTask (placed version.now p)) jobs.old.items }
    ensures held { IfOk result (λ ls. All (λ l. IsHeld (left_at version.now l)) ls.items) }
    ensures reduced { IfOk result (λ ls. map task_of (map (left_at version.now) ls.items) ≡ reverse (placed version.now first ∷ map (placed version.now) jobs.old.items)) }
{
    let mut left = Vec::with_capacity(alloc, jobs.len() + 1)?;
    let mut p = blank(alloc, version)?;
    let mut q = blank(alloc, version)?;
    while let Some(job) = jobs.pop() {
        left.push(left_of_job(alloc, version, job, &mut p, &mut q)?)?;
    }
    left.push(left_of_job(alloc, version, first, &mut p, &mut q)?)?;
    let _has_room = jobs.reserve(ROOM).is_ok();
    Ok(left)
}

// What a job of the version's grade leaves.
fn left_of_job(
    alloc: Global,
    version: &Version,
    at: PlacedJob,
    p: &mut Point,
    q: &mut Point,
) -> Result<Left, AllocError>
    requires task { IsTask (placed version.now at) }
    requires first_point { IsPoint version.now.instance p.old }
    requires second_point { IsPoint version.now.instance q.old }
    ensures first_stays_point { IsPoint version.now.instance p.new }
    ensures second_stays_point { IsPoint version.now.instance q.new }
    ensures held { IfOk result (λ l. IsHeld (left_at version.now l)) }
    ensures task { IfOk result (λ l. task_of (left_at version.now l) ≡ placed version.now at) }
{
    let PlacedJob { place, job } = at;
    let points = left_by(alloc, version, job, p, q)?;
    Ok(Left { place, job, points })
}

// Hands out jobs beside one that was just handed out, as far as there is room, and no more than a part of those that wait.
pub fn hand_out_beside(book: &mut Book, jobs: &mut Vec<PlacedJob>)
    requires none { jobs.old.items ≡ [] }
    requires waits { 0 < length book.old.state.queue }
    requires grade { (g : ℕ) × (g ≤ GRADE_LIMIT) × (IsCovered book.old g → ⊥) }
    ensures handed { (g : ℕ) → (IsCovered book.old g → ⊥) → (book.old.state.full ≡ false) → AreHandedOut book.old g (map (placed (edition_of book.old)) jobs.new.items) book.new }
    ensures tasks { All (λ p. IsTask (placed (edition_of book.old) p)) jobs.new.items }
{
    let most = jobs.capacity().min(book.waiting() / PART);
    while jobs.len() < most {
        jobs.push_reserved(book.hand_out());
    }
}

// Takes in what jobs left against a version, from the last to the first.
pub fn take_in_all(book: &mut Book, by: u32, version: &Version, left: &mut Vec<Left>)
    requires pass { by < book.old.passes }
    requires instance { version.now.instance ≡ book.old.instance }
    requires held { All (λ l. IsHeld (left_at version.now l)) left.old.items }
    ensures committed { (rise : ℕ) × AreCommitted book.old by (map (left_at version.now) left.old.items) book.new rise × CountsRise by rise book.old book.new }
    ensures none { left.new.items ≡ [] }
{
    while let Some(one) = left.pop() {
        book.take_in(by, version, one);
    }
}
