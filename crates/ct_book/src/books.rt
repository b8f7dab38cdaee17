//! The book.
ghost use Rattle.std.specs.Prelude.{◌≡◌, ◌≤◌, ◌<◌, ◌+◌, ◌^◌, [], ◌↔◌, ℕ, length, All, IfOk, OnOk, OnErr, MatchResult, IsTrue};
ghost use Rattle.ct_vectors.specs.declared.limits.TheConstants.{GRADE_LIMIT, MOVE_LIMIT, PASS_LIMIT};

use crate::batches::{Batch, Reduced, hand_out_beside, take_in_all};
use crate::bringing::{Brought, brought_to, buckets_of};
use crate::completing::complete;
use crate::log::Log;
use crate::opening::{Opening, opened_above};
use crate::outcomes::{Committed, Next, Published, Step};
use crate::publishing::{Following, moves_left, next_version};
use crate::queue::Queue;
use crate::remainders::{Left, Remainder};
use crate::room::{make_room, only, room_for};
use crate::tasks::{PlacedJob, Task};
use ct_completion::{Act, Entry};
use ct_handing::{helped, marked, shared};
use ct_instance::Instance;
use ct_jobs::{Addition, Buckets};
use ct_version::{Finished, Helped, Stop, Version};
use ct_walk::Moves;
use std::alloc::{AllocError, Global};
use std::marker::Model;
use std::sync::Arc;

/// The completion of the test set of an instance, within a limit on the number of moves, with its journal.
#[derive(Drop)]
pub struct Book {
    version: Arc<Version>,
    limit: u32,
    full: bool,
    levels: Vec<Finished>,
    buckets: Buckets,
    queue: Queue,
    log: Log,
}

impl Model for Book {
    ghost use Rattle.std.specs.Arc.{arc_value};
    ghost use Rattle.ct_book.specs.Books.{BookSeen};
    ghost use Rattle.ct_book.specs.Insides.{book_in, IsBook};

    ghost Value = { BookSeen };

    ghost view = { λ b. book_in (record { version = arc_value b.version; limit = b.limit; full = b.full; levels = b.levels.items; jobs = b.buckets.jobs; queue = b.queue; log = b.log }) };

    ghost invariant = { λ b. IsBook (record { version = arc_value b.version; limit = b.limit; full = b.full; levels = b.levels.items; jobs = b.buckets.jobs; queue = b.queue; log = b.log }) };
}

impl Book {
    ghost use Rattle.std.specs.Arc.{arc_value};
    ghost use Rattle.ct_instance.specs.TestSet.{test_list};
    ghost use Rattle.ct_instance.specs.Reach.{first_version_from};
    ghost use Rattle.ct_completion.specs.Machine.{hands_out, just_opened};
    ghost use Rattle.ct_completion.specs.OnePass.{journal_to};
    ghost use Rattle.ct_completion.specs.Journal.{entries_of, AreSerials, IsReplay};
    ghost use Rattle.ct_version.specs.Editions.{IsEdition};
    ghost use Rattle.ct_version.specs.Desks.{IsOfPlace};
    ghost use Rattle.ct_book.specs.Books.{edition_of, place_of, IsCovered, IsReadyBook, Steps, IsNext, IsCommitted, IsPublished, IsStep, IsRiseOf, counts_of, CountsRise, IsCompleted, IsEnded, rise_of};
    ghost use Rattle.ct_book.specs.Batches.{IsBatchStep, AreTasksBeside, AreCommitted};
    ghost use Rattle.ct_book.specs.Tasks.{IsTask, IsHeld, placed, left_at};

    /// A book at version 0, with its grade opened and an empty journal, for an instance, a limit of 1 to 4,096 moves and
    /// 1 to 33 passes. It is linear in the columns.
    pub fn open(
        alloc: Global,
        inst: Arc<Instance>,
        limit: u32,
        passes: u32,
    ) -> Result<Book, AllocError>
        requires some { 1 ≤ limit }
        requires most { limit ≤ MOVE_LIMIT }
        requires some_pass { 1 ≤ passes }
        requires passes { passes ≤ PASS_LIMIT }
        ensures { IfOk result (λ b. b ≡ record { instance = arc_value inst; limit = limit; passes = passes; state = just_opened (arc_value inst) 0; journal = [] }) }
    {
        let buckets = Buckets::new(alloc, &inst)?;
        let Opening { finished, queue } = opened_above(alloc, &buckets, &Addition::none(alloc), 0)?;
        let log = room_for(alloc, passes, queue.len())?;
        let levels = only(alloc, finished)?;
        let version = shared(alloc, Version::new(Moves::new(alloc, inst), 0, finished))?;
        // For its facts alone: there is such a version.
        let _number = version.number();
        Ok(Book {
            version,
            limit,
            full: false,
            levels,
            buckets,
            queue,
            log,
        })
    }

    /// A book at the first version that covers this grade, whose test list the moves are, with its grade opened. Its
    /// journal is the one that pass 0 alone writes which takes all jobs on the way there in job order; none is reduced. It
    /// is linear in the jobs, where the jobs are prepared times the support of a head, and takes 40 bytes for each job up
    /// to the grade beside what a book takes that came there.
    pub fn open_at(
        alloc: Global,
        inst: Arc<Instance>,
        limit: u32,
        passes: u32,
        moves: Moves,
        grade: u64,
    ) -> Result<Book, AllocError>
        requires some { 1 ≤ limit }
        requires most { limit ≤ MOVE_LIMIT }
        requires some_pass { 1 ≤ passes }
        requires passes { passes ≤ PASS_LIMIT }
        requires grade { grade ≤ GRADE_LIMIT }
        requires instance { moves.instance ≡ arc_value inst }
        requires list { moves.moves ≡ test_list (arc_value inst) grade }
        requires within { length moves.moves ≤ limit }
        ensures { IfOk result (λ b. b ≡ record { instance = arc_value inst; limit = limit; passes = passes; state = just_opened (arc_value inst) (first_version_from (arc_value inst) grade); journal = journal_to (arc_value inst) (first_version_from (arc_value inst) grade) }) }
    {
        // For its facts alone: the instance is within the limits.
        let _rows = inst.rows();
        let buckets = buckets_of(alloc, &inst, &moves)?;
        let Brought {
            number,
            levels,
            finished,
            queue,
            log,
        } = brought_to(alloc, &inst, &buckets, passes, grade)?;
        let version = shared(alloc, Version::new(moves, number, finished))?;
        // For its facts alone: there is such a version.
        let _number = version.number();
        Ok(Book {
            version,
            limit,
            full: false,
            levels,
            buckets,
            queue,
            log,
        })
    }

    /// The number of the version.
    pub fn number(&self) -> u64
        ensures { result ≡ self.now.state.number }
    {
        self.version.number()
    }

    /// The version.
    pub fn version(&self) -> &Arc<Version>
        ensures version { arc_value result.now ≡ edition_of self.now }
        ensures edition { IsEdition (edition_of self.now) }
        ensures place { IsOfPlace (place_of self.now) (arc_value result.now) }
    {
        &self.version
    }

    /// The journal. Each entry is of one of the passes, and its serial is the number of earlier entries of that pass.
    pub fn journal(&self) -> &[Entry]
        ensures entries { result.now ≡ self.now.journal }
        ensures replay { IsReplay self.now.instance self.now.limit self.now.journal self.now.state }
        ensures passes { All (λ e. e.pass < self.now.passes) self.now.journal }
        ensures serials { AreSerials self.now.journal }
    {
        self.log.entries()
    }

    /// The journal with its memory. The rest of the book is dropped.
    pub fn into_journal(self) -> Vec<Entry>
        ensures entries { result.items ≡ self.journal }
        ensures replay { IsReplay self.instance self.limit self.journal self.state }
        ensures passes { All (λ e. e.pass < self.passes) self.journal }
        ensures serials { AreSerials self.journal }
    {
        let Book {
            version: _,
            limit: _,
            full: _,
            levels: _,
            buckets: _,
            queue: _,
            log,
        } = self;
        log.into_entries()
    }

    /// The number of entries of a pass.
    pub fn entries(&self, pass: u32) -> u64
        requires { pass < self.now.passes }
        ensures entries { result ≡ entries_of pass self.now.journal }
        ensures counts { All (λ n. n < 2 ^ 64) (counts_of self.now) }
    {
        self.log.count(pass)
    }

    /// Whether the next version can be published: a grade is open, all its jobs are resolved, and the book isn't marked
    /// full.
    pub fn is_ready(&self) -> bool
        ensures { IsTrue result ↔ IsReadyBook self.now }
    {
        match self.version.finished() {
            Finished::All => false,
            Finished::Upto(_) => {
                if self.full {
                    return false;
                }
                self.queue.left() == 0
            }
        }
    }

    /// Takes a remainder in. It is stored, and written down in the journal, where its version is the book's and its job
    /// isn't resolved; else nothing changes. It takes no memory, since the room was made when the grade was opened.
    pub fn commit(&mut self, by: u32, r: Remainder) -> Committed
        requires pass { by < self.old.passes }
        requires instance { r.version.instance ≡ self.old.instance }
        ensures answer { IsCommitted self.old by r self.new result }
        ensures count { entries_of by self.new.journal ≡ entries_of by self.old.journal + rise_of result }
        ensures others { (pass : ℕ) → (pass ≡ by → ⊥) → entries_of pass self.new.journal ≡ entries_of pass self.old.journal }
    {
        let (version, left) = r.into_parts();
        self.take_in(by, &version, left)
    }

    // Takes in what a job left against this version. It is stored, and written down, where that is the book's version and
    // the job isn't resolved; else nothing changes. It takes no memory.
    pub(crate) fn take_in(&mut self, by: u32, version: &Version, left: Left) -> Committed
        requires pass { by < self.old.passes }
        requires instance { version.now.instance ≡ self.old.instance }
        requires held { IsHeld (left_at version.now left) }
        ensures answer { IsCommitted self.old by (left_at version.now left) self.new result }
        ensures count { entries_of by self.new.journal ≡ entries_of by self.old.journal + rise_of result }
        ensures others { (pass : ℕ) → (pass ≡ by → ⊥) → entries_of pass self.new.journal ≡ entries_of pass self.old.journal }
    {
        let number = self.version.number();
        if version.number() != number {
            return Committed::Already { number };
        }
        let Left { place, job, points } = left;
        if self.queue.is_resolved(place) {
            return Committed::Already { number };
        }
        self.queue.store(place, points);
        let place = self.log.append(by, Act::Stored(job));
        Committed::Stored { place }
    }

    /// Looks what is to be done up to the target, and hands out a job where one waits: the first that wasn't handed out
    /// yet, or, where all were, the one that was handed out longest ago. It takes no memory, and can be refused only the
    /// sharing of a version; then nothing has changed.
    pub fn next(&mut self, target: u64) -> Result<Next, AllocError>
        requires { target ≤ GRADE_LIMIT }
        ensures answer { IfOk result (IsNext self.old target self.new) }
        ensures refused { OnErr result (self.new ≡ self.old) }
    {
        if self.version.finished().covers(target) {
            return Ok(Next::Reached(helped(&self.version, &self.levels, target)?));
        }
        if self.full {
            return Ok(Next::Full(marked(&self.version)?));
        }
        if self.queue.left() == 0 {
            return Ok(Next::Publish);
        }
        let version = Arc::try_clone(&self.version)?;
        let PlacedJob { place, job } = self.hand_out();
        Ok(Next::Reduce(Task::new(version, place, job)))
    }

    // Hands out the job that waits first: the one that wasn't handed out yet, or that was longest ago. It takes no memory.
    pub(crate) fn hand_out(&mut self) -> PlacedJob
        requires some { 0 < length self.old.state.queue }
        requires grade { (g : ℕ) × (g ≤ GRADE_LIMIT) × (IsCovered self.old g → ⊥) }
        ensures task { IsTask (placed (edition_of self.old) result) }
        ensures steps { Steps self.old (hands_out result.job) [] self.new }
    {
        let (place, job) = self.queue.hand_out();
        PlacedJob { place, job }
    }

    /// Publishes the next version, whose list has the moves that the resolved jobs give, and opens its grade; or marks the
    /// book full, where that list would have more moves than the limit. Either is written down. For n points that jobs
    /// left it takes n times the logarithm of n comparisons; beside that it is linear in the jobs of the opened grade and
    /// of the next, and in the pairs of new moves. After want of memory nothing has changed.
    pub fn publish(&mut self, alloc: Global, by: u32) -> Result<Published, AllocError>
        requires pass { by < self.old.passes }
        requires ready { IsReadyBook self.old }
        ensures answer { IfOk result (IsPublished self.old by self.new) }
        ensures refused { OnErr result (self.new ≡ self.old) }
    {
        // For its facts alone: there is a slot for each job, and each that waits stands once in the queue.
        let _left = self.queue.left();
        let new = moves_left(alloc, self.version.moves().instance(), &self.queue)?;
        if self.version.moves().len() as usize + new.len() > self.limit as usize {
            let mark = marked(&self.version)?;
            self.full = true;
            self.log.append(by, Act::MarkedFull(mark.grade));
            return Ok(Published::Full(mark));
        }
        let next = next_version(alloc, &self.version, &self.buckets, new)?;
        let version = Arc::try_clone(&next.version)?;
        make_room(
            &mut self.buckets,
            &mut self.levels,
            &mut self.log,
            next.queue.len(),
        )?;
        let Following {
            version: following,
            more,
            queue,
        } = next;
        self.buckets.absorb(more);
        self.levels.push_reserved(following.finished());
        self.log.append(by, Act::Published(following.number()));
        self.queue = queue;
        self.version = following;
        Ok(Published::New(version))
    }

    /// Does the next step up to the target: what `next` says, and `publish` where that says so. For want of memory nothing
    /// has changed.
    pub fn step(&mut self, alloc: Global, by: u32, target: u64) -> Result<Step, AllocError>
        requires pass { by < self.old.passes }
        requires target { target ≤ GRADE_LIMIT }
        ensures answer { IfOk result (IsStep self.old by target self.new) }
        ensures refused { OnErr result (self.new ≡ self.old) }
        ensures counts { IfOk result (λ s. (rise : ℕ) × IsRiseOf s rise × CountsRise by rise self.old self.new) }
    {
        // For its facts alone: the book's version is one of its place.
        let _version = self.version();
        match self.next(target)? {
            Next::Reached(helped) => Ok(Step::Reached(helped)),
            Next::Full(mark) => Ok(Step::Full(mark)),
            Next::Reduce(task) => Ok(Step::Reduce(task)),
            Next::Publish => match self.publish(alloc, by)? {
                Published::New(version) => Ok(Step::Published(version)),
                Published::Full(mark) => Ok(Step::Full(mark)),
            },
        }
    }

    // How many jobs wait.
    pub(crate) fn waiting(&self) -> usize {
        self.queue.left()
    }

    /// Does the next step up to the target, and where it hands out a job, hands out others beside it: as many as the batch
    /// has room for, and at most a quarter of those that wait.
    pub fn step_batch(
        &mut self,
        alloc: Global,
        by: u32,
        target: u64,
        batch: &mut Batch,
    ) -> Result<Step, AllocError>
        requires pass { by < self.old.passes }
        requires target { target ≤ GRADE_LIMIT }
        requires none { batch.old ≡ [] }
        ensures answer { IfOk result (IsBatchStep self.old by target batch.new self.new) }
        ensures tasks { IfOk result (AreTasksBeside batch.new) }
        ensures refused { OnErr result (self.new ≡ self.old) }
        ensures none { OnErr result (batch.new ≡ []) }
        ensures counts { IfOk result (λ s. (rise : ℕ) × IsRiseOf s rise × CountsRise by rise self.old self.new) }
    {
        match self.step(alloc, by, target)? {
            Step::Reduce(first) => {
                hand_out_beside(self, &mut batch.jobs);
                Ok(Step::Reduce(first))
            }
            step => Ok(step),
        }
    }

    /// Takes in all that jobs left, from the last to the first, as `commit` does. It takes no memory.
    pub fn commit_all(&mut self, by: u32, reduced: &mut Reduced)
        requires pass { by < self.old.passes }
        requires instance { reduced.old.version.instance ≡ self.old.instance }
        ensures committed { (rise : ℕ) × AreCommitted self.old by reduced.old.remainders self.new rise × CountsRise by rise self.old self.new }
        ensures none { reduced.new ≡ record reduced.old { remainders = [] } }
    {
        take_in_all(self, by, &reduced.version, &mut reduced.left)
    }

    /// Goes on in one thread until the target is covered, or the limit on the number of moves is found to stand before it.
    /// It always returns. Where the version covers the target already, nothing changes; else the version in the answer is
    /// the first that covers it. After want of memory the book is one that some steps lead to.
    pub fn complete(&mut self, alloc: Global, by: u32, target: u64) -> Result<Helped, Stop>
        requires pass { by < self.old.passes }
        requires target { target ≤ GRADE_LIMIT }
        ensures { MatchResult result (IsCompleted self.old target self.new) (IsEnded self.old target self.new) }
    {
        complete(self, alloc, by, target)
    }
}
