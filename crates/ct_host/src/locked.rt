//! What the lock holds, and what is done to it there.
ghost use Rattle.std.specs.Prelude.{◌≡◌, ◌+◌, ◌≤◌, ◌<◌, ◌^◌, [], ℕ, slice_index, IfOk, OnErr};
ghost use Rattle.ct_vectors.specs.declared.limits.TheConstants.{GRADE_LIMIT};

use crate::names::BookName;
use count_lock::Counted;
use ct_book::{Batch, Book, Committed, Reduced, Remainder, Step};
use ct_completion::Entry;
use std::alloc::{AllocError, Global};
use std::marker::Model;

// A book, whose counts are the numbers of entries of its passes. It lies in a box, since each get of the lock moves what the
// slot holds, from one processor to another.
#[derive(Drop)]
pub struct LockedBook {
    book: Box<Book>,
}

impl Model for LockedBook {
    ghost use Rattle.ct_book.specs.Books.{BookSeen};

    ghost Value = { BookSeen };

    ghost view = { λ b. b.book.value };
}

impl Counted for LockedBook {
    ghost use Rattle.ct_book.specs.Books.{counts_of, shown_by};
    ghost use Rattle.ct_host.specs.Values.{bench_place};

    type Name = BookName;

    ghost name_of = { bench_place };

    ghost counts_of = { counts_of };

    ghost shows = { shown_by };

    #[tactic(auto, using(crate::proofs::Counts::count_at, crate::proofs::Counts::length_counts))]
    fn count(&self, number: u32) -> u64 {
        self.book.entries(number)
    }
}

impl LockedBook {
    ghost use Rattle.count_lock.specs.Pairs.{GrowsAt};
    ghost use Rattle.ct_book.specs.Books.{IsRiseOf, rise_of, counts_of, shown_by};
    ghost use Rattle.ct_host.specs.Values.{bench_place};
    ghost use Rattle.ct_host.specs.Steps.{IsHostStep, IsHostCommit, IsHostBatchStep, IsHostCommitAll};

    pub fn new(alloc: Global, book: Book) -> Result<LockedBook, AllocError>
        ensures { IfOk result (λ l. l ≡ book) }
    {
        Ok(LockedBook {
            book: Box::new(alloc, book)?,
        })
    }

    pub fn into_book(self) -> Book
        ensures { result ≡ self }
    {
        let LockedBook { book } = self;
        Box::into_inner(book)
    }

    // One step of the book.
    pub fn step(&mut self, alloc: Global, by: u32, target: u64) -> Result<Step, AllocError>
        requires pass { by < self.old.passes }
        requires target { target ≤ GRADE_LIMIT }
        ensures place { bench_place self.new ≡ bench_place self.old }
        ensures answer { IfOk result (IsHostStep (bench_place self.old) by (shown_by self.old) target) }
        ensures grows { GrowsAt by (counts_of self.old) (counts_of self.new) }
        ensures fits { slice_index (counts_of self.new) by < 2 ^ 64 }
        ensures count { IfOk result (λ s. (rise : ℕ) × IsRiseOf s rise × (slice_index (counts_of self.new) by ≡ slice_index (counts_of self.old) by + rise)) }
        ensures refused { OnErr result (slice_index (counts_of self.new) by ≡ slice_index (counts_of self.old) by) }
    {
        let answer = self.book.step(alloc, by, target);
        // Both are called for what they say of the book alone.
        let _version = self.book.version();
        let _entries = self.book.entries(by);
        answer
    }

    // Takes a remainder in.
    pub fn commit(&mut self, by: u32, r: Remainder) -> Committed
        requires pass { by < self.old.passes }
        requires instance { r.version.instance ≡ self.old.instance }
        ensures place { bench_place self.new ≡ bench_place self.old }
        ensures answer { IsHostCommit (bench_place self.old) by (shown_by self.old) r result }
        ensures grows { GrowsAt by (counts_of self.old) (counts_of self.new) }
        ensures fits { slice_index (counts_of self.new) by < 2 ^ 64 }
        ensures count { slice_index (counts_of self.new) by ≡ slice_index (counts_of self.old) by + rise_of result }
    {
        let done = self.book.commit(by, r);
        // Called for what it says of the book alone.
        let _entries = self.book.entries(by);
        done
    }

    // One step of the book, with jobs beside one that it hands out.
    pub fn step_batch(
        &mut self,
        alloc: Global,
        by: u32,
        target: u64,
        batch: &mut Batch,
    ) -> Result<Step, AllocError>
        requires pass { by < self.old.passes }
        requires target { target ≤ GRADE_LIMIT }
        requires none { batch.old ≡ [] }
        ensures place { bench_place self.new ≡ bench_place self.old }
        ensures answer { IfOk result (IsHostBatchStep (bench_place self.old) by (shown_by self.old) target batch.new) }
        ensures grows { GrowsAt by (counts_of self.old) (counts_of self.new) }
        ensures fits { slice_index (counts_of self.new) by < 2 ^ 64 }
        ensures count { IfOk result (λ s. (rise : ℕ) × IsRiseOf s rise × (slice_index (counts_of self.new) by ≡ slice_index (counts_of self.old) by + rise)) }
        ensures refused { OnErr result (slice_index (counts_of self.new) by ≡ slice_index (counts_of self.old) by) }
        ensures none { OnErr result (batch.new ≡ []) }
    {
        let answer = self.book.step_batch(alloc, by, target, batch);
        // Both are called for what they say of the book alone.
        let _version = self.book.version();
        let _entries = self.book.entries(by);
        answer
    }

    // Takes in all that jobs left.
    pub fn commit_all(&mut self, by: u32, reduced: &mut Reduced)
        requires pass { by < self.old.passes }
        requires instance { reduced.old.version.instance ≡ self.old.instance }
        ensures place { bench_place self.new ≡ bench_place self.old }
        ensures grows { GrowsAt by (counts_of self.old) (counts_of self.new) }
        ensures fits { slice_index (counts_of self.new) by < 2 ^ 64 }
        ensures committed { (rise : ℕ) × IsHostCommitAll (bench_place self.old) by (shown_by self.old) reduced.old.remainders rise × (slice_index (counts_of self.new) by ≡ slice_index (counts_of self.old) by + rise) }
        ensures none { reduced.new ≡ record reduced.old { remainders = [] } }
    {
        self.book.commit_all(by, reduced);
        // Called for what it says of the book alone.
        let _entries = self.book.entries(by);
    }
}
