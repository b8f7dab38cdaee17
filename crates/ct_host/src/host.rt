//! The host.
use crate::benches::HostBench;
use crate::closing::{Closed, wind_up};
use crate::desks::HostDesk;
use crate::helping::help;
use crate::locked::LockedBook;
use crate::newest::Newest;
use crate::opening::deal;
use crate::passes::HostPass;
use crate::pinning::pin;
use count_lock::CountLock;
use ct_book::Book;
use ct_instance::Instance;
use ct_version::{Helped, Pin, Stop};
use ct_walk::Moves;
use std::alloc::{AllocError, Global};
use std::marker::Model;
use std::sync::{Arc, Wait};
use turn_cell::TurnCell;

/// A completion book behind a lock, and its newest version in a cell.
#[derive(Drop)]
pub struct Host {
    pub(crate) cell: TurnCell<Newest>,
    pub(crate) lock: CountLock<LockedBook>,
    pub(crate) limit: u32,
}

impl Model for Host {
    ghost use Rattle.ct_host.specs.Hosts.{HostSeen, IsHost, host_in};

    ghost Value = { HostSeen };

    ghost view = { λ h. host_in h.cell h.lock };

    ghost invariant = { λ h. IsHost h.cell h.lock h.limit };
}

impl Host {
    ghost use Rattle.std.specs.Prelude.{◌≡◌, ◌≤◌, length, map, IfOk, IfErr};
    ghost use Rattle.std.specs.Arc.{arc_value};
    ghost use Rattle.ct_vectors.specs.declared.limits.TheConstants.{GRADE_LIMIT, MOVE_LIMIT, PASS_LIMIT};
    ghost use Rattle.ct_instance.specs.Made.{indices};
    ghost use Rattle.ct_instance.specs.TestSet.{test_list};
    ghost use Rattle.ct_instance.specs.Reach.{first_version_from};
    ghost use Rattle.ct_completion.specs.OnePass.{journal_to};
    ghost use Rattle.ct_version.specs.Desks.{IsPin, IsHelp, IsStop};
    ghost use Rattle.ct_vectors.specs.Words.{latest};
    ghost use Rattle.ct_book.specs.Benches.{desk_place};
    ghost use Rattle.ct_host.specs.Hosts.{IsOfHost, after_pin, opened_pass, fresh_pass};
    ghost use Rattle.ct_host.specs.Values.{bench_place};
    ghost use Rattle.ct_host.specs.Steps.{Helps, HasSeenHelp, HasSeenStop};
    ghost use Rattle.ct_host.specs.Closing.{AreAllPasses, IsClosed, IsJournalOf};

    /// A host at version 0, and its passes in the order of their numbers, for an instance, a limit of 1 to 4,096 moves and
    /// 1 to 33 passes. It takes the memory of a book that is opened, in a box, of a cell, of a lock and of the passes.
    pub fn open(
        alloc: Global,
        inst: Arc<Instance>,
        limit: u32,
        passes: u32,
    ) -> Result<(Host, Vec<HostPass>), AllocError>
        requires some { 1 ≤ limit }
        requires most { limit ≤ MOVE_LIMIT }
        requires some_pass { 1 ≤ passes }
        requires passes { passes ≤ PASS_LIMIT }
        ensures place { IfOk result (λ r. r.0.place ≡ record { instance = arc_value inst; limit = limit; passes = passes }) }
        ensures passes { IfOk result (λ r. r.1.items ≡ map (fresh_pass r.0.key) (indices passes)) }
    {
        let book = Book::open(alloc, inst, limit, passes)?;
        Host::of_book(alloc, book, limit, passes)
    }

    /// A host at the first version that covers this grade, whose test list the moves are, and its passes in the order of
    /// their numbers. Its journal begins with what pass 0 alone writes which takes all jobs on the way there in job order:
    /// so pass 0 counts those entries, and each pass has seen that version. It takes the memory of such a book and of what
    /// is opened beside it.
    pub fn open_at(
        alloc: Global,
        inst: Arc<Instance>,
        limit: u32,
        passes: u32,
        moves: Moves,
        grade: u64,
    ) -> Result<(Host, Vec<HostPass>), AllocError>
        requires some { 1 ≤ limit }
        requires most { limit ≤ MOVE_LIMIT }
        requires some_pass { 1 ≤ passes }
        requires passes { passes ≤ PASS_LIMIT }
        requires grade { grade ≤ GRADE_LIMIT }
        requires instance { moves.instance ≡ arc_value inst }
        requires list { moves.moves ≡ test_list (arc_value inst) grade }
        requires within { length moves.moves ≤ limit }
        ensures place { IfOk result (λ r. r.0.place ≡ record { instance = arc_value inst; limit = limit; passes = passes }) }
        ensures passes { IfOk result (λ r. r.1.items ≡ map (opened_pass r.0.key (first_version_from (arc_value inst) grade) (journal_to (arc_value inst) (first_version_from (arc_value inst) grade))) (indices passes)) }
    {
        let book = Book::open_at(alloc, inst, limit, passes, moves, grade)?;
        Host::of_book(alloc, book, limit, passes)
    }

    // A host of a book, with its limit and its passes, in the order of their numbers.
    fn of_book(
        alloc: Global,
        book: Book,
        limit: u32,
        passes: u32,
    ) -> Result<(Host, Vec<HostPass>), AllocError>
        requires some_pass { 1 ≤ passes }
        requires limit { book.limit ≡ limit }
        requires passes { book.passes ≡ passes }
        ensures place { IfOk result (λ r. r.0.place ≡ bench_place book) }
        ensures passes { IfOk result (λ r. r.1.items ≡ map (opened_pass r.0.key book.state.number book.journal) (indices passes)) }
    {
        // Called for what it ensures: the counts are small.
        let _count = book.entries(0);
        let made = Vec::with_capacity(alloc, passes as usize)?;
        let version = Arc::try_clone(book.version())?;
        let (cell, first) = TurnCell::open(alloc, Newest::new(version, limit))?;
        let locked = LockedBook::new(alloc, book)?;
        let (lock, locks) = CountLock::open(alloc, locked, passes)?;
        let dealt = deal(&cell, first, &lock, locks, made);
        Ok((Host { cell, lock, limit }, dealt))
    }

    /// Looks for a version with a number above `held`. It waits for nobody and makes one take of the cell: `Busy` comes
    /// where the word that was found is odd, and the number at home is at least what the pass had seen.
    pub fn pin(&self, pass: &mut HostPass, held: u64) -> Pin
        requires { IsOfHost self.now pass.old }
        ensures one_take { pass.new ≡ after_pin pass.old (latest pass.new.words) }
        ensures answer { IsPin (desk_place self.now.place) held (latest pass.new.words) result }
        ensures rises { pass.old.seen ≤ pass.new.seen }
    {
        pin(self, pass, held)
    }

    /// Takes steps, reduces what they hand out while it holds no lock, and commits, until a version covers the target or
    /// the limit on the number of moves is found to stand before it. Each version that it gets it puts into the cell. It
    /// may wait for others. It takes the memory of a `Batch` and of what its jobs leave, beside that of publishing; after
    /// want of memory the steps that were made stand.
    pub fn help<R: Wait>(
        &self,
        rt: &R,
        alloc: Global,
        pass: &mut HostPass,
        target: u64,
    ) -> Result<Helped, Stop>
        requires own { IsOfHost self.now pass.old }
        requires target { target ≤ GRADE_LIMIT }
        ensures helps { Helps pass.old pass.new }
        ensures ok { IfOk result (IsHelp (desk_place self.now.place) target) }
        ensures stop { IfErr result (IsStop (desk_place self.now.place) target) }
        ensures seen { IfOk result (HasSeenHelp pass.new.seen) }
        ensures seen_full { IfErr result (HasSeenStop pass.new.seen) }
    {
        help(self, rt, alloc, pass, target)
    }

    /// A bench at this host.
    pub fn bench<'a>(&'a self, pass: &'a mut HostPass) -> HostBench<'a>
        requires { IsOfHost self.now pass.old }
        ensures host { result.host.now ≡ self.now }
        ensures pass { result.pass.now ≡ pass.old }
        ensures loan { result.pass.ghost_name ≡ pass.entry.ghost_name }
    {
        HostBench { host: self, pass }
    }

    /// A desk at this host, with no refused pin.
    pub fn desk<'a>(&'a self, pass: &'a mut HostPass) -> HostDesk<'a>
        requires { IsOfHost self.now pass.old }
        ensures host { result.host.now ≡ self.now }
        ensures pass { result.pass.now ≡ pass.old }
        ensures loan { result.pass.ghost_name ≡ pass.entry.ghost_name }
        ensures refused { result.refused ≡ 0 }
    {
        HostDesk {
            host: self,
            pass,
            refused: 0,
        }
    }

    /// Ends the host: its journal, and what each pass counts. It takes the memory for the counts first, and where that is
    /// refused it hands back the host and the passes.
    pub fn close(
        self,
        alloc: Global,
        passes: Vec<HostPass>,
    ) -> Result<Closed, (Host, Vec<HostPass>, AllocError)>
        requires { AreAllPasses self passes.items }
        ensures ok { IfOk result (IsClosed passes.items) }
        ensures journal { IfOk result (λ c. IsJournalOf self.place c.journal) }
        ensures err { IfErr result (λ e. (e.0 ≡ self) × (e.1 ≡ passes)) }
    {
        match Vec::with_capacity(alloc, passes.len()) {
            Err(refused) => Err((self, passes, refused)),
            Ok(steps) => Ok(wind_up(self, passes, steps)),
        }
    }
}
