//! The passes of a host that is opened.
ghost use Rattle.std.specs.Prelude.{◌≡◌, ◌≤◌, [], None, map, vec_len, vec_capacity};
ghost use Rattle.turn_cell.specs.Sight.{IsOfCell};
ghost use Rattle.count_lock.specs.Sight.{fresh_passes};
ghost use Rattle.ct_instance.specs.Made.{indices};
ghost use Rattle.ct_book.specs.Books.{counts_of};
ghost use Rattle.ct_host.specs.Hosts.{key_in, opened_pass};

use crate::locked::LockedBook;
use crate::newest::Newest;
use crate::passes::HostPass;
use count_lock::{CountLock, LockPass};
use turn_cell::{Pass, TurnCell};

// For each pass of the lock a pass, for which the first pass of the cell is split.
pub fn deal(
    cell: &TurnCell<Newest>,
    mut first: Pass<Newest>,
    lock: &CountLock<LockedBook>,
    locks: Vec<LockPass<LockedBook>>,
    mut made: Vec<HostPass>,
) -> Vec<HostPass>
    requires own { IsOfCell cell.now first }
    requires fresh { (first.seen ≡ lock.now.first.state.number) × (first.held ≡ None) × (first.words ≡ []) × (first.splits ≡ 0) }
    requires locks { locks.items ≡ fresh_passes lock.now 0 (counts_of lock.now.first) }
    requires room { (made.items ≡ []) × (vec_len locks ≤ vec_capacity made) }
    ensures { result.items ≡ map (opened_pass (key_in cell.now lock.now) lock.now.first.state.number lock.now.first.journal) (indices lock.now.first.passes) }
{
    for lock_pass in locks {
        made.push_reserved(HostPass {
            cell: cell.split(&mut first),
            lock: lock_pass,
        });
    }
    made
}
