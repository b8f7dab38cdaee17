//! A pass of a host.
use crate::locked::LockedBook;
use crate::newest::Newest;
use count_lock::LockPass;
use std::marker::Model;
use turn_cell::Pass;

/// What one thread works with at a host. It can't be copied, and only a host makes one; use it with that host alone.
#[derive(Drop)]
pub struct HostPass {
    pub(crate) cell: Pass<Newest>,
    pub(crate) lock: LockPass<LockedBook>,
}

impl Model for HostPass {
    ghost use Rattle.std.specs.Prelude.{◌≡◌, None, length};
    ghost use Rattle.ct_host.specs.Hosts.{PassSeen, pass_in};

    ghost Value = { PassSeen };

    ghost view = { λ p. pass_in p.cell p.lock };

    ghost invariant = { λ p. (p.cell.held ≡ None) × (p.lock.held ≡ None) × (length p.lock.pairs ≡ 1) };
}

impl HostPass {
    ghost use Rattle.std.specs.Prelude.{◌≡◌, ◌∷◌, [], None};

    /// The number of the pass, from 0.
    pub fn number(&self) -> u32
        ensures { result ≡ self.now.number }
    {
        self.lock.number()
    }

    /// The greatest number of a version that the pass has seen.
    pub fn seen(&self) -> u64
        ensures { result ≡ self.now.seen }
    {
        self.cell.seen()
    }

    /// How many entries of the journal are the pass's.
    pub fn steps(&self) -> u64
        ensures { result ≡ self.now.steps }
    {
        self.lock.count()
    }

    // The pass of the lock.
    pub(crate) fn into_lock(self) -> LockPass<LockedBook>
        ensures own { (result.lock ≡ self.key.lock) × (result.first ≡ self.key.book) }
        ensures idle { result.held ≡ None }
        ensures pairs { result.pairs ≡ (self.number, self.steps) ∷ [] }
    {
        let HostPass { cell: _, lock } = self;
        lock
    }
}
