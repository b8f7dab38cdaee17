//! Where a session gets its versions.
ghost use Rattle.std.specs.Prelude.{◌≡◌, ◌≤◌, ◌++◌, [], ◌∷◌, ℕ, List, IfOk, IfErr};
ghost use Rattle.ct_vectors.specs.declared.limits.TheConstants.{GRADE_LIMIT};
ghost use Rattle.ct_version.specs.Desks.{Place, IsPin, refused_after, IsHelp, IsStop};
ghost use Rattle.ct_vectors.specs.Words.{latest, Extends};

use crate::pins::{Helped, Pin, Stop};
use std::alloc::Global;
use std::sync::Wait;

/// A desk hands out versions of one instance that keep within one limit of moves.
///
/// In contracts it has a home, which it is a part of, and a loan, the name of what it borrows from there; its place, the
/// instance and the limit; the list of the words that its takes found; and the number of its pins that were refused for
/// memory. Home, loan and place never change.
pub trait Desk {
    type Home;

    ghost home: { Self → Self.Home };

    ghost loan: { Self → ℕ };

    ghost place: { Self → Place };

    ghost words: { Self → List ℕ };

    ghost refused: { Self → ℕ };

    /// Looks for a version with a number above `held`, by one take that waits for nobody. The word that the take finds
    /// decides the answer. The number of refused pins counts each want of memory, and stays at 2^64 - 1 once it is
    /// there.
    fn pin(&mut self, held: u64) -> Pin
        ensures home { home self.new ≡ home self.old }
        ensures loan { loan self.new ≡ loan self.old }
        ensures place { place self.new ≡ place self.old }
        ensures one_take { words self.new ≡ words self.old ++ latest (words self.new) ∷ [] }
        ensures answer { IsPin (place self.old) held (latest (words self.new)) result }
        ensures refused { refused self.new ≡ refused_after (refused self.old) result };

    /// Works until a version covers the target, or the limit is found to stand before it. It may wait for others.
    fn help<R: Wait>(&mut self, rt: &R, alloc: Global, target: u64) -> Result<Helped, Stop>
        requires { target ≤ GRADE_LIMIT }
        ensures home { home self.new ≡ home self.old }
        ensures loan { loan self.new ≡ loan self.old }
        ensures place { place self.new ≡ place self.old }
        ensures words { Extends (words self.old) (words self.new) }
        ensures refused { refused self.new ≡ refused self.old }
        ensures ok { IfOk result (IsHelp (place self.old) target) }
        ensures stop { IfErr result (IsStop (place self.old) target) };
}
