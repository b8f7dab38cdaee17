//! How far a version is finished.
ghost use Rattle.std.specs.Prelude.{◌≡◌, ◌-◌, ◌≤◌, ◌<◌, ℕ, IsTrue, ◌↔◌};
ghost use Rattle.ct_vectors.specs.declared.limits.TheConstants.{GRADE_LIMIT};
ghost use Rattle.ct_instance.specs.Versions.{Covers, upto};
ghost use Rattle.ct_version.specs.Editions.{level_seen, level_below};

/// The level of a version: the grades for which its list of moves is the whole test list.
#[derive(Clone, Copy, Debug, PartialEq, Eq)]
pub enum Finished {
    /// Each grade up to this one.
    Upto(u64),
    /// Each grade.
    All,
}

impl Finished {
    /// The level below the next grade for which the list isn't finished, or each grade where there is none. No next grade is 0.
    pub fn below(next: Option<u64>) -> Finished
        ensures { level_seen result ≡ level_below next }
    {
        match next {
            None => Finished::All,
            Some(grade) => Finished::Upto(grade.saturating_sub(1)),
        }
    }

    /// The grade behind the level: the next for which the list may not be finished.
    pub fn behind(self) -> u64
        requires { (l : ℕ) × (level_seen self ≡ upto l) × (l < GRADE_LIMIT) }
        ensures level { level_seen self ≡ upto (result - 1) }
        ensures some { 1 ≤ result }
        ensures most { result ≤ GRADE_LIMIT }
    {
        match self {
            Finished::All => unreachable!(),
            Finished::Upto(level) => level + 1,
        }
    }

    /// Whether the level is at least g.
    pub fn covers(&self, g: u64) -> bool
        ensures { IsTrue result ↔ Covers (level_seen self.now) g }
    {
        match *self {
            Finished::Upto(level) => g <= level,
            Finished::All => true,
        }
    }
}
