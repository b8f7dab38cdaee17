//! What a check of a ledger says.
ghost use Rattle.std.specs.Prelude.{◌≡◌};
ghost use Rattle.ct_checker.specs.Checking.{reason_for};

use ct_walk::MoveFault;

/// Why a line of a ledger is refused.
#[derive(Clone, Copy, Debug, PartialEq, Eq)]
pub enum Reason {
    /// The size isn't the instance's.
    Size,
    /// The head of a move has a grade above the ledger's.
    Grade,
    /// Head and tail of a move differ in degree.
    Degree,
    /// The tail of a move isn't below its head.
    Order,
    /// Another job is next than the entry's, or none is left; or the ledger ends and a job is left.
    Entry,
    /// A coprime pair has walks, or a pair that isn't is said to be coprime.
    Coprime,
    /// A step of one of the two walks doesn't apply.
    Step,
    /// The two walks end at different points.
    End,
}

/// The verdict on a ledger.
#[derive(Clone, Copy, Debug, PartialEq, Eq)]
pub enum Verdict {
    /// It is accepted: its grade, and how many moves it has.
    Accepted { grade: u64, moves: u32 },
    /// The first line that is refused, from 1, and why.
    Refused { line: u64, reason: Reason },
}

// Why a move with this fault is refused.
pub fn reason_of(fault: MoveFault) -> Reason
    ensures { result ≡ reason_for fault }
{
    match fault {
        MoveFault::Grade => Reason::Grade,
        MoveFault::Degree => Reason::Degree,
        MoveFault::Order => Reason::Order,
    }
}
