//! How a command ends.

ghost use Rattle.std.specs.Prelude.{◌≡◌};

/// How a run ended.
#[derive(Clone, Copy, Debug, PartialEq, Eq)]
pub enum Status {
    /// The command's text was written whole.
    Done,
    /// The words are no command.
    Usage,
    /// The instance file has a fault.
    BadInstance,
    /// The session file has a fault.
    BadSessions,
    /// A file that the words name could not be read.
    ReadFault,
    /// The text or line could not be written whole.
    WriteFault,
    /// Memory ran out, and nothing was written.
    Memory,
    /// The ledger file is the text of no ledger.
    BadLedger,
    /// A line of the ledger is refused.
    LedgerRefused,
    /// The test list of some grade up to the one that was asked for has more moves than the limit.
    Full,
    /// The ledger is accepted, but its moves are no test list: they aren't reduced.
    NotReduced,
    /// More least solutions may be asked for than are told at once: the number of requests times the count is above 10,000.
    TooMany,
}

impl Status {
    ghost use Rattle.ct_run.specs.Status.{number_of};

    /// The number with which the program ends.
    pub fn number(&self) -> u8
        ensures { result ≡ number_of self.now }
    {
        match self {
            Status::Done => 0,
            Status::Usage => 2,
            Status::BadInstance => 3,
            Status::BadSessions => 4,
            Status::ReadFault => 5,
            Status::WriteFault => 6,
            Status::Memory => 7,
            Status::BadLedger => 8,
            Status::LedgerRefused => 9,
            Status::Full => 10,
            Status::NotReduced => 11,
            Status::TooMany => 12,
        }
    }
}
