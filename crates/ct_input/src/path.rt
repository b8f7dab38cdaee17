//! Where in a JSON file a value stands.

ghost use Rattle.std.specs.Prelude.{◌≡◌};

/// The name of a member.
#[derive(Clone, Copy, Debug, PartialEq, Eq)]
pub enum Name {
    Instance,
    Matrix,
    Cost,
    Sessions,
    Phases,
    Target,
    Ask,
    Solve,
}

impl Name {
    ghost use Rattle.ct_input.specs.FaultText.{name_text};

    /// The name as it is written in a file, as `matrix`.
    pub fn text(self) -> &'static str
        ensures { result.now ≡ name_text self }
    {
        match self {
            Name::Instance => "instance",
            Name::Matrix => "matrix",
            Name::Cost => "cost",
            Name::Sessions => "sessions",
            Name::Phases => "phases",
            Name::Target => "target",
            Name::Ask => "ask",
            Name::Solve => "solve",
        }
    }
}

/// A step from a value to one in it.
#[derive(Clone, Copy, Debug, PartialEq, Eq)]
pub enum PathStep {
    /// To the member with this name.
    Member(Name),
    /// To the item at this index, from 0.
    Index(u32),
}

/// Why a value can't stand where it stands.
#[derive(Clone, Copy, Debug, PartialEq, Eq)]
pub enum JsonReason {
    /// There is no value.
    Missing,
    /// A value of another kind must stand there.
    Kind,
    /// A number out of its limits, or a list with too many or too few items.
    Limit,
    /// The object has a member that it may not have.
    Extra,
    /// All entries of a column are 0; the place is that of its entry in the first row.
    ZeroColumn,
}
