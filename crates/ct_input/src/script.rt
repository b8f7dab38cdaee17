//! What a session text says.

ghost use Rattle.std.specs.Prelude.{◌≡◌};

use ct_point::Seq;

/// One request of a session, with the m numbers of its right-hand side.
#[derive(Debug, Drop)]
pub enum Request {
    /// Answer from what is finished by now.
    Ask(Seq<u64>),
    /// Finish as much as the answer needs.
    Solve(Seq<u64>),
}

impl Request {
    ghost use Rattle.ct_input.specs.Script.{right_of};

    /// The right-hand side.
    pub fn right(&self) -> &[u64]
        ensures { result.now ≡ right_of self.now }
    {
        match self {
            Request::Ask(b) => b.as_slice(),
            Request::Solve(b) => b.as_slice(),
        }
    }
}

/// A grade up to which jobs are worked on, and the sessions that run meanwhile.
#[derive(Debug, Drop)]
pub struct Phase {
    pub target: u64,
    pub sessions: Seq<Seq<Request>>,
}

/// The phases of a file in their order.
#[derive(Debug, Drop)]
pub struct Script {
    pub phases: Seq<Phase>,
}
