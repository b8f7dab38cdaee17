//! The scripts of a session.
ghost use Rattle.std.specs.Prelude.{◌≡◌};
ghost use Rattle.ct_session.specs.Shown.{line_of};

use crate::lines::Line;
use crate::sessions::Session;
use crate::stops::SolveStop;
use ct_input::Request;
use ct_point::Seq;
use ct_version::{Answered, AskStop, Desk, Gate};
use std::alloc::{AllocError, Global};
use std::sync::Wait;

impl<D: Desk + Drop> Session<D> {
    ghost use Rattle.std.specs.Prelude.{◌≡◌, ◌≤◌, ◌++◌, [], ◌∷◌, All, IfOk, length, drop};
    ghost use Rattle.ct_vectors.specs.declared.limits.TheConstants.{RIGHT_LIMIT};
    ghost use Rattle.ct_instance.specs.Instance.{IsRight};
    ghost use Rattle.ct_input.specs.Script.{IsRequest};
    ghost use Rattle.ct_version.specs.Desks.{IsOfPlace};
    ghost use Rattle.ct_vectors.specs.Words.{Extends};
    ghost use Rattle.ct_session.specs.Sessions.{Rises};
    ghost use Rattle.ct_session.specs.Shown.{AreShown};

    /// Tells one line for each request in order: an ask by `ask_walk`, a solve by `solve`. Walks are kept where they are
    /// asked for. Before its t-th request, from 0, it passes the gate, as `who`. It may wait for others. Want of memory
    /// leaves what was reached.
    pub fn run_script<R: Wait, G: Gate>(
        &mut self,
        rt: &R,
        alloc: Global,
        gate: &G,
        who: u32,
        script: &[Request],
        walks: bool,
    ) -> Result<Vec<Line>, AllocError>
        requires { All (IsRequest (D.place self.old.desk).instance.rows) script.now }
        ensures home { D.home self.new.desk ≡ D.home self.old.desk }
        ensures loan { D.loan self.new.desk ≡ D.loan self.old.desk }
        ensures place { D.place self.new.desk ≡ D.place self.old.desk }
        ensures words { Extends (D.words self.old.desk) (D.words self.new.desk) }
        ensures refused { Rises (D.refused self.old.desk) (D.refused self.new.desk) }
        ensures never_falls { self.old.pinned.number ≤ self.new.pinned.number }
        ensures shown { IfOk result (λ lines. AreShown (D.place self.old.desk) walks (D.refused self.old.desk) (D.refused self.new.desk) self.old.pinned.number script.now lines.items (drop (length (D.words self.old.desk)) (D.words self.new.desk)) self.new.pinned.number) }
    {
        let mut lines = Vec::with_capacity(alloc, script.len())?;
        for turn in 0..script.len() {
            gate.before(rt, who, turn as u64);
            let request = &script[turn];
            let line = self.tell(rt, alloc, request, walks)?;
            lines.push(line)?;
        }
        Ok(lines)
    }

    // One request.
    fn tell<R: Wait>(
        &mut self,
        rt: &R,
        alloc: Global,
        request: &Request,
        walks: bool,
    ) -> Result<Line, AllocError>
        requires { IsRequest (D.place self.old.desk).instance.rows request.now }
        ensures home { D.home self.new.desk ≡ D.home self.old.desk }
        ensures loan { D.loan self.new.desk ≡ D.loan self.old.desk }
        ensures place { D.place self.new.desk ≡ D.place self.old.desk }
        ensures words { Extends (D.words self.old.desk) (D.words self.new.desk) }
        ensures refused { Rises (D.refused self.old.desk) (D.refused self.new.desk) }
        ensures never_falls { self.old.pinned.number ≤ self.new.pinned.number }
        ensures shown { IfOk result (λ line. AreShown (D.place self.old.desk) walks (D.refused self.old.desk) (D.refused self.new.desk) self.old.pinned.number (request.now ∷ []) (line ∷ []) (drop (length (D.words self.old.desk)) (D.words self.new.desk)) self.new.pinned.number) }
    {
        match request {
            Request::Ask(b) => self.tell_ask(alloc, b.as_slice(), walks),
            Request::Solve(b) => self.tell_solve(rt, alloc, b.as_slice(), walks),
        }
    }

    fn tell_ask(&mut self, alloc: Global, b: &[u64], walks: bool) -> Result<Line, AllocError>
        requires right { IsRight (D.place self.old.desk).instance b.now }
        requires limit { All (λ x. x ≤ RIGHT_LIMIT) b.now }
        ensures home { D.home self.new.desk ≡ D.home self.old.desk }
        ensures loan { D.loan self.new.desk ≡ D.loan self.old.desk }
        ensures place { D.place self.new.desk ≡ D.place self.old.desk }
        ensures words { Extends (D.words self.old.desk) (D.words self.new.desk) }
        ensures refused { Rises (D.refused self.old.desk) (D.refused self.new.desk) }
        ensures never_falls { self.old.pinned.number ≤ self.new.pinned.number }
        ensures shown { IfOk result (λ line. AreShown (D.place self.old.desk) walks (D.refused self.old.desk) (D.refused self.new.desk) self.old.pinned.number (Request.Ask b.now ∷ []) (line ∷ []) (drop (length (D.words self.old.desk)) (D.words self.new.desk)) self.new.pinned.number) }
    {
        match self.ask_walk(alloc, b) {
            Ok(answered) => Ok(answered_line(answered, walks)),
            Err(AskStop::NotYet { finished }) => Ok(Line::NotYet { finished }),
            Err(AskStop::Memory) => Err(AllocError),
        }
    }

    fn tell_solve<R: Wait>(
        &mut self,
        rt: &R,
        alloc: Global,
        b: &[u64],
        walks: bool,
    ) -> Result<Line, AllocError>
        requires right { IsRight (D.place self.old.desk).instance b.now }
        requires limit { All (λ x. x ≤ RIGHT_LIMIT) b.now }
        ensures home { D.home self.new.desk ≡ D.home self.old.desk }
        ensures loan { D.loan self.new.desk ≡ D.loan self.old.desk }
        ensures place { D.place self.new.desk ≡ D.place self.old.desk }
        ensures words { Extends (D.words self.old.desk) (D.words self.new.desk) }
        ensures refused { Rises (D.refused self.old.desk) (D.refused self.new.desk) }
        ensures never_falls { self.old.pinned.number ≤ self.new.pinned.number }
        ensures shown { IfOk result (λ line. AreShown (D.place self.old.desk) walks (D.refused self.old.desk) (D.refused self.new.desk) self.old.pinned.number (Request.Solve b.now ∷ []) (line ∷ []) (drop (length (D.words self.old.desk)) (D.words self.new.desk)) self.new.pinned.number) }
    {
        // for the fact that the pinned version is one
        let _number = self.pinned();
        match self.solve(rt, alloc, b) {
            Ok(answered) => Ok(answered_line(answered, walks)),
            Err(SolveStop::Full { grade }) => Ok(Line::Full { grade }),
            Err(SolveStop::Memory) => Err(AllocError),
        }
    }
}

// The line of an answer, with its walk where walks are kept.
fn answered_line(answered: Answered, walks: bool) -> Line
    ensures { result ≡ line_of answered walks }
{
    let (steps, _) = answered.walk.into_parts();
    Line::Answered {
        answer: answered.answer,
        walk: if walks {
            Some(Seq::from_vec(steps))
        } else {
            None
        },
    }
}
