//! The place of a value in a file.

ghost use Rattle.std.specs.Prelude.{◌≡◌, ◌<◌, length, [], IfOk};
ghost use Rattle.ct_json.specs.Values.{◌▹◌};

use ct_input::{Fault, InputStop, JsonReason, PathStep};
use ct_point::Seq;
use std::alloc::{AllocError, Global};
use std::marker::Model;

/// The most steps of a path: from a file to a number of a request it takes seven.
pub const STEP_LIMIT: usize = 8;

/// The path from a file's value to a value in it. It takes memory only where it becomes a part of a fault.
#[derive(Drop)]
pub struct Here {
    steps: [PathStep; STEP_LIMIT],
    len: usize,
}

impl Model for Here {
    ghost use Rattle.std.specs.Prelude.{◌≤◌, List, take, length};
    ghost use Rattle.ct_input.specs.declared.path.PathStep.{PathStep};
    ghost use Rattle.ct_json.specs.declared.here.TheConstants.{STEP_LIMIT};

    ghost Value = { List PathStep };

    ghost view = { λ here. take here.len here.steps };

    ghost invariant = { λ here. here.len ≤ STEP_LIMIT };
}

impl Here {
    ghost use Rattle.ct_json.specs.declared.here.TheConstants.{STEP_LIMIT};
    ghost use Rattle.ct_json.specs.Refusing.{Refuses};

    /// The file's value itself.
    pub fn top() -> Here
        ensures { result ≡ [] }
    {
        Here {
            steps: [PathStep::Index(0); STEP_LIMIT],
            len: 0,
        }
    }

    /// A step further.
    pub fn then(&self, step: PathStep) -> Here
        requires { length self.now < STEP_LIMIT }
        ensures { result ≡ self.now ▹ step }
    {
        let mut steps = self.steps;
        steps[self.len] = step;
        Here {
            steps,
            len: self.len + 1,
        }
    }

    fn path(&self, alloc: Global) -> Result<Seq<PathStep>, AllocError>
        ensures { IfOk result (λ path. path ≡ self.now) }
    {
        Ok(Seq::from_vec(Vec::from_slice(alloc, &self.steps[..self.len])?))
    }

    /// The fault of this reason at this place.
    pub fn refuse(&self, alloc: Global, reason: JsonReason) -> InputStop
        ensures { Refuses result self.now reason }
    {
        match self.path(alloc) {
            Ok(path) => InputStop::Fault(Fault::Json { path, reason }),
            Err(_) => InputStop::Memory,
        }
    }
}
