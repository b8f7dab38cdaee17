//! The names whose fetch has failed, each as often as it failed.
ghost use Rattle.std.specs.Prelude.{◌≡◌, ◌-◌, [], ◌∷◌, ◌++◌, length, take, List, ℕ, map, OnOk, OnErr, string_bytes};

use std::alloc::{AllocError, Global};
use std::marker::Model;

#[derive(Drop)]
pub struct FailedNames {
    names: Vec<String>,
}

impl Model for FailedNames {
    ghost Value = { List (List ℕ) };

    ghost view = { λ a. map string_bytes a.names.items };
}

impl FailedNames {
    pub fn new(alloc: Global) -> Self
        ensures { result ≡ [] }
    {
        FailedNames {
            names: Vec::new(alloc),
        }
    }

    pub fn note(&mut self, alloc: Global, name: &str) -> Result<(), AllocError>
        ensures ok { OnOk result (self.new ≡ self.old ++ name.now ∷ []) }
        ensures err { OnErr result (self.new ≡ self.old) }
    {
        self.names.push(String::from_str(alloc, name)?)?;
        Ok(())
    }

    pub fn forget_last(&mut self)
        ensures { self.new ≡ take (length self.old - 1) self.old }
    {
        let _ = self.names.pop();
    }
}
