//! What the cell holds.
ghost use Rattle.std.specs.Prelude.{◌≡◌, ◌<◌, ◌^◌, ◌*◌};

use crate::names::VersionName;
use ct_version::{Pin, Version};
use std::alloc::AllocError;
use std::marker::Model;
use std::sync::Arc;
use turn_cell::Numbered;

// A version with the limit of its host, within which its list is.
#[derive(Drop)]
pub struct Newest {
    version: Arc<Version>,
    limit: u32,
}

impl Model for Newest {
    ghost use Rattle.std.specs.Arc.{arc_value};
    ghost use Rattle.ct_version.specs.Desks.{IsOfPlace};
    ghost use Rattle.ct_host.specs.Values.{PlacedVersion, placed};

    ghost Value = { PlacedVersion };

    ghost view = { λ n. placed (arc_value n.version) n.limit };

    ghost invariant = { λ n. IsOfPlace (record { instance = (arc_value n.version).instance; limit = n.limit }) (arc_value n.version) };
}

impl Numbered for Newest {
    type Name = VersionName;

    ghost number_of = { λ n. n.number };

    ghost name_of = { λ n. n.place };

    fn number(&self) -> u64 {
        self.version.number()
    }

    fn share(&self) -> Result<Newest, AllocError> {
        Ok(Newest {
            version: Arc::try_clone(&self.version)?,
            limit: self.limit,
        })
    }
}

impl Newest {
    ghost use Rattle.std.specs.Arc.{arc_value};
    ghost use Rattle.ct_version.specs.Desks.{IsOfPlace, IsPin};
    ghost use Rattle.ct_host.specs.Values.{placed};

    pub fn new(version: Arc<Version>, limit: u32) -> Newest
        requires { IsOfPlace (record { instance = (arc_value version).instance; limit = limit }) (arc_value version) }
        ensures value { result ≡ placed (arc_value version) limit }
        ensures small { result.number < 2 ^ 62 }
    {
        // Called for what it ensures: numbers of versions are small.
        let _number = version.number();
        Newest { version, limit }
    }

    // The version, where its number is above the one that is held.
    pub fn pinned(&self, held: u64) -> Pin
        ensures { IsPin self.now.place held (2 * self.now.number) result }
    {
        let number = self.version.number();
        if number <= held {
            return Pin::NotNewer { number };
        }
        match Arc::try_clone(&self.version) {
            Ok(version) => Pin::Newer(version),
            Err(_) => Pin::Memory,
        }
    }
}
