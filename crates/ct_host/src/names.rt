//! The names to which the values of a host belong. No value of them is made.
use ct_instance::Instance;
use std::marker::Model;

// The name of a version in the cell: its instance and the limit on the number of moves.
pub struct VersionName {
    instance: Instance,
    limit: u32,
}

impl Model for VersionName {
    ghost use Rattle.ct_version.specs.Desks.{Place};

    ghost Value = { Place };

    ghost view = { λ n. record { instance = n.instance; limit = n.limit } };
}

// The name of a book behind the lock: these and the number of passes.
pub struct BookName {
    instance: Instance,
    limit: u32,
    passes: u32,
}

impl Model for BookName {
    ghost use Rattle.ct_book.specs.Benches.{BenchPlace};

    ghost Value = { BenchPlace };

    ghost view = { λ n. record { instance = n.instance; limit = n.limit; passes = n.passes } };
}
