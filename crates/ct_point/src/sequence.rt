//! A vector that clauses see as its items.
ghost use Rattle.std.specs.Prelude.{◌≡◌, List};

use std::marker::Model;

/// A vector that is seen as the list of its items, so that a clause may compare it with a definition's value.
#[derive(Debug, Drop)]
pub struct Seq<T> {
    items: Vec<T>,
}

impl<T> Model for Seq<T> {
    ghost Value = { List T };

    ghost view = { λ s. s.items.items };
}

impl<T> Seq<T> {
    /// Takes over the vector with its memory.
    pub fn from_vec(v: Vec<T>) -> Seq<T>
        ensures { result ≡ v.items }
    {
        Seq { items: v }
    }

    /// Hands back the vector with its memory.
    pub fn into_vec(self) -> Vec<T>
        ensures { result.items ≡ self }
    {
        self.items
    }

    /// The items in order.
    pub fn as_slice(&self) -> &[T]
        ensures { result.now ≡ self.now }
    {
        self.items.as_slice()
    }
}
