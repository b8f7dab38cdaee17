//! The value, while its pass holds the turn.
use crate::numbered::Numbered;
use std::marker::Model;

/// The value that a take got. It can't be dropped: give it back with the pass that took it.
pub struct Held<V: Numbered> {
    pub(crate) value: V,
}

impl<V: Numbered> Model for Held<V> {
    ghost use Rattle.std.specs.Prelude.{◌^◌, ◌<◌};

    ghost Value = { V };

    ghost view = { λ h. h.value };

    ghost invariant = { λ h. V.number_of h.value < 2 ^ 62 };
}

impl<V: Numbered> Held<V> {
    ghost use Rattle.std.specs.Prelude.{◌≡◌};

    pub fn value(&self) -> &V
        ensures { result.now ≡ self.now }
    {
        &self.value
    }
}
