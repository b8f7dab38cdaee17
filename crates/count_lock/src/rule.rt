//! The rule of the table, and what each kind of step tells.
use crate::counted::Counted;
use crate::note::Note;
use atomic_table::{Join, Play, Split, TableRule};
use std::marker::PhantomData;
use std::snapshot::Snapshot;

pub struct Counts<V> {
    value: PhantomData<V>,
}

impl<V: Counted> TableRule<Option<V>, Note<V>, (Snapshot<V>, u32)> for Counts<V> {
    ghost use Rattle.count_lock.specs.Count.{CountRule, first_note};

    ghost holds = { λ about. CountRule V.name_of V.counts_of about.0.value about.1 };

    ghost first = { λ about. first_note about.0.value (V.counts_of about.0.value) };
}

pub(crate) struct Take<V> {
    value: PhantomData<V>,
}

impl<V: Counted> Play<Option<V>, Note<V>> for Take<V> {
    ghost use Rattle.count_lock.specs.Told.{Took};

    ghost then = { Took V.name_of V.counts_of V.shows };
}

pub(crate) struct Release<V> {
    value: PhantomData<V>,
}

impl<V: Counted> Play<Option<V>, Note<V>> for Release<V> {
    ghost use Rattle.count_lock.specs.Told.{Released};

    ghost then = { Released V.counts_of };
}

pub(crate) struct Cut;

impl<V> Split<Note<V>> for Cut {
    ghost use Rattle.count_lock.specs.Told.{keeps_most, gives_last};

    ghost left = { keeps_most };

    ghost right = { gives_last };
}

pub(crate) struct Merge;

impl<V> Join<Note<V>> for Merge {
    ghost use Rattle.count_lock.specs.Told.{takes_in};
    ghost use Rattle.count_lock.specs.Count.{spent_note};

    ghost both = { takes_in };

    ghost spent = { spent_note };
}
