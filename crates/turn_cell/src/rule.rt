//! The rule of the table, and what each kind of step tells.
use crate::note::Note;
use crate::numbered::Numbered;
use atomic_table::{Join, Play, Split, TableRule};
use std::marker::PhantomData;
use std::snapshot::Snapshot;

pub struct Turns<V> {
    value: PhantomData<V>,
}

impl<V: Numbered> TableRule<Option<V>, Note<V>, Snapshot<V>> for Turns<V> {
    ghost use Rattle.turn_cell.specs.Turn.{TurnRule, first_note};

    ghost holds = { λ about. TurnRule V.number_of V.name_of about.value };

    ghost first = { λ about. first_note (V.number_of about.value) about.value };
}

pub(crate) struct Look;

impl<V> Play<Option<V>, Note<V>> for Look {
    ghost use Rattle.turn_cell.specs.Told.{Looked};

    ghost then = { Looked };
}

pub(crate) struct Take<V> {
    value: PhantomData<V>,
}

impl<V: Numbered> Play<Option<V>, Note<V>> for Take<V> {
    ghost use Rattle.turn_cell.specs.Told.{Took};

    ghost then = { Took V.number_of V.name_of };
}

pub(crate) struct Release;

impl<V> Play<Option<V>, Note<V>> for Release {
    ghost use Rattle.turn_cell.specs.Told.{Released};

    ghost then = { Released };
}

pub(crate) struct Cut;

impl<V> Split<Note<V>> for Cut {
    ghost use Rattle.turn_cell.specs.Told.{keeps_one, gives_one};

    ghost left = { keeps_one };

    ghost right = { gives_one };
}

pub(crate) struct Merge;

impl<V> Join<Note<V>> for Merge {
    ghost use Rattle.turn_cell.specs.Told.{takes_in};
    ghost use Rattle.turn_cell.specs.Turn.{spent_note};

    ghost both = { takes_in };

    ghost spent = { spent_note };
}
