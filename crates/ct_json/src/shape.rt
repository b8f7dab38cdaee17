//! Shapes, and lists of them.

ghost use Rattle.std.specs.Prelude.{◌≡◌, ◌<◌, ◌≤◌, ◌+◌, ◌-◌, ◌^◌, ℕ, map, length, sum_by, IfOk};
ghost use Rattle.serde_json.specs.View.{view};
ghost use Rattle.ct_input.specs.declared.limits.TheConstants.{REQUEST_LIMIT};
ghost use Rattle.ct_input.specs.Sheet.{Gives};
ghost use Rattle.ct_json.specs.declared.here.TheConstants.{STEP_LIMIT};
ghost use Rattle.ct_json.specs.Shapes.{Shape, items_at, each, list_of};

use crate::here::Here;
use crate::values::array;
use ct_input::{InputStop, JsonReason, PathStep};
use ct_point::Seq;
use serde_json::Value;
use std::alloc::Global;

/// What a value has to be, and what it then says.
pub trait Shaped {
    /// What it says.
    type Made: Drop;

    /// The shape.
    ghost shape: { Self → Shape Self.Made };

    /// How many steps its paths have.
    ghost steps: { ℕ };

    /// Reads a value at its place, and takes what it uses from what the file has to spare. After an `Err` nothing is
    /// known of what is spare.
    fn read(
        &self,
        alloc: Global,
        here: &Here,
        value: &Value,
        spare: &mut usize,
    ) -> Result<Self::Made, InputStop>
        requires steps { length here.now + steps ≤ STEP_LIMIT }
        requires few { spare.old ≤ REQUEST_LIMIT }
        ensures gives { Gives (λ made. made) result ((shape self.now).reads spare.old here.now (view value.now)) }
        ensures spare { IfOk result (λ made. spare.new ≡ spare.old - (shape self.now).uses made) };
}

/// The items of an array with so many of them.
pub fn items<'v>(
    alloc: Global,
    here: &Here,
    value: &'v Value,
    low: u32,
    high: u32,
) -> Result<&'v [Value], InputStop>
    ensures gives { Gives (λ values. map view values.now) result (items_at low high here.now (view value.now)) }
    ensures some { IfOk result (λ values. low ≤ length values.now) }
    ensures few { IfOk result (λ values. length values.now ≤ high) }
{
    let values = array(alloc, here, value)?;
    if values.len() < low as usize || values.len() > high as usize {
        return Err(here.refuse(alloc, JsonReason::Limit));
    }
    Ok(values)
}

/// The values in turn, the first at this index.
pub fn each<S: Shaped>(
    alloc: Global,
    shape: &S,
    here: &Here,
    index: u32,
    values: &[Value],
    spare: &mut usize,
) -> Result<Vec<S::Made>, InputStop>
    requires steps { length here.now + S.steps < STEP_LIMIT }
    requires few { index + length values.now < 2 ^ 32 }
    requires spare { spare.old ≤ REQUEST_LIMIT }
    ensures gives { Gives (λ found. found.items) result (each (S.shape shape.now) here.now index spare.old (map view values.now)) }
    ensures spare { IfOk result (λ found. spare.new ≡ spare.old - sum_by (S.shape shape.now).uses found.items) }
{
    let mut found = Vec::new(alloc);
    for (i, value) in values.iter().enumerate() {
        let at = here.then(PathStep::Index(index + i as u32));
        let made = shape.read(alloc, &at, value, spare)?;
        found.push(made)?;
    }
    Ok(found)
}

/// An array of so many items of a shape.
#[derive(Drop)]
pub struct ListOf<S> {
    pub low: u32,
    pub high: u32,
    pub item: S,
}

impl<S: Shaped> Shaped for ListOf<S> {
    type Made = Seq<S::Made>;

    ghost shape = { λ list. list_of list.low list.high (S.shape list.item) };

    ghost steps = { S.steps + 1 };

    fn read(
        &self,
        alloc: Global,
        here: &Here,
        value: &Value,
        spare: &mut usize,
    ) -> Result<Seq<S::Made>, InputStop> {
        let values = items(alloc, here, value, self.low, self.high)?;
        let found = each(alloc, &self.item, here, 0, values, spare)?;
        Ok(Seq::from_vec(found))
    }
}
