//! Numbers.

ghost use Rattle.std.specs.Prelude.{◌≡◌, pos};
ghost use Rattle.serde_json.specs.View.{view};
ghost use Rattle.ct_vectors.specs.declared.limits.TheConstants.{COST_LIMIT};
ghost use Rattle.ct_input.specs.Sheet.{Gives};
ghost use Rattle.ct_json.specs.Values.{whole_number};
ghost use Rattle.ct_json.specs.Shapes.{natural, signed, form_at};

use crate::here::Here;
use crate::shape::Shaped;
use ct_input::{InputStop, JsonReason};
use ct_vectors::limits::COST_LIMIT;
use serde_json::Value;
use std::alloc::Global;

/// A natural number up to `high`.
#[derive(Drop)]
pub struct Natural {
    pub high: u64,
}

impl Shaped for Natural {
    type Made = u64;

    ghost shape = { λ s. natural s.high };

    ghost steps = { 0 };

    fn read(
        &self,
        alloc: Global,
        here: &Here,
        value: &Value,
        _spare: &mut usize,
    ) -> Result<u64, InputStop> {
        let Some(number) = value.as_u64() else {
            return Err(here.refuse(alloc, JsonReason::Kind));
        };
        if number > self.high {
            return Err(here.refuse(alloc, JsonReason::Limit));
        }
        Ok(number)
    }
}

/// A whole number within the limit of a cost.
#[derive(Drop)]
pub struct SignedCost;

fn whole_number(value: &Value) -> Option<i128>
    ensures { result ≡ whole_number (view value.now) }
{
    match value.as_number() {
        Some(number) => number.as_i128(),
        None => None,
    }
}

impl Shaped for SignedCost {
    type Made = i64;

    ghost shape = { λ _. signed COST_LIMIT };

    ghost steps = { 0 };

    fn read(
        &self,
        alloc: Global,
        here: &Here,
        value: &Value,
        _spare: &mut usize,
    ) -> Result<i64, InputStop> {
        let Some(number) = whole_number(value) else {
            return Err(here.refuse(alloc, JsonReason::Kind));
        };
        if number.unsigned_abs() > COST_LIMIT as u128 {
            return Err(here.refuse(alloc, JsonReason::Limit));
        }
        Ok(number as i64)
    }
}

/// The number of the form, 1.
pub fn form(alloc: Global, here: &Here, value: &Value) -> Result<(), InputStop>
    ensures { Gives (λ _. pos 1) result (form_at here.now (view value.now)) }
{
    let Some(number) = whole_number(value) else {
        return Err(here.refuse(alloc, JsonReason::Kind));
    };
    if number != 1 {
        return Err(here.refuse(alloc, JsonReason::Limit));
    }
    Ok(())
}
