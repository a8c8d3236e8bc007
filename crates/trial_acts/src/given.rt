//! Inputs of acts as plain data. Numbers are in millionths.
ghost use Rattle.std.specs.Prelude.{◌≡◌, ◌∷◌, [], map, IfSome, IsTrue};
ghost use Rattle.nl_value.specs.Plain.{PlainNumber};
ghost use Rattle.nl_value.specs.Views.{plain};
ghost use Rattle.nl_agents.specs.Standing.{fits_rest};
ghost use Rattle.nl_agentset_query.specs.Inputs.{inputs_fit};

use nl_agents::Store;
use nl_fixed::{Num, Str};
use nl_value::{Items, Value};
use std::alloc::Global;
use trial_stores::Tried;
use trial_stores::naming::Named;

/// An input.
#[derive(Clone, Copy)]
pub(crate) enum Given {
    Number(i64),
    Truth(bool),
    Words(&'static str),
    /// A list of two numbers.
    Pair(i64, i64),
    Agent(Named),
}

fn pair_of(alloc: Global, first: Num, second: Num) -> Option<Items>
    ensures { IfSome result (λ pair. pair ≡ PlainNumber first ∷ PlainNumber second ∷ []) }
{
    let mut items = Items::empty(alloc);
    items.push(alloc, Value::Number(first)).ok()?;
    items.push(alloc, Value::Number(second)).ok()?;
    Some(items)
}

/// The value of an input. None where it doesn't fit the store, and at want of memory.
fn value_of<S: Store>(alloc: Global, tried: &Tried<S>, given: Given) -> Option<Value>
    ensures { IfSome result (λ value. IsTrue (fits_rest (S.world tried.now.store).rest (plain value))) }
{
    match given {
        Given::Number(count) => Some(Value::Number(Num::new(count)?)),
        Given::Truth(truth) => Some(Value::Truth(truth)),
        Given::Words(text) => Value::words(alloc, Str::of(alloc, text.as_bytes()).ok()?).ok(),
        Given::Pair(first, second) => {
            let pair = pair_of(alloc, Num::new(first)?, Num::new(second)?)?;
            Value::items(alloc, pair).ok()
        }
        Given::Agent(named) => tried.value_of(alloc, named),
    }
}

/// The values of some inputs.
pub(crate) fn values_of<S: Store>(
    alloc: Global,
    tried: &Tried<S>,
    inputs: &[Given],
) -> Option<Vec<Value>>
    ensures { IfSome result (λ values. IsTrue (inputs_fit (S.world tried.now.store).rest (map plain values.items))) }
{
    let mut values = Vec::new(alloc);
    for input in inputs {
        values.push(value_of(alloc, tried, *input)?).ok()?;
    }
    Some(values)
}
