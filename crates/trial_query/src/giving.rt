//! Inputs of queries as plain data. Numbers are in millionths.
ghost use Rattle.std.specs.Prelude.{◌≡◌, map, IfSome, IsTrue, ◌∷◌, []};
ghost use Rattle.nl_value.specs.Plain.{PlainItems, plains};
ghost use Rattle.nl_value.specs.Views.{plain};
ghost use Rattle.nl_agents.specs.Standing.{fits_rest};
ghost use Rattle.nl_agentset_query.specs.Inputs.{inputs_fit};
ghost use Rattle.trial_query.specs.Giving.{FitAlways};

use nl_agents::Store;
use nl_fixed::Num;
use nl_value::{Items, Value};
use std::alloc::Global;
use trial_stores::Tried;
use trial_stores::naming::Named;

/// An input.
#[derive(Clone, Copy, Debug)]
pub(crate) enum Given {
    Number(i64),
    Truth(bool),
    Agent(Named),
    Numbers(&'static [i64]),
    Agents(&'static [Named]),
    /// A number, so many times in a list.
    Filled(i64, usize),
    /// A list of lists of two numbers.
    Offsets(&'static [(i64, i64)]),
}

fn numbers(alloc: Global, counts: &[i64]) -> Option<Items>
    ensures { IfSome result FitAlways }
{
    let mut items = Items::empty(alloc);
    for count in counts {
        items.push(alloc, Value::Number(Num::new(*count)?)).ok()?;
    }
    Some(items)
}

fn filled(alloc: Global, count: i64, many: usize) -> Option<Items>
    ensures { IfSome result FitAlways }
{
    match Items::filled(alloc, Num::new(count)?, many) {
        Ok(items) => Some(items),
        Err(_) => None,
    }
}

// The value that is the list of the items.
fn listed(alloc: Global, items: Items) -> Option<Value>
    ensures { IfSome result (λ value. plain value ≡ PlainItems (plains items)) }
{
    match Value::items(alloc, items) {
        Ok(value) => Some(value),
        Err(_) => None,
    }
}

fn offset(alloc: Global, x: i64, y: i64) -> Option<Value>
    ensures { IfSome result (λ value. FitAlways (plain value ∷ [])) }
{
    Some(listed(alloc, numbers(alloc, &[x, y])?)?)
}

fn offsets(alloc: Global, pairs: &[(i64, i64)]) -> Option<Items>
    ensures { IfSome result FitAlways }
{
    let mut items = Items::empty(alloc);
    for pair in pairs {
        items.push(alloc, offset(alloc, pair.0, pair.1)?).ok()?;
    }
    Some(items)
}

fn agents<S: Store>(alloc: Global, tried: &Tried<S>, agents: &[Named]) -> Option<Items>
    ensures { IfSome result (λ items. IsTrue (inputs_fit (S.world tried.now.store).rest items)) }
{
    let mut items = Items::empty(alloc);
    for agent in agents {
        items.push(alloc, tried.value_of(alloc, *agent)?).ok()?;
    }
    Some(items)
}

/// The value of an input. None where it doesn't fit the store, and at want of memory.
fn value_of<S: Store>(alloc: Global, tried: &Tried<S>, given: Given) -> Option<Value>
    ensures { IfSome result (λ value. IsTrue (fits_rest (S.world tried.now.store).rest (plain value))) }
{
    match given {
        Given::Number(count) => Some(Value::Number(Num::new(count)?)),
        Given::Truth(truth) => Some(Value::Truth(truth)),
        Given::Agent(agent) => tried.value_of(alloc, agent),
        Given::Numbers(counts) => Some(listed(alloc, numbers(alloc, counts)?)?),
        Given::Filled(count, many) => Some(listed(alloc, filled(alloc, count, many)?)?),
        Given::Agents(list) => Some(listed(alloc, agents(alloc, tried, list)?)?),
        Given::Offsets(pairs) => Some(listed(alloc, offsets(alloc, pairs)?)?),
    }
}

/// The values of some inputs.
pub(crate) fn values_of<S: Store>(
    alloc: Global,
    tried: &Tried<S>,
    inputs: &[Given],
) -> Option<Vec<Value>>
    ensures { IfSome result (λ values. IsTrue (inputs_fit (S.world tried.now.store).rest (map plain values.items))) }
{
    let mut values = Vec::new(alloc);
    for input in inputs {
        values.push(value_of(alloc, tried, *input)?).ok()?;
    }
    Some(values)
}
