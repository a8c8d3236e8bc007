//! Literals as values of TOML.
ghost use Rattle.std.specs.Prelude.{◌≡◌, option_map};
ghost use Rattle.std.specs.Result.{result_map_both};
ghost use Rattle.toml.specs.View.{view};
ghost use Rattle.nl_value.specs.Views.{plain};
ghost use Rattle.nl_experiment_fields.specs.Reading.{Gives};
ghost use Rattle.nl_experiment_fields.specs.Reading as spec;

use nl_experiment_keys::values::other_kind;
use nl_experiment_keys::{PlanKind, literal, number, whole};
use nl_fixed::{NoMemory, Num};
use nl_value::Value;
use std::alloc::Global;

/// Why a value isn't read: what is wrong with it, or want of memory.
#[derive(Clone, Copy, Debug, PartialEq, Eq)]
pub enum ValueRefusal {
    Bad(PlanKind),
    NoMemory,
}

impl From<NoMemory> for ValueRefusal {
    ghost use Rattle.std.specs.Prelude.{◌≡◌};
    ghost use Rattle.nl_experiment_fields.specs.declared.literals.ValueRefusal.TheVariants as ValueRefusal;

    ghost from_gives = { λ _ refusal. refusal ≡ ValueRefusal.NoMemory };

    fn from(_refused: NoMemory) -> ValueRefusal {
        ValueRefusal::NoMemory
    }
}

// The value that is there, or else a bad literal.
fn value_or_bad(found: Option<Value>) -> Result<Value, ValueRefusal>
    ensures { Gives (spec.literal_or_bad (option_map plain found)) (result_map_both plain (λ r. r) result) }
{
    match found {
        Some(value) => Ok(value),
        None => Err(ValueRefusal::Bad(PlanKind::BadLiteral)),
    }
}

/// The literal that a value is: an integer, a truth, or a text that holds one.
pub fn literal_in(alloc: Global, value: &toml::Value) -> Result<Value, ValueRefusal>
    ensures { Gives (spec.literal_in (view value.now)) (result_map_both plain (λ r. r) result) }
{
    if let Some(integer) = value.as_integer() {
        return value_or_bad(whole(integer));
    }
    if let Some(truth) = value.as_bool() {
        return Ok(Value::Truth(truth));
    }
    match value.as_str() {
        Some(text) => value_or_bad(literal(alloc, text.as_bytes())?),
        None => Err(ValueRefusal::Bad(other_kind(value))),
    }
}

// The number that is there, or else a bad literal.
fn number_or_bad(found: Option<Num>) -> Result<Num, ValueRefusal>
    ensures { Gives (spec.literal_or_bad found) result }
{
    match found {
        Some(number) => Ok(number),
        None => Err(ValueRefusal::Bad(PlanKind::BadLiteral)),
    }
}

/// The number that a value is: an integer, or a text that holds a number.
pub fn number_in(alloc: Global, value: &toml::Value) -> Result<Num, ValueRefusal>
    ensures { Gives (spec.number_in (view value.now)) result }
{
    if let Some(integer) = value.as_integer() {
        return number_or_bad(Num::whole(integer));
    }
    match value.as_str() {
        Some(text) => number_or_bad(number(alloc, text.as_bytes())?),
        None => Err(ValueRefusal::Bad(other_kind(value))),
    }
}

/// What is told of a value that is of no literal's kind.
pub fn misfit(value: &toml::Value) -> Option<PlanKind>
    ensures { spec.kind_of_literal (view value.now) ≡ spec.unless result }
{
    match value {
        toml::Value::Integer(_) | toml::Value::Boolean(_) | toml::Value::String(_) => None,
        _ => Some(other_kind(value)),
    }
}
