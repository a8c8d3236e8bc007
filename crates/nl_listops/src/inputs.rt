//! The inputs of a word, by place. One that is of another kind than the word takes there is WrongType, as one that is missing.
ghost use Rattle.std.specs.Prelude.{◌≡◌, [], map};
ghost use Rattle.nl_value.specs.Views.{plain};
ghost use Rattle.nl_value.specs.Plain.{PlainWords};
ghost use Rattle.nl_listops_series.specs.Outcomes.{Gives, outcome_map};
ghost use Rattle.nl_listops.specs.Inputs.{value_at, number_at, truth_at, text_at, list_at, numbers_in, as_number, as_truth, as_text, as_list};

use nl_fixed::{Num, Str};
use nl_listops_series::ListFail;
use nl_value::{Items, Value};
use std::alloc::Global;

/// The value as a number.
pub(crate) fn as_number(value: &Value) -> Result<Num, ListFail>
    ensures { result ≡ as_number (plain value.now) }
{
    match value {
        Value::Number(number) => Ok(*number),
        _ => Err(ListFail::WrongType),
    }
}

fn as_truth(value: &Value) -> Result<bool, ListFail>
    ensures { result ≡ as_truth (plain value.now) }
{
    match value {
        Value::Truth(truth) => Ok(*truth),
        _ => Err(ListFail::WrongType),
    }
}

/// The value as a text. One that takes no memory is the empty text that is given.
pub(crate) fn as_text<'a>(value: &'a Value, empty: &'a Str) -> Result<&'a Str, ListFail>
    requires { empty.now ≡ [] }
    ensures { outcome_map (λ text. text.now) result ≡ as_text (plain value.now) }
{
    match value {
        Value::Words(text) => Ok(&**text),
        Value::Blank => Ok(empty),
        _ => Err(ListFail::WrongType),
    }
}

fn as_list(value: &Value) -> Result<&Items, ListFail>
    ensures { outcome_map (λ items. items.now) result ≡ as_list (plain value.now) }
{
    match value {
        Value::Items(items) => Ok(&**items),
        _ => Err(ListFail::WrongType),
    }
}

/// The input at a place.
pub(crate) fn value_at(inputs: &[Value], at: usize) -> Result<&Value, ListFail>
    ensures { outcome_map (λ value. plain value.now) result ≡ value_at (map plain inputs.now) at }
{
    match inputs.get(at) {
        Some(value) => Ok(value),
        None => Err(ListFail::WrongType),
    }
}

/// The input at a place, as a number.
pub(crate) fn number_at(inputs: &[Value], at: usize) -> Result<Num, ListFail>
    ensures { result ≡ number_at (map plain inputs.now) at }
{
    as_number(value_at(inputs, at)?)
}

/// The input at a place, as a truth.
pub(crate) fn truth_at(inputs: &[Value], at: usize) -> Result<bool, ListFail>
    ensures { result ≡ truth_at (map plain inputs.now) at }
{
    as_truth(value_at(inputs, at)?)
}

/// The input at a place, as a text.
pub(crate) fn text_at<'a>(
    inputs: &'a [Value],
    at: usize,
    empty: &'a Str,
) -> Result<&'a Str, ListFail>
    requires { empty.now ≡ [] }
    ensures { outcome_map (λ text. text.now) result ≡ text_at (map plain inputs.now) at }
{
    as_text(value_at(inputs, at)?, empty)
}

/// The input at a place, as a list.
pub(crate) fn list_at(inputs: &[Value], at: usize) -> Result<&Items, ListFail>
    ensures { outcome_map (λ items. items.now) result ≡ list_at (map plain inputs.now) at }
{
    as_list(value_at(inputs, at)?)
}

/// All values as numbers.
pub(crate) fn numbers_in(alloc: Global, values: &[Value]) -> Result<Vec<Num>, ListFail>
    ensures { Gives (outcome_map (λ numbers. numbers.items) result) (numbers_in (map plain values.now)) }
{
    let mut numbers = Vec::new(alloc);
    for value in values {
        numbers.push(as_number(value)?)?;
    }
    Ok(numbers)
}
