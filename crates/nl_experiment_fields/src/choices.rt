//! The values of a varied variable: those that are listed, or numbers from one to another by a step.
ghost use Rattle.std.specs.Prelude.{◌≡◌, ◌<ℤ◌, ◌≤ℤ◌, pos, IfOk, Some, not};
ghost use Rattle.std.specs.Result.{result_map_both};
ghost use Rattle.toml.specs.View.{items_view, table_view, view};
ghost use Rattle.nl_value.specs.Views.{plain};
ghost use Rattle.nl_experiment_sweep.specs.Varied.{HasValues};
ghost use Rattle.nl_experiment_sweep.specs.declared.varied.Choice.TheVariants as Choice;
ghost use Rattle.nl_experiment_keys.specs.Reading.{Reads, each_item};
ghost use Rattle.nl_experiment_fields.specs.Entries as spec;
ghost use Rattle.nl_experiment_fields.specs.Reading.{Gives, kinds_in, unless};

use crate::literals::{ValueRefusal, literal_in, misfit, number_in};
use crate::names::{is_of_run, is_seed};
use nl_experiment_keys::faults::fault_at;
use nl_experiment_keys::tables::has_float;
use nl_experiment_keys::values::{other_kind, value_at};
use nl_experiment_keys::{KeyRefusal, PlanKind};
use nl_experiment_sweep::Choice;
use nl_fixed::Num;
use nl_value::{Items, Value};
use std::alloc::Global;
use toml::Table;

// Whether a number may be a value of this variable.
fn is_right_count(name: &[u8], number: Num) -> bool
    ensures { result ≡ spec.is_right_count name.now number }
{
    !is_of_run(name) || (number.is_whole() && (!is_seed(name) || 0 <= number.millionths()))
}

// Whether a literal may be one.
fn is_right_value(name: &[u8], value: &Value) -> bool
    ensures { result ≡ spec.is_right_value name.now (plain value.now) }
{
    match value {
        Value::Number(number) => is_right_count(name, *number),
        _ => !is_of_run(name),
    }
}

// The literal that a value of a list is.
fn right_value(alloc: Global, name: &[u8], value: &toml::Value) -> Result<Value, ValueRefusal>
    ensures { Gives (spec.right_value name.now (view value.now)) (result_map_both plain (λ r. r) result) }
{
    let literal = literal_in(alloc, value)?;
    if is_right_value(name, &literal) {
        Ok(literal)
    } else {
        Err(ValueRefusal::Bad(PlanKind::BadLiteral))
    }
}

// What is told of the first value that is of no literal's kind.
fn first_misfit(items: &[toml::Value]) -> Option<PlanKind>
    ensures { kinds_in (items_view items.now) ≡ unless result }
{
    let mut left = items;
    'items: while let Some((value, behind)) = left.split_first() {
        left = behind;
        if let Some(kind) = misfit(value) {
            return Some(kind);
        }
    }
    None
}

// The values of an entry, each of a literal's kind.
fn values_in(value: &toml::Value) -> Result<&[toml::Value], PlanKind>
    ensures { spec.values_in (view value.now)
        ≡ result_map_both (λ items. items_view items.now) (λ kind. kind) result }
{
    let Some(items) = value.as_array() else {
        return Err(other_kind(value));
    };
    if has_float(items.as_slice()) {
        return Err(PlanKind::FloatValue);
    }
    match first_misfit(items.as_slice()) {
        Some(kind) => Err(kind),
        None => Ok(items.as_slice()),
    }
}

// The literals that the values of a list are.
fn each_value(alloc: Global, name: &[u8], items: &[toml::Value]) -> Result<Items, ValueRefusal>
    ensures { Gives (each_item (spec.right_value name.now) (items_view items.now)) result }
{
    let mut values = Items::empty(alloc);
    let mut left = items;
    'items: while let Some((value, behind)) = left.split_first() {
        left = behind;
        let literal = right_value(alloc, name, value)?;
        values.push(alloc, literal)?;
    }
    Ok(values)
}

// The values that are listed.
fn listed_in(alloc: Global, name: &[u8], items: &[toml::Value]) -> Result<Choice, ValueRefusal>
    ensures gives { Gives (spec.listed_in name.now (items_view items.now)) result }
    ensures values { IfOk result HasValues }
{
    if items.is_empty() {
        return Err(ValueRefusal::Bad(PlanKind::BadLiteral));
    }
    let values = each_value(alloc, name, items)?;
    Ok(Choice::Listed(values))
}

// The same with what stands at `values`, and its fault there. The other way to give values must not be gone.
fn listed_at(
    alloc: Global,
    before: &str,
    name: &[u8],
    value: &toml::Value,
    table: &Table,
) -> Result<Choice, KeyRefusal>
    ensures reads { Reads
        (spec.listed_at before.now name.now (view value.now) (table_view table.now)) result }
    ensures values { IfOk result HasValues }
{
    let items = match values_in(value) {
        Ok(items) => items,
        Err(kind) => return Err(fault_at(alloc, before, "values", kind)),
    };
    if are_steps_given(table) {
        return Err(fault_at(alloc, before, "values", PlanKind::BadLiteral));
    }
    match listed_in(alloc, name, items) {
        Ok(choice) => Ok(choice),
        Err(ValueRefusal::Bad(kind)) => Err(fault_at(alloc, before, "values", kind)),
        Err(ValueRefusal::NoMemory) => Err(KeyRefusal::NoMemory),
    }
}

fn is_given(key: &str, table: &Table) -> bool
    ensures { result ≡ spec.is_given key.now (table_view table.now) }
{
    value_at(table, key).is_some()
}

// Whether any key of the second way is there.
fn are_steps_given(table: &Table) -> bool
    ensures { result ≡ spec.steps_given (table_view table.now) }
{
    is_given("from", table) || is_given("step", table) || is_given("to", table)
}

// Whether all are.
fn are_all_steps_given(table: &Table) -> bool
    ensures { result ≡ spec.all_steps_given (table_view table.now) }
{
    is_given("from", table) && is_given("step", table) && is_given("to", table)
}

// The number that a value is.
fn right_number(alloc: Global, name: &[u8], value: &toml::Value) -> Result<Num, ValueRefusal>
    ensures { Gives (spec.right_number name.now (view value.now)) result }
{
    let number = number_in(alloc, value)?;
    if is_right_count(name, number) {
        Ok(number)
    } else {
        Err(ValueRefusal::Bad(PlanKind::BadLiteral))
    }
}

// The same with what stands at a key, and its fault there.
fn number_at(
    alloc: Global,
    before: &str,
    name: &[u8],
    key: &str,
    table: &Table,
) -> Result<Num, KeyRefusal>
    ensures { Reads
        (spec.stepped_number before.now name.now key.now (table_view table.now)) result }
{
    let Some(value) = value_at(table, key) else {
        return Err(fault_at(alloc, before, key, PlanKind::MissingKey));
    };
    match right_number(alloc, name, value) {
        Ok(number) => Ok(number),
        Err(ValueRefusal::Bad(kind)) => Err(fault_at(alloc, before, key, kind)),
        Err(ValueRefusal::NoMemory) => Err(KeyRefusal::NoMemory),
    }
}

// How many numbers there are from one to another by a step.
#[tactic(auto, using(crate::proofs::Steps::has_values))]
fn count_of_steps(from: Num, step: Num, to: Num) -> u64
    requires up { pos 0 <ℤ step }
    requires reached { from ≤ℤ to }
    ensures count { result ≡ spec.count_of_steps from step to }
    ensures values { HasValues (Choice.Stepped from step result) }
{
    let span = to.millionths().abs_diff(from.millionths());
    span / step.millionths().unsigned_abs() + 1
}

// The numbers by a step.
fn stepped_in(alloc: Global, before: &str, name: &[u8], table: &Table) -> Result<Choice, KeyRefusal>
    ensures reads { Reads (spec.stepped_in before.now name.now (table_view table.now)) result }
    ensures values { IfOk result HasValues }
{
    let from = number_at(alloc, before, name, "from", table)?;
    let step = number_at(alloc, before, name, "step", table)?;
    if step.millionths() <= 0 {
        return Err(fault_at(alloc, before, "step", PlanKind::BadLiteral));
    }
    let to = number_at(alloc, before, name, "to", table)?;
    if to.millionths() < from.millionths() {
        return Err(fault_at(alloc, before, "to", PlanKind::BadLiteral));
    }
    let count = count_of_steps(from, step, to);
    Ok(Choice::Stepped { from, step, count })
}

/// The values of a variable of this name in its entry, which is told behind what the entry is called.
pub fn choice_in(
    alloc: Global,
    before: &str,
    name: &[u8],
    table: &Table,
) -> Result<Choice, KeyRefusal>
    ensures reads { Reads (spec.choice_in before.now name.now (table_view table.now)) result }
    ensures values { IfOk result HasValues }
{
    if let Some(value) = value_at(table, "values") {
        return listed_at(alloc, before, name, value, table);
    }
    if !are_all_steps_given(table) {
        return Err(fault_at(alloc, before, "values", PlanKind::BadLiteral));
    }
    stepped_in(alloc, before, name, table)
}
