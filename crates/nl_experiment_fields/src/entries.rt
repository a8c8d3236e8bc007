//! What an experiment varies.
ghost use Rattle.std.specs.Prelude.{◌≡◌, ◌++◌, [], IfOk, IsTrue, string_bytes};
ghost use Rattle.std.specs.Result.{result_map_both};
ghost use Rattle.toml.specs.View.{items_view, table_view, view};
ghost use Rattle.toml.specs.Data.{get_member};
ghost use Rattle.nl_experiment_sweep.specs.Varied.{AllHaveValues, HasValues};
ghost use Rattle.nl_experiment_keys.specs.Reading.{Reads, required, told_at};
ghost use Rattle.nl_experiment_fields.specs.Entries as spec;
ghost use Rattle.nl_experiment_fields.specs.Keys.{name_key};
ghost use Rattle.nl_experiment_fields.specs.Reading.{Gives};
ghost use Rattle.nl_experiment_fields.specs.inner.Tables.{are_tables, is_table, tables_of};

use crate::choices::choice_in;
use crate::literals::ValueRefusal;
use crate::names::{can_be_varied, lowered};
use nl_experiment_keys::faults::fault_at;
use nl_experiment_keys::tables::{all_known, has_float};
use nl_experiment_keys::values::{other_kind, text_in, value_at};
use nl_experiment_keys::{KeyRefusal, PlanKind};
use nl_experiment_sweep::{Varies, Vary};
use nl_fixed::{NoMemory, Str};
use nl_parse_reading::known_names::KnownNames;
use std::alloc::Global;
use toml::{Table, Value};

const KEYS: &[&str] = &["name", "values", "from", "step", "to"];

// The name of what is varied, where others are varied already.
fn varied_name(alloc: Global, others: &KnownNames, value: &Value) -> Result<Str, ValueRefusal>
    ensures { Gives (spec.varied_name others.now (view value.now)) result }
{
    let text = match text_in(value) {
        Ok(text) => text,
        Err(kind) => return Err(ValueRefusal::Bad(kind)),
    };
    let name = lowered(alloc, text)?;
    if !can_be_varied(others, name.as_bytes()) {
        return Err(ValueRefusal::Bad(PlanKind::BadLiteral));
    }
    Ok(Str::of(alloc, name.as_bytes())?)
}

// The same with what stands at `name`, and its fault there.
fn name_at(
    alloc: Global,
    before: &str,
    others: &KnownNames,
    table: &Table,
) -> Result<Str, KeyRefusal>
    ensures { Reads (told_at (before.now ++ name_key)
        (required (spec.varied_name others.now) (get_member name_key (table_view table.now)))) result }
{
    let Some(value) = value_at(table, "name") else {
        return Err(fault_at(alloc, before, "name", PlanKind::MissingKey));
    };
    match varied_name(alloc, others, value) {
        Ok(name) => Ok(name),
        Err(ValueRefusal::Bad(kind)) => Err(fault_at(alloc, before, "name", kind)),
        Err(ValueRefusal::NoMemory) => Err(KeyRefusal::NoMemory),
    }
}

// An entry, which is told behind what it is called.
fn entry_by(
    alloc: Global,
    before: &str,
    others: &KnownNames,
    table: &Table,
) -> Result<Vary, KeyRefusal>
    ensures reads { Reads (spec.entry_by before.now others.now (table_view table.now)) result }
    ensures values { IfOk result (λ vary. HasValues vary.choice) }
{
    all_known(alloc, before, KEYS, table)?;
    let name = name_at(alloc, before, others, table)?;
    let choice = choice_in(alloc, before, name.as_bytes(), table)?;
    Ok(Vary { name, choice })
}

// What an entry is called in a key.
fn entry_name(alloc: Global, number: usize) -> Result<String, NoMemory>
    ensures { IfOk result (λ name. string_bytes name ≡ spec.in_entry number) }
{
    Ok(format!(in alloc; "vary {number}.")?)
}

// An entry of this number.
fn entry_in(
    alloc: Global,
    number: usize,
    others: &KnownNames,
    table: &Table,
) -> Result<Vary, KeyRefusal>
    ensures reads { Reads
        (spec.entry_by (spec.in_entry number) others.now (table_view table.now)) result }
    ensures values { IfOk result (λ vary. HasValues vary.choice) }
{
    let before = entry_name(alloc, number)?;
    entry_by(alloc, before.as_str(), others, table)
}

fn is_table(value: &Value) -> bool
    ensures { result ≡ is_table (view value.now) }
{
    value.as_table().is_some()
}

fn are_tables(items: &[Value]) -> bool
    ensures { result ≡ are_tables (items_view items.now) }
{
    let mut left = items;
    'items: while let Some((value, behind)) = left.split_first() {
        left = behind;
        if !is_table(value) {
            return false;
        }
    }
    true
}

// The items of an array of tables.
fn tables_in(value: &Value) -> Result<&[Value], PlanKind>
    ensures tables { spec.tables_in (view value.now)
        ≡ result_map_both (λ items. tables_of (items_view items.now)) (λ kind. kind) result }
    ensures all { IfOk result (λ items. IsTrue (are_tables (items_view items.now))) }
{
    let Some(items) = value.as_array() else {
        return Err(other_kind(value));
    };
    if has_float(items.as_slice()) {
        return Err(PlanKind::FloatValue);
    }
    if !are_tables(items.as_slice()) {
        return Err(PlanKind::WrongKind);
    }
    Ok(items.as_slice())
}

// The entries of an array of tables.
fn entries_in(alloc: Global, items: &[Value]) -> Result<Varies, KeyRefusal>
    requires { IsTrue (are_tables (items_view items.now)) }
    ensures reads { Reads (spec.entries_from 1 [] (tables_of (items_view items.now))) result }
    ensures values { IfOk result AllHaveValues }
{
    let mut known = KnownNames::empty(alloc);
    let mut varies = Varies::empty(alloc);
    let mut number = 0;
    let mut left = items;
    'entries: while let Some((value, behind)) = left.split_first() {
        left = behind;
        number += 1;
        let Some(table) = value.as_table() else {
            unreachable!();
        };
        let vary = entry_in(alloc, number, &known, table)?;
        known.push(alloc, vary.name.copy(alloc)?)?;
        varies.push(alloc, vary)?;
    }
    Ok(varies)
}

/// What a document varies, in order. Each variable has a value at least.
pub fn vary_at(alloc: Global, table: &Table) -> Result<Varies, KeyRefusal>
    ensures reads { Reads (spec.vary_at (table_view table.now)) result }
    ensures values { IfOk result AllHaveValues }
{
    let Some(value) = value_at(table, "vary") else {
        return Ok(Varies::empty(alloc));
    };
    match tables_in(value) {
        Ok(items) => entries_in(alloc, items),
        Err(kind) => Err(fault_at(alloc, "", "vary", kind)),
    }
}
