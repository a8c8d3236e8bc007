//! Rows of a table of keys, and what stands at them.
ghost use Rattle.std.specs.Prelude.{◌≡◌, ◌≤ℤ◌, IfOk};
ghost use Rattle.toml.specs.View.{table_view};
ghost use Rattle.nl_experiment_keys.specs.Reading.{Reads};
ghost use Rattle.nl_experiment_keys.specs.Rows as spec;

use crate::faults::{KeyRefusal, PlanKind, fault_at};
use crate::values::{text_in, truth_in, value_at, whole_in};
use nl_fixed::Str;
use std::alloc::Global;
use toml::Table;

/// The key of a whole number: its bounds, and the number that is meant where the key is left out.
#[derive(Clone, Copy)]
pub struct WholeKey {
    pub name: &'static str,
    pub least: i64,
    pub most: i64,
    pub usual: i64,
}

/// The key of a truth.
#[derive(Clone, Copy)]
pub struct TruthKey {
    pub name: &'static str,
    pub usual: bool,
}

/// The key of a text.
#[derive(Clone, Copy)]
pub struct TextKey {
    pub name: &'static str,
    pub usual: &'static str,
}

/// The whole number at a row's key in a table, which is told behind what the table is called.
pub fn whole_at(
    alloc: Global,
    before: &str,
    key: &WholeKey,
    table: &Table,
) -> Result<i64, KeyRefusal>
    ensures reads { Reads
        (spec.whole_at before.now (spec.whole_row key.now) (table_view table.now)) result }
    ensures least { key.now.least ≤ℤ key.now.usual
        → IfOk result (λ number. key.now.least ≤ℤ number) }
    ensures most { key.now.usual ≤ℤ key.now.most
        → IfOk result (λ number. number ≤ℤ key.now.most) }
{
    match value_at(table, key.name) {
        None => Ok(key.usual),
        Some(value) => match whole_in(key.least, key.most, value) {
            Ok(number) => Ok(number),
            Err(kind) => Err(fault_at(alloc, before, key.name, kind)),
        },
    }
}

/// The truth at a row's key.
pub fn truth_at(
    alloc: Global,
    before: &str,
    key: &TruthKey,
    table: &Table,
) -> Result<bool, KeyRefusal>
    ensures { Reads (spec.truth_at before.now (spec.truth_row key.now) (table_view table.now)) result }
{
    match value_at(table, key.name) {
        None => Ok(key.usual),
        Some(value) => match truth_in(value) {
            Ok(truth) => Ok(truth),
            Err(kind) => Err(fault_at(alloc, before, key.name, kind)),
        },
    }
}

/// The text at a row's key.
pub fn text_at(alloc: Global, key: &TextKey, table: &Table) -> Result<Str, KeyRefusal>
    ensures { Reads (spec.text_at (spec.text_row key.now) (table_view table.now)) result }
{
    match value_at(table, key.name) {
        None => Ok(Str::of(alloc, key.usual.as_bytes())?),
        Some(value) => match text_in(value) {
            Ok(text) => Ok(Str::of(alloc, text.as_bytes())?),
            Err(kind) => Err(fault_at(alloc, "", key.name, kind)),
        },
    }
}

/// The text at a key where one has to stand.
pub fn required_text_at(alloc: Global, key: &str, table: &Table) -> Result<Str, KeyRefusal>
    ensures { Reads (spec.required_text_at key.now (table_view table.now)) result }
{
    match value_at(table, key) {
        None => Err(fault_at(alloc, "", key, PlanKind::MissingKey)),
        Some(value) => match text_in(value) {
            Ok(text) => Ok(Str::of(alloc, text.as_bytes())?),
            Err(kind) => Err(fault_at(alloc, "", key, kind)),
        },
    }
}

/// The text at a key where one may stand.
pub fn maybe_text_at(alloc: Global, key: &str, table: &Table) -> Result<Option<Str>, KeyRefusal>
    ensures { Reads (spec.maybe_text_at key.now (table_view table.now)) result }
{
    match value_at(table, key) {
        None => Ok(None),
        Some(value) => match text_in(value) {
            Ok(text) => Ok(Some(Str::of(alloc, text.as_bytes())?)),
            Err(kind) => Err(fault_at(alloc, "", key, kind)),
        },
    }
}
