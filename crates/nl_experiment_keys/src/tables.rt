//! The keys of a table, and arrays of texts.
ghost use Rattle.std.specs.Prelude.{◌≡◌, map, option_map};
ghost use Rattle.std.specs.Str.{bytes_eq};
ghost use Rattle.toml.specs.View.{items_view, table_view, view};
ghost use Rattle.nl_experiment_keys.specs.Reading as spec;
ghost use Rattle.nl_experiment_keys.specs.Reading.{Reads, each_item, keys_in, least_unknown, told_at, usual_or};
ghost use Rattle.nl_experiment_keys.specs.Rows.{texts_at};
ghost use Rattle.toml.specs.Data.{get_member};

use crate::faults::{KeyRefusal, PlanKind, fault_at};
use crate::values::{other_kind, text_in, value_at};
use nl_fixed::{Names, Str};
use std::alloc::Global;
use toml::{Table, Value};

fn is_same(name: &str, key: &str) -> bool
    ensures { result ≡ bytes_eq name.now key.now }
{
    name.as_bytes() == key.as_bytes()
}

// Whether a key is one of these.
fn is_among(key: &str, known: &[&str]) -> bool
    ensures { result ≡ spec.is_among key.now (map (λ name. name.now) known.now) }
{
    'names: for name in known {
        if is_same(name, key) {
            return true;
        }
    }
    false
}

// The least key that is none of these; a table has its keys in byte order.
fn unknown_key<'a>(table: &'a Table, known: &[&str]) -> Option<&'a str>
    ensures { option_map (λ key. key.now) result
        ≡ least_unknown (map (λ name. name.now) known.now) (keys_in (table_view table.now)) }
{
    'keys: for key in table.keys() {
        if !is_among(key.as_str(), known) {
            return Some(key.as_str());
        }
    }
    None
}

/// Refuses a table that has another key than these. The least such key is told, behind what the table is called.
pub fn all_known(
    alloc: Global,
    before: &str,
    known: &[&str],
    table: &Table,
) -> Result<(), KeyRefusal>
    ensures { Reads
        (spec.all_known before.now (map (λ name. name.now) known.now) (table_view table.now)) result }
{
    match unknown_key(table, known) {
        Some(key) => Err(fault_at(alloc, before, key, PlanKind::UnknownKey)),
        None => Ok(()),
    }
}

/// Whether an item is a floating-point number.
pub fn has_float(items: &[Value]) -> bool
    ensures { result ≡ spec.has_float (items_view items.now) }
{
    let mut left = items;
    'items: while let Some((value, behind)) = left.split_first() {
        left = behind;
        if value.is_float() {
            return true;
        }
    }
    false
}

// The texts that the items of an array are.
fn each_text(alloc: Global, key: &str, items: &[Value]) -> Result<Names, KeyRefusal>
    ensures { Reads (told_at key.now (each_item spec.text_in (items_view items.now))) result }
{
    let mut texts = Names::empty(alloc);
    let mut left = items;
    'items: while let Some((value, behind)) = left.split_first() {
        left = behind;
        match text_in(value) {
            Ok(text) => texts.push(alloc, Str::of(alloc, text.as_bytes())?)?,
            Err(kind) => return Err(fault_at(alloc, "", key, kind)),
        }
    }
    Ok(texts)
}

/// The texts of the array at a key; none where it is left out.
pub fn texts_at(alloc: Global, key: &str, table: &Table) -> Result<Names, KeyRefusal>
    ensures { Reads (texts_at key.now (table_view table.now)) result }
{
    let Some(value) = value_at(table, key) else {
        return Ok(Names::empty(alloc));
    };
    let Some(items) = value.as_array() else {
        return Err(fault_at(alloc, "", key, other_kind(value)));
    };
    if has_float(items.as_slice()) {
        return Err(fault_at(alloc, "", key, PlanKind::FloatValue));
    }
    each_text(alloc, key, items.as_slice())
}
