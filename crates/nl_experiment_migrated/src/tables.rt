//! The table of a document in format 2.
ghost use Rattle.std.specs.Prelude.{◌≡◌, IfOk, OnOk};
ghost use Rattle.toml.specs.Data.{get_member};
ghost use Rattle.toml.specs.View.{table_view, view};
ghost use Rattle.nl_experiment_fields.specs.Keys.{every_step_key, format_key};
ghost use Rattle.nl_experiment_migrated.specs.Migrated as spec;

use nl_experiment_keys::values::value_at;
use nl_fixed::NoMemory;
use std::alloc::Global;
use toml::{Table, Value};

/// The format that is written.
const FORMAT: i64 = 2;

fn is_second(table: &Table) -> bool
    ensures { result ≡ spec.is_second (get_member format_key.name (table_view table.now)) }
{
    match value_at(table, "format") {
        Some(Value::Integer(format)) => *format == FORMAT,
        _ => false,
    }
}

// Whether the metrics are measured at every step.
fn is_every_step(table: &Table) -> bool
    ensures { result ≡ spec.is_true (get_member every_step_key.name (table_view table.now)) }
{
    match value_at(table, "every-step") {
        Some(Value::Boolean(truth)) => *truth,
        _ => false,
    }
}

// Puts a value at a key.
fn put(alloc: Global, table: &mut Table, key: &str, value: Value) -> Result<(), NoMemory>
    ensures { OnOk result
        (table_view table.new ≡ spec.with_member key.now (view value) (table_view table.old)) }
{
    let key = String::from_str(alloc, key)?;
    match table.insert(key, value) {
        Ok(_) => Ok(()),
        Err(_) => Err(NoMemory),
    }
}

// Takes a key away, with what stands there. That keys ascend is known from the count of entries.
fn take(table: &mut Table, key: &str)
    ensures { table_view table.new ≡ spec.without key.now (table_view table.old) }
{
    let _entries = table.len();
    let _gone = table.remove(key);
}

// Puts the condition that is always true, if it is wanted.
fn put_condition(alloc: Global, table: &mut Table, wanted: bool) -> Result<(), NoMemory>
    ensures { OnOk result
        (table_view table.new ≡ spec.with_condition wanted (table_view table.old)) }
{
    if wanted {
        let always = Value::string(alloc, "true")?;
        put(alloc, table, "measure-when", always)?;
    }
    Ok(())
}

// Makes a table of format 1 one of format 2.
fn from_first(alloc: Global, table: &mut Table) -> Result<(), NoMemory>
    ensures { OnOk result (table_view table.new ≡ spec.from_first (table_view table.old)) }
{
    let every_step = is_every_step(table);
    take(table, "every-step");
    put_condition(alloc, table, every_step)?;
    put(alloc, table, "format", Value::Integer(FORMAT))
}

/// Makes a document's table one of format 2; a table of format 2 stays. Where memory lacks, it may be left between both.
pub(crate) fn migrate(alloc: Global, table: &mut Table) -> Result<(), NoMemory>
    ensures { OnOk result (table_view table.new ≡ spec.migrated (table_view table.old)) }
{
    if is_second(table) {
        Ok(())
    } else {
        from_first(alloc, table)
    }
}
