//! The global variables that an experiment sets.
ghost use Rattle.std.specs.Prelude.{◌≡◌, ◌++◌, [], string_bytes};
ghost use Rattle.std.specs.Result.{result_map_both};
ghost use Rattle.toml.specs.View.{table_view, view};
ghost use Rattle.nl_experiment_sweep.specs.Varied.{plain_setting};
ghost use Rattle.nl_experiment_keys.specs.Reading.{Reads, told_at};
ghost use Rattle.nl_experiment_fields.specs.Entries as spec;
ghost use Rattle.nl_experiment_fields.specs.Keys.{in_globals};
ghost use Rattle.nl_experiment_fields.specs.Reading.{Gives};

use crate::literals::{ValueRefusal, literal_in, misfit};
use crate::names::{can_be_widget, lowered};
use nl_experiment_keys::faults::fault_at;
use nl_experiment_keys::values::{other_kind, value_at};
use nl_experiment_keys::{KeyRefusal, PlanKind};
use nl_experiment_sweep::{Setting, Settings};
use nl_fixed::Str;
use nl_parse_reading::known_names::KnownNames;
use std::alloc::Global;
use toml::{Table, Value};

// The setting of a name, where others are known already.
fn setting_in(
    alloc: Global,
    others: &KnownNames,
    name: &[u8],
    value: &Value,
) -> Result<Setting, ValueRefusal>
    ensures { Gives (spec.setting_in others.now name.now (view value.now))
        (result_map_both plain_setting (λ r. r) result) }
{
    if let Some(kind) = misfit(value) {
        return Err(ValueRefusal::Bad(kind));
    }
    if !can_be_widget(others, name) {
        return Err(ValueRefusal::Bad(PlanKind::BadLiteral));
    }
    let value = literal_in(alloc, value)?;
    let name = Str::of(alloc, name)?;
    Ok(Setting { name, value })
}

// The same with its fault at the name.
fn setting_at(
    alloc: Global,
    others: &KnownNames,
    name: &str,
    value: &Value,
) -> Result<Setting, KeyRefusal>
    ensures { Reads (told_at (in_globals ++ name.now)
        (spec.setting_in others.now name.now (view value.now)))
        (result_map_both plain_setting (λ r. r) result) }
{
    match setting_in(alloc, others, name.as_bytes(), value) {
        Ok(setting) => Ok(setting),
        Err(ValueRefusal::Bad(kind)) => Err(fault_at(alloc, "globals.", name, kind)),
        Err(ValueRefusal::NoMemory) => Err(KeyRefusal::NoMemory),
    }
}

// The settings in their table.
fn settings_in(alloc: Global, table: &Table) -> Result<Settings, KeyRefusal>
    ensures { Reads (spec.settings_in [] (table_view table.now)) result }
{
    let mut known = KnownNames::empty(alloc);
    let mut settings = Settings::empty(alloc);
    'keys: for (key, value) in table.iter() {
        let name = lowered(alloc, key.as_str())?;
        let setting = setting_at(alloc, &known, name.as_str(), value)?;
        settings.push(alloc, setting)?;
        let name = Str::of(alloc, name.as_bytes())?;
        known.push(alloc, name)?;
    }
    Ok(settings)
}

/// The settings of a document, in the byte order of their keys.
pub fn globals_at(alloc: Global, table: &Table) -> Result<Settings, KeyRefusal>
    ensures { Reads (spec.globals_at (table_view table.now)) result }
{
    let Some(value) = value_at(table, "globals") else {
        return Ok(Settings::empty(alloc));
    };
    match value.as_table() {
        Some(table) => settings_in(alloc, table),
        None => Err(fault_at(alloc, "", "globals", other_kind(value))),
    }
}
