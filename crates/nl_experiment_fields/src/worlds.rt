//! The world of an experiment.
ghost use Rattle.std.specs.Prelude.{◌≡◌};
ghost use Rattle.std.specs.Result.{result_map_both};
ghost use Rattle.toml.specs.View.{table_view};
ghost use Rattle.nl_experiment_keys.specs.Reading.{Reads};
ghost use Rattle.nl_experiment_fields.specs.Entries as spec;

use nl_experiment_keys::faults::fault_at;
use nl_experiment_keys::rows::{truth_at, whole_at};
use nl_experiment_keys::tables::all_known;
use nl_experiment_keys::values::{other_kind, value_at};
use nl_experiment_keys::{KeyRefusal, TruthKey, WholeKey};
use nl_experiment_sweep::World;
use std::alloc::Global;
use toml::Table;

const MIN_PXCOR: WholeKey = WholeKey {
    name: "min-pxcor",
    least: i64::MIN,
    most: i64::MAX,
    usual: -16,
};

const MAX_PXCOR: WholeKey = WholeKey {
    name: "max-pxcor",
    least: i64::MIN,
    most: i64::MAX,
    usual: 16,
};

const MIN_PYCOR: WholeKey = WholeKey {
    name: "min-pycor",
    least: i64::MIN,
    most: i64::MAX,
    usual: -16,
};

const MAX_PYCOR: WholeKey = WholeKey {
    name: "max-pycor",
    least: i64::MIN,
    most: i64::MAX,
    usual: 16,
};

const WRAP_X: TruthKey = TruthKey {
    name: "wrap-x",
    usual: true,
};

const WRAP_Y: TruthKey = TruthKey {
    name: "wrap-y",
    usual: true,
};

const KEYS: &[&str] = &[
    "min-pxcor",
    "max-pxcor",
    "min-pycor",
    "max-pycor",
    "wrap-x",
    "wrap-y",
];

// The world in its table.
fn world_in(alloc: Global, table: &Table) -> Result<World, KeyRefusal>
    ensures { Reads (spec.world_in (table_view table.now)) result }
{
    all_known(alloc, "world.", KEYS, table)?;
    let min_x = whole_at(alloc, "world.", &MIN_PXCOR, table)?;
    let max_x = whole_at(alloc, "world.", &MAX_PXCOR, table)?;
    let min_y = whole_at(alloc, "world.", &MIN_PYCOR, table)?;
    let max_y = whole_at(alloc, "world.", &MAX_PYCOR, table)?;
    let wrap_x = truth_at(alloc, "world.", &WRAP_X, table)?;
    let wrap_y = truth_at(alloc, "world.", &WRAP_Y, table)?;
    Ok(World {
        min_x,
        max_x,
        min_y,
        max_y,
        wrap_x,
        wrap_y,
    })
}

/// The world of a document. No table of a world is the same as an empty one.
pub fn world_at(alloc: Global, table: &Table) -> Result<World, KeyRefusal>
    ensures { Reads (spec.world_at (table_view table.now)) result }
{
    let Some(value) = value_at(table, "world") else {
        return world_in(alloc, &Table::new(alloc));
    };
    match value.as_table() {
        Some(table) => world_in(alloc, table),
        None => Err(fault_at(alloc, "", "world", other_kind(value))),
    }
}
