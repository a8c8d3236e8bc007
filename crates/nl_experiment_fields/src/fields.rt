//! The fields of an experiment, read from its file.
ghost use Rattle.std.specs.Prelude.{◌≡◌, ◌<◌, ◌≤◌, [], IfOk};
ghost use Rattle.toml.specs.View.{table_view};
ghost use Rattle.nl_experiment_sweep.specs.Varied.{AllHaveValues};
ghost use Rattle.nl_experiment_keys.specs.Reading.{Reads, all_known};
ghost use Rattle.nl_experiment_fields.specs.File as spec;
ghost use Rattle.nl_experiment_fields.specs.Keys as keys;
ghost use Rattle.nl_experiment_fields.specs.Written.{AreWritten};

use crate::entries::vary_at;
use crate::globals::globals_at;
use crate::keys::{
    BUDGET, EVERY_STEP, FORMAT, GO, REPETITIONS, SEED, SEQUENTIAL, SETUP, STEPS, names_by,
};
use crate::worlds::world_at;
use nl_experiment_keys::rows::{maybe_text_at, required_text_at, text_at, truth_at, whole_at};
use nl_experiment_keys::tables::{all_known, texts_at};
use nl_experiment_keys::{KeyRefusal, table_of};
use nl_experiment_sweep::{Settings, Varies};
use nl_fixed::{Names, NoMemory, Str};
use std::alloc::Global;
use toml::Table;

/// What an experiment says.
#[derive(Drop)]
pub struct Fields {
    /// What the experiment is called.
    pub name: Str,
    /// The seed of the first run.
    pub seed: u64,
    /// How many runs have the same combination of values.
    pub repetitions: u64,
    /// Whether the repetitions of a combination come together.
    pub sequential: bool,
    /// The commands that a run begins with.
    pub setup: Str,
    /// The commands of each step.
    pub go: Str,
    /// What is true where a run has to end.
    pub until: Option<Str>,
    /// The most steps of a run; 0 is no limit.
    pub steps: u64,
    /// What is true where the metrics are measured, behind the setup text or a step; without it they are measured at the end.
    pub measure_when: Option<Str>,
    /// The units of a run.
    pub budget: u64,
    /// What is measured.
    pub metrics: Names,
    /// The least and the greatest coordinate of x, and then of y.
    pub bounds: [i64; 4],
    pub wrap_x: bool,
    pub wrap_y: bool,
    /// The global variables that are set, with names in lower case, in the byte order of their keys.
    pub globals: Settings,
    /// What is varied, with names in lower case: the first variable is the slowest.
    pub vary: Varies,
}

// What the experiment is called, and its order of runs.
#[derive(Drop)]
struct Head {
    name: Str,
    seed: u64,
    repetitions: u64,
    sequential: bool,
}

// Its texts.
#[derive(Drop)]
struct Scripts {
    setup: Str,
    go: Str,
    until: Option<Str>,
}

// How long a run goes on, and what is measured.
#[derive(Drop)]
struct Measures {
    steps: u64,
    measure_when: Option<Str>,
    budget: u64,
    metrics: Names,
}

fn head_in(alloc: Global, table: &Table) -> Result<Head, KeyRefusal>
    ensures reads { Reads (spec.head_in (table_view table.now)) result }
    ensures repeated { IfOk result (λ head. 0 < head.repetitions) }
{
    let _format = whole_at(alloc, "", &FORMAT, table)?;
    let name = required_text_at(alloc, "name", table)?;
    let seed = whole_at(alloc, "", &SEED, table)?.unsigned_abs();
    let repetitions = whole_at(alloc, "", &REPETITIONS, table)?.unsigned_abs();
    let sequential = truth_at(alloc, "", &SEQUENTIAL, table)?;
    Ok(Head {
        name,
        seed,
        repetitions,
        sequential,
    })
}

fn scripts_in(alloc: Global, table: &Table) -> Result<Scripts, KeyRefusal>
    ensures { Reads (spec.scripts_in (table_view table.now)) result }
{
    let setup = text_at(alloc, &SETUP, table)?;
    let go = text_at(alloc, &GO, table)?;
    let until = maybe_text_at(alloc, "until", table)?;
    Ok(Scripts { setup, go, until })
}

// The condition under which the metrics are measured: at every step is where `true` is true.
fn when_of(alloc: Global, every_step: bool, text: Option<Str>) -> Result<Option<Str>, NoMemory>
    ensures { IfOk result (λ condition. condition ≡ spec.when_of every_step text) }
{
    if every_step {
        let always = Str::of(alloc, b"true")?;
        return Ok(Some(always));
    }
    Ok(text)
}

fn measures_in(alloc: Global, table: &Table) -> Result<Measures, KeyRefusal>
    ensures { Reads (spec.measures_in (table_view table.now)) result }
{
    let steps = whole_at(alloc, "", &STEPS, table)?.unsigned_abs();
    let every_step = truth_at(alloc, "", &EVERY_STEP, table)?;
    let text = maybe_text_at(alloc, "measure-when", table)?;
    let measure_when = when_of(alloc, every_step, text)?;
    let budget = whole_at(alloc, "", &BUDGET, table)?.unsigned_abs();
    let metrics = texts_at(alloc, "metrics", table)?;
    Ok(Measures {
        steps,
        measure_when,
        budget,
        metrics,
    })
}

// The format of a document, where it is one of these.
fn format_in(alloc: Global, table: &Table) -> Result<Option<i64>, NoMemory>
    ensures { IfOk result (λ format. format ≡ keys.format_in (table_view table.now)) }
{
    match whole_at(alloc, "", &FORMAT, table) {
        Ok(format) => Ok(Some(format)),
        Err(KeyRefusal::Fault(_)) => Ok(None),
        Err(KeyRefusal::NoMemory) => Err(NoMemory),
    }
}

// Refuses a document with another key than those of its format.
fn known_in(alloc: Global, table: &Table) -> Result<(), KeyRefusal>
    ensures { Reads (all_known [] (keys.known_in (table_view table.now)) (table_view table.now)) result }
{
    let format = format_in(alloc, table)?;
    let known = names_by(alloc, format)?;
    all_known(alloc, "", known.as_slice(), table)
}

// The fields in a document.
fn fields_in(alloc: Global, table: &Table) -> Result<Fields, KeyRefusal>
    ensures reads { Reads (spec.fields_in (table_view table.now)) result }
    ensures values { IfOk result (λ fields. AllHaveValues fields.vary) }
    ensures repeated { IfOk result (λ fields. 0 < fields.repetitions) }
{
    known_in(alloc, table)?;
    let head = head_in(alloc, table)?;
    let scripts = scripts_in(alloc, table)?;
    let measures = measures_in(alloc, table)?;
    let world = world_at(alloc, table)?;
    let globals = globals_at(alloc, table)?;
    let vary = vary_at(alloc, table)?;
    Ok(Fields {
        name: head.name,
        seed: head.seed,
        repetitions: head.repetitions,
        sequential: head.sequential,
        setup: scripts.setup,
        go: scripts.go,
        until: scripts.until,
        steps: measures.steps,
        measure_when: measures.measure_when,
        budget: measures.budget,
        metrics: measures.metrics,
        bounds: [world.min_x, world.max_x, world.min_y, world.max_y],
        wrap_x: world.wrap_x,
        wrap_y: world.wrap_y,
        globals,
        vary,
    })
}

/// The fields that a file has, or its first fault in the order of its keys. Each variable that is varied has a value at least, there
/// is a repetition at least, and all values are written down.
pub fn fields_of(alloc: Global, file: &[u8]) -> Result<Fields, KeyRefusal>
    ensures reads { Reads (spec.file_says file.now) result }
    ensures values { IfOk result (λ fields. AllHaveValues fields.vary) }
    ensures repeated { IfOk result (λ fields. 0 < fields.repetitions) }
    ensures written { IfOk result AreWritten }
{
    let table = table_of(alloc, file)?;
    fields_in(alloc, &table)
}
