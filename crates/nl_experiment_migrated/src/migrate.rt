//! The text of an experiment's file in format 2.
ghost use Rattle.std.specs.Prelude.{◌≡◌, Ok, Err, IfOk, IfErr};
ghost use Rattle.toml.specs.View.{table_view};
ghost use Rattle.nl_experiment.specs.Plan.{Says, experiment_says, refused};
ghost use Rattle.nl_experiment_fields.specs.File.{fields_in};
ghost use Rattle.nl_experiment_fields.specs.declared.fields.Fields.{Fields};
ghost use Rattle.nl_experiment.specs.declared.faults.PlanRefusal.TheVariants as refusals;
ghost use Rattle.nl_experiment_migrated.specs.Migrated.{IsMigrated, IsTextOf};
ghost use Rattle.nl_experiment_migrated.specs.Migrated as spec;
ghost use Rattle.nl_experiment_migrated.specs.Plain.{ArePlain};

use crate::sorted::keys_ascend;
use crate::tables::migrate;
use nl_experiment::{Experiment, PlanFault, PlanRefusal};
use nl_experiment_keys::{KeyRefusal, table_of};
use nl_fixed::Str;
use std::alloc::Global;
use toml::Table;
use toml::ser::Error;

// The refusal of a file whose keys are refused.
fn of_keys(refusal: KeyRefusal) -> PlanRefusal
    ensures { result ≡ refused refusal }
{
    match refusal {
        KeyRefusal::Fault(fault) => PlanRefusal::Fault(PlanFault {
            kind: fault.kind,
            key: fault.key,
            inner: None,
        }),
        KeyRefusal::NoMemory => PlanRefusal::NoMemory,
    }
}

// The text of a table.
fn text_of(alloc: Global, table: &Table) -> Result<Str, PlanRefusal>
    requires { ArePlain (table_view table.now) }
    ensures text { IfOk result (λ text. IsTextOf (table_view table.now) text) }
    ensures refused { IfErr result (λ refusal. refusal ≡ refusals.NoMemory) }
{
    match toml::table_to_string(alloc, table) {
        Ok(text) => Ok(Str::of_vec(text.into_bytes())),
        Err(Error::OutOfMemory) => Err(PlanRefusal::NoMemory),
        Err(Error::DateInvalid) => unreachable!(),
    }
}

// The text in format 2 of a table in which an experiment's fields are.
fn second_text(alloc: Global, mut table: Table) -> Result<Str, PlanRefusal>
    requires { (fields : Fields) × (fields_in (table_view table) ≡ Ok fields) }
    ensures text { IfOk result (IsTextOf (spec.migrated (table_view table))) }
    ensures refused { IfErr result (λ refusal. refusal ≡ refusals.NoMemory) }
{
    keys_ascend(&table);
    match migrate(alloc, &mut table) {
        Ok(()) => text_of(alloc, &table),
        Err(_) => Err(PlanRefusal::NoMemory),
    }
}

// The text in format 2 of what an experiment's file holds.
fn accepted_text(alloc: Global, file: &[u8]) -> Result<Str, PlanRefusal>
    requires { (fields : Fields) × (experiment_says file.now ≡ Ok fields) }
    ensures text { IfOk result (IsMigrated file.now) }
    ensures refused { IfErr result (λ refusal. Says (experiment_says file.now) (Err refusal)) }
{
    match table_of(alloc, file) {
        Ok(table) => second_text(alloc, table),
        Err(refusal) => Err(of_keys(refusal)),
    }
}

/// The text of an experiment's file in format 2: that of a document of format 2 itself; else with `format = 2`, without `every-step`, and
/// with `measure-when = "true"` where `every-step` was true. Values stay as they are; comments, and the order and the spelling of keys,
/// don't. Refused as `Experiment::read` refuses, by the file's first fault; texts aren't looked at.
pub fn migrated(alloc: Global, file: &[u8]) -> Result<Str, PlanRefusal>
    ensures accepted { IfOk result (λ text. (fields : Fields) × (experiment_says file.now ≡ Ok fields)) }
    ensures text { IfOk result (IsMigrated file.now) }
    ensures refused { IfErr result (λ refusal. Says (experiment_says file.now) (Err refusal)) }
{
    if let Err(refusal) = Experiment::read(alloc, file) {
        return Err(refusal);
    }
    accepted_text(alloc, file)
}
