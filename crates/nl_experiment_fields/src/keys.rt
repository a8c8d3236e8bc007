//! The keys of an experiment's document, a row each, and the formats in which each stands.
ghost use Rattle.std.specs.Prelude.{◌≡◌, IfOk, filter, map};
ghost use Rattle.nl_experiment_fields.specs.Keys as spec;

use nl_experiment_keys::{TextKey, TruthKey, WholeKey};
use nl_fixed::NoMemory;
use std::alloc::Global;

/// The format: by it some other keys are known.
pub(crate) const FORMAT: WholeKey = WholeKey {
    name: "format",
    least: 1,
    most: 2,
    usual: 1,
};

/// The seed of the first run.
pub(crate) const SEED: WholeKey = WholeKey {
    name: "seed",
    least: 0,
    most: i64::MAX,
    usual: 0,
};

/// How many runs have the same combination of values.
pub(crate) const REPETITIONS: WholeKey = WholeKey {
    name: "repetitions",
    least: 1,
    most: 100_000,
    usual: 1,
};

/// Whether the repetitions of a combination come together.
pub(crate) const SEQUENTIAL: TruthKey = TruthKey {
    name: "sequential",
    usual: true,
};

/// The commands that a run begins with.
pub(crate) const SETUP: TextKey = TextKey {
    name: "setup",
    usual: "setup",
};

/// The commands of each step.
pub(crate) const GO: TextKey = TextKey {
    name: "go",
    usual: "go",
};

/// The most steps of a run; 0 is no limit.
pub(crate) const STEPS: WholeKey = WholeKey {
    name: "steps",
    least: 0,
    most: i64::MAX,
    usual: 0,
};

/// Whether the metrics are measured after each step.
pub(crate) const EVERY_STEP: TruthKey = TruthKey {
    name: "every-step",
    usual: false,
};

/// The units of a run.
pub(crate) const BUDGET: WholeKey = WholeKey {
    name: "budget",
    least: 1,
    most: 1_000_000_000,
    usual: 10_000_000,
};

/// A key, and the formats in which it stands. A further format is a further column.
#[derive(Drop)]
pub(crate) struct KeyRow {
    pub(crate) name: &'static str,
    /// Whether it is a key of format 1.
    pub(crate) first: bool,
    /// Whether it is a key of format 2.
    pub(crate) second: bool,
}

/// All keys, in the order in which their faults are told.
const KEYS: &[KeyRow] = &[
    KeyRow {
        name: "format",
        first: true,
        second: true,
    },
    KeyRow {
        name: "name",
        first: true,
        second: true,
    },
    KeyRow {
        name: "seed",
        first: true,
        second: true,
    },
    KeyRow {
        name: "repetitions",
        first: true,
        second: true,
    },
    KeyRow {
        name: "sequential",
        first: true,
        second: true,
    },
    KeyRow {
        name: "setup",
        first: true,
        second: true,
    },
    KeyRow {
        name: "go",
        first: true,
        second: true,
    },
    KeyRow {
        name: "until",
        first: true,
        second: true,
    },
    KeyRow {
        name: "steps",
        first: true,
        second: true,
    },
    KeyRow {
        name: "every-step",
        first: true,
        second: false,
    },
    KeyRow {
        name: "measure-when",
        first: false,
        second: true,
    },
    KeyRow {
        name: "budget",
        first: true,
        second: true,
    },
    KeyRow {
        name: "metrics",
        first: true,
        second: true,
    },
    KeyRow {
        name: "world",
        first: true,
        second: true,
    },
    KeyRow {
        name: "globals",
        first: true,
        second: true,
    },
    KeyRow {
        name: "vary",
        first: true,
        second: true,
    },
];

// Whether a key is one of the format; where none is known, each key is.
fn is_known(format: Option<i64>, row: &KeyRow) -> bool
    ensures { result ≡ spec.is_known format (spec.row_seen row.now) }
{
    match format {
        Some(number) => { if number == 1 { row.first } else { row.second } }
        None => true,
    }
}

// The keys of these rows that are known in a format.
fn names_among(
    alloc: Global,
    rows: &[KeyRow],
    format: Option<i64>,
) -> Result<Vec<&'static str>, NoMemory>
    ensures { IfOk result (λ names. map (λ name. name.now) names.items
        ≡ spec.names_of (filter (spec.is_known format) (map spec.row_seen rows.now))) }
{
    let mut names = Vec::new(alloc);
    'rows: for row in rows {
        if is_known(format, row) {
            names.push(row.name)?;
        }
    }
    Ok(names)
}

/// The keys of a format, in the order in which their faults are told; where none is known, all keys.
pub(crate) fn names_by(alloc: Global, format: Option<i64>) -> Result<Vec<&'static str>, NoMemory>
    ensures { IfOk result (λ names. map (λ name. name.now) names.items ≡ spec.keys_of format) }
{
    names_among(alloc, KEYS, format)
}
