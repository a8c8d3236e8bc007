//! What is wrong with an experiment, and at which key.
ghost use Rattle.std.specs.Prelude.{◌≡◌, ◌++◌, IfOk};
ghost use Rattle.nl_experiment_keys.specs.Reading as spec;
ghost use Rattle.nl_experiment_keys.specs.Reading.{Tells};

use nl_fixed::{NoMemory, Str};
use std::alloc::Global;

/// What is wrong with an experiment.
#[derive(Clone, Copy, Debug, PartialEq, Eq)]
pub enum PlanKind {
    /// The file has more bytes than the limit.
    TooLong,
    /// The file is no TOML document.
    NotToml,
    /// A key that has to be there isn't.
    MissingKey,
    /// The value is of another kind.
    WrongKind,
    /// The value is a floating-point number, which has no exact decimal form.
    FloatValue,
    /// The value is out of its range, or a name or a literal has no right form.
    BadLiteral,
    /// No experiment has the key.
    UnknownKey,
    /// There would be more than 100,000 runs.
    TooManyRuns,
    /// The bounds of some run are those of no world.
    BadWorld,
    /// A text can't be read or run: `Inner` says why and where.
    BadText,
    /// A number of a run is asked for that the experiment doesn't have.
    NoSuchRun,
}

/// The first fault of a file, with its key as it is told: `seed`, `world.wrap-x`, `vary 2.values`. A fault of the whole file has the empty key.
#[derive(Drop)]
pub struct KeyFault {
    pub kind: PlanKind,
    pub key: Str,
}

/// Why a file isn't read: its first fault, or want of memory.
#[derive(Drop)]
pub enum KeyRefusal {
    Fault(KeyFault),
    NoMemory,
}

impl From<NoMemory> for KeyRefusal {
    ghost use Rattle.std.specs.Prelude.{◌≡◌};
    ghost use Rattle.nl_experiment_keys.specs.declared.faults.KeyRefusal.TheVariants as KeyRefusal;

    ghost from_gives = { λ _ refusal. refusal ≡ KeyRefusal.NoMemory };

    fn from(_refused: NoMemory) -> KeyRefusal {
        KeyRefusal::NoMemory
    }
}

// One text behind another.
fn joined(alloc: Global, before: &str, key: &str) -> Result<Str, NoMemory>
    ensures { IfOk result (λ text. text ≡ before.now ++ key.now) }
{
    let mut text = Str::of(alloc, before.as_bytes())?;
    text.append(alloc, key.as_bytes())?;
    Ok(text)
}

/// A fault of this kind at a key, which stands behind what its table is called; or want of memory for it.
pub fn fault_at(alloc: Global, before: &str, key: &str, kind: PlanKind) -> KeyRefusal
    ensures { Tells (spec.fault_at (before.now ++ key.now) kind) result }
{
    match joined(alloc, before, key) {
        Ok(key) => KeyRefusal::Fault(KeyFault { kind, key }),
        Err(NoMemory) => KeyRefusal::NoMemory,
    }
}
