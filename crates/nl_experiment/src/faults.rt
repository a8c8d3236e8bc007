//! What is wrong with an experiment, at which key, and where in a text.
ghost use Rattle.std.specs.Prelude.{◌≡◌, IfOk};
ghost use Rattle.nl_experiment.specs.FaultText.{inner_kind_text, inner_text, key_text, plan_kind_text, plan_text};
ghost use Rattle.nl_experiment.specs.Plan.{refused};

use nl_check_model::{Inner, InnerKind};
use nl_experiment_keys::{KeyRefusal, PlanKind};
use nl_fixed::{NoMemory, Str};
use std::alloc::Global;

/// The first fault of an experiment, with its key as it is told: `seed`, `world.wrap-x`, `vary 2.values`, `metric 1`. A fault of the whole
/// file has the empty key. `inner` stands exactly with `BadText`.
#[derive(Drop)]
pub struct PlanFault {
    pub kind: PlanKind,
    pub key: Str,
    pub inner: Option<Inner>,
}

impl PlanFault {
    ghost use Rattle.std.specs.Prelude.{IfOk, ◌≡◌};
    ghost use Rattle.nl_experiment.specs.FaultText.{plan_text};

    /// What is told of the fault behind the name of its file: `KEY: KIND`, `KEY: BadText KIND L:C`, and `KIND` for a fault of the whole file.
    pub fn text(&self, alloc: Global) -> Result<Str, NoMemory>
        ensures { IfOk result (λ text. text ≡ plan_text self.now) }
    {
        let mut text = key_part(alloc, self.kind, &self.key)?;
        text.append(alloc, plan_word(self.kind).as_bytes())?;
        let inner = inner_part(alloc, &self.inner)?;
        text.append(alloc, inner.as_bytes())?;
        Ok(text)
    }
}

// The key as it is told before the kind; a fault of the whole file has none.
fn key_part(alloc: Global, kind: PlanKind, key: &Str) -> Result<Str, NoMemory>
    ensures { IfOk result (λ text. text ≡ key_text kind key.now) }
{
    match kind {
        PlanKind::TooLong => Ok(Str::of_vec(Vec::new(alloc))),
        PlanKind::NotToml => Ok(Str::of_vec(Vec::new(alloc))),
        _ => {
            let mut text = key.copy(alloc)?;
            text.append(alloc, b": ")?;
            Ok(text)
        }
    }
}

// The fault of a text's own, as it is told behind the kind.
fn inner_part(alloc: Global, inner: &Option<Inner>) -> Result<Str, NoMemory>
    ensures { IfOk result (λ text. text ≡ inner_text inner.now) }
{
    match inner {
        Some(inner) => {
            let kind = inner_word(inner.kind);
            let text = format!(in alloc; " {kind} {}:{}", inner.line, inner.column)?;
            Str::of(alloc, text.as_bytes())
        }
        None => Ok(Str::of_vec(Vec::new(alloc))),
    }
}

// The word of a kind.
fn plan_word(kind: PlanKind) -> &'static str
    ensures { result.now ≡ plan_kind_text kind }
{
    match kind {
        PlanKind::TooLong => "TooLong",
        PlanKind::NotToml => "NotToml",
        PlanKind::MissingKey => "MissingKey",
        PlanKind::WrongKind => "WrongKind",
        PlanKind::FloatValue => "FloatValue",
        PlanKind::BadLiteral => "BadLiteral",
        PlanKind::UnknownKey => "UnknownKey",
        PlanKind::TooManyRuns => "TooManyRuns",
        PlanKind::BadWorld => "BadWorld",
        PlanKind::BadText => "BadText",
        PlanKind::NoSuchRun => "NoSuchRun",
    }
}

// The word of a kind of a text's own fault.
fn inner_word(kind: InnerKind) -> &'static str
    ensures { result.now ≡ inner_kind_text kind }
{
    match kind {
        InnerKind::TooLong => "TooLong",
        InnerKind::NotText => "NotText",
        InnerKind::BadChar => "BadChar",
        InnerKind::OpenText => "OpenText",
        InnerKind::BadEscape => "BadEscape",
        InnerKind::BadNumber => "BadNumber",
        InnerKind::UnknownName => "UnknownName",
        InnerKind::Unexpected => "Unexpected",
        InnerKind::TooDeep => "TooDeep",
        InnerKind::WrongContext => "WrongContext",
        InnerKind::NotSettable => "NotSettable",
        InnerKind::NoReport => "NoReport",
    }
}

/// Why a file is no experiment: its first fault, or want of memory.
#[derive(Drop)]
pub enum PlanRefusal {
    Fault(PlanFault),
    NoMemory,
}

impl From<NoMemory> for PlanRefusal {
    ghost use Rattle.std.specs.Prelude.{◌≡◌};
    ghost use Rattle.nl_experiment.specs.declared.faults.PlanRefusal.TheVariants as PlanRefusal;

    ghost from_gives = { λ _ refusal. refusal ≡ PlanRefusal.NoMemory };

    fn from(_refused: NoMemory) -> PlanRefusal {
        PlanRefusal::NoMemory
    }
}

/// The refusal of a file whose keys are refused.
pub(crate) fn of_keys(refusal: KeyRefusal) -> PlanRefusal
    ensures { result ≡ refused refusal }
{
    match refusal {
        KeyRefusal::Fault(fault) => PlanRefusal::Fault(PlanFault {
            kind: fault.kind,
            key: fault.key,
            inner: None,
        }),
        KeyRefusal::NoMemory => PlanRefusal::NoMemory,
    }
}
