//! What is wrong with a model, and where.
ghost use Rattle.std.specs.Prelude.{◌≡◌};
ghost use Rattle.nl_check_model.specs.Verdict.{fault_at};
ghost use Rattle.nl_check_model.specs.declared.faults.ModelRefusal.TheVariants as ModelRefusal;

use nl_check::CheckKind;
use nl_decl::DeclKind;
use nl_fixed::NoMemory;
use nl_parse::BodyKind;
use nl_scan::{ScanKind, line_column};
use std::fmt;

/// What is wrong with a model: the kinds of all stages that read it.
#[derive(Clone, Copy, Debug, PartialEq, Eq)]
pub enum ModelKind {
    Scan(ScanKind),
    Declaration(DeclKind),
    Body(BodyKind),
    Check(CheckKind),
}

/// The first fault of a model, with its line and its column, both from 1.
#[derive(Clone, Copy, Debug, PartialEq, Eq)]
pub struct ModelFault {
    pub kind: ModelKind,
    pub line: u64,
    pub column: u64,
}

/// Why a file is no model.
#[derive(Clone, Copy, Debug, PartialEq, Eq)]
pub enum ModelRefusal {
    Fault(ModelFault),
    NoMemory,
}

impl From<NoMemory> for ModelRefusal {
    ghost use Rattle.std.specs.Prelude.{◌≡◌};
    ghost use Rattle.nl_check_model.specs.declared.faults.ModelRefusal.TheVariants as ModelRefusal;

    ghost from_gives = { λ _ refusal. refusal ≡ ModelRefusal.NoMemory };

    fn from(_refused: NoMemory) -> ModelRefusal {
        ModelRefusal::NoMemory
    }
}

// A fault of this kind at a byte of the text.
pub(crate) fn refusal_at(text: &[u8], kind: ModelKind, place: u32) -> ModelRefusal
    ensures { result ≡ ModelRefusal.Fault (fault_at text.now kind place) }
{
    let (line, column) = line_column(text, place);
    ModelRefusal::Fault(ModelFault { kind, line, column })
}

impl fmt::Display for ModelKind {
    ghost use Rattle.nl_check_model.specs.FaultText.{model_kind_text};
    ghost use Rattle.std.specs.Prelude.{Some};

    ghost output = { λ kind. Some (model_kind_text kind) };

    fn fmt<W: fmt::Write>(&self, f: &mut fmt::Formatter<W>) -> fmt::Result {
        match self {
            ModelKind::Scan(kind) => write!(f, "{kind}"),
            ModelKind::Declaration(kind) => write!(f, "{kind}"),
            ModelKind::Body(kind) => write!(f, "{kind}"),
            ModelKind::Check(kind) => write!(f, "{kind}"),
        }
    }
}
