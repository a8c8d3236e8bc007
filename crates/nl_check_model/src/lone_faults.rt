//! What is wrong with a lone text, and where.
ghost use Rattle.std.specs.Prelude.{◌≡◌};
ghost use Rattle.nl_check_model.specs.LoneText as spec;

use nl_check::CheckKind;
use nl_fixed::NoMemory;
use nl_parse::BodyKind;
use nl_scan::{ScanKind, line_column};

/// What is wrong with a lone text: the kinds of all stages that read it.
#[derive(Clone, Copy, Debug, PartialEq, Eq)]
pub enum InnerKind {
    TooLong,
    NotText,
    BadChar,
    OpenText,
    BadEscape,
    BadNumber,
    UnknownName,
    Unexpected,
    TooDeep,
    WrongContext,
    NotSettable,
    NoReport,
}

/// Where a lone text is wrong: the line and the column in that text, both from 1.
#[derive(Clone, Copy, Debug, PartialEq, Eq)]
pub struct Inner {
    pub kind: InnerKind,
    pub line: u64,
    pub column: u64,
}

/// Why a lone text isn't read: its first fault, or want of memory.
#[derive(Clone, Copy, Debug, PartialEq, Eq)]
pub enum LoneRefusal {
    Fault(Inner),
    NoMemory,
}

impl From<NoMemory> for LoneRefusal {
    ghost use Rattle.std.specs.Prelude.{◌≡◌};
    ghost use Rattle.nl_check_model.specs.declared.lone_faults.LoneRefusal.TheVariants as LoneRefusal;

    ghost from_gives = { λ _ refusal. refusal ≡ LoneRefusal.NoMemory };

    fn from(_refused: NoMemory) -> LoneRefusal {
        LoneRefusal::NoMemory
    }
}

// The kinds of the stages under the names that they have here.
pub(crate) fn of_scan(kind: ScanKind) -> InnerKind
    ensures { result ≡ spec.of_scan kind }
{
    match kind {
        ScanKind::TooLong => InnerKind::TooLong,
        ScanKind::NotText => InnerKind::NotText,
        ScanKind::BadChar => InnerKind::BadChar,
        ScanKind::OpenText => InnerKind::OpenText,
        ScanKind::BadEscape => InnerKind::BadEscape,
        ScanKind::BadNumber => InnerKind::BadNumber,
    }
}

pub(crate) fn of_body(kind: BodyKind) -> InnerKind
    ensures { result ≡ spec.of_body kind }
{
    match kind {
        BodyKind::UnknownName => InnerKind::UnknownName,
        BodyKind::Unexpected => InnerKind::Unexpected,
        BodyKind::TooDeep => InnerKind::TooDeep,
    }
}

pub(crate) fn of_check(kind: CheckKind) -> InnerKind
    ensures { result ≡ spec.of_check kind }
{
    match kind {
        CheckKind::WrongContext => InnerKind::WrongContext,
        CheckKind::NotSettable => InnerKind::NotSettable,
        CheckKind::NoReport => InnerKind::NoReport,
    }
}

// A fault of this kind at a byte of the text.
pub(crate) fn told_at(text: &[u8], kind: InnerKind, place: u32) -> Inner
    ensures { result ≡ spec.told_at text.now kind place }
{
    let (line, column) = line_column(text, place);
    Inner { kind, line, column }
}
