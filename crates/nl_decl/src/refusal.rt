//! Why a text has no declarations.
use nl_decl_outline::OutlineRefusal;
use nl_fixed::NoMemory;
use std::fmt;

/// What is wrong with a list of declarations.
#[derive(Clone, Copy, Debug, PartialEq, Eq)]
pub enum DeclKind {
    /// A name is declared twice where it may stand once.
    Duplicate,
    /// The tokens are no declarations; the place is the first token with which they begin none, or their number where
    /// the text ends within a declaration.
    BadDeclaration,
}

impl fmt::Display for DeclKind {
    ghost use Rattle.nl_decl.specs.FaultText.{decl_kind_text};
    ghost use Rattle.std.specs.Prelude.{Some};

    ghost output = { λ kind. Some (decl_kind_text kind) };

    fn fmt<W: fmt::Write>(&self, f: &mut fmt::Formatter<W>) -> fmt::Result {
        match self {
            DeclKind::Duplicate => write!(f, "Duplicate"),
            DeclKind::BadDeclaration => write!(f, "BadDeclaration"),
        }
    }
}

/// Why a text has no declarations: its first fault with the index of the token at which it stands, or want of memory.
#[derive(Clone, Copy, Debug, PartialEq, Eq)]
pub enum DeclRefusal {
    Fault { kind: DeclKind, place: usize },
    NoMemory,
}

impl From<NoMemory> for DeclRefusal {
    ghost use Rattle.std.specs.Prelude.{◌≡◌};
    ghost use Rattle.nl_decl.specs.declared.refusal.DeclRefusal.TheVariants as DeclRefusal;

    ghost from_gives = { λ _ refusal. refusal ≡ DeclRefusal.NoMemory };

    fn from(_refused: NoMemory) -> DeclRefusal {
        DeclRefusal::NoMemory
    }
}

impl From<OutlineRefusal> for DeclRefusal {
    ghost use Rattle.std.specs.Prelude.{◌≡◌};
    ghost use Rattle.nl_decl.specs.Refused.{of_outline};

    ghost from_gives = { λ refused refusal. refusal ≡ of_outline refused };

    fn from(refused: OutlineRefusal) -> DeclRefusal {
        match refused {
            OutlineRefusal::BadToken(place) => DeclRefusal::Fault {
                kind: DeclKind::BadDeclaration,
                place,
            },
            OutlineRefusal::NoMemory => DeclRefusal::NoMemory,
        }
    }
}
