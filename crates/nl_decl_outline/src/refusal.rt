//! Why tokens are no declarations.
use nl_fixed::NoMemory;
use thiserror::Error;

/// Why tokens are no declarations, or memory is wanted.
#[derive(Clone, Copy, Debug, PartialEq, Eq, Error)]
pub enum OutlineRefusal {
    /// The tokens are no declarations, by the index of the first of them with which they begin none, or by their number
    /// where the text ends within a declaration.
    #[error("no declaration at token {0}")]
    BadToken(usize),
    #[error("out of memory")]
    NoMemory,
}

impl From<NoMemory> for OutlineRefusal {
    ghost use Rattle.std.specs.Prelude.{◌≡◌};
    ghost use Rattle.nl_decl_outline.specs.declared.refusal.OutlineRefusal.TheVariants as OutlineRefusal;

    ghost from_gives = { λ _ refusal. refusal ≡ OutlineRefusal.NoMemory };

    fn from(_refused: NoMemory) -> OutlineRefusal {
        OutlineRefusal::NoMemory
    }
}
