//! Why a program or a text is refused.
ghost use Rattle.std.specs.Prelude.{◌≡◌};

use nl_fixed::{NoMemory, Span};
use nl_tree::CheckKind;
use thiserror::Error;

/// Why a program or a text is refused.
#[derive(Clone, Copy, Debug, PartialEq, Eq, Error)]
pub enum CheckRefusal {
    /// The first fault by the order of the text. The body of the procedure at place i has the number i + 1, and a lone text 0.
    #[error("{kind} in body {body}")]
    Fault {
        kind: CheckKind,
        body: usize,
        span: Span,
    },
    #[error("out of memory")]
    NoMemory,
}

impl From<NoMemory> for CheckRefusal {
    ghost use Rattle.std.specs.Prelude.{◌≡◌};
    ghost use Rattle.nl_check.specs.declared.refusal.CheckRefusal.TheVariants.{NoMemory};

    ghost from_gives = { λ _ e. e ≡ NoMemory };

    fn from(_refused: NoMemory) -> CheckRefusal {
        CheckRefusal::NoMemory
    }
}
