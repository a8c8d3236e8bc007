//! Why a word of values has no answer.

use nl_fixed::{NoMemory, NumFault};
use std::alloc::{AllocError, AllocFailed};
use thiserror::Error;

/// Why a word of values has no answer.
#[derive(Clone, Copy, Debug, PartialEq, Eq, Error)]
pub enum ListFail {
    /// An input is of another kind than the word takes, or two values have no order.
    #[error("an input is of the wrong kind")]
    WrongType,
    /// A place lies outside of the list or text, or there is no item or character to take.
    #[error("the place is outside of the list or text")]
    OutOfList,
    /// A number on the way to the answer is out of range.
    #[error("the result is out of range")]
    Overflow,
    #[error("the divisor is 0")]
    ZeroDivide,
    /// The word has no meaning at these inputs.
    #[error("the word has no meaning at these inputs")]
    Domain,
    /// A statistic of fewer numbers than it takes.
    #[error("there are too few numbers")]
    TooFew,
    /// The answer would pass the limits on values.
    #[error("the answer is too large")]
    TooLarge,
    #[error("out of memory")]
    NoMemory,
}

impl From<NoMemory> for ListFail {
    ghost use Rattle.std.specs.Prelude.{◌≡◌};
    ghost use Rattle.nl_listops_series.specs.declared.fail.ListFail.TheVariants.{NoMemory};

    ghost from_gives = { λ _ e. e ≡ NoMemory };

    fn from(_refused: NoMemory) -> ListFail {
        ListFail::NoMemory
    }
}

impl From<AllocError> for ListFail {
    ghost use Rattle.std.specs.Prelude.{◌≡◌};
    ghost use Rattle.nl_listops_series.specs.declared.fail.ListFail.TheVariants.{NoMemory};

    ghost from_gives = { λ _ e. e ≡ NoMemory };

    fn from(_refused: AllocError) -> ListFail {
        ListFail::NoMemory
    }
}

impl<T: Drop> From<AllocFailed<T>> for ListFail {
    ghost use Rattle.std.specs.Prelude.{◌≡◌};
    ghost use Rattle.nl_listops_series.specs.declared.fail.ListFail.TheVariants.{NoMemory};

    ghost from_gives = { λ _ e. e ≡ NoMemory };

    fn from(_refused: AllocFailed<T>) -> ListFail {
        ListFail::NoMemory
    }
}

impl From<NumFault> for ListFail {
    ghost use Rattle.std.specs.Prelude.{◌≡◌};
    ghost use Rattle.nl_listops_series.specs.Fails.{fail_of};

    ghost from_gives = { λ fault e. e ≡ fail_of fault };

    fn from(fault: NumFault) -> ListFail {
        match fault {
            NumFault::Overflow => ListFail::Overflow,
            NumFault::ZeroDivide => ListFail::ZeroDivide,
            NumFault::Domain => ListFail::Domain,
        }
    }
}
