//! Why a query has no answer.

use nl_fixed::NoMemory;
use std::alloc::{AllocError, AllocFailed};

/// Why a query has no answer.
#[derive(Clone, Copy, Debug, PartialEq, Eq)]
pub enum QueryFail {
    /// An input is of another kind than the word takes.
    WrongType,
    /// An agent is wanted, and the input is nobody.
    NoAgent,
    /// A point lies outside of the world.
    OutOfWorld,
    /// A direction from a point to itself.
    SamePoint,
    /// A number on the way to the answer is out of range.
    Overflow,
    /// The word has no meaning at these inputs.
    Domain,
    /// There are fewer to choose from than are wanted.
    TooFew,
    NoMemory,
}

impl From<NoMemory> for QueryFail {
    ghost use Rattle.std.specs.Prelude.{◌≡◌};
    ghost use Rattle.nl_agentset_query.specs.declared.fail.QueryFail.TheVariants.{NoMemory};

    ghost from_gives = { λ _ e. e ≡ NoMemory };

    fn from(_refused: NoMemory) -> QueryFail {
        QueryFail::NoMemory
    }
}

impl From<AllocError> for QueryFail {
    ghost use Rattle.std.specs.Prelude.{◌≡◌};
    ghost use Rattle.nl_agentset_query.specs.declared.fail.QueryFail.TheVariants.{NoMemory};

    ghost from_gives = { λ _ e. e ≡ NoMemory };

    fn from(_refused: AllocError) -> QueryFail {
        QueryFail::NoMemory
    }
}

impl<T: Drop> From<AllocFailed<T>> for QueryFail {
    ghost use Rattle.std.specs.Prelude.{◌≡◌};
    ghost use Rattle.nl_agentset_query.specs.declared.fail.QueryFail.TheVariants.{NoMemory};

    ghost from_gives = { λ _ e. e ≡ NoMemory };

    fn from(_refused: AllocFailed<T>) -> QueryFail {
        QueryFail::NoMemory
    }
}
