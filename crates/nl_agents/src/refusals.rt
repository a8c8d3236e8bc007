//! Why a store makes no agent.

use nl_fixed::NoMemory;
use std::alloc::AllocFailed;

/// Why no turtle was born.
#[derive(Clone, Copy, PartialEq, Eq, Debug)]
pub enum BearFail {
    /// As many turtles live as may, or no serial is left.
    Full,
    NoMemory,
}

impl From<NoMemory> for BearFail {
    ghost use Rattle.std.specs.Prelude.{◌≡◌};
    ghost use Rattle.nl_agents.specs.declared.refusals.BearFail.TheVariants as BearFail;

    ghost from_gives = { λ _ fail. fail ≡ BearFail.NoMemory };

    fn from(_refused: NoMemory) -> BearFail {
        BearFail::NoMemory
    }
}

impl<T: Drop> From<AllocFailed<T>> for BearFail {
    ghost use Rattle.std.specs.Prelude.{◌≡◌};
    ghost use Rattle.nl_agents.specs.declared.refusals.BearFail.TheVariants as BearFail;

    ghost from_gives = { λ _ fail. fail ≡ BearFail.NoMemory };

    fn from(_refused: AllocFailed<T>) -> BearFail {
        BearFail::NoMemory
    }
}

/// Why no link was made.
#[derive(Clone, Copy, PartialEq, Eq, Debug)]
pub enum TieFail {
    /// As many links live as may, or no serial is left.
    Full,
    NoMemory,
}

impl From<NoMemory> for TieFail {
    ghost use Rattle.std.specs.Prelude.{◌≡◌};
    ghost use Rattle.nl_agents.specs.declared.refusals.TieFail.TheVariants as TieFail;

    ghost from_gives = { λ _ fail. fail ≡ TieFail.NoMemory };

    fn from(_refused: NoMemory) -> TieFail {
        TieFail::NoMemory
    }
}

impl<T: Drop> From<AllocFailed<T>> for TieFail {
    ghost use Rattle.std.specs.Prelude.{◌≡◌};
    ghost use Rattle.nl_agents.specs.declared.refusals.TieFail.TheVariants as TieFail;

    ghost from_gives = { λ _ fail. fail ≡ TieFail.NoMemory };

    fn from(_refused: AllocFailed<T>) -> TieFail {
        TieFail::NoMemory
    }
}
