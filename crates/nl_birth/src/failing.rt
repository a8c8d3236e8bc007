//! Why no more agents were made.

use nl_agents::{BearFail, TieFail};
use nl_fixed::NoMemory;
use std::alloc::AllocFailed;

/// Why not all turtles were born, or not all links were made. Those that were made before stay.
#[derive(Clone, Copy, PartialEq, Eq, Debug)]
pub enum BirthFail {
    /// As many turtles, or links, live as may, or no serial is left.
    TooMany,
    /// A link may not be made: from a turtle to itself, or one of no breed beside one of the other kind. Nothing was made.
    LinkFault,
    NoMemory,
}

impl From<BearFail> for BirthFail {
    ghost use Rattle.std.specs.Prelude.{◌≡◌};
    ghost use Rattle.nl_birth.specs.Outcomes.{fail_of_bear};

    ghost from_gives = { λ fail mine. mine ≡ fail_of_bear fail };

    fn from(fail: BearFail) -> BirthFail {
        match fail {
            BearFail::Full => BirthFail::TooMany,
            BearFail::NoMemory => BirthFail::NoMemory,
        }
    }
}

impl From<TieFail> for BirthFail {
    ghost use Rattle.std.specs.Prelude.{◌≡◌};
    ghost use Rattle.nl_birth.specs.Outcomes.{fail_of_tie};

    ghost from_gives = { λ fail mine. mine ≡ fail_of_tie fail };

    fn from(fail: TieFail) -> BirthFail {
        match fail {
            TieFail::Full => BirthFail::TooMany,
            TieFail::NoMemory => BirthFail::NoMemory,
        }
    }
}

impl From<NoMemory> for BirthFail {
    ghost use Rattle.std.specs.Prelude.{◌≡◌};
    ghost use Rattle.nl_birth.specs.declared.failing.BirthFail.TheVariants as BirthFail;

    ghost from_gives = { λ _ fail. fail ≡ BirthFail.NoMemory };

    fn from(_refused: NoMemory) -> BirthFail {
        BirthFail::NoMemory
    }
}

impl<T: Drop> From<AllocFailed<T>> for BirthFail {
    ghost use Rattle.std.specs.Prelude.{◌≡◌};
    ghost use Rattle.nl_birth.specs.declared.failing.BirthFail.TheVariants as BirthFail;

    ghost from_gives = { λ _ fail. fail ≡ BirthFail.NoMemory };

    fn from(_refused: AllocFailed<T>) -> BirthFail {
        BirthFail::NoMemory
    }
}
