//! Why a motion isn't made.
ghost use Rattle.std.specs.Prelude.{◌≡◌};

use nl_fixed::NoMemory;
use std::alloc::AllocFailed;
use thiserror::Error;

/// Why a motion isn't made, or why patches give nothing to each other. The world is as it was then.
#[derive(Clone, Copy, Debug, PartialEq, Eq, Error)]
pub enum MoveFault {
    #[error("the point is outside of the world")]
    OutOfWorld,
    #[error("a number is out of range")]
    Overflow,
    #[error("a value is no number")]
    WrongType,
    #[error("the part isn't from 0 to 1")]
    Domain,
    #[error("an allocation was refused")]
    NoMemory,
}

impl From<NoMemory> for MoveFault {
    ghost use Rattle.std.specs.Prelude.{◌≡◌};
    ghost use Rattle.nl_motion.specs.declared.faults.MoveFault.TheVariants as MoveFault;

    ghost from_gives = { λ _ fault. fault ≡ MoveFault.NoMemory };

    fn from(_refused: NoMemory) -> MoveFault {
        MoveFault::NoMemory
    }
}

impl<T: Drop> From<AllocFailed<T>> for MoveFault {
    ghost use Rattle.std.specs.Prelude.{◌≡◌};
    ghost use Rattle.nl_motion.specs.declared.faults.MoveFault.TheVariants as MoveFault;

    ghost from_gives = { λ _ fault. fault ≡ MoveFault.NoMemory };

    fn from(_refused: AllocFailed<T>) -> MoveFault {
        MoveFault::NoMemory
    }
}
