//! Fixed-point numbers: whole counts of millionths.
ghost use Rattle.std.specs.Prelude.{◌≡◌, pos, ◌*ℤ◌};
ghost use Rattle.nl_fixed.specs.Numbers.{IsInRange, OverflowsExactly, number_at, number_of_integer, one};

use crate::arithmetic::{WIDE_ONE, number_of};
use std::marker::Model;
use thiserror::Error;

/// A number: a whole count of millionths from -9*10^18 to 9*10^18, seen by contracts as that count.
#[derive(Clone, Copy, PartialEq, Eq, PartialOrd, Ord, Debug)]
pub struct Num {
    pub(crate) count: i64,
}

/// How many millionths make 1.
pub(crate) const ONE: i64 = 1_000_000;

/// The greatest count; the least is its negative.
pub(crate) const LIMIT: i64 = 9_000_000_000_000_000_000;

impl Model for Num {
    ghost use Rattle.std.specs.Prelude.{ℤ};
    ghost use Rattle.nl_fixed.specs.Numbers.{IsInRange};

    ghost Value = { ℤ };

    ghost view = { λ n. n.count };

    ghost invariant = { λ n. IsInRange n.count };

    ghost inverse = { λ count. record { count = count } };
}

/// Why an operation on numbers has no answer.
#[derive(Clone, Copy, Debug, PartialEq, Eq, Error)]
pub enum NumFault {
    #[error("the result is out of range")]
    Overflow,
    #[error("the divisor is 0")]
    ZeroDivide,
    #[error("the operation has no meaning at these numbers")]
    Domain,
}

impl Num {
    /// The number of so many millionths, or None where it is out of range.
    pub fn new(millionths: i64) -> Option<Num>
        ensures { result ≡ number_at millionths }
    {
        if -LIMIT <= millionths && millionths <= LIMIT {
            Some(Num { count: millionths })
        } else {
            None
        }
    }

    /// The whole number n, or None where it is out of range.
    pub fn whole(n: i64) -> Option<Num>
        ensures { result ≡ number_at (n *ℤ pos one) }
    {
        n.checked_mul(ONE).and_then(Num::new)
    }

    /// The number of a whole number, which may be any count. Overflow where it is out of range.
    pub fn from_integer(n: i128) -> Result<Num, NumFault>
        ensures value { result ≡ number_of_integer n }
        ensures overflow { OverflowsExactly result (n *ℤ pos one) }
    {
        match i64::try_from(n) {
            Ok(n) => number_of(i128::from(n) * WIDE_ONE),
            Err(_) => Err(NumFault::Overflow),
        }
    }

    /// How many millionths the number is.
    pub fn millionths(self) -> i64
        ensures value { result ≡ self }
        ensures bound { IsInRange result }
    {
        self.count
    }
}
