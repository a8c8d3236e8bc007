//! Words of numbers that give a number.
ghost use Rattle.std.specs.Prelude.{◌≡◌, pos};
ghost use Rattle.nl_listops.specs.Arithmetic.{number_of, number_of_two, color_circle, circle_ratio, growth_base};

use crate::words::{OfNumber, OfNumbers};
use nl_fixed::{Num, NumFault};

/// A number that is in range, of so many millionths.
macro_rules! number {
    ($millionths:expr) => {
        match Num::new($millionths) {
            Some(number) => number,
            None => unreachable!(),
        }
    };
}

/// Where colors lie: from 0 to below 140.
fn color_circle() -> Num
    ensures { result ≡ pos color_circle }
{
    number!(140_000_000)
}

/// `pi`
pub(crate) fn circle_ratio() -> Num
    ensures { result ≡ pos circle_ratio }
{
    number!(3_141_593)
}

/// `e`
pub(crate) fn growth_base() -> Num
    ensures { result ≡ pos growth_base }
{
    number!(2_718_282)
}

impl OfNumber {
    /// What the word makes of a number.
    pub(crate) fn of(self, n: Num) -> Result<Num, NumFault>
        ensures { result ≡ number_of self n }
    {
        match self {
            OfNumber::Abs => Ok(n.abs()),
            OfNumber::Ceiling => Ok(n.ceiling()),
            OfNumber::Cos => Ok(n.cos()),
            OfNumber::Floor => Ok(n.floor()),
            OfNumber::Int => Ok(n.int()),
            OfNumber::Round => Ok(n.round()),
            OfNumber::Sin => Ok(n.sin()),
            OfNumber::Sqrt => n.sqrt(),
            OfNumber::Tan => n.tan(),
            OfNumber::WrapColor => n.modulo(color_circle()),
        }
    }
}

impl OfNumbers {
    /// What the word makes of two numbers.
    pub(crate) fn of(self, a: Num, b: Num) -> Result<Num, NumFault>
        ensures { result ≡ number_of_two self a b }
    {
        match self {
            OfNumbers::Plus => a.add(b),
            OfNumbers::Minus => a.sub(b),
            OfNumbers::Times => a.mul(b),
            OfNumbers::Divided => a.div(b),
            OfNumbers::Power => a.pow(b),
            OfNumbers::Modulo => a.modulo(b),
            OfNumbers::Remainder => a.remainder(b),
            OfNumbers::Atan => Num::atan(a, b),
            OfNumbers::Precision => a.precision(b),
            OfNumbers::SubtractHeadings => a.heading_difference(b),
        }
    }
}
