//! Rounding to whole numbers and to places, and changes of sign.
ghost use Rattle.std.specs.Prelude.{◌≡◌, ◌<◌, ◌≤◌, ◌↔◌, pos, neg_ℤ, ◌<ℤ◌, unsigned_abs, IsErr, IsTrue};
ghost use Rattle.nl_fixed.specs.Numbers.{IsInRange, IsWhole, one, limit, whole_limit, whole_part, is_whole, nearest_multiple, round_of, floor_of, ceiling_of, int_of, precision_of};

use crate::arithmetic::{number_of, rounded_quotient};
use crate::number::{Num, NumFault, ONE};

/// The multiple of `step` nearest to the count, a half upwards.
pub(crate) fn nearest_multiple(count: i64, step: u64) -> i128
    requires above_zero { 0 < step }
    requires narrow { step ≤ limit }
    requires in_range { IsInRange count }
    ensures { result ≡ nearest_multiple count step }
{
    rounded_quotient(i128::from(count), step) * i128::from(step)
}

impl Num {
    /// How far the number is from 0.
    pub fn abs(self) -> Num
        ensures { result ≡ pos (unsigned_abs self) }
    {
        Num {
            count: self.count.abs(),
        }
    }

    /// The number with its sign changed.
    pub fn negate(self) -> Num
        ensures { result ≡ neg_ℤ self }
    {
        Num { count: -self.count }
    }

    /// The nearest whole number, a half upwards.
    pub fn round(self) -> Num
        ensures { result ≡ round_of self }
    {
        Num {
            count: nearest_multiple(self.count, ONE as u64) as i64,
        }
    }

    /// The greatest whole number that is not above the number.
    pub fn floor(self) -> Num
        ensures { result ≡ floor_of self }
    {
        Num {
            count: self.count.div_euclid(ONE) * ONE,
        }
    }

    /// The least whole number that is not below the number.
    pub fn ceiling(self) -> Num
        ensures { result ≡ ceiling_of self }
    {
        self.negate().floor().negate()
    }

    /// The whole number that is left without the fraction.
    pub fn int(self) -> Num
        ensures { result ≡ int_of self }
    {
        Num {
            count: self.whole_part() * ONE,
        }
    }

    /// The whole number that is left without the fraction, as an integer.
    pub fn whole_part(self) -> i64
        ensures value { result ≡ whole_part self }
        ensures bound { unsigned_abs result ≤ whole_limit }
    {
        self.count / ONE
    }

    /// Whether the number has no fraction.
    pub fn is_whole(self) -> bool
        ensures value { result ≡ is_whole self }
        ensures whole { IsTrue result ↔ IsWhole self }
    {
        self.count % ONE == 0
    }

    /// The number rounded to so many decimal places, a half upwards: the places are cut toward 0 to a whole number,
    /// with 6 or more nothing is lost, and a negative number of places, down to -12, rounds to tens, hundreds and so
    /// on. Domain where the places are fewer than -12.
    pub fn precision(self, places: Num) -> Result<Num, NumFault>
        ensures value { result ≡ precision_of self places }
        ensures domain { IsErr result ↔ (whole_part places <ℤ neg_ℤ (pos 12)) }
    {
        let places = places.count / ONE;
        if places < -12 {
            return Err(NumFault::Domain);
        }
        if 6 <= places {
            return Ok(self);
        }
        let step = 10_u64.pow((6 - places) as u32);
        number_of(nearest_multiple(self.count, step))
    }
}
