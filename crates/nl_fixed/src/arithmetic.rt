//! Sum, difference, product, quotient, `mod` and `remainder`.
ghost use Rattle.std.specs.Prelude.{◌≡◌, ◌≢◌, ◌<◌, ◌≤◌, ◌*◌, ◌↔◌, pos, ◌+ℤ◌, ◌-ℤ◌, ◌*ℤ◌, unsigned_abs, IsErr};
ghost use Rattle.nl_fixed.specs.Numbers.{IsInRange, OverflowsExactly, as_number, limit, one, rounded_quotient, floor_of_ratio, sum_of, difference_of, product_of, quotient_of, modulo_of, remainder_of};

use crate::number::{Num, NumFault, ONE};

/// `ONE`, at the width of the steps between.
pub(crate) const WIDE_ONE: i128 = 1_000_000;

/// The number of so many millionths, which may be any count.
#[tactic(auto, unfolding(crate::specs::Numbers::as_number))]
pub(crate) fn number_of(count: i128) -> Result<Num, NumFault>
    ensures { result ≡ as_number count }
{
    match i64::try_from(count) {
        Ok(count) => Num::new(count).ok_or(NumFault::Overflow),
        Err(_) => Err(NumFault::Overflow),
    }
}

/// The whole number nearest to p / q, a half upwards. The product of two counts of millionths is no greater than p
/// may be, and q is any count but 0.
pub fn rounded_quotient(p: i128, q: u64) -> i128
    requires above_zero { 0 < q }
    requires product { unsigned_abs p ≤ limit * limit }
    ensures { result ≡ rounded_quotient p q }
{
    (2 * p + i128::from(q)).div_euclid(2 * i128::from(q))
}

/// The greatest whole number that is at most a / b.
pub(crate) fn floored(a: i64, b: i64) -> i64
    requires divisor { b ≢ pos 0 }
    requires first { IsInRange a }
    requires second { IsInRange b }
    ensures { result ≡ floor_of_ratio a b }
{
    if b < 0 {
        (-a).div_euclid(-b)
    } else {
        a.div_euclid(b)
    }
}

impl Num {
    /// The sum. Overflow where it is out of range.
    pub fn add(self, other: Num) -> Result<Num, NumFault>
        ensures value { result ≡ sum_of self other }
        ensures overflow { OverflowsExactly result (self +ℤ other) }
    {
        number_of(i128::from(self.count) + i128::from(other.count))
    }

    /// The number minus the other. Overflow where that is out of range.
    pub fn sub(self, other: Num) -> Result<Num, NumFault>
        ensures value { result ≡ difference_of self other }
        ensures overflow { OverflowsExactly result (self -ℤ other) }
    {
        number_of(i128::from(self.count) - i128::from(other.count))
    }

    /// The product, rounded to the nearest millionth, a half upwards. Overflow where that is out of range.
    pub fn mul(self, other: Num) -> Result<Num, NumFault>
        ensures value { result ≡ product_of self other }
        ensures overflow { OverflowsExactly result (rounded_quotient (self *ℤ other) one) }
    {
        number_of(rounded_quotient(i128::from(self.count) * i128::from(other.count), ONE as u64))
    }

    /// The quotient, rounded to the nearest millionth, a half upwards. ZeroDivide where the other is 0, and Overflow
    /// where the quotient is out of range.
    pub fn div(self, other: Num) -> Result<Num, NumFault>
        ensures { result ≡ quotient_of self other }
    {
        if other.count == 0 {
            return Err(NumFault::ZeroDivide);
        }
        let scaled = i128::from(self.count) * WIDE_ONE;
        let dividend = if other.count < 0 { -scaled } else { scaled };
        number_of(rounded_quotient(dividend, other.count.unsigned_abs()))
    }

    /// The number minus the other times the floor of their quotient: what is left has the other's sign, and is
    /// nearer to 0 than the other. ZeroDivide where the other is 0.
    pub fn modulo(self, other: Num) -> Result<Num, NumFault>
        ensures value { result ≡ modulo_of self other }
        ensures zero_divide { IsErr result ↔ (other ≡ pos 0) }
    {
        if other.count == 0 {
            return Err(NumFault::ZeroDivide);
        }
        let times = floored(self.count, other.count);
        number_of(i128::from(self.count) - i128::from(other.count) * i128::from(times))
    }

    /// The number minus the other times their quotient cut toward 0: what is left has the number's own sign, and is
    /// nearer to 0 than the other. ZeroDivide where the other is 0.
    pub fn remainder(self, other: Num) -> Result<Num, NumFault>
        ensures value { result ≡ remainder_of self other }
        ensures zero_divide { IsErr result ↔ (other ≡ pos 0) }
    {
        if other.count == 0 {
            return Err(NumFault::ZeroDivide);
        }
        number_of(i128::from(self.count % other.count))
    }
}
