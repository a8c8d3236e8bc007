//! Differences of headings.
//!
//! A heading is an angle in degrees. Two angles that are whole turns apart point in one direction, so a difference of
//! headings is given as the one turn that is above -180 and up to 180, as in the NetLogo Dictionary.
ghost use Rattle.std.specs.Prelude.{◌≡◌, pos, ◌-ℤ◌, IfOk, MatchResult};
ghost use Rattle.nl_fixed.specs.declared.number.NumFault.TheVariants.{Overflow};
ghost use Rattle.nl_fixed.specs.Numbers.{IsInRange};
ghost use Rattle.nl_fixed.specs.Headings.{within_half_turn, heading_difference_of, IsWithinHalfTurn, AreTurnsApart, TurnsLeadWithin, WithinIsOnlyOne, ProductsWithSinesFit, ProductsWithCosinesFit};

use crate::number::{Num, NumFault, ONE};

/// 180 degrees, in millionths.
const HALF_TURN: i64 = 180 * ONE;

impl Num {
    /// The angle moved by whole turns, so that it is above -180 and up to 180 degrees.
    pub fn within_half_turn(self) -> Num
        ensures value { result ≡ within_half_turn self }
        ensures within { IsWithinHalfTurn result }
        ensures same { AreTurnsApart self result }
    {
        Num {
            count: HALF_TURN - (HALF_TURN - self.count).rem_euclid(2 * HALF_TURN),
        }
    }

    /// The first heading minus the second, in degrees, moved by whole turns above -180 and up to 180. Overflow exactly
    /// where that difference is out of range before it is moved.
    pub fn heading_difference(self, other: Num) -> Result<Num, NumFault>
        ensures value { result ≡ heading_difference_of self other }
        ensures within { IfOk result (λ turn. IsWithinHalfTurn turn) }
        ensures overflow { MatchResult result (λ _. IsInRange (self -ℤ other))
            (λ fault. (fault ≡ Overflow) × ¬ IsInRange (self -ℤ other)) }
    {
        Ok(self.sub(other)?.within_half_turn())
    }
}

/// An angle within half a turn points in the direction of the angle that was moved, and no other within half a turn
/// does. This function and the one below do nothing: the contract of each is a law.
pub fn turns_lead_within()
    ensures leads { TurnsLeadWithin }
    ensures only { WithinIsOnlyOne }
{}

/// The product of a number with a sine or a cosine is no farther from 0 than the number, so it never overflows.
pub fn products_with_sines_fit()
    ensures sine { ProductsWithSinesFit }
    ensures cosine { ProductsWithCosinesFit }
{}
