//! Sines, cosines, tangents and the arctangent, over a table of whole degrees.
//!
//! Angles are in degrees, as in the NetLogo Dictionary, and an arctangent runs clockwise from the direction of y. That
//! only whole degrees count, the table's entries and the choice among directions that reach equally far are this
//! project's own.
ghost use Rattle.std.specs.Prelude.{◌≡◌, ◌≢◌, ◌≤◌, ◌<◌, ◌*◌, ◌+◌, length, pos, ◌*ℤ◌, unsigned_abs, IfOk, MatchResult};
ghost use Rattle.nl_fixed.specs.Numbers.{one, limit};
ghost use Rattle.std.specs.List.Sorted.{IsStrictlyIncreasing};
ghost use Rattle.nl_fixed.specs.Sines.{sines, half_turn_sine, turn_sine, nearest_degree, in_turn, sine_of, cosine_of, tangent_of, reach, heading_of, IsUnit, IsArctangent, IsHeading, IsOrigin, SinesAreUnits, CosinesAreUnits, SinesRepeat, CosinesRepeat, SinesAreOdd, SinesAreMirrored, CosinesAreSines, CosinesAreEven, ArctangentsAgree, HeadingsAreArctangents};

use crate::number::{Num, NumFault, ONE};

/// How many millionths make a half.
const HALF: i64 = 500_000;

/// The sines of 0 to 90 degrees, in millionths.
#[rattlefmt::skip]
const SINES: [u32; 91] = [
    0, 17_452, 34_899, 52_336, 69_756, 87_156, 104_528, 121_869, 139_173, 156_434,
    173_648, 190_809, 207_912, 224_951, 241_922, 258_819, 275_637, 292_372, 309_017, 325_568,
    342_020, 358_368, 374_607, 390_731, 406_737, 422_618, 438_371, 453_990, 469_472, 484_810,
    500_000, 515_038, 529_919, 544_639, 559_193, 573_576, 587_785, 601_815, 615_661, 629_320,
    642_788, 656_059, 669_131, 681_998, 694_658, 707_107, 719_340, 731_354, 743_145, 754_710,
    766_044, 777_146, 788_011, 798_636, 809_017, 819_152, 829_038, 838_671, 848_048, 857_167,
    866_025, 874_620, 882_948, 891_007, 898_794, 906_308, 913_545, 920_505, 927_184, 933_580,
    939_693, 945_519, 951_057, 956_305, 961_262, 965_926, 970_296, 974_370, 978_148, 981_627,
    984_808, 987_688, 990_268, 992_546, 994_522, 996_195, 997_564, 998_630, 999_391, 999_848,
    1_000_000,
];

/// The sines of 0 to 90 degrees, in millionths: the entry at d is that of d degrees.
pub fn sine_table() -> &'static [u32; 91]
    ensures table { result.now ≡ sines }
    ensures entries { length sines ≡ 91 }
    ensures ascending { IsStrictlyIncreasing sines }
{
    &SINES
}

/// The sine of a whole degree up to 180.
fn half_turn_sine_at(degree: u32) -> u32
    requires { degree ≤ 180 }
    ensures value { result ≡ half_turn_sine degree }
    ensures most { result ≤ one }
{
    let table = sine_table();
    if degree <= 90 {
        table[degree as usize]
    } else {
        table[180 - degree as usize]
    }
}

/// The sine of a whole degree below 360.
fn turn_sine_at(degree: u32) -> i64
    requires { degree < 360 }
    ensures value { result ≡ turn_sine degree }
    ensures unit { IsUnit result }
{
    if degree <= 180 {
        i64::from(half_turn_sine_at(degree))
    } else {
        -i64::from(half_turn_sine_at(degree - 180))
    }
}

/// The whole degree nearest to an angle, a half upwards, and taken mod 360. The angle may be that of a number or its
/// difference to 90 degrees.
fn degree_of(angle: i64) -> u32
    requires { unsigned_abs angle ≤ limit + 90 * one }
    ensures value { result ≡ in_turn (nearest_degree angle) }
    ensures below { result < 360 }
{
    (angle + HALF).div_euclid(ONE).rem_euclid(360) as u32
}

/// The sine of an angle, which may be that of a number or its difference to 90 degrees.
fn sine_at(angle: i64) -> Num
    requires { unsigned_abs angle ≤ limit + 90 * one }
    ensures value { result ≡ sine_of angle }
    ensures unit { IsUnit result }
{
    Num {
        count: turn_sine_at(degree_of(angle)),
    }
}

/// A number times a sine, unrounded.
fn scaled(number: Num, sine: i64) -> i128
    requires { IsUnit sine }
    ensures value { result ≡ number *ℤ sine }
    ensures size { unsigned_abs result ≤ limit * one }
{
    i128::from(number.count) * i128::from(sine)
}

/// How far the point (x, y) reaches in the direction of a whole degree below 360.
fn reach_at(x: Num, y: Num, degree: u32) -> i128
    requires { degree < 360 }
    ensures { result ≡ reach x y degree }
{
    scaled(x, turn_sine_at(degree)) + scaled(y, turn_sine_at((450 - degree) % 360))
}

/// The least whole degree from 0 to 359 in whose direction the point (x, y) reaches farthest.
fn direction_of(x: Num, y: Num) -> u32
    ensures { IsArctangent x y result }
{
    let mut best = 0;
    let mut farthest = reach_at(x, y, 0);
    for degree in 1..360 {
        let here = reach_at(x, y, degree);
        if farthest < here {
            best = degree;
            farthest = here;
        }
    }
    best
}

impl Num {
    /// The sine of an angle in degrees, by the table at the nearest whole degree, a half upwards.
    pub fn sin(self) -> Num
        ensures value { result ≡ sine_of self }
        ensures unit { IsUnit result }
    {
        sine_at(self.count)
    }

    /// The cosine of an angle in degrees: the sine of 90 degrees minus the angle. That difference is rounded to whole
    /// degrees, and not the angle, so the cosine of 0.5 is 1.
    pub fn cos(self) -> Num
        ensures value { result ≡ cosine_of self }
        ensures unit { IsUnit result }
    {
        sine_at(90 * ONE - self.count)
    }

    /// The tangent of an angle in degrees: its sine by its cosine, rounded to the nearest millionth. `ZeroDivide` where
    /// the cosine is 0.
    pub fn tan(self) -> Result<Num, NumFault>
        ensures value { result ≡ tangent_of self }
        // so no tangent is out of range
        ensures zero_divide { MatchResult result (λ _. cosine_of self ≢ pos 0)
            (λ fault. (fault ≡ NumFault.ZeroDivide) × (cosine_of self ≡ pos 0)) }
    {
        self.sin().div(self.cos())
    }

    /// The arctangent: the angle in degrees of the point (x, y) seen from 0 0, clockwise from the direction of y. Of the
    /// whole degrees in whose direction the point reaches farthest it is the least. `Domain` for the point 0 0.
    pub fn atan(x: Num, y: Num) -> Result<Num, NumFault>
        ensures value { result ≡ heading_of x y }
        ensures heading { IfOk result (λ angle. IsHeading x y angle) }
        ensures domain { MatchResult result (λ _. ¬ IsOrigin x y)
            (λ fault. (fault ≡ NumFault.Domain) × IsOrigin x y) }
    {
        if x.count == 0 && y.count == 0 {
            return Err(NumFault::Domain);
        }
        Ok(Num {
            count: i64::from(direction_of(x, y)) * ONE,
        })
    }
}

/// Sines and cosines lie from -1 to 1. This function and those below do nothing: the contract of each is a law.
pub fn sines_are_within_one()
    ensures sine { SinesAreUnits }
    ensures cosine { CosinesAreUnits }
{}

/// A whole turn changes no sine and no cosine.
pub fn sines_repeat()
    ensures sine { SinesRepeat }
    ensures cosine { CosinesRepeat }
{}

/// At whole degrees the sine is odd and is that of what is left to 180 degrees, and the cosine is even and is the sine
/// of 90 degrees more.
pub fn sines_are_symmetric()
    ensures odd { SinesAreOdd }
    ensures mirrored { SinesAreMirrored }
    ensures even { CosinesAreEven }
    ensures shifted { CosinesAreSines }
{}

/// A point has one arctangent, and it is the heading of every point but 0 0.
pub fn headings_are_arctangents()
    ensures one_at_most { ArctangentsAgree }
    ensures heading { HeadingsAreArctangents }
{}
