//! Shades of colors.
ghost use Rattle.std.specs.Prelude.{◌≡◌, pos};
ghost use Rattle.nl_listops.specs.Shades.{ten, lightest, range_of_shades, are_shades, darkest, held, part_way, shade_at, scaled_from, scaled_color};

use nl_fixed::{Num, NumFault};
use nl_listops_series::ListFail;

/// Ten, as a number.
fn ten() -> Num
    ensures { result ≡ pos ten }
{
    match Num::new(10_000_000) {
        Some(number) => number,
        None => unreachable!(),
    }
}

/// How far the lightest shade lies above the darkest.
fn lightest() -> Num
    ensures { result ≡ pos lightest }
{
    match Num::new(9_999_900) {
        Some(number) => number,
        None => unreachable!(),
    }
}

/// Which range of shades a color lies in.
fn range_of_shades(color: Num) -> Result<Num, NumFault>
    ensures { result ≡ range_of_shades color }
{
    Ok(color.div(ten())?.floor())
}

/// Whether the colors are shades of one.
pub(crate) fn are_shades(a: Num, b: Num) -> Result<bool, ListFail>
    ensures { result ≡ are_shades a b }
{
    let first = range_of_shades(a)?;
    let second = range_of_shades(b)?;
    Ok(first.millionths() == second.millionths())
}

/// The darkest shade of the color.
fn darkest(color: Num) -> Result<Num, NumFault>
    ensures { result ≡ darkest color }
{
    ten().mul(range_of_shades(color)?)
}

/// The part, held to 0 to 1.
fn held(part: Num) -> Num
    ensures { result ≡ held part }
{
    let held = part.millionths().clamp(0, 1_000_000);
    match Num::new(held) {
        Some(number) => number,
        None => unreachable!(),
    }
}

/// How far a value is on the way from the low end to the high one.
fn part_way(value: Num, low: Num, high: Num) -> Result<Num, NumFault>
    ensures { result ≡ part_way value low high }
{
    let above = value.sub(low)?;
    above.div(high.sub(low)?)
}

/// The shade so far above the darkest.
fn shade_at(dark: Num, part: Num) -> Result<Num, NumFault>
    ensures { result ≡ shade_at dark part }
{
    let above = ten().mul(held(part))?;
    if above.millionths() < lightest().millionths() {
        dark.add(above)
    } else {
        dark.add(lightest())
    }
}

/// The shade above the darkest by where the value lies between the ends; the darkest where these are the same.
fn scaled_from(dark: Num, value: Num, low: Num, high: Num) -> Result<Num, NumFault>
    ensures { result ≡ scaled_from dark value low high }
{
    if low.millionths() == high.millionths() {
        return Ok(dark);
    }
    shade_at(dark, part_way(value, low, high)?)
}

/// A shade of the color by where the value lies between the low end, the darkest, and the high one; the darkest where the ends are
/// the same.
pub(crate) fn scaled_color(color: Num, value: Num, low: Num, high: Num) -> Result<Num, NumFault>
    ensures { result ≡ scaled_color color value low high }
{
    scaled_from(darkest(color)?, value, low, high)
}
