//! One axis of a world.
ghost use Rattle.std.specs.Prelude.{◌≡◌, ◌≤◌, ◌^◌, pos, ◌+ℤ◌, ◌-ℤ◌, ◌≤ℤ◌, ◌<ℤ◌, unsigned_abs};
ghost use Rattle.nl_fixed.specs.Numbers.{limit};
ghost use Rattle.nl_grid.specs.Ways.{shorter};

use crate::band::Band;
use nl_fixed::Num;

/// An axis: the coordinates of its first and of its last patch, and whether it goes on at the first behind the last.
#[derive(Clone, Copy, Debug, PartialEq, Eq)]
pub struct Axis {
    pub least: i32,
    pub greatest: i32,
    pub wraps: bool,
}

/// How many millionths make 1.
pub(crate) const ONE: i64 = 1_000_000;

/// The greatest number of patches along an axis.
const MOST_PER_SIDE: i64 = 1_001;

/// Half a patch.
const HALF: i64 = 500_000;

/// The number of so many millionths, which are in range.
pub(crate) fn number(millionths: i64) -> Num
    requires { unsigned_abs millionths ≤ limit }
    ensures { result ≡ millionths }
{
    Num::new(millionths).unwrap()
}

/// Of the ways along a circle of this length, which are the difference and it plus or minus the length, the shortest
/// one, and of two of one length the positive one.
fn shortest(plain: i64, length: i64) -> i64
    requires near { unsigned_abs plain ≤ 2 ^ 61 }
    requires some { pos 0 <ℤ length }
    requires short { length ≤ℤ pos (2 ^ 61) }
    ensures way { result ≡ shorter (shorter plain (plain +ℤ length)) (plain -ℤ length) }
    ensures near { unsigned_abs result ≤ unsigned_abs plain }
{
    if length < 2 * plain {
        return plain - length;
    }
    if 2 * plain <= -length {
        return plain + length;
    }
    plain
}

impl Axis {
    ghost use Rattle.nl_grid.specs.inner.Bands.{IsBand, HasIndices, size_of};
    ghost use Rattle.std.specs.Prelude.{◌≡◌, ◌<◌, ◌≤◌, ◌↔◌, IsTrue, IfSome};
    ghost use Rattle.nl_grid.specs.Geometry.{IsAxis, IsInside, side, begin_of, length_of, wrapped, patch_coordinate, axis_offset, is_within, steps_across};

    /// Is 0 one of the coordinates, and are there no more than a world may have along one axis?
    pub(crate) fn is_within_limits(self) -> bool
        ensures { IsTrue result ↔ IsAxis self }
    {
        let steps = i64::from(self.greatest) - i64::from(self.least);
        self.least <= 0 && 0 <= self.greatest && steps < MOST_PER_SIDE
    }

    /// How many patches lie along the axis.
    pub(crate) fn side(self) -> u32
        requires { IsAxis self }
        ensures { result ≡ side self }
    {
        (self.greatest - self.least) as u32 + 1
    }

    /// Where the axis begins, in millionths.
    pub(crate) fn begin(self) -> i64
        requires { IsAxis self }
        ensures { result ≡ begin_of self }
    {
        i64::from(self.least) * ONE - HALF
    }

    /// How long the axis is, in millionths.
    pub(crate) fn length(self) -> i64
        requires { IsAxis self }
        ensures { result ≡ pos (length_of self) }
    {
        i64::from(self.side()) * ONE
    }

    /// Is this coordinate inside?
    pub(crate) fn is_inside(self, at: Num) -> bool
        requires { IsAxis self }
        ensures { IsTrue result ↔ IsInside self at }
    {
        let past = at.millionths() - self.begin();
        0 <= past && past < self.length()
    }

    /// The coordinate, moved by whole sides where the axis wraps. It takes one division, however far off it is.
    pub(crate) fn wrap(self, at: Num) -> Option<Num>
        requires { IsAxis self }
        ensures value { result ≡ wrapped self at }
        ensures inside { IfSome result (λ inside. IsInside self inside) }
    {
        if self.is_inside(at) {
            return Some(at);
        }
        if !self.wraps {
            return None;
        }
        let past = at.millionths() - self.begin();
        Some(number(self.begin() + past.rem_euclid(self.length())))
    }

    /// The index of a coordinate that is inside: of the patch on which it lies, counted from the first one on the axis.
    pub(crate) fn index(self, at: Num) -> u32
        requires axis { IsAxis self }
        requires inside { IsInside self at }
        ensures below { result < side self }
        ensures index { pos result ≡ patch_coordinate at -ℤ self.least }
    {
        ((at.millionths() - self.begin()) / ONE) as u32
    }

    /// How far the second coordinate is from the first: on an axis that wraps by the shorter way, and of two ways of
    /// one length by the positive one.
    pub(crate) fn offset(self, from: Num, to: Num) -> Num
        requires axis { IsAxis self }
        requires from_inside { IsInside self from }
        requires to_inside { IsInside self to }
        ensures { result ≡ axis_offset self from to }
    {
        let plain = to.millionths() - from.millionths();
        if self.wraps {
            number(shortest(plain, self.length()))
        } else {
            number(plain)
        }
    }

    /// The indices at most so many steps from an index: on an axis that wraps by the shorter way round.
    pub(crate) fn band(self, index: u32, reach: i64) -> Band
        requires axis { IsAxis self }
        requires index { index < side self }
        ensures side { result.side ≡ side self }
        ensures band { IsBand result }
        ensures few { size_of result ≤ steps_across reach }
        ensures indices { HasIndices result (side self) (is_within self reach index) }
    {
        let side = self.side();
        if reach < 0 {
            return Band {
                from: 0,
                to: 0,
                again: side,
                side,
            };
        }
        let steps = reach.min(MOST_PER_SIDE) as u32;
        if self.wraps {
            Band::around(index, steps, side)
        } else {
            Band::along(index, steps, side)
        }
    }
}
