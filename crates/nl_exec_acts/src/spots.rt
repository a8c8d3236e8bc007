//! Random coordinates, the bounds of the world, and the seed of the stream.
ghost use Rattle.std.specs.Prelude.{◌≡◌, ◌+◌, ◌<◌, ◌≤◌, ◌*◌, ◌^◌, ℤ, pos, ◌+ℤ◌, ◌-ℤ◌, ◌*ℤ◌, unsigned_abs};
ghost use Rattle.nl_fixed.specs.Numbers.{one};
ghost use Rattle.nl_value.specs.Views.{plain};
ghost use Rattle.nl_value.specs.Plain.{PlainNumber};
ghost use Rattle.nl_draw.specs.Stream.{drawn};
ghost use Rattle.nl_grid.specs.Geometry.{half};
ghost use Rattle.nl_exec_acts.specs.Acts.{seed_of, axis_of, drawn_spot, bound_of};

use crate::words::{Bound, Spot};
use nl_draw::Stream;
use nl_fixed::Num;
use nl_grid::Shape;
use nl_value::Value;

/// How many seeds there are.
const SEEDS: i128 = 1 << 64;

/// How many millionths a patch is wide, and half of that.
const WIDTH: i64 = 1_000_000;

const HALF: i64 = 500_000;

/// The seed that a number gives: its whole part, modulo 2 ^ 64.
pub(crate) fn seed_of(number: Num) -> u64
    ensures { result ≡ seed_of number }
{
    i128::from(number.whole_part()).rem_euclid(SEEDS) as u64
}

/// A whole number, which is as small as coordinates are.
fn whole(n: i64) -> Num
    requires { unsigned_abs n ≤ 2 ^ 33 }
    ensures { result ≡ (n *ℤ pos one) }
{
    Num::whole(n).unwrap()
}

impl Bound {
    /// The bound, or the count of patches along an axis.
    pub(crate) fn of(self, shape: &Shape) -> Num
        ensures { result ≡ (bound_of self shape.now *ℤ pos one) }
    {
        let bound = match self {
            Bound::MinPxcor => i64::from(shape.min_x()),
            Bound::MaxPxcor => i64::from(shape.max_x()),
            Bound::MinPycor => i64::from(shape.min_y()),
            Bound::MaxPycor => i64::from(shape.max_y()),
            Bound::Width => i64::from(shape.width()),
            Bound::Height => i64::from(shape.height()),
        };
        whole(bound)
    }
}

/// The coordinate of a patch along an axis, by one draw.
fn drawn_patch(least: i32, side: u32, stream: &mut Stream) -> Num
    requires some { 1 ≤ side }
    requires few { side ≤ 1001 }
    ensures value { result ≡ ((least +ℤ pos (drawn side stream.old).0) *ℤ pos one) }
    ensures stream { stream.new ≡ (drawn side stream.old).1 }
{
    whole(i64::from(least) + stream.draw(u64::from(side)) as i64)
}

/// The coordinate of a point along an axis, by one draw.
fn drawn_point(least: i32, side: u32, stream: &mut Stream) -> Num
    requires some { 1 ≤ side }
    requires few { side ≤ 1001 }
    ensures value { let n = drawn (side * one) stream.old in
        result ≡ ((least *ℤ pos one) -ℤ pos half +ℤ pos n.0) }
    ensures stream { stream.new ≡ (drawn (side * one) stream.old).1 }
{
    let begin = i64::from(least) * WIDTH - HALF;
    let along = stream.draw(u64::from(side) * WIDTH as u64) as i64;
    Num::new(begin + along).unwrap()
}

impl Spot {
    /// A random coordinate: of a patch, or of a point, which lies from where the axis begins to below its end.
    pub(crate) fn draw(self, shape: &Shape, stream: &mut Stream) -> Num
        ensures value { PlainNumber result ≡ (drawn_spot self (axis_of self shape.now) stream.old).0 }
        ensures stream { stream.new ≡ (drawn_spot self (axis_of self shape.now) stream.old).1 }
    {
        // what tells the count of patches tells the limits
        let _patches = shape.patches();
        match self {
            Spot::Pxcor => drawn_patch(shape.min_x(), shape.width(), stream),
            Spot::Pycor => drawn_patch(shape.min_y(), shape.height(), stream),
            Spot::Xcor => drawn_point(shape.min_x(), shape.width(), stream),
            Spot::Ycor => drawn_point(shape.min_y(), shape.height(), stream),
        }
    }
}
