//! The shape of a world.
ghost use Rattle.std.specs.Prelude.{◌≡◌, ◌↔◌, ◌<◌, IsTrue, IsSome, IfSome, IsErr, IfErr, pos};
ghost use Rattle.std.specs.Result.{result_ok};
ghost use Rattle.nl_fixed.specs.Sines.{IsUnit};
ghost use Rattle.nl_grid.specs.Geometry.{Plane, IsWithinLimits, IsPointOf, IsSamePoint, plane_of, side, patches_of, wrapped_point, point_beside, share_of, point_ahead, FindsPointOf, patch_at, patch_by_coordinates, center_of, x_offset, y_offset, distance_of, heading_between};

use crate::axis::{Axis, ONE, number};
use crate::point::{Point, SamePoint};
use nl_fixed::{Num, NumFault, whole_root};
use std::marker::Model;

/// The shape of a world: the coordinates of its outermost patches, and which axes wrap.
#[derive(Clone, Copy, Debug, PartialEq, Eq)]
pub struct Shape {
    pub(crate) x: Axis,
    pub(crate) y: Axis,
}

impl Model for Shape {
    ghost Value = { Plane };

    ghost view = { λ shape. record { x = shape.x; y = shape.y } };

    ghost invariant = { λ shape. IsWithinLimits (record { x = shape.x; y = shape.y }) };

    ghost inverse = { λ plane. record { x = plane.x; y = plane.y } };
}

/// The greatest number of patches of a world.
const MOST_PATCHES: u32 = 262_144;

/// How far a distance leads along an axis, by the sine or the cosine of its heading. No such product is out of range.
fn share(distance: Num, sine: Num) -> Num
    requires { IsUnit sine }
    ensures { result ≡ share_of distance sine }
{
    // what tells a number's count tells that it is in range
    let _count = distance.millionths();
    distance.mul(sine).unwrap()
}

impl Shape {
    /// The shape with these outermost coordinates. On each axis 0 is one of the coordinates, and there are at most
    /// 1,001 patches; the world has at most 262,144.
    pub fn new(
        min_x: i32,
        max_x: i32,
        min_y: i32,
        max_y: i32,
        wrap_x: bool,
        wrap_y: bool,
    ) -> Option<Shape>
        ensures within { let plane = plane_of min_x max_x min_y max_y wrap_x wrap_y in
            IsSome result ↔ IsWithinLimits plane }
        ensures shape { let plane = plane_of min_x max_x min_y max_y wrap_x wrap_y in
            IfSome result (λ shape. shape ≡ plane) }
    {
        let x = Axis {
            least: min_x,
            greatest: max_x,
            wraps: wrap_x,
        };
        let y = Axis {
            least: min_y,
            greatest: max_y,
            wraps: wrap_y,
        };
        if !x.is_within_limits() || !y.is_within_limits() {
            return None;
        }
        if x.side() * y.side() <= MOST_PATCHES {
            Some(Shape { x, y })
        } else {
            None
        }
    }

    /// The least `pxcor`.
    pub fn min_x(&self) -> i32
        ensures { result ≡ self.now.x.least }
    {
        self.x.least
    }

    /// The greatest `pxcor`.
    pub fn max_x(&self) -> i32
        ensures { result ≡ self.now.x.greatest }
    {
        self.x.greatest
    }

    /// The least `pycor`.
    pub fn min_y(&self) -> i32
        ensures { result ≡ self.now.y.least }
    {
        self.y.least
    }

    /// The greatest `pycor`.
    pub fn max_y(&self) -> i32
        ensures { result ≡ self.now.y.greatest }
    {
        self.y.greatest
    }

    /// Does the world go on at its left side behind its right one?
    pub fn wraps_x(&self) -> bool
        ensures { result ≡ self.now.x.wraps }
    {
        self.x.wraps
    }

    /// Does the world go on at its lower side behind its upper one?
    pub fn wraps_y(&self) -> bool
        ensures { result ≡ self.now.y.wraps }
    {
        self.y.wraps
    }

    /// How many patches lie in a row.
    pub fn width(&self) -> u32
        ensures { result ≡ side self.now.x }
    {
        self.x.side()
    }

    /// How many patches lie in a column.
    pub fn height(&self) -> u32
        ensures { result ≡ side self.now.y }
    {
        self.y.side()
    }

    /// How many patches the world has. They are numbered from 0 on, row by row from the top and each from the left.
    pub fn patches(&self) -> u32
        ensures count { result ≡ patches_of self.now }
        ensures limits { IsWithinLimits self.now }
    {
        self.x.side() * self.y.side()
    }

    /// Is this a point of the world?
    pub fn is_inside(&self, at: Point) -> bool
        ensures { IsTrue result ↔ IsPointOf self.now at }
    {
        self.x.is_inside(at.x) && self.y.is_inside(at.y)
    }

    /// The point of the world at these coordinates, each moved by whole sides where its axis wraps. None where a
    /// coordinate is outside on an axis that doesn't.
    #[tactic(auto, unfolding(crate::specs::Geometry::wrapped_point))]
    pub fn wrap(&self, x: Num, y: Num) -> Option<Point>
        ensures value { result ≡ wrapped_point self.now x y }
        ensures inside { IfSome result (λ at. IsPointOf self.now at) }
    {
        let x = self.x.wrap(x)?;
        let y = self.y.wrap(y)?;
        Some(Point { x, y })
    }

    /// The point at this offset from a point, moved by whole sides where an axis wraps. None where it is outside on an
    /// axis that doesn't, and `Overflow`, which comes first, where a sum is out of the range of numbers.
    pub fn beside(&self, at: Point, dx: Num, dy: Num) -> Result<Option<Point>, NumFault>
        ensures value { result ≡ point_beside self.now at dx dy }
        ensures inside { FindsPointOf self.now result }
        ensures overflow { IfErr result (λ fault. fault ≡ NumFault.Overflow) }
    {
        let x = at.x.add(dx)?;
        let y = at.y.add(dy)?;
        Ok(self.wrap(x, y))
    }

    /// The point so far ahead of a point under a heading in degrees: `beside` it by the distance times the heading's
    /// sine along x, and times its cosine along y. A negative distance leads backwards.
    pub fn ahead(&self, at: Point, heading: Num, distance: Num) -> Result<Option<Point>, NumFault>
        ensures value { result ≡ point_ahead self.now at heading distance }
        ensures inside { FindsPointOf self.now result }
        ensures overflow { IfErr result (λ fault. fault ≡ NumFault.Overflow) }
    {
        let dx = share(distance, heading.sin());
        let dy = share(distance, heading.cos());
        self.beside(at, dx, dy)
    }

    /// The patch on which a point lies.
    pub fn patch_of(&self, at: Point) -> u32
        requires { IsPointOf self.now at }
        ensures patch { result ≡ patch_at self.now at }
        ensures below { result < patches_of self.now }
    {
        let row = self.y.side() - 1 - self.y.index(at.y);
        row * self.x.side() + self.x.index(at.x)
    }

    /// The patch at these whole coordinates, each moved by whole sides where its axis wraps. None where one is outside
    /// on an axis that doesn't.
    #[tactic(auto, unfolding(crate::specs::Geometry::patch_by_coordinates))]
    pub fn patch_at(&self, pxcor: i32, pycor: i32) -> Option<u32>
        ensures { result ≡ patch_by_coordinates self.now pxcor pycor }
    {
        let x = Num::whole(i64::from(pxcor))?;
        let y = Num::whole(i64::from(pycor))?;
        let at = self.wrap(x, y)?;
        Some(self.patch_of(at))
    }

    /// The center of a patch.
    pub fn center(&self, patch: u32) -> Point
        requires { patch < patches_of self.now }
        ensures center { result ≡ center_of self.now patch }
        ensures inside { IsPointOf self.now result }
    {
        let width = self.x.side();
        let pxcor = i64::from(self.x.least) + i64::from(patch % width);
        let pycor = i64::from(self.y.greatest) - i64::from(patch / width);
        let x = number(pxcor * ONE);
        let y = number(pycor * ONE);
        Point { x, y }
    }

    /// The offset from a point to another one along both axes: where an axis wraps by the shorter way, and of two ways
    /// of one length by the positive one.
    pub fn offset(&self, from: Point, to: Point) -> (Num, Num)
        requires from { IsPointOf self.now from }
        requires to { IsPointOf self.now to }
        ensures x { result.0 ≡ x_offset self.now from to }
        ensures y { result.1 ≡ y_offset self.now from to }
    {
        (self.x.offset(from.x, to.x), self.y.offset(from.y, to.y))
    }

    /// How far apart two points are: the root of the sum of the squares of the offset, cut to millionths.
    pub fn distance(&self, from: Point, to: Point) -> Num
        requires from { IsPointOf self.now from }
        requires to { IsPointOf self.now to }
        ensures { result ≡ pos (distance_of self.now from to) }
    {
        let _ = &self.x;
        let (x, y) = self.offset(from, to);
        let x = u128::from(x.millionths().unsigned_abs());
        let y = u128::from(y.millionths().unsigned_abs());
        number(whole_root(x * x + y * y) as i64)
    }

    /// The heading in degrees from a point to another one, the arctangent of the offset. Refused where both are one
    /// point.
    #[tactic(auto, unfolding(crate::specs::Geometry::heading_between))]
    pub fn towards(&self, from: Point, to: Point) -> Result<Num, SamePoint>
        requires from { IsPointOf self.now from }
        requires to { IsPointOf self.now to }
        ensures heading { result_ok result ≡ heading_between self.now from to }
        ensures same_point { IsErr result ↔ IsSamePoint self.now from to }
    {
        let (x, y) = self.offset(from, to);
        Num::atan(x, y).map_err(|_| SamePoint)
    }
}
