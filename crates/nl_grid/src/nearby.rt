//! Patches near a patch or a point: neighbors, and the box of a radius.
ghost use Rattle.std.specs.Prelude.{◌≡◌, ◌*◌, ◌<◌, ◌≤◌, take, length};
ghost use Rattle.nl_grid.specs.Geometry.{IsPointOf, patches_of, ArePatchesOf, CoversRadius, patches_near, neighbors_of, neighbors4_of, is_in_line, box_patches, steps_across, most_in_box};

use crate::axis::ONE;
use crate::patch_box::PatchBox;
use crate::point::Point;
use crate::shape::Shape;
use nl_fixed::Num;

impl Shape {
    /// The patches at most so many steps away on each axis.
    pub(crate) fn around(&self, patch: u32, reach: i64) -> PatchBox
        requires { patch < patches_of self.now }
        ensures patches { result ≡ patches_near self.now reach patch }
        ensures few { length result ≤ steps_across reach * steps_across reach }
    {
        let width = self.x.side();
        let columns = self.x.band(patch % width, reach);
        let rows = self.y.band(patch / width, reach);
        PatchBox { columns, rows }
    }

    /// The box around a point: the patches within the radius on each axis, where the radius is rounded up to whole
    /// patches and one more is taken. Whoever stands within the radius stands on a patch of the box.
    pub fn box_of(&self, at: Point, radius: Num) -> PatchBox
        requires { IsPointOf self.now at }
        ensures patches { result ≡ box_patches self.now at radius }
        ensures covers { CoversRadius self.now at radius result }
        ensures few { length result ≤ most_in_box radius }
    {
        let _ = &self.x;
        let reach = 1 - (-radius.millionths()).div_euclid(ONE);
        self.around(self.patch_of(at), reach)
    }

    /// The neighbors of a patch: the other patches one step away on an axis or on both. They come in ascending order
    /// at the front of `out`, and how many there are is answered.
    pub fn neighbors(&self, patch: u32, out: &mut [u32; 8]) -> usize
        requires { patch < patches_of self.now }
        ensures count { result ≡ length (neighbors_of self.now patch) }
        ensures few { result ≤ 8 }
        ensures world { ArePatchesOf self.now (take result out.new) }
        ensures patches { take result out.new ≡ neighbors_of self.now patch }
    {
        let around = self.around(patch, 1);
        let mut count = 0;
        let mut next = around.first();
        while let Some(other) = next {
            if other != patch {
                out[count] = other;
                count += 1;
            }
            next = around.next(other);
        }
        count
    }

    /// Is the other patch in the column or in the row of the first one?
    fn is_in_line(&self, patch: u32, other: u32) -> bool
        ensures { result ≡ is_in_line self.now patch other }
    {
        let width = self.x.side();
        other % width == patch % width || other / width == patch / width
    }

    /// The neighbors of a patch that are one step away on one axis, as `neighbors` gives them.
    pub fn neighbors4(&self, patch: u32, out: &mut [u32; 4]) -> usize
        requires { patch < patches_of self.now }
        ensures count { result ≡ length (neighbors4_of self.now patch) }
        ensures few { result ≤ 4 }
        ensures world { ArePatchesOf self.now (take result out.new) }
        ensures patches { take result out.new ≡ neighbors4_of self.now patch }
    {
        let mut all = [0; 8];
        let found = self.neighbors(patch, &mut all);
        let mut count = 0;
        for other in &all[..found] {
            if self.is_in_line(patch, *other) {
                out[count] = *other;
                count += 1;
            }
        }
        count
    }
}
