//! Points of a world.

use nl_fixed::Num;

/// A point. The center of the patch at the coordinates 0 0 is the point 0 0, and a patch has the side 1.
#[derive(Clone, Copy, Debug, PartialEq, Eq)]
pub struct Point {
    pub x: Num,
    pub y: Num,
}

/// Two points are one, so that neither lies in a direction from the other.
#[derive(Clone, Copy, Debug, PartialEq, Eq)]
pub struct SamePoint;
