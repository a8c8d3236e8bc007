//! The geometry of a world: its shape, points and patches, the offset and distance of points, the neighbors of a patch
//! and the box of patches around a point.
#![tactic(auto)]

pub mod axis;
mod band;
pub mod laws;
pub mod nearby;
pub mod patch_box;
pub mod point;
pub mod shape;

pub use axis::Axis;
pub use patch_box::PatchBox;
pub use point::{Point, SamePoint};
pub use shape::Shape;
