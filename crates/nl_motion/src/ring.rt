//! The neighbors of a patch.
ghost use Rattle.std.specs.Prelude.{◌≡◌, ◌<◌, ◌≤◌, length, take};
ghost use Rattle.nl_grid.specs.Geometry.{patches_of, neighbors4_of, ArePatchesOf};

use nl_grid::Shape;
use std::marker::Model;

/// How many neighbors a patch may have.
pub(crate) const MOST: usize = 8;

/// Some neighbors of a patch, seen by contracts as a list of patches.
#[derive(Drop)]
pub(crate) struct Ring {
    patches: [u32; 8],
    count: usize,
}

impl Model for Ring {
    ghost use Rattle.std.specs.Prelude.{ℕ, List, take, ◌≤◌};

    ghost Value = { List ℕ };

    ghost view = { λ ring. take ring.count ring.patches };

    ghost invariant = { λ ring. ring.count ≤ 8 };
}

/// The neighbors one step away on one axis, at the front of `out`, and how many there are.
fn neighbors4(shape: &Shape, patch: u32, out: &mut [u32; 8]) -> usize
    requires { patch < patches_of shape.now }
    ensures few { result ≤ 8 }
    ensures patches { take result out.new ≡ neighbors4_of shape.now patch }
{
    let mut four = [0; 4];
    let count = shape.neighbors4(patch, &mut four);
    out[..count].copy_from_slice(&four[..count]);
    count
}

impl Ring {
    ghost use Rattle.std.specs.Prelude.{[], ◌∷◌, ◌++◌};
    ghost use Rattle.nl_motion.specs.Climbing.{ring_of};

    /// The neighbors of a patch in ascending order: all of them, or the four that are one step away on one axis.
    pub(crate) fn around(shape: &Shape, patch: u32, four: bool) -> Ring
        requires { patch < patches_of shape.now }
        ensures patches { result ≡ ring_of four shape.now patch }
        ensures world { ArePatchesOf shape.now result }
    {
        let mut patches = [0; 8];
        let count = if four {
            neighbors4(shape, patch, &mut patches)
        } else {
            shape.neighbors(patch, &mut patches)
        };
        Ring { patches, count }
    }

    /// No patches.
    pub(crate) fn empty() -> Ring
        ensures { result ≡ [] }
    {
        Ring {
            patches: [0; 8],
            count: 0,
        }
    }

    /// The patches, in order.
    pub(crate) fn as_slice(&self) -> &[u32]
        ensures value { result.now ≡ self.now }
        ensures few { length self.now ≤ 8 }
    {
        &self.patches[..self.count]
    }

    /// Appends a patch.
    pub(crate) fn push(&mut self, patch: u32)
        requires { length self.old < 8 }
        ensures { self.new ≡ self.old ++ patch ∷ [] }
    {
        self.patches[self.count] = patch;
        self.count += 1;
    }
}
