//! What the definitions of the geometry mean. These functions do nothing: the contract of each is a law.
ghost use Rattle.nl_grid.specs.GeometryLaws.{CentersLieOnTheirPatches, PatchesAreOfTheWorld, PatchesHaveRoundedCoordinates, WrappingMovesBySides, WrappingHasNoPoint, OffsetsAreShortest, OffsetsLead, DistancesAreMutual, NeighborsAreSteps, NeighborsAreOthers, NeighborsAreMutual, NeighborsAreFew, NeighborsAscend, Neighbors4AreSteps, Neighbors4AreNeighbors, Neighbors4AreMutual, Neighbors4AreFew, Neighbors4Ascend, BoxesAscend, BoxesAreOfTheWorld};

/// The center of a patch lies on it, and each point of the world on a patch of it, which has the point's coordinates,
/// rounded.
pub fn points_lie_on_patches()
    ensures centers { CentersLieOnTheirPatches }
    ensures points { PatchesAreOfTheWorld }
    ensures coordinates { PatchesHaveRoundedCoordinates }
{}

/// A wrapped coordinate is inside, a whole number of sides away, and the same one where the axis doesn't wrap. There
/// is none just where the coordinate is outside on an axis that doesn't.
pub fn wrapping_moves_by_sides()
    ensures moves { WrappingMovesBySides }
    ensures none { WrappingHasNoPoint }
{}

/// An offset leads from the one point to the other, none of the ways along an axis is shorter, and of two it is the
/// positive one.
pub fn offsets_are_shortest()
    ensures shortest { OffsetsAreShortest }
    ensures lead { OffsetsLead }
{}

/// One is as far from another as that one from it.
pub fn distances_are_mutual()
    ensures { DistancesAreMutual }
{}

/// Neighbors ascend, and so each stands there once; they are other patches of the world, eight at most; and each patch
/// is a neighbor of its neighbors.
pub fn neighbors_are_in_order()
    ensures ascend { NeighborsAscend }
    ensures others { NeighborsAreOthers }
    ensures few { NeighborsAreFew }
    ensures back { NeighborsAreMutual }
{}

/// The neighbors of a patch are those that steps of -1, 0 and 1 on each axis lead to, but itself.
pub fn neighbors_are_steps()
    ensures { NeighborsAreSteps }
{}

/// Of the neighbors those that are one step away on just one axis ascend and are four at most, and each patch is such a
/// neighbor of those.
pub fn neighbors4_are_in_order()
    ensures ascend { Neighbors4Ascend }
    ensures neighbors { Neighbors4AreNeighbors }
    ensures few { Neighbors4AreFew }
    ensures back { Neighbors4AreMutual }
{}

/// They are the patches that a step on just one axis leads to, but the patch itself.
pub fn neighbors4_are_steps()
    ensures { Neighbors4AreSteps }
{}

/// The patches of a box ascend, and so each stands there once; and they are patches of the world.
pub fn boxes_are_in_order()
    ensures ascend { BoxesAscend }
    ensures world { BoxesAreOfTheWorld }
{}
