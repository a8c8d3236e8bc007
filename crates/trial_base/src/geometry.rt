//! Rows of the geometry, worked out by hand.
ghost use Rattle.std.specs.Prelude.{IfOk, ◌<◌};
ghost use Rattle.nl_grid.specs.Geometry.{IsPointOf, patches_of};

use World::{Even, Narrow, Single, SmallTorus, SmallWalls, Square, Torus, Tube, Walls};
use nl_fixed::{Num, NumFault};
use nl_grid::patch_box::PatchBox;
use nl_grid::point::{Point, SamePoint};
use nl_grid::shape::Shape;
use std::process::Abort;
use std::test::Fail;

/// The point of the world at these coordinates, in millionths.
fn point(shape: &Shape, x: i64, y: i64) -> Result<Point, &'static str>
    ensures { IfOk result (IsPointOf shape.now) }
{
    let x = Num::new(x).ok_or("out of range")?;
    let y = Num::new(y).ok_or("out of range")?;
    shape.wrap(x, y).ok_or("outside")
}

/// The worlds of the rows.
#[derive(Clone, Copy)]
enum World {
    /// Five patches a side, that go on behind their sides.
    Torus,
    /// Five patches a side, between walls.
    Walls,
    /// Four patches in a row that goes on behind its ends.
    Even,
    /// Three patches a side, that go on behind their sides.
    SmallTorus,
    /// Three patches a side, between walls.
    SmallWalls,
    /// Three patches a side, that go on behind the sides at the left and the right.
    Tube,
    /// A column of three patches, that goes on behind its sides.
    Narrow,
    /// Two patches a side, that go on behind their sides.
    Square,
    /// One patch, that goes on behind its sides.
    Single,
}

/// The shape of the world.
fn shape_of(world: World) -> Result<Shape, &'static str> {
    let shape = match world {
        World::Torus => Shape::new(-2, 2, -2, 2, true, true),
        World::Walls => Shape::new(-2, 2, -2, 2, false, false),
        World::Even => Shape::new(-2, 1, 0, 0, true, false),
        World::SmallTorus => Shape::new(-1, 1, -1, 1, true, true),
        World::SmallWalls => Shape::new(-1, 1, -1, 1, false, false),
        World::Tube => Shape::new(-1, 1, -1, 1, true, false),
        World::Narrow => Shape::new(0, 0, -1, 1, true, true),
        World::Square => Shape::new(0, 1, 0, 1, true, true),
        World::Single => Shape::new(0, 0, 0, 0, true, true),
    };
    shape.ok_or("refused")
}

/// Whether the answer is there and is yes. A test asks so, and has one way out the less for each row.
fn holds(answer: Result<bool, &'static str>) -> bool {
    matches!(answer, Ok(true))
}

/// Whether the bounds make a shape of so many patches, or none.
fn has_patches(x: (i32, i32), y: (i32, i32), patches: Option<u32>) -> bool {
    match Shape::new(x.0, x.1, y.0, y.1, true, false) {
        Some(shape) => patches == Some(shape.patches()),
        None => patches.is_none(),
    }
}

// The least and the greatest of each coordinate, and how many patches that makes.
const LIMITS: &[(i32, i32, i32, i32, Option<u32>)] = &[
    (0, 0, 0, 0, Some(1)),
    (-500, 500, 0, 0, Some(1_001)),
    (0, 0, -1_000, 0, Some(1_001)),
    (-500, 501, 0, 0, None),
    (0, 0, 0, 1_001, None),
    (0, 511, -511, 0, Some(262_144)),
    (0, 480, 0, 544, None),
    (1, 2, 0, 0, None),
    (-2, -1, 0, 0, None),
    (0, 0, 1, 1, None),
    (0, 0, -3, -1, None),
    (i32::MIN, i32::MAX, 0, 0, None),
];

#[test]
fn shapes_keep_to_the_limits(rt: HostRuntime) {
    for &(min_x, max_x, min_y, max_y, patches) in LIMITS {
        assert!(rt; has_patches((min_x, max_x), (min_y, max_y), patches));
    }
}

/// Whether the shape tells these bounds.
fn has_bounds(shape: &Shape, x: (i32, i32), y: (i32, i32)) -> bool {
    shape.min_x() == x.0 && shape.max_x() == x.1 && shape.min_y() == y.0 && shape.max_y() == y.1
}

/// Whether the shape tells this size.
fn has_size(shape: &Shape, width: u32, height: u32, patches: u32) -> bool {
    shape.width() == width && shape.height() == height && shape.patches() == patches
}

#[test]
fn a_shape_tells_its_bounds(rt: HostRuntime) -> Result<(), Fail> {
    let shape = Shape::new(-1, 3, -4, 2, false, true).ok_or("refused")?;
    assert!(rt; has_bounds(&shape, (-1, 3), (-4, 2)));
    assert!(rt; has_size(&shape, 5, 7, 35));
    assert!(rt; !shape.wraps_x() && shape.wraps_y());
    Ok(())
}

/// Whether the center of the patch lies on it.
fn has_center(shape: &Shape, patch: u32) -> bool {
    patch < shape.patches() && shape.patch_of(shape.center(patch)) == patch
}

/// Whether the point stands at these coordinates.
fn stands_at(at: Point, to: (i64, i64)) -> bool {
    at.x.millionths() == to.0 && at.y.millionths() == to.1
}

/// Whether the point at the coordinates wraps to these, and lies on this patch.
fn wraps_to(
    shape: &Shape,
    from: (i64, i64),
    to: (i64, i64),
    patch: u32,
) -> Result<bool, &'static str> {
    let at = point(shape, from.0, from.1)?;
    let wrapped = stands_at(at, to);
    let lies = shape.patch_of(at) == patch;
    Ok(wrapped && lies && has_center(shape, patch))
}

// A point as it is given and as it is wrapped, and its patch.
const WRAPPED: &[(i64, i64, i64, i64, u32)] = &[
    (-2_000_000, 2_000_000, -2_000_000, 2_000_000, 0),
    (2_000_000, 2_000_000, 2_000_000, 2_000_000, 4),
    (-2_000_000, 1_000_000, -2_000_000, 1_000_000, 5),
    (0, 0, 0, 0, 12),
    (500_000, 0, 500_000, 0, 13),
    (-500_000, 0, -500_000, 0, 12),
    (0, 500_000, 0, 500_000, 7),
    (0, 499_999, 0, 499_999, 12),
    (-2_500_000, 0, -2_500_000, 0, 10),
    (2_499_999, 0, 2_499_999, 0, 14),
    (2_500_000, 0, -2_500_000, 0, 10),
    (-2_500_001, 0, 2_499_999, 0, 14),
    (
        9_000_000_000_000_000_000,
        -9_000_000_000_000_000_000,
        0,
        0,
        12,
    ),
    (
        8_999_999_999_998_000_001,
        7_500_000,
        -1_999_999,
        -2_500_000,
        20,
    ),
];

#[test]
fn points_wrap_and_lie_on_patches(rt: HostRuntime) -> Result<(), Fail> {
    let torus = shape_of(Torus)?;
    for &(x, y, wrapped_x, wrapped_y, patch) in WRAPPED {
        assert!(rt; holds(wraps_to(&torus, (x, y), (wrapped_x, wrapped_y), patch)));
    }
    assert!(rt; torus.patch_at(-2, 2) == Some(0));
    assert!(rt; torus.patch_at(3, -3) == Some(0));
    Ok(())
}

/// The same patch, where it is one of the world.
fn of_world(rt: &impl Abort, shape: &Shape, patch: u32) -> u32
    ensures { result < patches_of shape.now }
{
    assert!(rt; patch < shape.patches());
    patch
}

/// Whether a point with this coordinate, and 0 as the other one, is inside or outside of a shape with walls, as this says.
fn is_inside(shape: &Shape, coordinate: i64, inside: bool) -> Result<bool, &'static str> {
    let number = Num::new(coordinate).ok_or("out of range")?;
    let zero = Num::new(0).ok_or("out of range")?;
    let by_x = shape.wrap(number, zero).is_some() == inside;
    let by_y = shape.wrap(zero, number).is_some() == inside;
    Ok(by_x && by_y && shape.is_inside(Point { x: number, y: zero }) == inside)
}

// A coordinate, and whether a point there is inside.
const ENDS: &[(i64, bool)] = &[
    (-2_500_000, true),
    (-2_500_001, false),
    (2_499_999, true),
    (2_500_000, false),
    (9_000_000_000_000_000_000, false),
];

#[test]
fn nothing_is_outside_of_a_box_but_beyond_its_ends(rt: HostRuntime) -> Result<(), Fail> {
    let walls = shape_of(Walls)?;
    for &(coordinate, inside) in ENDS {
        assert!(rt; holds(is_inside(&walls, coordinate, inside)));
    }
    assert!(rt; walls.patch_at(3, 0).is_none());
    assert!(rt; walls.patch_at(2, -2) == Some(24));
    Ok(())
}

/// What a call has found: the coordinates in millionths, none outside, or the fault of a sum.
fn found(point: Result<Option<Point>, NumFault>) -> Result<Option<(i64, i64)>, NumFault> {
    match point {
        Ok(Some(at)) => Ok(Some((at.x.millionths(), at.y.millionths()))),
        Ok(None) => Ok(None),
        Err(fault) => Err(fault),
    }
}

/// What a row wants to be found.
type Wanted = Result<Option<(i64, i64)>, NumFault>;

// The greatest number, in millionths.
const MOST: i64 = 9_000_000_000_000_000_000;

/// Whether the point beside is this one.
fn is_beside(
    world: World,
    from: (i64, i64),
    by: (i64, i64),
    wanted: Wanted,
) -> Result<bool, &'static str> {
    let shape = shape_of(world)?;
    let at = point(&shape, from.0, from.1)?;
    let dx = Num::new(by.0).ok_or("out of range")?;
    let dy = Num::new(by.1).ok_or("out of range")?;
    Ok(found(shape.beside(at, dx, dy)) == wanted)
}

/// Whether the point ahead, by a heading in degrees, is this one.
fn is_ahead(
    world: World,
    from: (i64, i64),
    heading: i64,
    distance: i64,
    wanted: Wanted,
) -> Result<bool, &'static str> {
    let shape = shape_of(world)?;
    let at = point(&shape, from.0, from.1)?;
    let heading = Num::whole(heading).ok_or("out of range")?;
    let distance = Num::new(distance).ok_or("out of range")?;
    Ok(found(shape.ahead(at, heading, distance)) == wanted)
}

const BESIDE: &[(World, (i64, i64), (i64, i64), Wanted)] = &[
    (
        Torus,
        (1_000_000, 1_000_000),
        (2_000_000, -5_000_000),
        Ok(Some((-2_000_000, 1_000_000))),
    ),
    (
        Walls,
        (1_000_000, 1_000_000),
        (-2_000_000, 500_000),
        Ok(Some((-1_000_000, 1_500_000))),
    ),
    (Walls, (1_000_000, 1_000_000), (2_000_000, 0), Ok(None)),
    (Walls, (1_000_000, 1_000_000), (0, -4_000_000), Ok(None)),
    (Torus, (-1_000_000, 0), (MOST, 0), Ok(Some((-1_000_000, 0)))),
    (Torus, (1, 0), (MOST, 0), Err(NumFault::Overflow)),
    (Torus, (0, -1), (0, -MOST), Err(NumFault::Overflow)),
    (
        Walls,
        (2_000_000, 1),
        (1_000_000, MOST),
        Err(NumFault::Overflow),
    ),
];

#[test]
fn a_point_beside_is_wrapped_or_outside_or_out_of_range(rt: HostRuntime) -> Result<(), Fail> {
    for &(world, from, by, expected) in BESIDE {
        assert!(rt; holds(is_beside(world, from, by, expected)));
    }
    Ok(())
}

const AHEAD: &[(World, (i64, i64), i64, i64, Wanted)] = &[
    (Walls, (0, 0), 0, 1_000_000, Ok(Some((0, 1_000_000)))),
    (Walls, (0, 0), 90, 1_000_000, Ok(Some((1_000_000, 0)))),
    (Walls, (0, 0), 45, 1_000_000, Ok(Some((707_107, 707_107)))),
    (Walls, (0, 0), 90, -1_000_000, Ok(Some((-1_000_000, 0)))),
    (Walls, (0, 0), 30, 1, Ok(Some((1, 1)))),
    (Walls, (0, 0), 30, -1, Ok(Some((0, -1)))),
    (Torus, (0, 0), 180, 3_000_000, Ok(Some((0, 2_000_000)))),
    (Walls, (0, 0), 180, 3_000_000, Ok(None)),
    (Torus, (-1_000_000, 0), 90, MOST, Ok(Some((-1_000_000, 0)))),
    (Walls, (-1_000_000, 0), 90, MOST, Ok(None)),
    (Walls, (1_000_000, 0), 90, MOST, Err(NumFault::Overflow)),
    (Torus, (0, 1_000_000), 0, MOST, Err(NumFault::Overflow)),
];

// The sine of 30 degrees is 0.5 and their cosine 0.866025, so that products of a millionth are rounded.
#[test]
fn a_point_ahead_goes_by_the_heading(rt: HostRuntime) -> Result<(), Fail> {
    for &(world, from, heading, distance, expected) in AHEAD {
        assert!(rt; holds(is_ahead(world, from, heading, distance, expected)));
    }
    Ok(())
}

/// Whether the offset of two points is this.
fn has_offset(shape: &Shape, from: Point, to: Point, offset: (i64, i64)) -> bool
    requires from { IsPointOf shape.now from }
    requires to { IsPointOf shape.now to }
{
    let (x, y) = shape.offset(from, to);
    x.millionths() == offset.0 && y.millionths() == offset.1
}

/// Whether the way from the one point to the other has this length.
fn is_away(shape: &Shape, from: Point, to: Point, distance: i64) -> bool
    requires from { IsPointOf shape.now from }
    requires to { IsPointOf shape.now to }
{
    shape.distance(from, to).millionths() == distance
}

/// Whether the other point lies in this direction, in degrees, or is the same.
fn lies_at(shape: &Shape, from: Point, to: Point, heading: Option<i64>) -> bool
    requires from { IsPointOf shape.now from }
    requires to { IsPointOf shape.now to }
{
    match shape.towards(from, to) {
        Ok(found) => heading == Some(found.millionths() / 1_000_000),
        Err(SamePoint) => heading.is_none(),
    }
}

/// Whether the offset, the distance there and back, and the heading of two points are these.
fn measures(
    world: World,
    from: (i64, i64),
    to: (i64, i64),
    offset: (i64, i64),
    distance: i64,
    heading: Option<i64>,
) -> Result<bool, &'static str> {
    let shape = shape_of(world)?;
    let start = point(&shape, from.0, from.1)?;
    let end = point(&shape, to.0, to.1)?;
    let by = has_offset(&shape, start, end, offset);
    let there = is_away(&shape, start, end, distance);
    let back = is_away(&shape, end, start, distance);
    Ok(by && there && back && lies_at(&shape, start, end, heading))
}

// The world, the two points, the offset, the distance and the heading in degrees.
const OFFSETS: &[(World, (i64, i64), (i64, i64), (i64, i64), i64, Option<i64>)] = &[
    (
        Torus,
        (-2_000_000, 0),
        (2_000_000, 0),
        (-1_000_000, 0),
        1_000_000,
        Some(270),
    ),
    (
        Walls,
        (-2_000_000, 0),
        (2_000_000, 0),
        (4_000_000, 0),
        4_000_000,
        Some(90),
    ),
    (
        Even,
        (0, 0),
        (-2_000_000, 0),
        (2_000_000, 0),
        2_000_000,
        Some(90),
    ),
    (
        Even,
        (-2_000_000, 0),
        (0, 0),
        (2_000_000, 0),
        2_000_000,
        Some(90),
    ),
    (
        Torus,
        (0, 0),
        (1_000_000, 1_000_000),
        (1_000_000, 1_000_000),
        1_414_213,
        Some(45),
    ),
    (
        Torus,
        (0, 2_000_000),
        (0, -2_000_000),
        (0, 1_000_000),
        1_000_000,
        Some(0),
    ),
    (
        Single,
        (-400_000, 0),
        (400_000, 0),
        (-200_000, 0),
        200_000,
        Some(270),
    ),
    (
        Torus,
        (1_000_000, 1_000_000),
        (1_000_000, 1_000_000),
        (0, 0),
        0,
        None,
    ),
];

#[test]
fn offsets_take_the_shorter_way(rt: HostRuntime) -> Result<(), Fail> {
    for &(world, from, to, offset, distance, heading) in OFFSETS {
        assert!(rt; holds(measures(world, from, to, offset, distance, heading)));
    }
    Ok(())
}

/// Whether the patch has these neighbors and so many.
fn has_neighbors(shape: &Shape, patch: u32, all: [u32; 8], count: usize) -> bool
    requires { patch < patches_of shape.now }
{
    let mut found = [9; 8];
    shape.neighbors(patch, &mut found) == count && found == all
}

/// Whether the patch has these straight neighbors and so many.
fn has_straight(shape: &Shape, patch: u32, straight: [u32; 4], count: usize) -> bool
    requires { patch < patches_of shape.now }
{
    let mut found = [9; 4];
    shape.neighbors4(patch, &mut found) == count && found == straight
}

// The patch with its neighbors and how many they are, and with its straight ones.
const NEIGHBORS: &[(World, u32, [u32; 8], usize, [u32; 4], usize)] = &[
    (SmallWalls, 0, [1, 3, 4, 9, 9, 9, 9, 9], 3, [1, 3, 9, 9], 2),
    (SmallWalls, 4, [0, 1, 2, 3, 5, 6, 7, 8], 8, [1, 3, 5, 7], 4),
    (SmallWalls, 5, [1, 2, 4, 7, 8, 9, 9, 9], 5, [2, 4, 8, 9], 3),
    (SmallTorus, 0, [1, 2, 3, 4, 5, 6, 7, 8], 8, [1, 2, 3, 6], 4),
    (Tube, 0, [1, 2, 3, 4, 5, 9, 9, 9], 5, [1, 2, 3, 9], 3),
    (Narrow, 1, [0, 2, 9, 9, 9, 9, 9, 9], 2, [0, 2, 9, 9], 2),
    (Square, 0, [1, 2, 3, 9, 9, 9, 9, 9], 3, [1, 2, 9, 9], 2),
    (Single, 0, [9, 9, 9, 9, 9, 9, 9, 9], 0, [9, 9, 9, 9], 0),
];

#[test]
fn neighbors_are_each_named_once(rt: HostRuntime) -> Result<(), Fail> {
    for &(world, patch, all, count, straight, straight_count) in NEIGHBORS {
        let shape = shape_of(world)?;
        let patch = of_world(&rt, &shape, patch);
        assert!(rt; has_neighbors(&shape, patch, all, count));
        assert!(rt; has_straight(&shape, patch, straight, straight_count));
    }
    Ok(())
}

/// Walks over a box, which must have just these patches.
fn walks_over(rt: &impl Abort, shape: &Shape, box_of: &PatchBox, patches: &[u32]) {
    let mut next = box_of.first();
    for patch in patches {
        assert!(rt; next == Some(*patch));
        next = box_of.next(*patch);
    }
    assert!(rt; next.is_none());
    holds_just(rt, shape, box_of, patches);
}

/// Asks for each patch whether the box has it, which must be so just for these.
fn holds_just(rt: &impl Abort, shape: &Shape, box_of: &PatchBox, patches: &[u32]) {
    for patch in 0..shape.patches() {
        assert!(rt; box_of.contains(patch) == patches.contains(&patch));
    }
    assert!(rt; !box_of.contains(u32::MAX));
    assert!(rt; box_of.next(u32::MAX).is_none());
}

/// The box of a radius, in millionths, around a point.
fn box_around(shape: &Shape, x: i64, y: i64, radius: i64) -> Result<PatchBox, &'static str> {
    let at = point(shape, x, y)?;
    let radius = Num::new(radius).ok_or("out of range")?;
    Ok(shape.box_of(at, radius))
}

#[test]
fn boxes_that_wrap_are_walked_in_order(rt: HostRuntime) -> Result<(), Fail> {
    let torus = Shape::new(-2, 2, -2, 2, true, true).ok_or("refused")?;
    let near = box_around(&torus, -2_000_000, 2_000_000, 0)?;
    walks_over(&rt, &torus, &near, &[0, 1, 4, 5, 6, 9, 20, 21, 24]);
    let own = box_around(&torus, -2_000_000, 2_000_000, -1_000_000)?;
    walks_over(&rt, &torus, &own, &[0]);
    let none = box_around(&torus, -2_000_000, 2_000_000, -5_000_000)?;
    walks_over(&rt, &torus, &none, &[]);
    Ok(())
}

#[test]
fn boxes_within_walls_are_walked_in_order(rt: HostRuntime) -> Result<(), Fail> {
    let walls = Shape::new(-2, 2, -2, 2, false, false).ok_or("refused")?;
    let around = box_around(&walls, 0, 0, 0)?;
    walks_over(&rt, &walls, &around, &[6, 7, 8, 11, 12, 13, 16, 17, 18]);
    let rounded_up = box_around(&walls, -2_000_000, 0, 1)?;
    walks_over(
        &rt,
        &walls,
        &rounded_up,
        &[0, 1, 2, 5, 6, 7, 10, 11, 12, 15, 16, 17, 20, 21, 22],
    );
    Ok(())
}

#[test]
fn a_box_of_a_far_radius_has_all_patches(rt: HostRuntime) -> Result<(), Fail> {
    let all = Shape::new(0, 1, 0, 1, false, true).ok_or("refused")?;
    let whole = box_around(&all, 1_000_000, 0, 9_000_000_000_000_000_000)?;
    walks_over(&rt, &all, &whole, &[0, 1, 2, 3]);
    Ok(())
}
