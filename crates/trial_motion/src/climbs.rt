//! Climbs of a turtle over stores. Each table runs over every store that there is.
//!
//! Numbers and coordinates are in millionths.

use crate::fields::{
    Field, Other, Others, Sides, Spot, TURTLE, WIDE, fill, fill_with, ground, heads, is_field,
    jump, stands,
};
use nl_agents::Store;
use nl_draw::Stream;
use nl_motion::climb;
use nl_plain::Plain;
use nl_store::Indexed;
use std::alloc::Global;
use std::process::Abort;

/// A spot and the heading of the turtle there.
type End = (Spot, i64);

/// What patches keep, where the turtle stands, whether it goes up, whether to four neighbors alone, how many draws are made, and the ends,
/// of which it comes to one.
type Climb = (Field, Others, Spot, bool, bool, u64, &'static [End]);

// Whether the turtle climbs, by a stream of which so many draws are made.
fn climbs<S: Store>(store: &mut S, slot: u32, up: bool, four: bool, draws: u64) -> bool {
    if !store.turtle_lives(TURTLE) {
        return false;
    }
    let mut stream = Stream::new(1);
    climb(store, &mut stream, TURTLE, slot, up, four);
    is_after(stream, draws)
}

// Whether the stream is that of the seed after so many draws.
fn is_after(mut stream: Stream, draws: u64) -> bool {
    let mut other = Stream::new(1);
    for _draw in 0..draws {
        let _drawn = other.draw(2);
    }
    stream.draw(1_000_000_000_000) == other.draw(1_000_000_000_000)
}

fn came_to_one<S: Store>(store: &S, ends: &[End]) -> bool {
    for (spot, heading) in ends {
        if stands(store, *spot) && heads(store, *heading) {
            return true;
        }
    }
    false
}

fn ascend<S: Store>(rt: &impl Abort, alloc: Global, sides: Sides, row: &Climb) {
    let (field, others, from, up, four, draws, ends) = *row;
    let (mut store, slot) = ground::<S>(rt, alloc, sides);
    assert!(rt; fill(&mut store, slot, field), "{row:?}");
    assert!(rt; fill_with(&mut store, alloc, slot, others), "{row:?}");
    assert!(rt; jump(&mut store, from) == Some(Ok(())), "{row:?}");
    assert!(rt; climbs(&mut store, slot, up, four, draws), "{row:?}");
    assert!(rt; came_to_one(&store, ends), "{row:?}");
    assert!(rt; is_field(&store, slot, field, others.len()), "{row:?}");
}

// Each row in a world of its own, over each store.
fn ascend_all(rt: &impl Abort, alloc: Global, sides: Sides, rows: &[Climb]) {
    for row in rows {
        ascend::<Plain>(rt, alloc, sides, row);
        ascend::<Indexed>(rt, alloc, sides, row);
    }
}

const ORIGIN: Spot = (0, 0);

const NEAR: Spot = (400_000, -300_000);

const PEAK: Field = &[(1, 1, 5)];

const TOP: Field = &[(0, 1, 5)];

// The center of the patch above the origin.
const ABOVE: Spot = (0, 1_000_000);

const UP: bool = true;

const DOWN: bool = false;

const EIGHT: bool = false;

const FOUR: bool = true;

const CLIMBS: &[Climb] = &[
    (
        PEAK,
        &[],
        NEAR,
        UP,
        EIGHT,
        1,
        &[((1_000_000, 1_000_000), 45_000_000)],
    ),
    (
        &[(-1, -1, -4)],
        &[],
        NEAR,
        DOWN,
        EIGHT,
        1,
        &[((-1_000_000, -1_000_000), 225_000_000)],
    ),
    (
        &[(0, -1, 2), (1, 1, 5)],
        &[],
        NEAR,
        UP,
        FOUR,
        1,
        &[((0, -1_000_000), 180_000_000)],
    ),
    // Behind the right side lies the left one.
    (
        &[(-2, 0, 3)],
        &[],
        (1_600_000, 0),
        UP,
        EIGHT,
        1,
        &[((-2_000_000, 0), 90_000_000)],
    ),
    // Of two that are alike one is drawn.
    (
        &[(0, 1, 5), (1, 0, 5)],
        &[],
        NEAR,
        UP,
        EIGHT,
        1,
        &[(ABOVE, 0), ((1_000_000, 0), 90_000_000)],
    ),
];

#[test]
fn a_turtle_climbs_to_the_best_neighbor(rt: HostRuntime) {
    ascend_all(&rt, rt.alloc(), WIDE, CLIMBS);
}

// The draw is made before the number of the turtle's own patch is looked at.
const NO_CLIMBS: &[Climb] = &[
    (PEAK, &[], NEAR, UP, FOUR, 1, &[(ORIGIN, 0)]),
    (PEAK, &[], NEAR, DOWN, EIGHT, 1, &[(ORIGIN, 0)]),
    (
        &[(0, 0, 5), (1, 0, 5)],
        &[],
        NEAR,
        UP,
        EIGHT,
        1,
        &[(ORIGIN, 0)],
    ),
    // Behind the upper side lies nothing.
    (
        &[(0, -2, 5)],
        &[],
        (0, 2_100_000),
        UP,
        EIGHT,
        1,
        &[((0, 2_000_000), 0)],
    ),
];

#[test]
fn a_turtle_stays_at_the_center_where_no_neighbor_is_better(rt: HostRuntime) {
    ascend_all(&rt, rt.alloc(), WIDE, NO_CLIMBS);
}

const ALONE: &[Climb] = &[
    (&[(0, 0, 5)], &[], NEAR, UP, EIGHT, 0, &[(ORIGIN, 0)]),
    (&[(0, 0, 5)], &[], NEAR, DOWN, FOUR, 0, &[(ORIGIN, 0)]),
];

#[test]
fn a_turtle_on_the_one_patch_goes_to_its_center(rt: HostRuntime) {
    ascend_all(&rt, rt.alloc(), (0, 0, 0, 0, true, true), ALONE);
    ascend_all(&rt, rt.alloc(), (0, 0, 0, 0, false, false), ALONE);
}

const THREE_HIGH: &[Climb] = &[
    (TOP, &[], NEAR, UP, EIGHT, 1, &[(ABOVE, 0)]),
    (
        &[(0, -1, 5)],
        &[],
        NEAR,
        UP,
        FOUR,
        1,
        &[((0, -1_000_000), 180_000_000)],
    ),
];

// Where both ways around the world are as long, the turtle turns the positive one.
const TWO_HIGH: &[Climb] = &[
    (TOP, &[], NEAR, UP, EIGHT, 1, &[(ABOVE, 0)]),
    (
        &[(0, 0, 5)],
        &[],
        (400_000, 700_000),
        UP,
        EIGHT,
        1,
        &[(ORIGIN, 0)],
    ),
];

const TWO_WIDE: &[Climb] = &[
    (
        PEAK,
        &[],
        NEAR,
        UP,
        EIGHT,
        1,
        &[((1_000_000, 1_000_000), 45_000_000)],
    ),
    (
        TOP,
        &[],
        (700_000, 300_000),
        UP,
        EIGHT,
        1,
        &[(ABOVE, 45_000_000)],
    ),
    (PEAK, &[], NEAR, UP, FOUR, 1, &[(ORIGIN, 0)]),
];

#[test]
fn a_turtle_climbs_in_narrow_worlds(rt: HostRuntime) {
    ascend_all(&rt, rt.alloc(), (0, 0, -1, 1, true, true), THREE_HIGH);
    ascend_all(&rt, rt.alloc(), (0, 0, 0, 1, true, true), TWO_HIGH);
    ascend_all(&rt, rt.alloc(), (0, 1, -1, 1, true, true), TWO_WIDE);
}

const WALLED: &[Climb] = &[(
    TOP,
    &[],
    (700_000, 300_000),
    UP,
    EIGHT,
    1,
    &[(ABOVE, 315_000_000)],
)];

#[test]
fn a_turtle_climbs_between_walls(rt: HostRuntime) {
    ascend_all(&rt, rt.alloc(), (0, 1, -1, 1, false, false), WALLED);
}

// One patch, and one above it.
const NO_NUMBERS: &[Climb] = &[
    (
        &[],
        &[(0, 1, Other::Text)],
        NEAR,
        UP,
        EIGHT,
        0,
        &[(ORIGIN, 0)],
    ),
    (
        &[],
        &[(0, 1, Other::List)],
        NEAR,
        DOWN,
        FOUR,
        0,
        &[(ORIGIN, 0)],
    ),
    (
        &[],
        &[(0, 1, Other::Truth)],
        NEAR,
        UP,
        FOUR,
        0,
        &[(ORIGIN, 0)],
    ),
    (
        TOP,
        &[(0, 0, Other::Text)],
        NEAR,
        UP,
        EIGHT,
        1,
        &[(ORIGIN, 0)],
    ),
];

#[test]
fn nothing_is_drawn_where_no_neighbor_keeps_a_number(rt: HostRuntime) {
    ascend_all(&rt, rt.alloc(), (0, 0, 0, 1, false, false), NO_NUMBERS);
}

const PASSED_OVER: &[Climb] = &[
    (
        TOP,
        &[(1, 0, Other::List), (-1, 0, Other::Text)],
        NEAR,
        UP,
        EIGHT,
        1,
        &[(ABOVE, 0)],
    ),
    (
        &[(0, 1, -5)],
        &[(1, 1, Other::List), (-1, -1, Other::Text)],
        NEAR,
        DOWN,
        EIGHT,
        1,
        &[(ABOVE, 0)],
    ),
];

#[test]
fn what_is_no_number_is_passed_over(rt: HostRuntime) {
    ascend_all(&rt, rt.alloc(), WIDE, PASSED_OVER);
}
