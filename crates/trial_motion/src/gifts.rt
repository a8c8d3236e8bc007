//! What patches give to each other, over stores. Each table runs over every store that there is.
//!
//! Numbers are in millionths.

use crate::fields::{BOX, Field, Other, Others, Sides, WIDE, fill, fill_with, ground, is_field};
use nl_agents::Store;
use nl_fixed::Num;
use nl_motion::{MoveFault, diffuse};
use nl_plain::Plain;
use nl_store::Indexed;
use std::alloc::Global;
use std::process::Abort;

/// A field, the share that is given, whether to four neighbors alone, the answer, and the field after it.
type Gift = (Field, i64, bool, Result<(), MoveFault>, Field);

fn give<S: Store>(rt: &impl Abort, alloc: Global, sides: Sides, others: Others, gift: &Gift) {
    let (before, share, four, answer, after) = *gift;
    let (mut store, slot) = ground::<S>(rt, alloc, sides);
    assert!(rt; fill(&mut store, slot, before), "{gift:?}");
    assert!(rt; fill_with(&mut store, alloc, slot, others), "{gift:?}");
    let Some(share) = Num::new(share) else {
        panic!(rt);
    };
    let found = diffuse(alloc, &mut store, slot, share, four);
    assert!(rt; found == answer, "{gift:?}");
    assert!(rt; is_field(&store, slot, after, others.len()), "{gift:?}");
}

fn give_over_each(rt: &impl Abort, alloc: Global, sides: Sides, others: Others, gift: &Gift) {
    give::<Plain>(rt, alloc, sides, others, gift);
    give::<Indexed>(rt, alloc, sides, others, gift);
}

fn give_all(rt: &impl Abort, alloc: Global, sides: Sides, gifts: &[Gift]) {
    for gift in gifts {
        give_over_each(rt, alloc, sides, &[], gift);
    }
}

const MIDDLE: Field = &[(0, 0, 9_000_000)];

const CORNER: Field = &[(-2, 2, 9_000_000)];

const HALF: i64 = 500_000;

const ALL: i64 = 1_000_000;

const GIFTS: &[Gift] = &[
    (
        MIDDLE,
        HALF,
        false,
        Ok(()),
        &[
            (-1, 1, 562_500),
            (0, 1, 562_500),
            (1, 1, 562_500),
            (-1, 0, 562_500),
            (0, 0, 4_500_000),
            (1, 0, 562_500),
            (-1, -1, 562_500),
            (0, -1, 562_500),
            (1, -1, 562_500),
        ],
    ),
    (
        MIDDLE,
        ALL,
        false,
        Ok(()),
        &[
            (-1, 1, 1_125_000),
            (0, 1, 1_125_000),
            (1, 1, 1_125_000),
            (-1, 0, 1_125_000),
            (1, 0, 1_125_000),
            (-1, -1, 1_125_000),
            (0, -1, 1_125_000),
            (1, -1, 1_125_000),
        ],
    ),
    (MIDDLE, 0, false, Ok(()), MIDDLE),
    (MIDDLE, 0, true, Ok(()), MIDDLE),
    // A share is cut to whole millionths, downwards, and what is cut off the patch keeps.
    (
        &[(0, 0, 10)],
        ALL,
        false,
        Ok(()),
        &[
            (-1, 1, 1),
            (0, 1, 1),
            (1, 1, 1),
            (-1, 0, 1),
            (0, 0, 2),
            (1, 0, 1),
            (-1, -1, 1),
            (0, -1, 1),
            (1, -1, 1),
        ],
    ),
    (
        &[(0, 0, -5)],
        ALL,
        true,
        Ok(()),
        &[(0, 1, -2), (-1, 0, -2), (0, 0, 3), (1, 0, -2), (0, -1, -2)],
    ),
];

#[test]
fn a_patch_gives_to_all_its_neighbors_alike(rt: HostRuntime) {
    give_all(&rt, rt.alloc(), WIDE, GIFTS);
}

// The upper side is a wall, and behind the left one lies the right one.
const CORNER_GIFTS: &[Gift] = &[
    (
        CORNER,
        ALL,
        false,
        Ok(()),
        &[
            (-2, 2, 3_375_000),
            (-1, 2, 1_125_000),
            (2, 2, 1_125_000),
            (-2, 1, 1_125_000),
            (-1, 1, 1_125_000),
            (2, 1, 1_125_000),
        ],
    ),
    (
        CORNER,
        HALF,
        true,
        Ok(()),
        &[
            (-2, 2, 5_625_000),
            (-1, 2, 1_125_000),
            (2, 2, 1_125_000),
            (-2, 1, 1_125_000),
        ],
    ),
    (
        &[(-2, 2, 8_000_000), (-1, 2, 4_000_000)],
        ALL,
        true,
        Ok(()),
        &[
            (-2, 2, 3_000_000),
            (-1, 2, 3_000_000),
            (0, 2, 1_000_000),
            (2, 2, 2_000_000),
            (-2, 1, 2_000_000),
            (-1, 1, 1_000_000),
        ],
    ),
];

#[test]
fn a_patch_at_a_wall_keeps_what_has_no_neighbor(rt: HostRuntime) {
    give_all(&rt, rt.alloc(), WIDE, CORNER_GIFTS);
}

const ONE_EACH: Field = &[(0, 1, ALL), (1, 1, ALL), (0, 0, ALL), (1, 0, ALL)];

const EIGHT: Field = &[(0, 0, 8_000_000)];

// Small worlds with walls: five shares of each of four patches have no neighbor, and a corner has three neighbors.
const WALLED_GIFTS: &[Gift] = &[
    (ONE_EACH, ALL, false, Ok(()), ONE_EACH),
    (ONE_EACH, ALL, true, Ok(()), ONE_EACH),
    (
        EIGHT,
        ALL,
        false,
        Ok(()),
        &[(0, 1, ALL), (1, 1, ALL), (0, 0, 5_000_000), (1, 0, ALL)],
    ),
    (
        EIGHT,
        ALL,
        true,
        Ok(()),
        &[(0, 1, 2_000_000), (0, 0, 4_000_000), (1, 0, 2_000_000)],
    ),
];

const AROUND_THE_MIDDLE: &[Gift] = &[(
    EIGHT,
    ALL,
    false,
    Ok(()),
    &[
        (-1, 1, ALL),
        (0, 1, ALL),
        (1, 1, ALL),
        (-1, 0, ALL),
        (1, 0, ALL),
        (-1, -1, ALL),
        (0, -1, ALL),
        (1, -1, ALL),
    ],
)];

#[test]
fn patches_of_small_worlds_give(rt: HostRuntime) {
    give_all(&rt, rt.alloc(), (0, 1, 0, 1, false, false), WALLED_GIFTS);
    give_all(
        &rt,
        rt.alloc(),
        (-1, 1, -1, 1, false, false),
        AROUND_THE_MIDDLE,
    );
}

const ALONE: &[Gift] = &[
    (EIGHT, ALL, false, Ok(()), EIGHT),
    (EIGHT, ALL, true, Ok(()), EIGHT),
];

#[test]
fn a_patch_without_neighbors_keeps_all(rt: HostRuntime) {
    give_all(&rt, rt.alloc(), (0, 0, 0, 0, true, true), ALONE);
    give_all(&rt, rt.alloc(), (0, 0, 0, 0, false, false), ALONE);
}

// A neighbor that can be reached both ways around the world is one neighbor.
const THREE_HIGH: &[Gift] = &[
    (
        EIGHT,
        ALL,
        false,
        Ok(()),
        &[(0, 1, ALL), (0, 0, 6_000_000), (0, -1, ALL)],
    ),
    (
        EIGHT,
        ALL,
        true,
        Ok(()),
        &[(0, 1, 2_000_000), (0, 0, 4_000_000), (0, -1, 2_000_000)],
    ),
];

const TWO_HIGH: &[Gift] = &[
    (EIGHT, ALL, false, Ok(()), &[(0, 1, ALL), (0, 0, 7_000_000)]),
    (
        EIGHT,
        ALL,
        true,
        Ok(()),
        &[(0, 1, 2_000_000), (0, 0, 6_000_000)],
    ),
];

const TWO_WIDE: &[Gift] = &[
    (
        EIGHT,
        ALL,
        false,
        Ok(()),
        &[
            (0, 1, ALL),
            (1, 1, ALL),
            (0, 0, 3_000_000),
            (1, 0, ALL),
            (0, -1, ALL),
            (1, -1, ALL),
        ],
    ),
    (
        EIGHT,
        ALL,
        true,
        Ok(()),
        &[
            (0, 1, 2_000_000),
            (0, 0, 2_000_000),
            (1, 0, 2_000_000),
            (0, -1, 2_000_000),
        ],
    ),
];

#[test]
fn patches_of_narrow_worlds_give_once_to_each_neighbor(rt: HostRuntime) {
    give_all(&rt, rt.alloc(), (0, 0, -1, 1, true, true), THREE_HIGH);
    give_all(&rt, rt.alloc(), (0, 0, 0, 1, true, true), TWO_HIGH);
    give_all(&rt, rt.alloc(), (0, 1, -1, 1, true, true), TWO_WIDE);
}

const NO_PARTS: &[Gift] = &[
    (CORNER, -1, false, Err(MoveFault::Domain), CORNER),
    (CORNER, 1_000_001, true, Err(MoveFault::Domain), CORNER),
];

#[test]
fn a_share_is_from_0_to_1(rt: HostRuntime) {
    give_all(&rt, rt.alloc(), WIDE, NO_PARTS);
}

const MOST: i64 = 9_000_000_000_000_000_000;

// Of a share of the middle seven are cut off, which it keeps, and it gets eight whole shares.
const HEAP: Field = &[
    (-1, 1, MOST),
    (0, 1, MOST),
    (1, 1, MOST),
    (-1, 0, MOST),
    (0, 0, 8_999_999_999_999_999_999),
    (1, 0, MOST),
    (-1, -1, MOST),
    (0, -1, MOST),
    (1, -1, MOST),
];

#[test]
fn nothing_is_given_where_a_patch_would_have_too_much(rt: HostRuntime) {
    let gift: Gift = (HEAP, ALL, false, Err(MoveFault::Overflow), HEAP);
    give_over_each(&rt, rt.alloc(), BOX, &[], &gift);
}

// What is no number comes before what is out of range, and behind a share that is none.
const NO_NUMBERS: &[(Others, Gift)] = &[
    (
        &[(2, -2, Other::Truth)],
        (MIDDLE, HALF, false, Err(MoveFault::WrongType), MIDDLE),
    ),
    (
        &[(-2, 2, Other::Text)],
        (MIDDLE, 0, true, Err(MoveFault::WrongType), MIDDLE),
    ),
    (
        &[(0, 1, Other::List), (0, 2, Other::Text)],
        (MIDDLE, ALL, false, Err(MoveFault::WrongType), MIDDLE),
    ),
    (
        &[(2, 2, Other::List)],
        (HEAP, ALL, false, Err(MoveFault::WrongType), HEAP),
    ),
    (
        &[(2, 2, Other::List)],
        (MIDDLE, -1, false, Err(MoveFault::Domain), MIDDLE),
    ),
];

// In worlds of one patch, and of one patch and one above it.
const ALONE_WITHOUT: &[(Others, Gift)] = &[(
    &[(0, 0, Other::List)],
    (&[], ALL, true, Err(MoveFault::WrongType), &[]),
)];

const ABOVE_WITHOUT: &[(Others, Gift)] = &[
    (
        &[(0, 1, Other::Text)],
        (EIGHT, ALL, false, Err(MoveFault::WrongType), EIGHT),
    ),
    (
        &[(0, 0, Other::Text), (0, 1, Other::Truth)],
        (&[], HALF, true, Err(MoveFault::WrongType), &[]),
    ),
];

fn give_none(rt: &impl Abort, alloc: Global, sides: Sides, rows: &[(Others, Gift)]) {
    for (others, gift) in rows {
        give_over_each(rt, alloc, sides, others, gift);
    }
}

#[test]
fn nothing_is_given_where_a_patch_keeps_no_number(rt: HostRuntime) {
    give_none(&rt, rt.alloc(), WIDE, NO_NUMBERS);
    give_none(&rt, rt.alloc(), (0, 0, 0, 0, true, true), ALONE_WITHOUT);
    give_none(&rt, rt.alloc(), (0, 0, 0, 1, true, true), ABOVE_WITHOUT);
    give_none(&rt, rt.alloc(), (0, 0, 0, 1, false, false), ABOVE_WITHOUT);
}

// As many patches as a world may have.
const LARGE: Sides = (0, 511, 0, 511, true, true);

const LARGE_GIFTS: &[Gift] = &[(
    EIGHT,
    ALL,
    false,
    Ok(()),
    &[
        (511, 1, ALL),
        (0, 1, ALL),
        (1, 1, ALL),
        (511, 0, ALL),
        (1, 0, ALL),
        (511, 511, ALL),
        (0, 511, ALL),
        (1, 511, ALL),
    ],
)];

#[test]
fn patches_of_the_largest_world_give(rt: HostRuntime) {
    give_all(&rt, rt.alloc(), LARGE, LARGE_GIFTS);
}
