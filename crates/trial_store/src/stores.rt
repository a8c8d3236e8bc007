//! Stores of agents: what calls leave, by the rules of births, deaths, breeds, links, variables and clears.
//!
//! Each table runs over every store that there is. Coordinates and numbers are in tenths.

use nl_agents::{Owner, Store};
use nl_plain::Plain;
use nl_store::Indexed;
use std::alloc::Global;
use std::process::Abort;
use trial_stores::trial_model::{FOXES, OWLS, ROPES, WIRES, program};
use trial_stores::trials::{Look, Scene, Step, Wanted, played};

// Plays the scenes on a new store.
fn assert_played<S: Store>(rt: &impl Abort, alloc: Global, scenes: &[Scene]) {
    let Some(model) = program(alloc) else {
        panic!(rt);
    };
    if let Err(wrong) = played::<S>(alloc, model, scenes) {
        panic!(rt; "{wrong:?}");
    }
}

/// Plays the scenes on a new store of each kind.
pub(crate) fn assert_scenes(rt: &impl Abort, alloc: Global, scenes: &[Scene]) {
    assert_played::<Plain>(rt, alloc, scenes);
    assert_played::<Indexed>(rt, alloc, scenes);
}

const HERE: (i64, i64) = (0, 0);

const ZERO: Wanted = Wanted::Number(0);

// A coordinate is rounded, a half upwards; in x the world goes on behind its sides.
const BIRTHS: &[Scene] = &[(
    &[
        Step::Bear(0, HERE, None, 0),
        Step::Bear(FOXES, (10, -20), None, 1),
        Step::Bear(OWLS, (14, -15), None, 2),
        Step::Bear(FOXES, (25, 24), None, 3),
    ],
    &[
        Look::Turtles(&[0, 1, 2, 3]),
        Look::OfBreed(0, &[0]),
        Look::OfBreed(FOXES, &[1, 3]),
        Look::OfBreed(OWLS, &[2]),
        Look::On(HERE, &[0]),
        Look::On((10, -20), &[1]),
        Look::On((10, -10), &[2]),
        Look::On((-20, 20), &[3]),
        Look::On((20, 20), &[]),
        Look::Turtle(0, 0, HERE),
        Look::Turtle(2, OWLS, (14, -15)),
        Look::Turtle(3, FOXES, (-25, 24)),
        Look::DeadTurtle(4),
        Look::Links(&[]),
        Look::Base(0),
    ],
)];

#[test]
fn turtles_are_born_under_the_next_serial(rt: HostRuntime) {
    assert_scenes(&rt, rt.alloc(), BIRTHS);
}

const DEATHS: &[Scene] = &[
    (
        &[
            Step::Bear(0, HERE, None, 0),
            Step::Bear(FOXES, HERE, None, 1),
            Step::Bear(OWLS, HERE, None, 2),
            Step::Bear(FOXES, HERE, None, 3),
            Step::Kill(1),
            Step::Kill(3),
        ],
        &[
            Look::Turtles(&[0, 2]),
            Look::OfBreed(FOXES, &[]),
            Look::On(HERE, &[0, 2]),
            Look::DeadTurtle(1),
            Look::DeadTurtle(3),
            Look::Turtle(2, OWLS, HERE),
        ],
    ),
    (
        &[Step::Bear(FOXES, (10, 0), None, 4), Step::Kill(0)],
        &[
            Look::Turtles(&[2, 4]),
            Look::OfBreed(FOXES, &[4]),
            Look::On(HERE, &[2]),
            Look::On((10, 0), &[4]),
            Look::DeadTurtle(3),
            Look::Base(0),
        ],
    ),
];

#[test]
fn a_death_leaves_the_others_and_its_serial_is_not_given_again(rt: HostRuntime) {
    assert_scenes(&rt, rt.alloc(), DEATHS);
}

const MOVES: &[Scene] = &[
    (
        &[
            Step::Bear(0, HERE, None, 0),
            Step::Bear(FOXES, HERE, None, 1),
            Step::Bear(0, HERE, None, 2),
            Step::Shift(1, (14, 15)),
            Step::Shift(0, (-11, -25)),
        ],
        &[
            Look::On(HERE, &[2]),
            Look::On((10, 20), &[1]),
            Look::On((-10, -20), &[0]),
            Look::Turtle(0, 0, (-11, -25)),
            Look::Turtle(1, FOXES, (14, 15)),
            Look::Turtle(2, 0, HERE),
            Look::Turtles(&[0, 1, 2]),
        ],
    ),
    // One that comes later may have the lower serial.
    (
        &[
            Step::Shift(2, (20, 0)),
            Step::Shift(1, (20, 4)),
            Step::Shift(0, (-30, -5)),
        ],
        &[
            Look::On((20, 0), &[0, 1, 2]),
            Look::On(HERE, &[]),
            Look::Turtle(0, 0, (20, -5)),
        ],
    ),
];

#[test]
fn a_turtle_that_moves_is_found_on_its_new_patch(rt: HostRuntime) {
    assert_scenes(&rt, rt.alloc(), MOVES);
}

// Of three foxes the first is the last that became one.
const LATE_FOX: &[Scene] = &[(
    &[
        Step::Bear(0, HERE, None, 0),
        Step::Bear(FOXES, HERE, None, 1),
        Step::Bear(OWLS, HERE, None, 2),
        Step::Rebreed(2, FOXES),
        Step::Rebreed(0, FOXES),
    ],
    &[
        Look::OfBreed(FOXES, &[0, 1, 2]),
        Look::OfBreed(0, &[]),
        Look::OfBreed(OWLS, &[]),
        Look::Turtles(&[0, 1, 2]),
        Look::On(HERE, &[0, 1, 2]),
    ],
)];

#[test]
fn a_breed_is_listed_by_serial(rt: HostRuntime) {
    assert_scenes(&rt, rt.alloc(), LATE_FOX);
}

const FIRST: Owner = Owner::Turtle(0);

const COPIES: &[Scene] = &[
    (
        &[
            Step::Bear(FOXES, HERE, None, 0),
            Step::Bear(0, (10, 0), None, 1),
            Step::Tie(WIRES, true, 0, 1, 0),
            Step::Tie(0, false, 1, 0, 1),
            Step::Set(FIRST, "den", 30, ZERO),
            Step::Set(Owner::Patch(3), "p", 20, ZERO),
            Step::Set(Owner::Observer, "g", 40, ZERO),
            Step::Set(Owner::Link(0), "v", 50, ZERO),
            Step::Copy,
            Step::Kill(1),
            Step::Bear(OWLS, (20, 0), None, 2),
            Step::Set(FIRST, "den", 80, Wanted::Number(30)),
            Step::Set(Owner::Patch(3), "p", 80, Wanted::Number(20)),
            Step::Set(Owner::Observer, "g", 80, Wanted::Number(40)),
        ],
        &[
            Look::Turtles(&[0, 2]),
            Look::Links(&[]),
            Look::Unbreeded(false, 0),
            Look::Holds(FIRST, "den", Wanted::Number(80)),
        ],
    ),
    (
        &[Step::Swap],
        &[
            Look::Turtles(&[0, 1]),
            Look::On((10, 0), &[1]),
            Look::Links(&[0, 1]),
            Look::Unbreeded(false, 1),
            Look::Link(0, WIRES, true, 0, 1),
            Look::Holds(FIRST, "den", Wanted::Number(30)),
            Look::Holds(Owner::Patch(3), "p", Wanted::Number(20)),
            Look::Holds(Owner::Observer, "g", Wanted::Number(40)),
            Look::Holds(Owner::Link(0), "v", Wanted::Number(50)),
        ],
    ),
    (
        &[
            Step::Bear(FOXES, HERE, None, 2),
            Step::Tie(ROPES, false, 0, 2, 2),
            Step::ClearTurtles,
            Step::Swap,
        ],
        &[
            Look::Turtles(&[0, 2]),
            Look::Turtle(2, OWLS, (20, 0)),
            Look::Links(&[]),
            Look::Base(0),
        ],
    ),
];

#[test]
fn a_copy_lives_apart(rt: HostRuntime) {
    assert_scenes(&rt, rt.alloc(), COPIES);
}

// One that comes to a patch later may have the lower serial, and so may one that comes to a breed.
const LATE_COMERS: &[Scene] = &[(
    &[
        Step::Bear(0, HERE, None, 0),
        Step::Bear(0, HERE, None, 1),
        Step::Bear(0, HERE, None, 2),
        Step::Bear(0, HERE, None, 3),
        Step::Bear(0, HERE, None, 4),
        Step::Rebreed(2, FOXES),
        Step::Shift(3, (10, 0)),
    ],
    &[
        Look::On(HERE, &[0, 1, 2, 4]),
        Look::On((10, 0), &[3]),
        Look::OfBreed(0, &[0, 1, 3, 4]),
        Look::OfBreed(FOXES, &[2]),
    ],
)];

#[test]
fn a_patch_has_those_that_stayed(rt: HostRuntime) {
    assert_scenes(&rt, rt.alloc(), LATE_COMERS);
}
