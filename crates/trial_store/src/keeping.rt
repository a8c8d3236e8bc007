//! What the agents of stores keep: first values, changes of breed, hatched turtles, and what isn't owned. Each table runs over every
//! store that there is.

use crate::stores::assert_scenes;
use nl_agents::Owner;
use trial_stores::trial_model::{FOXES, OWLS, WIRES};
use trial_stores::trials::{Look, Scene, Step, Wanted};

const HERE: (i64, i64) = (0, 0);

const ZERO: Wanted = Wanted::Number(0);

const FIRST: Owner = Owner::Turtle(0);

const BREED_CHANGES: &[Scene] = &[
    (
        &[
            Step::Bear(FOXES, HERE, None, 0),
            Step::Set(FIRST, "den", 30, ZERO),
            Step::Set(FIRST, "shared", 40, ZERO),
            Step::Set(FIRST, "age", 50, ZERO),
            Step::Set(FIRST, "color", 150, ZERO),
            Step::Set(FIRST, "heading", 900, ZERO),
            Step::SetNothing(FIRST, "nest", 10),
            Step::Rebreed(0, OWLS),
        ],
        &[
            Look::OfBreed(FOXES, &[]),
            Look::OfBreed(OWLS, &[0]),
            Look::Turtle(0, OWLS, HERE),
            Look::Holds(FIRST, "shared", Wanted::Number(40)),
            Look::Holds(FIRST, "nest", ZERO),
            Look::Holds(FIRST, "den", Wanted::Nothing),
            Look::Holds(FIRST, "age", Wanted::Number(50)),
            Look::Holds(FIRST, "color", Wanted::Number(150)),
            Look::Holds(FIRST, "heading", Wanted::Number(900)),
            Look::Holds(FIRST, "size", Wanted::Number(10)),
        ],
    ),
    // Back, and what was gone begins at 0.
    (
        &[Step::Set(FIRST, "nest", 60, ZERO), Step::Rebreed(0, FOXES)],
        &[
            Look::OfBreed(FOXES, &[0]),
            Look::Holds(FIRST, "shared", Wanted::Number(40)),
            Look::Holds(FIRST, "den", ZERO),
            Look::Holds(FIRST, "nest", Wanted::Nothing),
            Look::Holds(FIRST, "age", Wanted::Number(50)),
        ],
    ),
    (
        &[Step::Rebreed(0, 0)],
        &[
            Look::OfBreed(0, &[0]),
            Look::Holds(FIRST, "shared", Wanted::Nothing),
            Look::Holds(FIRST, "den", Wanted::Nothing),
            Look::Holds(FIRST, "color", Wanted::Number(150)),
        ],
    ),
    (
        &[
            Step::Rebreed(0, OWLS),
            Step::Set(FIRST, "nest", 70, ZERO),
            Step::Rebreed(0, OWLS),
        ],
        &[
            Look::Holds(FIRST, "shared", ZERO),
            Look::Holds(FIRST, "nest", Wanted::Number(70)),
        ],
    ),
];

#[test]
fn a_change_of_breed_keeps_what_both_breeds_own(rt: HostRuntime) {
    assert_scenes(&rt, rt.alloc(), BREED_CHANGES);
}

const HATCHED: &[Scene] = &[
    (
        &[
            Step::Bear(FOXES, (10, 10), None, 0),
            Step::Set(FIRST, "den", 30, ZERO),
            Step::Set(FIRST, "shared", 40, ZERO),
            Step::Set(FIRST, "age", 50, ZERO),
            Step::Set(FIRST, "color", 150, ZERO),
            Step::Set(FIRST, "heading", 900, ZERO),
            Step::Bear(FOXES, (10, 10), Some(0), 1),
            Step::Bear(OWLS, HERE, Some(0), 2),
            Step::Bear(0, HERE, Some(1), 3),
        ],
        &[
            Look::Turtle(1, FOXES, (10, 10)),
            Look::Holds(Owner::Turtle(1), "den", Wanted::Number(30)),
            Look::Holds(Owner::Turtle(1), "shared", Wanted::Number(40)),
            Look::Holds(Owner::Turtle(1), "age", Wanted::Number(50)),
            Look::Holds(Owner::Turtle(1), "color", Wanted::Number(150)),
            Look::Holds(Owner::Turtle(1), "heading", Wanted::Number(900)),
            Look::Holds(Owner::Turtle(1), "shape", Wanted::Words("default")),
            Look::Turtle(2, OWLS, HERE),
            Look::Holds(Owner::Turtle(2), "den", Wanted::Nothing),
            Look::Holds(Owner::Turtle(2), "shared", Wanted::Number(40)),
            Look::Holds(Owner::Turtle(2), "nest", ZERO),
            Look::Holds(Owner::Turtle(2), "heading", Wanted::Number(900)),
            Look::Turtle(3, 0, HERE),
            Look::Holds(Owner::Turtle(3), "shared", Wanted::Nothing),
            Look::Holds(Owner::Turtle(3), "age", Wanted::Number(50)),
        ],
    ),
    (
        &[Step::Set(Owner::Turtle(1), "age", 60, Wanted::Number(50))],
        &[
            Look::Holds(FIRST, "age", Wanted::Number(50)),
            Look::Holds(Owner::Turtle(3), "age", Wanted::Number(50)),
        ],
    ),
];

#[test]
fn hatched_turtles_have_what_their_parent_has(rt: HostRuntime) {
    assert_scenes(&rt, rt.alloc(), HATCHED);
}

const UNOWNED: &[Scene] = &[(
    &[
        Step::Bear(0, HERE, None, 0),
        Step::Bear(0, HERE, None, 1),
        Step::Tie(0, false, 0, 1, 0),
        Step::SetNothing(FIRST, "den", 10),
        Step::SetNothing(FIRST, "p", 20),
        Step::SetNothing(FIRST, "thickness", 30),
        Step::SetNothing(Owner::Patch(0), "color", 40),
        Step::SetNothing(Owner::Patch(24), "age", 50),
        Step::SetNothing(Owner::Link(0), "v", 60),
        Step::SetNothing(Owner::Link(0), "heading", 70),
        Step::SetNothing(Owner::Observer, "age", 80),
    ],
    &[
        Look::Holds(FIRST, "den", Wanted::Nothing),
        Look::Holds(FIRST, "p", Wanted::Nothing),
        Look::Holds(FIRST, "age", ZERO),
        Look::Holds(Owner::Patch(0), "color", Wanted::Nothing),
        Look::Holds(Owner::Patch(0), "pcolor", ZERO),
        Look::Holds(Owner::Patch(24), "p", ZERO),
        Look::Holds(Owner::Link(0), "v", Wanted::Nothing),
        Look::Holds(Owner::Link(0), "w", ZERO),
        Look::Holds(Owner::Observer, "age", Wanted::Nothing),
        Look::Holds(Owner::Observer, "h", ZERO),
    ],
)];

#[test]
fn what_is_not_owned_is_not_set(rt: HostRuntime) {
    assert_scenes(&rt, rt.alloc(), UNOWNED);
}

const NINE_POINT_NINE: Wanted = Wanted::Number(99);

const ONE: Wanted = Wanted::Number(10);

const EMPTY: Wanted = Wanted::Words("");

const FIRST_VALUES: &[Scene] = &[(
    &[
        Step::Bear(0, HERE, None, 0),
        Step::Bear(FOXES, HERE, None, 1),
        Step::Tie(0, false, 0, 1, 0),
        Step::Tie(WIRES, true, 0, 1, 1),
    ],
    &[
        Look::Holds(FIRST, "color", ZERO),
        Look::Holds(FIRST, "heading", ZERO),
        Look::Holds(FIRST, "shape", Wanted::Words("default")),
        Look::Holds(FIRST, "label", EMPTY),
        Look::Holds(FIRST, "label-color", NINE_POINT_NINE),
        Look::Holds(FIRST, "hidden?", Wanted::Truth(false)),
        Look::Holds(FIRST, "size", ONE),
        Look::Holds(FIRST, "pen-size", ONE),
        Look::Holds(FIRST, "pen-mode", Wanted::Words("up")),
        Look::Holds(FIRST, "age", ZERO),
        Look::Holds(Owner::Turtle(1), "size", ONE),
        Look::Holds(Owner::Turtle(1), "den", ZERO),
        Look::Holds(Owner::Turtle(1), "shared", ZERO),
        Look::Holds(Owner::Patch(12), "pcolor", ZERO),
        Look::Holds(Owner::Patch(12), "plabel", EMPTY),
        Look::Holds(Owner::Patch(12), "plabel-color", NINE_POINT_NINE),
        Look::Holds(Owner::Patch(12), "p", ZERO),
        Look::Holds(Owner::Link(0), "color", Wanted::Number(50)),
        Look::Holds(Owner::Link(0), "label", EMPTY),
        Look::Holds(Owner::Link(0), "label-color", NINE_POINT_NINE),
        Look::Holds(Owner::Link(0), "hidden?", Wanted::Truth(false)),
        Look::Holds(Owner::Link(0), "thickness", ZERO),
        Look::Holds(Owner::Link(0), "shape", Wanted::Words("default")),
        Look::Holds(Owner::Link(0), "tie-mode", Wanted::Words("none")),
        Look::Holds(Owner::Link(0), "w", ZERO),
        Look::Holds(Owner::Link(1), "color", Wanted::Number(50)),
        Look::Holds(Owner::Link(1), "w", ZERO),
        Look::Holds(Owner::Link(1), "v", ZERO),
        Look::Holds(Owner::Observer, "g", ZERO),
        Look::Holds(Owner::Observer, "h", ZERO),
        Look::Holds(Owner::Observer, "speed", ZERO),
    ],
)];

#[test]
fn variables_have_their_first_values(rt: HostRuntime) {
    assert_scenes(&rt, rt.alloc(), FIRST_VALUES);
}
