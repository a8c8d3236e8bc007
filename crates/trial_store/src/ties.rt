//! Links and clears of stores. Each table runs over every store that there is.

use crate::stores::assert_scenes;
use nl_agents::Owner;
use trial_stores::trial_model::{FOXES, OWLS, ROPES, WIRES};
use trial_stores::trials::{Look, Scene, Step, Wanted};

const HERE: (i64, i64) = (0, 0);

const ZERO: Wanted = Wanted::Number(0);

const TIES: &[Scene] = &[
    (
        &[
            Step::Bear(0, HERE, None, 0),
            Step::Bear(FOXES, HERE, None, 1),
            Step::Bear(0, HERE, None, 2),
            Step::Tie(0, false, 0, 1, 0),
            Step::Tie(WIRES, true, 0, 1, 1),
            Step::Tie(WIRES, true, 1, 0, 2),
            Step::Tie(ROPES, false, 1, 2, 3),
            Step::Tie(0, true, 1, 2, 4),
            Step::Tie(0, true, 2, 1, 5),
            Step::Set(Owner::Link(1), "v", 70, ZERO),
        ],
        &[
            Look::Links(&[0, 1, 2, 3, 4, 5]),
            Look::Unbreeded(false, 1),
            Look::Unbreeded(true, 2),
            Look::LinksOf(0, &[0, 1, 2]),
            Look::LinksOf(1, &[0, 1, 2, 3, 4, 5]),
            Look::LinksOf(2, &[3, 4, 5]),
            Look::Link(0, 0, false, 0, 1),
            Look::Link(1, WIRES, true, 0, 1),
            Look::Link(2, WIRES, true, 1, 0),
            Look::Link(3, ROPES, false, 1, 2),
            Look::Link(4, 0, true, 1, 2),
            Look::Link(5, 0, true, 2, 1),
            Look::Holds(Owner::Link(1), "v", Wanted::Number(70)),
            Look::Holds(Owner::Link(2), "v", ZERO),
            Look::Holds(Owner::Link(3), "v", Wanted::Nothing),
            Look::DeadLink(6),
        ],
    ),
    // A link that was cut may be made again, as a new one.
    (
        &[Step::Cut(1), Step::Cut(4), Step::Tie(WIRES, true, 0, 1, 6)],
        &[
            Look::Links(&[0, 2, 3, 5, 6]),
            Look::Unbreeded(false, 1),
            Look::Unbreeded(true, 1),
            Look::LinksOf(0, &[0, 2, 6]),
            Look::LinksOf(2, &[3, 5]),
            Look::DeadLink(1),
            Look::DeadLink(4),
            Look::Holds(Owner::Link(6), "v", ZERO),
            Look::Turtles(&[0, 1, 2]),
        ],
    ),
];

#[test]
fn links_join_turtles_in_all_ways(rt: HostRuntime) {
    assert_scenes(&rt, rt.alloc(), TIES);
}

const STAR: &[Scene] = &[
    (
        &[
            Step::Bear(0, HERE, None, 0),
            Step::Bear(OWLS, HERE, None, 1),
            Step::Bear(FOXES, HERE, None, 2),
            Step::Bear(0, HERE, None, 3),
            Step::Bear(0, HERE, None, 4),
            Step::Tie(0, false, 0, 2, 0),
            Step::Tie(WIRES, true, 2, 1, 1),
            Step::Tie(WIRES, true, 3, 2, 2),
            Step::Tie(ROPES, false, 2, 4, 3),
            Step::Tie(0, false, 0, 4, 4),
            Step::Tie(WIRES, true, 1, 3, 5),
            Step::Kill(2),
        ],
        &[
            Look::Turtles(&[0, 1, 3, 4]),
            Look::Links(&[4, 5]),
            Look::Unbreeded(false, 1),
            Look::Unbreeded(true, 0),
            Look::LinksOf(0, &[4]),
            Look::LinksOf(1, &[5]),
            Look::LinksOf(3, &[5]),
            Look::LinksOf(4, &[4]),
            Look::DeadLink(0),
            Look::DeadLink(1),
            Look::DeadLink(2),
            Look::DeadLink(3),
        ],
    ),
    (
        &[Step::Tie(ROPES, false, 0, 1, 6)],
        &[Look::Links(&[4, 5, 6]), Look::LinksOf(1, &[5, 6])],
    ),
];

#[test]
fn the_links_of_a_dead_turtle_die(rt: HostRuntime) {
    assert_scenes(&rt, rt.alloc(), STAR);
}

const TURTLES_CLEARED: &[Scene] = &[
    (
        &[
            Step::Bear(FOXES, HERE, None, 0),
            Step::Bear(0, HERE, None, 1),
            Step::Tie(0, false, 0, 1, 0),
            Step::Set(Owner::Patch(23), "p", 10, ZERO),
            Step::Set(Owner::Observer, "g", 20, ZERO),
            Step::ClearTurtles,
        ],
        &[
            Look::Turtles(&[]),
            Look::OfBreed(FOXES, &[]),
            Look::On(HERE, &[]),
            Look::Links(&[]),
            Look::Unbreeded(false, 0),
            Look::DeadTurtle(0),
            Look::DeadTurtle(1),
            Look::DeadLink(0),
            Look::Base(2),
            Look::Holds(Owner::Patch(23), "p", Wanted::Number(10)),
            Look::Holds(Owner::Observer, "g", Wanted::Number(20)),
        ],
    ),
    (
        &[
            Step::Bear(FOXES, HERE, None, 2),
            Step::Bear(0, (10, 0), None, 3),
            Step::Tie(0, false, 2, 3, 1),
        ],
        &[
            Look::Turtles(&[2, 3]),
            Look::OfBreed(FOXES, &[2]),
            Look::Links(&[1]),
            Look::Unbreeded(false, 1),
            Look::LinksOf(3, &[1]),
            Look::Base(2),
        ],
    ),
    (
        &[Step::Kill(3), Step::ClearTurtles, Step::ClearTurtles],
        &[Look::Turtles(&[]), Look::Base(4)],
    ),
    (
        &[Step::Bear(0, HERE, None, 4)],
        &[Look::Turtles(&[4]), Look::Base(4), Look::LinksOf(4, &[])],
    ),
];

#[test]
fn a_clear_of_turtles_takes_links_and_moves_the_base(rt: HostRuntime) {
    assert_scenes(&rt, rt.alloc(), TURTLES_CLEARED);
}

const LINKS_CLEARED: &[Scene] = &[
    (
        &[
            Step::Bear(0, HERE, None, 0),
            Step::Bear(0, HERE, None, 1),
            Step::Tie(ROPES, false, 0, 1, 0),
            Step::Tie(WIRES, true, 1, 0, 1),
            Step::Tie(0, true, 1, 0, 2),
            Step::ClearLinks,
        ],
        &[
            Look::Links(&[]),
            Look::Unbreeded(true, 0),
            Look::LinksOf(0, &[]),
            Look::DeadLink(0),
            Look::DeadLink(1),
            Look::Turtles(&[0, 1]),
            Look::Base(0),
        ],
    ),
    (
        &[Step::Tie(ROPES, false, 0, 1, 3)],
        &[Look::Links(&[3]), Look::Link(3, ROPES, false, 0, 1)],
    ),
];

#[test]
fn a_clear_of_links_leaves_turtles(rt: HostRuntime) {
    assert_scenes(&rt, rt.alloc(), LINKS_CLEARED);
}

const PATCHES_CLEARED: &[Scene] = &[(
    &[
        Step::Bear(0, HERE, None, 0),
        Step::Set(Owner::Turtle(0), "age", 30, ZERO),
        Step::Set(Owner::Observer, "g", 40, ZERO),
        Step::Set(Owner::Patch(23), "p", 10, ZERO),
        Step::Set(Owner::Patch(23), "pcolor", 550, ZERO),
        Step::Set(Owner::Patch(0), "plabel", 50, Wanted::Words("")),
        Step::Set(Owner::Patch(0), "plabel-color", 10, Wanted::Number(99)),
        Step::ClearPatches,
    ],
    &[
        Look::Holds(Owner::Patch(23), "p", ZERO),
        Look::Holds(Owner::Patch(23), "pcolor", ZERO),
        Look::Holds(Owner::Patch(0), "plabel", Wanted::Words("")),
        Look::Holds(Owner::Patch(0), "plabel-color", Wanted::Number(99)),
        Look::Holds(Owner::Turtle(0), "age", Wanted::Number(30)),
        Look::Holds(Owner::Observer, "g", Wanted::Number(40)),
        Look::Turtles(&[0]),
    ],
)];

#[test]
fn a_clear_of_patches_gives_first_values(rt: HostRuntime) {
    assert_scenes(&rt, rt.alloc(), PATCHES_CLEARED);
}

const GLOBALS_CLEARED: &[Scene] = &[(
    &[
        Step::Bear(0, HERE, None, 0),
        Step::Set(Owner::Turtle(0), "age", 30, ZERO),
        Step::Set(Owner::Patch(5), "p", 10, ZERO),
        Step::Set(Owner::Observer, "g", 20, ZERO),
        Step::Set(Owner::Observer, "h", 30, ZERO),
        Step::Set(Owner::Observer, "speed", 40, ZERO),
        Step::ClearGlobals,
    ],
    &[
        Look::Holds(Owner::Observer, "g", ZERO),
        Look::Holds(Owner::Observer, "h", ZERO),
        Look::Holds(Owner::Observer, "speed", Wanted::Number(40)),
        Look::Holds(Owner::Turtle(0), "age", Wanted::Number(30)),
        Look::Holds(Owner::Patch(5), "p", Wanted::Number(10)),
    ],
)];

#[test]
fn a_clear_of_globals_leaves_those_of_widgets(rt: HostRuntime) {
    assert_scenes(&rt, rt.alloc(), GLOBALS_CLEARED);
}
