//! Births over stores, by the calls of `nl_birth`. Each table runs over every store that there is.
//!
//! Numbers and coordinates are in tenths.

use crate::making::{Act, Answer, Call, NONE, acted, assert_acts};
use nl_agents::{Owner, Store};
use nl_plain::Plain;
use nl_store::Indexed;
use nl_value::Value;
use std::alloc::Global;
use std::process::Abort;
use trial_stores::Tried;
use trial_stores::trial_model::{FOXES, OWLS};
use trial_stores::trials::{Look, Place, Step, Wanted};

const HERE: Place = (0, 0);

const ZERO: Wanted = Wanted::Number(0);

const FIRST: Owner = Owner::Turtle(0);

// A number is cut toward 0. Ordered turtles draw nothing, and those after them draw on.
const CREATED: &[Act] = &[
    (Call::Create(0, 0, false), NONE, &[]),
    (Call::Create(0, 0, true), NONE, &[]),
    (Call::Create(0, -10, false), NONE, &[]),
    (Call::Create(0, -10, true), NONE, &[]),
    (Call::Create(0, 9, false), NONE, &[]),
    (Call::Create(0, 9, true), NONE, &[Look::Turtles(&[])]),
    (
        Call::Create(0, 29, false),
        Answer::Made(&[0, 1]),
        &[
            Look::Turtles(&[0, 1]),
            Look::Turtle(0, 0, HERE),
            Look::Turtle(1, 0, HERE),
            Look::Holds(FIRST, "color", Wanted::Number(1350)),
            Look::Holds(FIRST, "heading", Wanted::Number(3390)),
            Look::Holds(Owner::Turtle(1), "color", Wanted::Number(50)),
            Look::Holds(Owner::Turtle(1), "heading", Wanted::Number(1250)),
        ],
    ),
    (
        Call::Create(FOXES, 29, true),
        Answer::Made(&[2, 3]),
        &[
            Look::OfBreed(FOXES, &[2, 3]),
            Look::OfBreed(0, &[0, 1]),
            Look::Turtle(3, FOXES, HERE),
            Look::Holds(Owner::Turtle(2), "color", Wanted::Number(50)),
            Look::Holds(Owner::Turtle(2), "heading", ZERO),
            Look::Holds(Owner::Turtle(3), "color", Wanted::Number(150)),
            Look::Holds(Owner::Turtle(3), "heading", Wanted::Number(1800)),
        ],
    ),
    (
        Call::Create(OWLS, 10, false),
        Answer::Made(&[4]),
        &[
            Look::Turtle(4, OWLS, HERE),
            Look::Holds(Owner::Turtle(4), "color", Wanted::Number(50)),
            Look::Holds(Owner::Turtle(4), "heading", Wanted::Number(2650)),
        ],
    ),
];

#[test]
fn turtles_are_created_by_whole_numbers(rt: HostRuntime) {
    assert_acts(&rt, rt.alloc(), &[], CREATED);
}

const SEVEN: &[Act] = &[(
    Call::Create(0, 70, true),
    Answer::Made(&[0, 1, 2, 3, 4, 5, 6]),
    &[Look::Turtles(&[0, 1, 2, 3, 4, 5, 6])],
)];

// The color and the heading of each, in millionths: a seventh of a turn is 51.428571 and 3 sevenths of a millionth.
const SEVEN_LOOKS: &[(u64, i64, i64)] = &[
    (0, 5_000_000, 0),
    (1, 15_000_000, 51_428_571),
    (2, 25_000_000, 102_857_143),
    (3, 35_000_000, 154_285_714),
    (4, 45_000_000, 205_714_286),
    (5, 55_000_000, 257_142_857),
    (6, 65_000_000, 308_571_429),
];

// Whether the variable of a turtle is the number of so many millionths.
fn is_number<S: Store>(tried: &Tried<S>, turtle: u64, name: &str, millionths: i64) -> bool {
    if !tried.store.turtle_lives(turtle) {
        return false;
    }
    let Some(slot) = tried.slot(name) else {
        return false;
    };
    match tried.store.var(Owner::Turtle(turtle), slot) {
        Some(Value::Number(number)) => number.millionths() == millionths,
        _ => false,
    }
}

fn assert_looks<S: Store>(rt: &impl Abort, tried: &Tried<S>) {
    for (turtle, color, heading) in SEVEN_LOOKS {
        assert!(rt; is_number(tried, *turtle, "color", *color), "{turtle}");
        assert!(rt; is_number(tried, *turtle, "heading", *heading), "{turtle}");
    }
}

fn assert_seven<S: Store>(rt: &impl Abort, alloc: Global) {
    let tried: Tried<S> = acted(rt, alloc, &[], SEVEN);
    assert_looks(rt, &tried);
}

#[test]
fn seven_turtles_in_order_stand_around_a_turn(rt: HostRuntime) {
    assert_seven::<Plain>(&rt, rt.alloc());
    assert_seven::<Indexed>(&rt, rt.alloc());
}

const SPROUTED: &[Act] = &[
    (
        Call::Sprout((14, -15), FOXES, 20),
        Answer::Made(&[0, 1]),
        &[
            Look::Turtle(0, FOXES, (10, -10)),
            Look::Turtle(1, FOXES, (10, -10)),
            Look::On((10, -10), &[0, 1]),
            Look::Holds(FIRST, "color", Wanted::Number(1350)),
            Look::Holds(FIRST, "heading", Wanted::Number(3390)),
            Look::Holds(Owner::Turtle(1), "color", Wanted::Number(50)),
            Look::Holds(Owner::Turtle(1), "heading", Wanted::Number(1250)),
        ],
    ),
    (
        Call::Sprout((25, 24), 0, 19),
        Answer::Made(&[2]),
        &[
            Look::Turtle(2, 0, (-20, 20)),
            Look::Holds(Owner::Turtle(2), "color", Wanted::Number(50)),
            Look::Holds(Owner::Turtle(2), "heading", Wanted::Number(2650)),
        ],
    ),
    (
        Call::Sprout(HERE, OWLS, 9),
        NONE,
        &[Look::Turtles(&[0, 1, 2])],
    ),
];

#[test]
fn turtles_sprout_at_the_center_of_a_patch(rt: HostRuntime) {
    assert_acts(&rt, rt.alloc(), &[], SPROUTED);
}

const PARENT: &[Step] = &[
    Step::Bear(FOXES, (14, -15), None, 0),
    Step::Set(FIRST, "den", 30, ZERO),
    Step::Set(FIRST, "shared", 40, ZERO),
    Step::Set(FIRST, "age", 50, ZERO),
    Step::Set(FIRST, "color", 150, ZERO),
    Step::Set(FIRST, "heading", 900, ZERO),
];

const HATCHED: &[Act] = &[
    (
        Call::Hatch(0, OWLS, 29),
        Answer::Made(&[1, 2]),
        &[
            Look::Turtle(1, OWLS, (14, -15)),
            Look::Turtle(2, OWLS, (14, -15)),
            Look::Holds(Owner::Turtle(2), "nest", ZERO),
            Look::Holds(Owner::Turtle(2), "den", Wanted::Nothing),
            Look::Holds(Owner::Turtle(2), "shared", Wanted::Number(40)),
            Look::Holds(Owner::Turtle(2), "age", Wanted::Number(50)),
            Look::Holds(Owner::Turtle(2), "color", Wanted::Number(150)),
            Look::Holds(Owner::Turtle(2), "heading", Wanted::Number(900)),
            Look::Turtle(0, FOXES, (14, -15)),
            Look::Holds(FIRST, "den", Wanted::Number(30)),
        ],
    ),
    (
        Call::Hatch(0, FOXES, 10),
        Answer::Made(&[3]),
        &[
            Look::Turtle(3, FOXES, (14, -15)),
            Look::Holds(Owner::Turtle(3), "den", Wanted::Number(30)),
            Look::Holds(Owner::Turtle(3), "heading", Wanted::Number(900)),
        ],
    ),
    (
        Call::Hatch(0, FOXES, -10),
        NONE,
        &[Look::Turtles(&[0, 1, 2, 3])],
    ),
];

#[test]
fn turtles_hatch_where_their_parent_stands(rt: HostRuntime) {
    assert_acts(&rt, rt.alloc(), PARENT, HATCHED);
}
