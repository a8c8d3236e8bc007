//! Stores with as many turtles as may live, with many links of one turtle, and with many patches.

use crate::making::{begun, copies, go_on};
use nl_agents::{Owner, Store};
use nl_grid::Shape;
use nl_plain::Plain;
use nl_store::Indexed;
use std::alloc::Global;
use std::process::Abort;
use trial_stores::Tried;
use trial_stores::asking::Listed;
use trial_stores::trial_model::{FOXES, OWLS, program};
use trial_stores::trials::{Look, Scene, Step, Wanted};

const MOST_TURTLES: u64 = 200_000;

const HERE: (i64, i64) = (0, 0);

// Whether so many foxes are born, one after the other.
fn bears<S: Store>(tried: &mut Tried<S>, alloc: Global, count: u64) -> bool {
    for serial in 0..count {
        if !tried.play(alloc, Step::Bear(FOXES, HERE, None, serial)) {
            return false;
        }
    }
    true
}

// Whether each of so many turtles is a fox.
fn finds<S: Store>(tried: &Tried<S>, alloc: Global, count: u64) -> bool {
    for serial in 0..count {
        if !tried.answers(alloc, Look::Turtle(serial, FOXES, HERE)) {
            return false;
        }
    }
    true
}

// Whether these many foxes at the origin are all that is listed.
fn lists_foxes<S: Store>(tried: &Tried<S>, alloc: Global, count: u64) -> bool {
    tried.counts_up(alloc, Listed::Turtles, count)
        && tried.counts_up(alloc, Listed::OfBreed(FOXES), count)
        && tried.counts_up(alloc, Listed::On(HERE), count)
}

// Whether so many links are made, each from the first turtle to the next one.
fn ties<S: Store>(tried: &mut Tried<S>, alloc: Global, count: u64) -> bool {
    for link in 0..count {
        if !tried.play(alloc, Step::Tie(0, false, 0, link + 1, link)) {
            return false;
        }
    }
    true
}

// Whether these many links of the first turtle are all that is listed.
fn lists_spokes<S: Store>(tried: &Tried<S>, alloc: Global, count: u64) -> bool {
    tried.counts_up(alloc, Listed::Links, count)
        && tried.counts_up(alloc, Listed::LinksOf(0), count)
        && tried.store.unbreeded_count(false) as u64 == count
}

// The last that may live is born; where one dies there is room for one, under a serial of its own.
const FULL: &[Scene] = &[
    (
        &[
            Step::Bear(OWLS, HERE, None, 199_999),
            Step::Full(0, HERE),
            Step::Full(FOXES, HERE),
        ],
        &[Look::OfBreed(OWLS, &[199_999]), Look::DeadTurtle(200_000)],
    ),
    (
        &[
            Step::Kill(77),
            Step::Bear(0, HERE, None, 200_000),
            Step::Full(0, HERE),
        ],
        &[
            Look::OfBreed(0, &[200_000]),
            Look::OfBreed(OWLS, &[199_999]),
            Look::DeadTurtle(77),
        ],
    ),
    (
        &[Step::ClearTurtles, Step::Bear(OWLS, HERE, None, 200_001)],
        &[Look::Turtles(&[200_001]), Look::Base(200_001)],
    ),
];

fn assert_filled<S: Store>(rt: &impl Abort, alloc: Global, tried: &mut Tried<S>) {
    assert!(rt; bears(tried, alloc, MOST_TURTLES - 1));
    assert!(rt; finds(tried, alloc, MOST_TURTLES - 1));
    go_on(rt, alloc, tried, FULL);
}

fn assert_full<S: Store>(rt: &impl Abort, alloc: Global) {
    let mut tried: Tried<S> = begun(rt, alloc, &[]);
    assert_filled(rt, alloc, &mut tried);
}

#[test]
fn two_hundred_thousand_turtles_may_live(rt: HostRuntime) {
    assert_full::<Plain>(&rt, rt.alloc());
    assert_full::<Indexed>(&rt, rt.alloc());
}

const CROWD: u64 = 10_000;

fn assert_listed<S: Store>(rt: &impl Abort, alloc: Global, tried: &mut Tried<S>) {
    assert!(rt; bears(tried, alloc, CROWD));
    assert!(rt; lists_foxes(tried, alloc, CROWD));
    assert!(rt; copies(tried, alloc));
    assert!(rt; lists_foxes(tried, alloc, CROWD));
}

fn assert_copied<S: Store>(rt: &impl Abort, alloc: Global) {
    let mut tried: Tried<S> = begun(rt, alloc, &[]);
    assert_listed(rt, alloc, &mut tried);
}

#[test]
fn a_crowd_is_listed_and_copied(rt: HostRuntime) {
    assert_copied::<Plain>(&rt, rt.alloc());
    assert_copied::<Indexed>(&rt, rt.alloc());
}

const SPOKES: u64 = 400;

const HUB_DIES: &[Scene] = &[(
    &[Step::Kill(0)],
    &[
        Look::Links(&[]),
        Look::Unbreeded(false, 0),
        Look::LinksOf(9, &[]),
    ],
)];

fn assert_spokes<S: Store>(rt: &impl Abort, alloc: Global, tried: &mut Tried<S>) {
    assert!(rt; bears(tried, alloc, SPOKES + 1));
    assert!(rt; ties(tried, alloc, SPOKES));
    assert!(rt; lists_spokes(tried, alloc, SPOKES));
    assert!(rt; copies(tried, alloc));
    assert!(rt; lists_spokes(tried, alloc, SPOKES));
    go_on(rt, alloc, tried, HUB_DIES);
}

fn assert_star<S: Store>(rt: &impl Abort, alloc: Global) {
    let mut tried: Tried<S> = begun(rt, alloc, &[]);
    assert_spokes(rt, alloc, &mut tried);
}

#[test]
fn many_links_have_one_turtle_as_an_end(rt: HostRuntime) {
    assert_star::<Plain>(&rt, rt.alloc());
    assert_star::<Indexed>(&rt, rt.alloc());
}

const ZERO: Wanted = Wanted::Number(0);

const FAR: &[Scene] = &[(
    &[
        Step::Bear(0, (1_000, -1_000), None, 0),
        Step::Set(Owner::Patch(40_400), "p", 10, ZERO),
        Step::Copy,
        Step::Swap,
        Step::ClearPatches,
    ],
    &[
        Look::On((1_000, -1_000), &[0]),
        Look::Holds(Owner::Patch(40_400), "p", ZERO),
        Look::Holds(Owner::Patch(0), "p", ZERO),
    ],
)];

// A store of 201 by 201 patches. None at want of memory.
fn wide<S: Store>(alloc: Global) -> Option<Tried<S>> {
    let shape = Shape::new(-100, 100, -100, 100, true, true)?;
    Tried::<S>::of(alloc, program(alloc)?, shape)
}

fn assert_wide<S: Store>(rt: &impl Abort, alloc: Global) {
    let Some(mut tried) = wide::<S>(alloc) else {
        panic!(rt);
    };
    go_on(rt, alloc, &mut tried, FAR);
}

#[test]
fn a_wide_world_has_all_of_its_patches(rt: HostRuntime) {
    assert_wide::<Plain>(&rt, rt.alloc());
    assert_wide::<Indexed>(&rt, rt.alloc());
}
