//! Queries of very many agents: that they have memory far past the usual.

use crate::asking::{ONE, Row, Told, tells};
use crate::giving::Given;
use nl_agents::{Owner, Store};
use nl_plain::Plain;
use nl_store::Indexed;
use nl_words::codes;
use std::alloc::Global;
use std::process::Abort;
use trial_stores::Tried;
use trial_stores::naming::Named;
use trial_stores::trial_model::{FOXES, program};
use trial_stores::trials::Step;

const CROWD: u64 = 100_000;

const SPOKES: u64 = 5_000;

// Whether so many foxes are born at the origin.
fn bears<S: Store>(alloc: Global, tried: &mut Tried<S>, count: u64) -> bool {
    for serial in 0..count {
        if !tried.play(alloc, Step::Bear(FOXES, (0, 0), None, serial)) {
            return false;
        }
    }
    true
}

// Whether so many links are made, each from the first turtle to the next one.
fn ties<S: Store>(alloc: Global, tried: &mut Tried<S>, count: u64) -> bool {
    for link in 0..count {
        if !tried.play(alloc, Step::Tie(0, false, 0, link + 1, link)) {
            return false;
        }
    }
    true
}

const ALL: Given = Given::Agent(Named::Turtles);

const ROWS: &[Row] = &[
    (codes::COUNT, None, &[ALL], Told::Number(100_000 * ONE)),
    (codes::OTHER, None, &[ALL], Told::Many(99_999)),
    (codes::TURTLES_HERE, None, &[], Told::Many(100_000)),
    (codes::TURTLES_HERE, Some(FOXES), &[], Told::Many(100_000)),
    (codes::TURTLES_ON, None, &[ALL], Told::Many(100_000)),
    (codes::TURTLE_SET, None, &[ALL, ALL], Told::Many(100_000)),
    (
        codes::IN_RADIUS,
        None,
        &[ALL, Given::Number(2 * ONE)],
        Told::Many(100_000),
    ),
    (
        codes::IN_CONE,
        None,
        &[ALL, Given::Number(2 * ONE), Given::Number(0)],
        Told::Many(100_000),
    ),
    (
        codes::AT_POINTS,
        None,
        &[ALL, Given::Offsets(&[(0, 0), (ONE, ONE)])],
        Told::Many(100_000),
    ),
    (codes::MY_LINKS, None, &[], Told::Many(5_000)),
    (codes::LINK_NEIGHBORS, None, &[], Told::Many(5_000)),
    (
        codes::LINK_SET,
        None,
        &[Given::Agent(Named::Links)],
        Told::Many(5_000),
    ),
    (
        codes::LINK_WITH,
        None,
        &[Given::Agent(Named::Turtle(5_000))],
        Told::Link(4_999),
    ),
    (
        codes::N_OF,
        None,
        &[Given::Number(70_000 * ONE), ALL],
        Told::Many(70_000),
    ),
    (
        codes::UP_TO_N_OF,
        None,
        &[Given::Number(900_000 * ONE), ALL],
        Told::Many(100_000),
    ),
    (
        codes::N_OF,
        None,
        &[Given::Number(90_000 * ONE), Given::Filled(7, 200_000)],
        Told::Many(90_000),
    ),
    (
        codes::ONE_OF,
        None,
        &[Given::Filled(7, 200_000)],
        Told::Number(7),
    ),
];

fn assert_crowded<S: Store>(rt: &impl Abort, alloc: Global) {
    let Some(model) = program(alloc) else {
        panic!(rt);
    };
    let Some(mut tried) = Tried::<S>::new(alloc, model) else {
        panic!(rt);
    };
    assert!(rt; bears(alloc, &mut tried, CROWD));
    assert!(rt; ties(alloc, &mut tried, SPOKES));
    for row in ROWS {
        assert!(rt; tells(alloc, &tried, Owner::Turtle(0), *row), "{row:?}");
    }
}

#[test]
fn queries_of_very_many_agents_have_memory(rt: HostRuntime) {
    assert_crowded::<Plain>(&rt, rt.alloc());
    assert_crowded::<Indexed>(&rt, rt.alloc());
}
