//! Agents by where they stand, patches by their way from the caller, distances and directions.

use crate::asking::{CALLER, ONE, Row, Told, assert_rows};
use crate::giving::Given;
use nl_agents::Owner;
use nl_agentset_query::fail::QueryFail::{
    Domain, NoAgent, OutOfWorld, Overflow, SamePoint, WrongType,
};
use nl_words::codes;
use trial_stores::naming::Named;
use trial_stores::trial_model::FOXES;

const ALL: Given = Given::Agent(Named::Turtles);

const NOBODY: Given = Given::Agent(Named::Nobody);

const DEAD: Given = Given::Agent(Named::Turtle(4));

const FAR: i64 = 9_000_000_000_000_000_000;

const PLACES: &[Row] = &[
    (codes::TURTLES_HERE, None, &[], Told::Turtles(&[2])),
    (codes::TURTLES_HERE, Some(FOXES), &[], Told::Turtles(&[])),
    (
        codes::TURTLES_ON,
        Some(FOXES),
        &[Given::Agent(Named::Turtle(5))],
        Told::Turtles(&[5]),
    ),
    (codes::TURTLES_ON, None, &[ALL], Told::Turtles(&[2, 3, 5])),
    (
        codes::TURTLES_ON,
        None,
        &[Given::Agent(Named::SomePatches(10, 14))],
        Told::Turtles(&[2, 3]),
    ),
    (codes::TURTLES_ON, None, &[NOBODY], Told::Fail(NoAgent)),
    (codes::TURTLES_ON, None, &[DEAD], Told::Fail(NoAgent)),
    (
        codes::TURTLES_ON,
        None,
        &[Given::Agent(Named::Links)],
        Told::Fail(WrongType),
    ),
    (
        codes::TURTLES_ON,
        None,
        &[Given::Agent(Named::Link(0))],
        Told::Fail(WrongType),
    ),
    (
        codes::TURTLES_ON,
        None,
        &[Given::Numbers(&[0])],
        Told::Fail(WrongType),
    ),
    (
        codes::TURTLES_AT,
        None,
        &[Given::Number(ONE), Given::Number(0)],
        Told::Turtles(&[3]),
    ),
    (
        codes::TURTLES_AT,
        None,
        &[Given::Number(0), Given::Number(9 * ONE)],
        Told::Turtles(&[]),
    ),
    (
        codes::TURTLES_AT,
        None,
        &[Given::Number(FAR), Given::Number(0)],
        Told::Fail(Overflow),
    ),
    (
        codes::AT_POINTS,
        None,
        &[ALL, Given::Offsets(&[(0, 0), (0, 9_000_000)])],
        Told::Turtles(&[2]),
    ),
    (
        codes::AT_POINTS,
        None,
        &[
            Given::Agent(Named::Patches),
            Given::Offsets(&[(ONE, 0), (0, 0), (ONE, 0)]),
        ],
        Told::Patches(&[10, 14]),
    ),
    (
        codes::AT_POINTS,
        None,
        &[ALL, Given::Offsets(&[(FAR, 0)])],
        Told::Fail(Overflow),
    ),
    (
        codes::AT_POINTS,
        None,
        &[ALL, Given::Numbers(&[0])],
        Told::Fail(WrongType),
    ),
    (
        codes::AT_POINTS,
        None,
        &[Given::Agent(Named::Links), Given::Numbers(&[])],
        Told::Fail(WrongType),
    ),
    (
        codes::IN_RADIUS,
        None,
        &[ALL, Given::Number(ONE)],
        Told::Turtles(&[2, 3]),
    ),
    (
        codes::IN_RADIUS,
        None,
        &[ALL, Given::Number(999_999)],
        Told::Turtles(&[2]),
    ),
    (
        codes::IN_RADIUS,
        None,
        &[ALL, Given::Number(0)],
        Told::Turtles(&[2]),
    ),
    (
        codes::IN_RADIUS,
        None,
        &[ALL, Given::Number(FAR)],
        Told::Turtles(&[2, 3, 5]),
    ),
    (
        codes::IN_RADIUS,
        None,
        &[Given::Agent(Named::SomePatches(13, 20)), Given::Number(ONE)],
        Told::Patches(&[13]),
    ),
    (
        codes::IN_RADIUS,
        None,
        &[ALL, Given::Number(-1)],
        Told::Fail(Domain),
    ),
    (
        codes::IN_RADIUS,
        None,
        &[Given::Agent(Named::Links), Given::Number(-1)],
        Told::Fail(WrongType),
    ),
    (
        codes::IN_CONE,
        None,
        &[ALL, Given::Number(5 * ONE), Given::Number(0)],
        Told::Turtles(&[2, 3]),
    ),
    (
        codes::IN_CONE,
        None,
        &[ALL, Given::Number(5 * ONE), Given::Number(200 * ONE)],
        Told::Turtles(&[2, 3]),
    ),
    (
        codes::IN_CONE,
        None,
        &[ALL, Given::Number(5 * ONE), Given::Number(-1)],
        Told::Fail(Domain),
    ),
    (
        codes::NEIGHBORS4,
        None,
        &[],
        Told::Patches(&[9, 10, 13, 19]),
    ),
    (
        codes::NEIGHBORS,
        None,
        &[],
        Told::Patches(&[5, 8, 9, 10, 13, 15, 18, 19]),
    ),
    (codes::PATCH_HERE, None, &[], Told::Patch(14)),
    (
        codes::PATCH_AT,
        None,
        &[Given::Number(0), Given::Number(3 * ONE)],
        Told::Nobody,
    ),
    (
        codes::PATCH_AT,
        None,
        &[Given::Number(FAR), Given::Number(0)],
        Told::Fail(Overflow),
    ),
    (
        codes::PATCH_AHEAD,
        None,
        &[Given::Number(ONE)],
        Told::Patch(10),
    ),
    (
        codes::PATCH_LEFT_AND_AHEAD,
        None,
        &[Given::Number(90 * ONE), Given::Number(ONE)],
        Told::Patch(9),
    ),
    (
        codes::PATCH_RIGHT_AND_AHEAD,
        None,
        &[Given::Number(90 * ONE), Given::Number(ONE)],
        Told::Patch(19),
    ),
    (
        codes::PATCH_RIGHT_AND_AHEAD,
        None,
        &[Given::Number(FAR), Given::Number(ONE)],
        Told::Fail(Overflow),
    ),
    (
        codes::PATCH_AT_HEADING_AND_DISTANCE,
        None,
        &[Given::Number(0), Given::Number(2 * ONE)],
        Told::Patch(4),
    ),
    (
        codes::PATCH_AT_HEADING_AND_DISTANCE,
        None,
        &[Given::Number(0), Given::Number(3 * ONE)],
        Told::Nobody,
    ),
];

#[test]
fn agents_are_found_by_where_they_stand(rt: HostRuntime) {
    assert_rows(&rt, rt.alloc(), CALLER, PLACES);
}

const MEASURES: &[Row] = &[
    (
        codes::CAN_MOVE,
        None,
        &[Given::Number(9 * ONE)],
        Told::Truth(true),
    ),
    (codes::DX, None, &[], Told::Number(ONE)),
    (codes::DY, None, &[], Told::Number(0)),
    (
        codes::DISTANCE,
        None,
        &[Given::Agent(Named::Turtle(3))],
        Told::Number(ONE),
    ),
    (
        codes::DISTANCE,
        None,
        &[Given::Agent(Named::Patch(14))],
        Told::Number(0),
    ),
    (
        codes::DISTANCE,
        None,
        &[Given::Agent(Named::Link(0))],
        Told::Fail(WrongType),
    ),
    (codes::DISTANCE, None, &[NOBODY], Told::Fail(NoAgent)),
    (codes::DISTANCE, None, &[DEAD], Told::Fail(NoAgent)),
    (
        codes::TOWARDS,
        None,
        &[Given::Agent(Named::Turtle(3))],
        Told::Number(90 * ONE),
    ),
    (
        codes::TOWARDS,
        None,
        &[Given::Agent(Named::Turtle(2))],
        Told::Fail(SamePoint),
    ),
    (
        codes::DISTANCEXY,
        None,
        &[Given::Number(8 * ONE), Given::Number(ONE)],
        Told::Number(1_414_213),
    ),
    (
        codes::DISTANCEXY,
        None,
        &[Given::Number(0), Given::Number(3 * ONE)],
        Told::Fail(OutOfWorld),
    ),
    (
        codes::TOWARDSXY,
        None,
        &[Given::Number(7 * ONE), Given::Number(0)],
        Told::Fail(SamePoint),
    ),
    (
        codes::TOWARDSXY,
        None,
        &[Given::Number(2 * ONE), Given::Number(-ONE)],
        Told::Number(180 * ONE),
    ),
];

#[test]
fn distances_and_directions_go_around_the_world(rt: HostRuntime) {
    assert_rows(&rt, rt.alloc(), CALLER, MEASURES);
}

// It faces up, where the world ends at 2.5.
const UPWARDS: &[Row] = &[
    (
        codes::CAN_MOVE,
        None,
        &[Given::Number(2 * ONE)],
        Told::Truth(true),
    ),
    (
        codes::CAN_MOVE,
        None,
        &[Given::Number(3 * ONE)],
        Told::Truth(false),
    ),
    (codes::CAN_MOVE, None, &[NOBODY], Told::Fail(WrongType)),
    (
        codes::PATCH_AHEAD,
        None,
        &[Given::Number(2 * ONE)],
        Told::Patch(0),
    ),
    (
        codes::PATCH_AHEAD,
        None,
        &[Given::Number(3 * ONE)],
        Told::Nobody,
    ),
    (codes::DX, None, &[], Told::Number(0)),
    (codes::DY, None, &[], Told::Number(ONE)),
    (codes::TURTLES_HERE, Some(FOXES), &[], Told::Turtles(&[3])),
    (
        codes::TOWARDS,
        None,
        &[Given::Agent(Named::Turtle(2))],
        Told::Number(270 * ONE),
    ),
];

#[test]
fn a_turtle_reaches_no_patch_above_the_world(rt: HostRuntime) {
    assert_rows(&rt, rt.alloc(), Owner::Turtle(3), UPWARDS);
}

const OF_A_PATCH: &[Row] = &[
    (codes::TURTLES_HERE, None, &[], Told::Turtles(&[2])),
    (
        codes::TURTLES_AT,
        Some(FOXES),
        &[Given::Number(ONE), Given::Number(0)],
        Told::Turtles(&[3]),
    ),
    (
        codes::OTHER,
        None,
        &[Given::Agent(Named::SomePatches(13, 14))],
        Told::Patches(&[13]),
    ),
    (codes::OTHER, None, &[ALL], Told::Turtles(&[2, 3, 5])),
    (
        codes::IN_RADIUS,
        None,
        &[ALL, Given::Number(ONE)],
        Told::Turtles(&[2, 3]),
    ),
    (
        codes::DISTANCE,
        None,
        &[Given::Agent(Named::Turtle(2))],
        Told::Number(0),
    ),
    (
        codes::NEIGHBORS4,
        None,
        &[],
        Told::Patches(&[9, 10, 13, 19]),
    ),
];

#[test]
fn a_patch_stands_at_its_center(rt: HostRuntime) {
    assert_rows(&rt, rt.alloc(), Owner::Patch(14), OF_A_PATCH);
}
