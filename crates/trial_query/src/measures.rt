//! Distances, directions and neighbors, on a torus and in a box.

use crate::asking::{ONE, Told};
use crate::beside::{Beside, assert_beside};
use crate::giving::Given;
use nl_agents::Owner;
use nl_agentset_query::fail::QueryFail::{Domain, NoAgent, OutOfWorld, SamePoint, WrongType};
use nl_words::codes;
use trial_stores::naming::Named;

const ALL: Given = Given::Agent(Named::Turtles);

const PATCHES: Given = Given::Agent(Named::Patches);

const DEAD: Given = Given::Agent(Named::Turtle(4));

const NOBODY: Given = Given::Agent(Named::Nobody);

const FAR: i64 = 9_000_000_000_000_000_000;

const MEASURES: &[Beside] = &[
    (
        codes::DISTANCE,
        None,
        &[Given::Agent(Named::Turtle(2))],
        Told::Number(0),
        Told::Number(0),
    ),
    (
        codes::DISTANCE,
        None,
        &[Given::Agent(Named::Turtle(3))],
        Told::Number(1_414_213),
        Told::Number(5 * ONE),
    ),
    (
        codes::DISTANCE,
        None,
        &[Given::Agent(Named::Turtle(5))],
        Told::Number(2 * ONE),
        Told::Number(2 * ONE),
    ),
    (
        codes::DISTANCE,
        None,
        &[Given::Agent(Named::Turtle(6))],
        Told::Number(2_500_000),
        Told::Number(2_500_000),
    ),
    (
        codes::DISTANCE,
        None,
        &[Given::Agent(Named::Patch(0))],
        Told::Number(ONE),
        Told::Number(4 * ONE),
    ),
    (
        codes::DISTANCE,
        None,
        &[Given::Agent(Named::Patch(19))],
        Told::Number(ONE),
        Told::Number(3 * ONE),
    ),
    (
        codes::DISTANCE,
        None,
        &[DEAD],
        Told::Fail(NoAgent),
        Told::Fail(NoAgent),
    ),
    (
        codes::DISTANCE,
        None,
        &[NOBODY],
        Told::Fail(NoAgent),
        Told::Fail(NoAgent),
    ),
    (
        codes::DISTANCE,
        None,
        &[ALL],
        Told::Fail(WrongType),
        Told::Fail(WrongType),
    ),
    (
        codes::TOWARDS,
        None,
        &[Given::Agent(Named::Turtle(2))],
        Told::Fail(SamePoint),
        Told::Fail(SamePoint),
    ),
    (
        codes::TOWARDS,
        None,
        &[Given::Agent(Named::Turtle(3))],
        Told::Number(45 * ONE),
        Told::Number(233 * ONE),
    ),
    (
        codes::TOWARDS,
        None,
        &[Given::Agent(Named::Turtle(5))],
        Told::Number(0),
        Told::Number(180 * ONE),
    ),
    (
        codes::TOWARDS,
        None,
        &[Given::Agent(Named::Turtle(6))],
        Told::Number(90 * ONE),
        Told::Number(270 * ONE),
    ),
    (
        codes::TOWARDS,
        None,
        &[Given::Agent(Named::Patch(0))],
        Told::Number(90 * ONE),
        Told::Number(270 * ONE),
    ),
    (
        codes::TOWARDS,
        None,
        &[Given::Agent(Named::Patch(19))],
        Told::Number(0),
        Told::Number(180 * ONE),
    ),
    (
        codes::TOWARDS,
        None,
        &[Given::Agent(Named::Patch(4))],
        Told::Fail(SamePoint),
        Told::Fail(SamePoint),
    ),
    (
        codes::TOWARDS,
        None,
        &[DEAD],
        Told::Fail(NoAgent),
        Told::Fail(NoAgent),
    ),
    (
        codes::TOWARDS,
        None,
        &[NOBODY],
        Told::Fail(NoAgent),
        Told::Fail(NoAgent),
    ),
    (
        codes::TOWARDS,
        None,
        &[ALL],
        Told::Fail(WrongType),
        Told::Fail(WrongType),
    ),
    (
        codes::DISTANCEXY,
        None,
        &[Given::Number(3 * ONE), Given::Number(3 * ONE)],
        Told::Number(1_414_213),
        Told::Fail(OutOfWorld),
    ),
    (
        codes::DISTANCEXY,
        None,
        &[Given::Number(2_500_000), Given::Number(2 * ONE)],
        Told::Number(500_000),
        Told::Fail(OutOfWorld),
    ),
    (
        codes::DISTANCEXY,
        None,
        &[Given::Number(-2_500_000), Given::Number(-1_500_000)],
        Told::Number(707_106),
        Told::Number(5_700_877),
    ),
    (
        codes::DISTANCEXY,
        None,
        &[Given::Number(2 * ONE), Given::Number(-1_500_001)],
        Told::Number(499_999),
        Told::Fail(OutOfWorld),
    ),
    (
        codes::DISTANCEXY,
        None,
        &[Given::Number(FAR), Given::Number(0)],
        Told::Number(2_828_427),
        Told::Fail(OutOfWorld),
    ),
    (
        codes::TOWARDSXY,
        None,
        &[Given::Number(7 * ONE), Given::Number(6 * ONE)],
        Told::Fail(SamePoint),
        Told::Fail(OutOfWorld),
    ),
    (
        codes::TOWARDSXY,
        None,
        &[Given::Number(2 * ONE), Given::Number(2 * ONE)],
        Told::Fail(SamePoint),
        Told::Fail(SamePoint),
    ),
    (
        codes::TOWARDSXY,
        None,
        &[Given::Number(3 * ONE), Given::Number(3 * ONE)],
        Told::Number(45 * ONE),
        Told::Fail(OutOfWorld),
    ),
    (
        codes::TOWARDSXY,
        None,
        &[Given::Number(-2_500_000), Given::Number(-1_500_000)],
        Told::Number(45 * ONE),
        Told::Number(232 * ONE),
    ),
    (
        codes::TOWARDSXY,
        None,
        &[Given::Number(-500_000), Given::Number(0)],
        Told::Number(51 * ONE),
        Told::Number(231 * ONE),
    ),
    (
        codes::TOWARDSXY,
        None,
        &[Given::Number(2 * ONE), Given::Number(FAR)],
        Told::Number(0),
        Told::Fail(OutOfWorld),
    ),
];

#[test]
fn distances_and_directions_take_the_shorter_way(rt: HostRuntime) {
    assert_beside(&rt, rt.alloc(), Owner::Turtle(2), MEASURES);
}

const OF_A_PATCH: &[Beside] = &[
    (
        codes::TURTLES_HERE,
        None,
        &[],
        Told::Turtles(&[2]),
        Told::Turtles(&[2]),
    ),
    (
        codes::TURTLES_AT,
        None,
        &[Given::Number(ONE), Given::Number(ONE)],
        Told::Turtles(&[3]),
        Told::Turtles(&[]),
    ),
    (
        codes::AT_POINTS,
        None,
        &[ALL, Given::Offsets(&[(ONE, ONE), (0, 0)])],
        Told::Turtles(&[2, 3]),
        Told::Turtles(&[2]),
    ),
    (
        codes::IN_RADIUS,
        None,
        &[ALL, Given::Number(1_414_213)],
        Told::Turtles(&[2, 3]),
        Told::Turtles(&[2]),
    ),
    (
        codes::IN_RADIUS,
        None,
        &[ALL, Given::Number(0)],
        Told::Turtles(&[2]),
        Told::Turtles(&[2]),
    ),
    (
        codes::IN_RADIUS,
        None,
        &[PATCHES, Given::Number(FAR)],
        Told::Many(20),
        Told::Many(20),
    ),
    (
        codes::IN_RADIUS,
        None,
        &[ALL, Given::Number(-1)],
        Told::Fail(Domain),
        Told::Fail(Domain),
    ),
    (
        codes::NEIGHBORS,
        None,
        &[],
        Told::Patches(&[0, 3, 5, 8, 9, 15, 18, 19]),
        Told::Patches(&[3, 8, 9]),
    ),
    (
        codes::NEIGHBORS4,
        None,
        &[],
        Told::Patches(&[0, 3, 9, 19]),
        Told::Patches(&[3, 9]),
    ),
    (
        codes::PATCH_AT,
        None,
        &[Given::Number(ONE), Given::Number(ONE)],
        Told::Patch(15),
        Told::Nobody,
    ),
    (
        codes::PATCH_AT_HEADING_AND_DISTANCE,
        None,
        &[Given::Number(45 * ONE), Given::Number(ONE)],
        Told::Patch(15),
        Told::Nobody,
    ),
    (
        codes::DISTANCE,
        None,
        &[Given::Agent(Named::Turtle(3))],
        Told::Number(1_414_213),
        Told::Number(5 * ONE),
    ),
    (
        codes::TOWARDS,
        None,
        &[Given::Agent(Named::Turtle(3))],
        Told::Number(45 * ONE),
        Told::Number(233 * ONE),
    ),
    (
        codes::TOWARDS,
        None,
        &[Given::Agent(Named::Turtle(2))],
        Told::Fail(SamePoint),
        Told::Fail(SamePoint),
    ),
    (
        codes::DISTANCEXY,
        None,
        &[Given::Number(3 * ONE), Given::Number(3 * ONE)],
        Told::Number(1_414_213),
        Told::Fail(OutOfWorld),
    ),
    (
        codes::TOWARDSXY,
        None,
        &[Given::Number(7 * ONE), Given::Number(6 * ONE)],
        Told::Fail(SamePoint),
        Told::Fail(OutOfWorld),
    ),
    (
        codes::DISTANCE,
        None,
        &[DEAD],
        Told::Fail(NoAgent),
        Told::Fail(NoAgent),
    ),
];

#[test]
fn patches_ask_from_their_centers(rt: HostRuntime) {
    assert_beside(&rt, rt.alloc(), Owner::Patch(4), OF_A_PATCH);
}

const OF_A_ROPE: &[Beside] = &[
    (
        codes::LINK_LENGTH,
        None,
        &[],
        Told::Number(1_414_213),
        Told::Number(5 * ONE),
    ),
    (
        codes::LINK_HEADING,
        None,
        &[],
        Told::Number(45 * ONE),
        Told::Number(233 * ONE),
    ),
    (
        codes::BOTH_ENDS,
        None,
        &[],
        Told::Turtles(&[2, 3]),
        Told::Turtles(&[2, 3]),
    ),
];

const OF_A_WIRE: &[Beside] = &[
    (
        codes::LINK_LENGTH,
        None,
        &[],
        Told::Number(2 * ONE),
        Told::Number(2 * ONE),
    ),
    (
        codes::LINK_HEADING,
        None,
        &[],
        Told::Number(0),
        Told::Number(180 * ONE),
    ),
    (
        codes::BOTH_ENDS,
        None,
        &[],
        Told::Turtles(&[2, 5]),
        Told::Turtles(&[2, 5]),
    ),
];

#[test]
fn links_take_the_shorter_way_between_their_ends(rt: HostRuntime) {
    assert_beside(&rt, rt.alloc(), Owner::Link(1), OF_A_ROPE);
    assert_beside(&rt, rt.alloc(), Owner::Link(2), OF_A_WIRE);
}
