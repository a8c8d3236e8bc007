//! Who and what is where, as seen by the caller, on a torus and in a box.

use crate::asking::{ONE, Told};
use crate::beside::{Beside, assert_beside};
use crate::giving::Given;
use nl_agents::Owner;
use nl_agentset_query::fail::QueryFail::{NoAgent, Overflow, WrongType};
use nl_words::codes;
use trial_stores::naming::Named;
use trial_stores::trial_model::{FOXES, OWLS};

const ALL: Given = Given::Agent(Named::Turtles);

const PATCHES: Given = Given::Agent(Named::Patches);

const ME_AND_DEAD: Given = Given::Agent(Named::SomeTurtles(2, 4));

const FOX_AND_DEAD: Given = Given::Agent(Named::SomeTurtles(3, 4));

const CORNERS: Given = Given::Agent(Named::SomePatches(4, 15));

const DEAD: Given = Given::Agent(Named::Turtle(4));

const LINKS: Given = Given::Agent(Named::Links);

const FAR: i64 = 9_000_000_000_000_000_000;

const PLACES: &[Beside] = &[
    (
        codes::TURTLES_AT,
        None,
        &[Given::Number(ONE), Given::Number(ONE)],
        Told::Turtles(&[3]),
        Told::Turtles(&[]),
    ),
    (
        codes::TURTLES_AT,
        None,
        &[Given::Number(0), Given::Number(-2 * ONE)],
        Told::Turtles(&[5]),
        Told::Turtles(&[5]),
    ),
    (
        codes::TURTLES_AT,
        None,
        &[Given::Number(0), Given::Number(2 * ONE)],
        Told::Turtles(&[5]),
        Told::Turtles(&[]),
    ),
    (
        codes::TURTLES_AT,
        Some(FOXES),
        &[Given::Number(ONE), Given::Number(ONE)],
        Told::Turtles(&[3]),
        Told::Turtles(&[]),
    ),
    (
        codes::TURTLES_AT,
        Some(OWLS),
        &[Given::Number(ONE), Given::Number(ONE)],
        Told::Turtles(&[]),
        Told::Turtles(&[]),
    ),
    (
        codes::TURTLES_AT,
        Some(OWLS),
        &[Given::Number(3 * ONE), Given::Number(0)],
        Told::Turtles(&[6]),
        Told::Turtles(&[]),
    ),
    (
        codes::TURTLES_AT,
        Some(OWLS),
        &[Given::Number(-2 * ONE), Given::Number(0)],
        Told::Turtles(&[6]),
        Told::Turtles(&[6]),
    ),
    (
        codes::TURTLES_AT,
        None,
        &[Given::Number(-FAR), Given::Number(0)],
        Told::Turtles(&[2]),
        Told::Turtles(&[]),
    ),
    (
        codes::TURTLES_AT,
        None,
        &[Given::Number(FAR), Given::Number(0)],
        Told::Fail(Overflow),
        Told::Fail(Overflow),
    ),
    (
        codes::AT_POINTS,
        None,
        &[ALL, Given::Offsets(&[(ONE, ONE), (0, 0), (0, 2 * ONE)])],
        Told::Turtles(&[2, 3, 5]),
        Told::Turtles(&[2]),
    ),
    (
        codes::AT_POINTS,
        None,
        &[
            ALL,
            Given::Offsets(&[(-4 * ONE, -3 * ONE), (0, -2 * ONE), (0, -2 * ONE)]),
        ],
        Told::Turtles(&[3, 5]),
        Told::Turtles(&[3, 5]),
    ),
    (
        codes::AT_POINTS,
        None,
        &[PATCHES, Given::Offsets(&[(ONE, 0), (0, ONE), (-ONE, 0)])],
        Told::Patches(&[0, 3, 19]),
        Told::Patches(&[3]),
    ),
    (
        codes::AT_POINTS,
        None,
        &[FOX_AND_DEAD, Given::Offsets(&[(ONE, ONE)])],
        Told::Turtles(&[3]),
        Told::Turtles(&[]),
    ),
    (
        codes::AT_POINTS,
        None,
        &[ME_AND_DEAD, Given::Offsets(&[(0, 0)])],
        Told::Turtles(&[2]),
        Told::Turtles(&[2]),
    ),
    (
        codes::AT_POINTS,
        None,
        &[LINKS, Given::Offsets(&[(ONE, ONE)])],
        Told::Fail(WrongType),
        Told::Fail(WrongType),
    ),
    (
        codes::NEIGHBORS,
        None,
        &[],
        Told::Patches(&[0, 3, 5, 8, 9, 15, 18, 19]),
        Told::Patches(&[3, 8, 9]),
    ),
    (
        codes::NEIGHBORS4,
        None,
        &[],
        Told::Patches(&[0, 3, 9, 19]),
        Told::Patches(&[3, 9]),
    ),
    (
        codes::PATCH_AT,
        None,
        &[Given::Number(ONE), Given::Number(ONE)],
        Told::Patch(15),
        Told::Nobody,
    ),
    (
        codes::PATCH_AT,
        None,
        &[Given::Number(0), Given::Number(-3 * ONE)],
        Told::Patch(19),
        Told::Patch(19),
    ),
    (
        codes::PATCH_AT,
        None,
        &[Given::Number(-5 * ONE), Given::Number(4 * ONE)],
        Told::Patch(4),
        Told::Nobody,
    ),
    (
        codes::PATCH_AT,
        None,
        &[Given::Number(500_000), Given::Number(0)],
        Told::Patch(0),
        Told::Nobody,
    ),
    (
        codes::PATCH_AT,
        None,
        &[Given::Number(499_999), Given::Number(0)],
        Told::Patch(4),
        Told::Patch(4),
    ),
    (
        codes::PATCH_AT,
        None,
        &[Given::Number(-4_500_000), Given::Number(0)],
        Told::Patch(0),
        Told::Patch(0),
    ),
    (
        codes::PATCH_AT,
        None,
        &[Given::Number(-4_500_001), Given::Number(0)],
        Told::Patch(4),
        Told::Nobody,
    ),
    (
        codes::PATCH_AT,
        None,
        &[Given::Number(0), Given::Number(FAR)],
        Told::Fail(Overflow),
        Told::Fail(Overflow),
    ),
    (
        codes::PATCH_AT,
        None,
        &[Given::Number(0), Given::Number(-FAR)],
        Told::Patch(4),
        Told::Nobody,
    ),
];

#[test]
fn agents_stand_beyond_the_sides_of_a_torus(rt: HostRuntime) {
    assert_beside(&rt, rt.alloc(), Owner::Turtle(2), PLACES);
}

const WAYS: &[Beside] = &[
    (
        codes::PATCH_AHEAD,
        None,
        &[Given::Number(ONE)],
        Told::Patch(15),
        Told::Nobody,
    ),
    (
        codes::PATCH_AHEAD,
        None,
        &[Given::Number(-ONE)],
        Told::Patch(8),
        Told::Patch(8),
    ),
    (
        codes::PATCH_AHEAD,
        None,
        &[Given::Number(FAR)],
        Told::Patch(4),
        Told::Nobody,
    ),
    (
        codes::PATCH_AHEAD,
        None,
        &[Given::Number(700_000)],
        Told::Patch(4),
        Told::Patch(4),
    ),
    (
        codes::PATCH_LEFT_AND_AHEAD,
        None,
        &[Given::Number(45 * ONE), Given::Number(ONE)],
        Told::Patch(19),
        Told::Nobody,
    ),
    (
        codes::PATCH_RIGHT_AND_AHEAD,
        None,
        &[Given::Number(45 * ONE), Given::Number(ONE)],
        Told::Patch(0),
        Told::Nobody,
    ),
    (
        codes::PATCH_RIGHT_AND_AHEAD,
        None,
        &[Given::Number(180 * ONE), Given::Number(ONE)],
        Told::Patch(8),
        Told::Patch(8),
    ),
    (
        codes::PATCH_LEFT_AND_AHEAD,
        None,
        &[Given::Number(-FAR), Given::Number(ONE)],
        Told::Fail(Overflow),
        Told::Fail(Overflow),
    ),
    (
        codes::PATCH_RIGHT_AND_AHEAD,
        None,
        &[Given::Number(-45 * ONE), Given::Number(FAR)],
        Told::Fail(Overflow),
        Told::Fail(Overflow),
    ),
    (
        codes::PATCH_AT_HEADING_AND_DISTANCE,
        None,
        &[Given::Number(180 * ONE), Given::Number(2 * ONE)],
        Told::Patch(14),
        Told::Patch(14),
    ),
    (
        codes::PATCH_AT_HEADING_AND_DISTANCE,
        None,
        &[Given::Number(90 * ONE), Given::Number(ONE)],
        Told::Patch(0),
        Told::Nobody,
    ),
    (
        codes::PATCH_AT_HEADING_AND_DISTANCE,
        None,
        &[Given::Number(-135 * ONE), Given::Number(2 * ONE)],
        Told::Patch(8),
        Told::Patch(8),
    ),
    (
        codes::PATCH_AT_HEADING_AND_DISTANCE,
        None,
        &[Given::Number(90 * ONE), Given::Number(FAR)],
        Told::Fail(Overflow),
        Told::Fail(Overflow),
    ),
    (
        codes::CAN_MOVE,
        None,
        &[Given::Number(ONE)],
        Told::Truth(true),
        Told::Truth(false),
    ),
    (
        codes::CAN_MOVE,
        None,
        &[Given::Number(700_000)],
        Told::Truth(true),
        Told::Truth(true),
    ),
    (
        codes::CAN_MOVE,
        None,
        &[Given::Number(710_000)],
        Told::Truth(true),
        Told::Truth(false),
    ),
    (
        codes::CAN_MOVE,
        None,
        &[Given::Number(-3 * ONE)],
        Told::Truth(true),
        Told::Truth(true),
    ),
    (
        codes::CAN_MOVE,
        None,
        &[Given::Number(-5 * ONE)],
        Told::Truth(true),
        Told::Truth(false),
    ),
    (
        codes::DX,
        None,
        &[],
        Told::Number(707_107),
        Told::Number(707_107),
    ),
    (
        codes::DY,
        None,
        &[],
        Told::Number(707_107),
        Told::Number(707_107),
    ),
];

#[test]
fn ways_of_a_turtle_end_at_the_sides_of_a_box(rt: HostRuntime) {
    assert_beside(&rt, rt.alloc(), Owner::Turtle(2), WAYS);
}

// A dead agent runs as the observer, which stands at the origin.
const OF_THE_DEAD: &[Beside] = &[
    (
        codes::AT_POINTS,
        None,
        &[ALL, Given::Offsets(&[(2 * ONE, 2 * ONE), (-2 * ONE, -ONE)])],
        Told::Turtles(&[2, 3]),
        Told::Turtles(&[2, 3]),
    ),
    (
        codes::AT_POINTS,
        None,
        &[ALL, Given::Offsets(&[(3 * ONE, 3 * ONE)])],
        Told::Turtles(&[3]),
        Told::Turtles(&[]),
    ),
    (
        codes::AT_POINTS,
        None,
        &[PATCHES, Given::Offsets(&[(3 * ONE, 0), (0, 0)])],
        Told::Patches(&[10, 12]),
        Told::Patches(&[12]),
    ),
    (
        codes::AT_POINTS,
        None,
        &[ALL, Given::Offsets(&[(-500_000, 2 * ONE)])],
        Told::Turtles(&[6]),
        Told::Turtles(&[6]),
    ),
    (
        codes::AT_POINTS,
        None,
        &[ME_AND_DEAD, Given::Offsets(&[(0, 0)])],
        Told::Turtles(&[]),
        Told::Turtles(&[]),
    ),
    (
        codes::AT_POINTS,
        None,
        &[ALL, Given::Offsets(&[(FAR, 0)])],
        Told::Turtles(&[]),
        Told::Turtles(&[]),
    ),
    (
        codes::PATCH,
        None,
        &[Given::Number(3 * ONE), Given::Number(3 * ONE)],
        Told::Patch(15),
        Told::Nobody,
    ),
    (
        codes::PATCH,
        None,
        &[Given::Number(-2_500_000), Given::Number(-1_500_000)],
        Told::Patch(15),
        Told::Patch(15),
    ),
    (
        codes::PATCH,
        None,
        &[Given::Number(2_500_000), Given::Number(2 * ONE)],
        Told::Patch(0),
        Told::Nobody,
    ),
    (
        codes::PATCH,
        None,
        &[Given::Number(FAR), Given::Number(0)],
        Told::Patch(12),
        Told::Nobody,
    ),
    (
        codes::TURTLES_ON,
        None,
        &[CORNERS],
        Told::Turtles(&[2, 3]),
        Told::Turtles(&[2, 3]),
    ),
    (
        codes::TURTLES_ON,
        None,
        &[ME_AND_DEAD],
        Told::Turtles(&[2]),
        Told::Turtles(&[2]),
    ),
    (
        codes::TURTLES_ON,
        None,
        &[DEAD],
        Told::Fail(NoAgent),
        Told::Fail(NoAgent),
    ),
    (
        codes::COUNT,
        None,
        &[ME_AND_DEAD],
        Told::Number(ONE),
        Told::Number(ONE),
    ),
    (
        codes::ANY,
        None,
        &[ME_AND_DEAD],
        Told::Truth(true),
        Told::Truth(true),
    ),
];

#[test]
fn a_dead_caller_stands_at_the_origin(rt: HostRuntime) {
    assert_beside(&rt, rt.alloc(), Owner::Observer, OF_THE_DEAD);
}
