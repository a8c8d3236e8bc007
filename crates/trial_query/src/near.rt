//! Who is within a radius and in a cone, on a torus and in a box.

use crate::asking::{ONE, Told};
use crate::beside::{Beside, assert_beside};
use crate::giving::Given;
use nl_agents::Owner;
use nl_agentset_query::fail::QueryFail::{Domain, WrongType};
use nl_words::codes;
use trial_stores::naming::Named;
use trial_stores::trial_model::{FOXES, OWLS};

const ALL: Given = Given::Agent(Named::Turtles);

const PATCHES: Given = Given::Agent(Named::Patches);

const ME_AND_DEAD: Given = Given::Agent(Named::SomeTurtles(2, 4));

const FOX_AND_DEAD: Given = Given::Agent(Named::SomeTurtles(3, 4));

const CORNERS: Given = Given::Agent(Named::SomePatches(4, 15));

const DEAD: Given = Given::Agent(Named::Turtle(4));

const LINKS: Given = Given::Agent(Named::Links);

const FAR: i64 = 9_000_000_000_000_000_000;

const RADII: &[Beside] = &[
    (
        codes::IN_RADIUS,
        None,
        &[ALL, Given::Number(1_414_213)],
        Told::Turtles(&[2, 3]),
        Told::Turtles(&[2]),
    ),
    (
        codes::IN_RADIUS,
        None,
        &[ALL, Given::Number(1_414_212)],
        Told::Turtles(&[2]),
        Told::Turtles(&[2]),
    ),
    (
        codes::IN_RADIUS,
        None,
        &[ALL, Given::Number(2 * ONE)],
        Told::Turtles(&[2, 3, 5]),
        Told::Turtles(&[2, 5]),
    ),
    (
        codes::IN_RADIUS,
        None,
        &[ALL, Given::Number(2_500_000)],
        Told::Turtles(&[2, 3, 5, 6]),
        Told::Turtles(&[2, 5, 6]),
    ),
    (
        codes::IN_RADIUS,
        None,
        &[ALL, Given::Number(2_499_999)],
        Told::Turtles(&[2, 3, 5]),
        Told::Turtles(&[2, 5]),
    ),
    (
        codes::IN_RADIUS,
        None,
        &[ALL, Given::Number(5 * ONE)],
        Told::Turtles(&[2, 3, 5, 6]),
        Told::Turtles(&[2, 3, 5, 6]),
    ),
    (
        codes::IN_RADIUS,
        None,
        &[ALL, Given::Number(4_999_999)],
        Told::Turtles(&[2, 3, 5, 6]),
        Told::Turtles(&[2, 5, 6]),
    ),
    (
        codes::IN_RADIUS,
        None,
        &[ALL, Given::Number(0)],
        Told::Turtles(&[2]),
        Told::Turtles(&[2]),
    ),
    (
        codes::IN_RADIUS,
        None,
        &[ALL, Given::Number(-1)],
        Told::Fail(Domain),
        Told::Fail(Domain),
    ),
    (
        codes::IN_RADIUS,
        None,
        &[ALL, Given::Number(-FAR)],
        Told::Fail(Domain),
        Told::Fail(Domain),
    ),
    (
        codes::IN_RADIUS,
        None,
        &[ALL, Given::Number(FAR)],
        Told::Turtles(&[2, 3, 5, 6]),
        Told::Turtles(&[2, 3, 5, 6]),
    ),
    (
        codes::IN_RADIUS,
        None,
        &[Given::Agent(Named::Breed(FOXES)), Given::Number(2 * ONE)],
        Told::Turtles(&[3, 5]),
        Told::Turtles(&[5]),
    ),
    (
        codes::IN_RADIUS,
        None,
        &[Given::Agent(Named::Breed(OWLS)), Given::Number(2_500_000)],
        Told::Turtles(&[6]),
        Told::Turtles(&[6]),
    ),
    (
        codes::IN_RADIUS,
        None,
        &[ME_AND_DEAD, Given::Number(FAR)],
        Told::Turtles(&[2]),
        Told::Turtles(&[2]),
    ),
    (
        codes::IN_RADIUS,
        None,
        &[FOX_AND_DEAD, Given::Number(1_414_213)],
        Told::Turtles(&[3]),
        Told::Turtles(&[]),
    ),
    (
        codes::IN_RADIUS,
        None,
        &[PATCHES, Given::Number(ONE)],
        Told::Patches(&[0, 3, 4, 9, 19]),
        Told::Patches(&[3, 4, 9]),
    ),
    (
        codes::IN_RADIUS,
        None,
        &[PATCHES, Given::Number(1_414_213)],
        Told::Patches(&[0, 3, 4, 5, 8, 9, 15, 18, 19]),
        Told::Patches(&[3, 4, 8, 9]),
    ),
    (
        codes::IN_RADIUS,
        None,
        &[PATCHES, Given::Number(0)],
        Told::Patches(&[4]),
        Told::Patches(&[4]),
    ),
    (
        codes::IN_RADIUS,
        None,
        &[PATCHES, Given::Number(FAR)],
        Told::Many(20),
        Told::Many(20),
    ),
    (
        codes::IN_RADIUS,
        None,
        &[CORNERS, Given::Number(1_414_213)],
        Told::Patches(&[4, 15]),
        Told::Patches(&[4]),
    ),
    (
        codes::IN_RADIUS,
        None,
        &[ALL, Given::Truth(true)],
        Told::Fail(WrongType),
        Told::Fail(WrongType),
    ),
    (
        codes::IN_RADIUS,
        None,
        &[LINKS, Given::Number(ONE)],
        Told::Fail(WrongType),
        Told::Fail(WrongType),
    ),
    (
        codes::IN_RADIUS,
        None,
        &[DEAD, Given::Number(ONE)],
        Told::Fail(WrongType),
        Told::Fail(WrongType),
    ),
];

#[test]
fn whoever_is_at_most_so_far_is_in_the_radius(rt: HostRuntime) {
    assert_beside(&rt, rt.alloc(), Owner::Turtle(2), RADII);
}

const CONES: &[Beside] = &[
    (
        codes::IN_CONE,
        None,
        &[ALL, Given::Number(5 * ONE), Given::Number(0)],
        Told::Turtles(&[2, 3]),
        Told::Turtles(&[2]),
    ),
    (
        codes::IN_CONE,
        None,
        &[ALL, Given::Number(5 * ONE), Given::Number(90 * ONE)],
        Told::Turtles(&[2, 3, 5, 6]),
        Told::Turtles(&[2]),
    ),
    (
        codes::IN_CONE,
        None,
        &[ALL, Given::Number(5 * ONE), Given::Number(89_999_999)],
        Told::Turtles(&[2, 3]),
        Told::Turtles(&[2]),
    ),
    (
        codes::IN_CONE,
        None,
        &[ALL, Given::Number(5 * ONE), Given::Number(270 * ONE)],
        Told::Turtles(&[2, 3, 5, 6]),
        Told::Turtles(&[2, 5, 6]),
    ),
    (
        codes::IN_CONE,
        None,
        &[ALL, Given::Number(5 * ONE), Given::Number(269_999_999)],
        Told::Turtles(&[2, 3, 5, 6]),
        Told::Turtles(&[2]),
    ),
    (
        codes::IN_CONE,
        None,
        &[ALL, Given::Number(5 * ONE), Given::Number(360 * ONE)],
        Told::Turtles(&[2, 3, 5, 6]),
        Told::Turtles(&[2, 3, 5, 6]),
    ),
    (
        codes::IN_CONE,
        None,
        &[ALL, Given::Number(1_414_212), Given::Number(360 * ONE)],
        Told::Turtles(&[2]),
        Told::Turtles(&[2]),
    ),
    (
        codes::IN_CONE,
        None,
        &[PATCHES, Given::Number(ONE), Given::Number(90 * ONE)],
        Told::Patches(&[0, 4, 19]),
        Told::Patches(&[4]),
    ),
    (
        codes::IN_CONE,
        None,
        &[ALL, Given::Number(0), Given::Number(0)],
        Told::Turtles(&[2]),
        Told::Turtles(&[2]),
    ),
    (
        codes::IN_CONE,
        None,
        &[PATCHES, Given::Number(0), Given::Number(0)],
        Told::Patches(&[4]),
        Told::Patches(&[4]),
    ),
    (
        codes::IN_CONE,
        None,
        &[ALL, Given::Number(FAR), Given::Number(FAR)],
        Told::Turtles(&[2, 3, 5, 6]),
        Told::Turtles(&[2, 3, 5, 6]),
    ),
    (
        codes::IN_CONE,
        None,
        &[
            Given::Agent(Named::Breed(FOXES)),
            Given::Number(FAR),
            Given::Number(376 * ONE),
        ],
        Told::Turtles(&[3, 5]),
        Told::Turtles(&[3, 5]),
    ),
    (
        codes::IN_CONE,
        None,
        &[
            Given::Agent(Named::Breed(FOXES)),
            Given::Number(FAR),
            Given::Number(375_999_999),
        ],
        Told::Turtles(&[3, 5]),
        Told::Turtles(&[3, 5]),
    ),
    (
        codes::IN_CONE,
        None,
        &[ME_AND_DEAD, Given::Number(FAR), Given::Number(0)],
        Told::Turtles(&[2]),
        Told::Turtles(&[2]),
    ),
    (
        codes::IN_CONE,
        None,
        &[ALL, Given::Number(-1), Given::Number(0)],
        Told::Fail(Domain),
        Told::Fail(Domain),
    ),
    (
        codes::IN_CONE,
        None,
        &[ALL, Given::Number(0), Given::Number(-1)],
        Told::Fail(Domain),
        Told::Fail(Domain),
    ),
    (
        codes::IN_CONE,
        None,
        &[LINKS, Given::Number(ONE), Given::Number(ONE)],
        Told::Fail(WrongType),
        Told::Fail(WrongType),
    ),
];

#[test]
fn a_cone_has_half_its_angle_on_each_side(rt: HostRuntime) {
    assert_beside(&rt, rt.alloc(), Owner::Turtle(2), CONES);
}
