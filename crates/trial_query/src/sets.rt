//! Sets, agents by what they are called, and unions.

use crate::asking::{CALLER, ONE, Row, Told, assert_rows};
use crate::giving::Given;
use nl_agentset_query::fail::QueryFail::WrongType;
use nl_words::codes;
use trial_stores::naming::Named;
use trial_stores::trial_model::{FOXES, OWLS, ROPES, WIRES};

const ALL: Given = Given::Agent(Named::Turtles);

const NOBODY: Given = Given::Agent(Named::Nobody);

const DEAD: Given = Given::Agent(Named::Turtle(4));

const FAR: i64 = 9_000_000_000_000_000_000;

const SETS: &[Row] = &[
    (codes::TURTLES, None, &[], Told::All),
    (codes::TURTLES, Some(FOXES), &[], Told::Breed(FOXES)),
    (codes::LINKS, Some(WIRES), &[], Told::LinkBreed(WIRES)),
    (codes::PATCHES, None, &[], Told::AllPatches),
    (codes::LINKS, None, &[], Told::AllLinks),
    (codes::NO_TURTLES, None, &[], Told::Turtles(&[])),
    (codes::NO_PATCHES, None, &[], Told::Patches(&[])),
    (codes::NO_LINKS, None, &[], Told::Links(&[])),
    (codes::OTHER, None, &[ALL], Told::Turtles(&[3, 5])),
    (
        codes::OTHER,
        None,
        &[Given::Agent(Named::SomeTurtles(2, 4))],
        Told::Turtles(&[]),
    ),
    (
        codes::OTHER,
        None,
        &[Given::Agent(Named::SomePatches(2, 3))],
        Told::Patches(&[2, 3]),
    ),
    (codes::COUNT, None, &[ALL], Told::Number(3 * ONE)),
    (
        codes::COUNT,
        None,
        &[Given::Agent(Named::SomeTurtles(2, 4))],
        Told::Number(ONE),
    ),
    (
        codes::COUNT,
        None,
        &[Given::Agent(Named::Breed(FOXES))],
        Told::Number(2 * ONE),
    ),
    (
        codes::COUNT,
        None,
        &[Given::Agent(Named::Breed(OWLS))],
        Told::Number(0),
    ),
    (
        codes::COUNT,
        None,
        &[Given::Agent(Named::Patches)],
        Told::Number(25 * ONE),
    ),
    (
        codes::COUNT,
        None,
        &[Given::Agent(Named::Links)],
        Told::Number(4 * ONE),
    ),
    (
        codes::COUNT,
        None,
        &[Given::Agent(Named::LinkBreed(WIRES))],
        Told::Number(2 * ONE),
    ),
    (codes::COUNT, None, &[NOBODY], Told::Fail(WrongType)),
    (
        codes::COUNT,
        None,
        &[Given::Agent(Named::Turtle(2))],
        Told::Fail(WrongType),
    ),
    (
        codes::ANY,
        None,
        &[Given::Agent(Named::SomeTurtles(1, 4))],
        Told::Truth(false),
    ),
    (
        codes::ANY,
        None,
        &[Given::Agent(Named::SomeTurtles(4, 5))],
        Told::Truth(true),
    ),
    (
        codes::ANY,
        None,
        &[Given::Agent(Named::SomeLinks(3, 4))],
        Told::Truth(true),
    ),
    (
        codes::ANY,
        None,
        &[Given::Agent(Named::LinkBreed(ROPES))],
        Told::Truth(true),
    ),
    (
        codes::ANY,
        None,
        &[Given::Agent(Named::Breed(OWLS))],
        Told::Truth(false),
    ),
    (codes::ANY, None, &[], Told::Fail(WrongType)),
    (
        codes::OTHER,
        None,
        &[Given::Truth(true)],
        Told::Fail(WrongType),
    ),
];

#[test]
fn sets_have_their_living_members(rt: HostRuntime) {
    assert_rows(&rt, rt.alloc(), CALLER, SETS);
}

const NAMES: &[Row] = &[
    (
        codes::TURTLE,
        None,
        &[Given::Number(3 * ONE)],
        Told::Turtle(5),
    ),
    (codes::TURTLE, None, &[Given::Number(2 * ONE)], Told::Nobody),
    (codes::TURTLE, None, &[Given::Number(-ONE)], Told::Nobody),
    (codes::TURTLE, None, &[Given::Number(FAR)], Told::Nobody),
    (
        codes::TURTLE,
        None,
        &[Given::Number(500_000)],
        Told::Fail(WrongType),
    ),
    (codes::TURTLE, None, &[NOBODY], Told::Fail(WrongType)),
    (
        codes::TURTLE,
        Some(FOXES),
        &[Given::Number(ONE)],
        Told::Turtle(3),
    ),
    (
        codes::TURTLE,
        Some(FOXES),
        &[Given::Number(0)],
        Told::Fail(WrongType),
    ),
    (
        codes::TURTLE,
        Some(FOXES),
        &[Given::Number(7 * ONE)],
        Told::Nobody,
    ),
    (
        codes::PATCH,
        None,
        &[Given::Number(3 * ONE), Given::Number(0)],
        Told::Patch(10),
    ),
    (
        codes::PATCH,
        None,
        &[Given::Number(0), Given::Number(2_500_000)],
        Told::Nobody,
    ),
    (
        codes::LINK,
        None,
        &[Given::Number(ONE), Given::Number(0)],
        Told::Link(3),
    ),
    (
        codes::LINK,
        None,
        &[Given::Number(0), Given::Number(3 * ONE)],
        Told::Nobody,
    ),
    (
        codes::LINK,
        None,
        &[Given::Number(0), Given::Number(9 * ONE)],
        Told::Nobody,
    ),
    (
        codes::LINK,
        None,
        &[Given::Number(0), Given::Number(500_000)],
        Told::Fail(WrongType),
    ),
    (
        codes::LINK,
        Some(WIRES),
        &[Given::Number(3 * ONE), Given::Number(0)],
        Told::Link(0),
    ),
    (
        codes::LINK,
        Some(WIRES),
        &[Given::Number(0), Given::Number(3 * ONE)],
        Told::Link(1),
    ),
    (
        codes::IS_TURTLE,
        Some(FOXES),
        &[Given::Agent(Named::Turtle(3))],
        Told::Truth(true),
    ),
    (
        codes::IS_TURTLE,
        Some(FOXES),
        &[Given::Agent(Named::Turtle(2))],
        Told::Truth(false),
    ),
    (codes::IS_TURTLE, Some(FOXES), &[DEAD], Told::Truth(false)),
    (
        codes::IS_TURTLE,
        None,
        &[Given::Agent(Named::Turtle(2))],
        Told::Truth(true),
    ),
    (
        codes::IS_TURTLE,
        None,
        &[Given::Agent(Named::Patch(2))],
        Told::Truth(false),
    ),
    (
        codes::PATCH,
        None,
        &[NOBODY, Given::Truth(true)],
        Told::Fail(WrongType),
    ),
    (
        codes::IS_LINK,
        None,
        &[Given::Agent(Named::Link(9))],
        Told::Truth(false),
    ),
    (
        codes::IS_LINK,
        Some(ROPES),
        &[Given::Agent(Named::Link(2))],
        Told::Truth(true),
    ),
    (
        codes::IS_LINK,
        Some(ROPES),
        &[Given::Agent(Named::Link(1))],
        Told::Truth(false),
    ),
];

#[test]
fn agents_are_found_by_what_they_are_called(rt: HostRuntime) {
    assert_rows(&rt, rt.alloc(), CALLER, NAMES);
}

const UNIONS: &[Row] = &[
    (
        codes::TURTLE_SET,
        None,
        &[
            Given::Agents(&[Named::Turtle(5), Named::Breed(FOXES), Named::Nobody]),
            NOBODY,
            DEAD,
            Given::Agent(Named::Link(4)),
        ],
        Told::Turtles(&[3, 5]),
    ),
    (codes::TURTLE_SET, None, &[], Told::Turtles(&[])),
    (
        codes::TURTLE_SET,
        None,
        &[ALL, ALL],
        Told::Turtles(&[2, 3, 5]),
    ),
    (
        codes::TURTLE_SET,
        None,
        &[Given::Agent(Named::Patch(3))],
        Told::Fail(WrongType),
    ),
    (
        codes::TURTLE_SET,
        None,
        &[Given::Agent(Named::SomeLinks(7, 8))],
        Told::Fail(WrongType),
    ),
    (
        codes::TURTLE_SET,
        None,
        &[Given::Number(0)],
        Told::Fail(WrongType),
    ),
    (
        codes::PATCH_SET,
        None,
        &[Given::Agents(&[Named::Patch(9), Named::SomePatches(3, 9)])],
        Told::Patches(&[3, 9]),
    ),
    (
        codes::LINK_SET,
        None,
        &[
            Given::Agent(Named::Link(2)),
            Given::Agent(Named::LinkBreed(WIRES)),
        ],
        Told::Links(&[0, 1, 2]),
    ),
];

#[test]
fn a_union_has_each_member_once(rt: HostRuntime) {
    assert_rows(&rt, rt.alloc(), CALLER, UNIONS);
}
