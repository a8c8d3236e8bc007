//! Dead agents: as members of sets, as inputs, and as callers.

use crate::asking::{CALLER, ONE, Row, Told, assert_rows};
use crate::giving::Given;
use nl_agents::Owner;
use nl_agentset_query::fail::QueryFail::{NoAgent, TooFew, WrongType};
use nl_words::codes;
use trial_stores::naming::Named;
use trial_stores::trial_model::FOXES;

const ALL: Given = Given::Agent(Named::Turtles);

const DEAD: Given = Given::Agent(Named::Turtle(4));

const DEAD_LINK: Given = Given::Agent(Named::Link(4));

// The caller and a dead turtle.
const SOME: Given = Given::Agent(Named::SomeTurtles(2, 4));

// One that lives and one that died.
const SOME_LINKS: Given = Given::Agent(Named::SomeLinks(3, 4));

const OF_THE_LIVING: &[Row] = &[
    (
        codes::N_OF,
        None,
        &[Given::Number(ONE), SOME],
        Told::Turtles(&[2]),
    ),
    (
        codes::N_OF,
        None,
        &[Given::Number(2 * ONE), SOME],
        Told::Fail(TooFew),
    ),
    (
        codes::N_OF,
        None,
        &[Given::Number(ONE), DEAD],
        Told::Fail(WrongType),
    ),
    (
        codes::UP_TO_N_OF,
        None,
        &[Given::Number(2 * ONE), SOME],
        Told::Turtles(&[2]),
    ),
    (codes::ONE_OF, None, &[SOME], Told::Turtle(2)),
    (codes::ONE_OF, None, &[DEAD], Told::Fail(WrongType)),
    (codes::COUNT, None, &[SOME_LINKS], Told::Number(ONE)),
    (codes::COUNT, None, &[DEAD], Told::Fail(WrongType)),
    (codes::ANY, None, &[DEAD], Told::Fail(WrongType)),
    (codes::OTHER, None, &[DEAD], Told::Fail(WrongType)),
    (codes::TURTLE_SET, None, &[SOME], Told::Turtles(&[2])),
    (
        codes::TURTLE_SET,
        None,
        &[Given::Agents(&[Named::Turtle(4), Named::SomeTurtles(2, 4)])],
        Told::Turtles(&[2]),
    ),
    (codes::TURTLE_SET, None, &[DEAD_LINK], Told::Turtles(&[])),
    (codes::PATCH_SET, None, &[DEAD], Told::Patches(&[])),
    (codes::LINK_SET, None, &[DEAD_LINK], Told::Links(&[])),
    (codes::LINK_SET, None, &[SOME_LINKS], Told::Links(&[3])),
    (codes::TURTLES_ON, None, &[SOME], Told::Turtles(&[2])),
    (codes::TURTLES_ON, Some(FOXES), &[SOME], Told::Turtles(&[])),
    (codes::TURTLES_ON, None, &[DEAD_LINK], Told::Fail(NoAgent)),
    (
        codes::AT_POINTS,
        None,
        &[SOME, Given::Offsets(&[(0, 0)])],
        Told::Turtles(&[2]),
    ),
    (
        codes::IN_RADIUS,
        None,
        &[SOME, Given::Number(0)],
        Told::Turtles(&[2]),
    ),
    (
        codes::IN_RADIUS,
        None,
        &[DEAD, Given::Number(ONE)],
        Told::Fail(WrongType),
    ),
    (
        codes::IN_CONE,
        None,
        &[SOME, Given::Number(0), Given::Number(0)],
        Told::Turtles(&[2]),
    ),
    (codes::DISTANCE, None, &[DEAD_LINK], Told::Fail(NoAgent)),
    (codes::TOWARDS, None, &[DEAD_LINK], Told::Fail(NoAgent)),
    (codes::TOWARDS, None, &[DEAD], Told::Fail(NoAgent)),
    (codes::IS_LINK, None, &[DEAD_LINK], Told::Truth(false)),
    (codes::IS_TURTLE, None, &[DEAD], Told::Truth(false)),
    (
        codes::LINK_NEIGHBOR,
        None,
        &[DEAD_LINK],
        Told::Fail(NoAgent),
    ),
    (codes::LINK_WITH, None, &[DEAD_LINK], Told::Fail(NoAgent)),
    (codes::IN_LINK_NEIGHBOR, None, &[DEAD], Told::Fail(NoAgent)),
    (codes::OUT_LINK_NEIGHBOR, None, &[DEAD], Told::Fail(NoAgent)),
    (codes::IN_LINK_FROM, None, &[DEAD], Told::Fail(NoAgent)),
    (codes::OUT_LINK_TO, None, &[DEAD], Told::Fail(NoAgent)),
];

#[test]
fn the_dead_are_no_members_and_no_agents(rt: HostRuntime) {
    assert_rows(&rt, rt.alloc(), CALLER, OF_THE_LIVING);
}

// A dead agent runs as the observer, which stands at the origin.
const OF_THE_DEAD: &[Row] = &[
    (codes::OTHER, None, &[ALL], Told::Turtles(&[2, 3, 5])),
    (
        codes::AT_POINTS,
        None,
        &[ALL, Given::Offsets(&[(2_000_000, 0)])],
        Told::Turtles(&[2]),
    ),
    (codes::MY_LINKS, None, &[], Told::Fail(WrongType)),
];

#[test]
fn a_dead_caller_runs_as_the_observer(rt: HostRuntime) {
    assert_rows(&rt, rt.alloc(), Owner::Observer, OF_THE_DEAD);
}
