//! Links of the caller, and what the ends of a link give.

use crate::asking::{CALLER, Row, Told, assert_rows};
use crate::giving::Given;
use nl_agents::Owner;
use nl_agentset_query::fail::QueryFail::{NoAgent, WrongType};
use nl_words::codes;
use trial_stores::naming::Named;
use trial_stores::trial_model::{ROPES, WIRES};

const DEAD: Given = Given::Agent(Named::Turtle(4));

const LINKS: &[Row] = &[
    (codes::MY_LINKS, None, &[], Told::Links(&[0, 1, 2, 3])),
    (codes::MY_IN_LINKS, None, &[], Told::Links(&[0, 2, 3])),
    (codes::MY_OUT_LINKS, None, &[], Told::Links(&[1, 2, 3])),
    (codes::MY_OUT_LINKS, Some(WIRES), &[], Told::Links(&[1])),
    (codes::LINK_NEIGHBORS, None, &[], Told::Turtles(&[3, 5])),
    (codes::LINK_NEIGHBORS, Some(ROPES), &[], Told::Turtles(&[3])),
    (codes::IN_LINK_NEIGHBORS, None, &[], Told::Turtles(&[3, 5])),
    (
        codes::IN_LINK_NEIGHBORS,
        Some(WIRES),
        &[],
        Told::Turtles(&[5]),
    ),
    (
        codes::OUT_LINK_NEIGHBORS,
        Some(ROPES),
        &[],
        Told::Turtles(&[3]),
    ),
    (
        codes::IN_LINK_NEIGHBOR,
        None,
        &[Given::Agent(Named::Turtle(3))],
        Told::Truth(true),
    ),
    (
        codes::IN_LINK_NEIGHBOR,
        Some(WIRES),
        &[Given::Agent(Named::Turtle(3))],
        Told::Truth(false),
    ),
    (
        codes::OUT_LINK_NEIGHBOR,
        None,
        &[Given::Agent(Named::Turtle(5))],
        Told::Truth(true),
    ),
    (
        codes::LINK_NEIGHBOR,
        Some(ROPES),
        &[Given::Agent(Named::Turtle(5))],
        Told::Truth(false),
    ),
    (
        codes::LINK_NEIGHBOR,
        None,
        &[Given::Agent(Named::Patch(0))],
        Told::Truth(false),
    ),
    (codes::LINK_NEIGHBOR, None, &[DEAD], Told::Fail(NoAgent)),
    (
        codes::LINK_NEIGHBOR,
        None,
        &[Given::Number(0)],
        Told::Fail(WrongType),
    ),
    // The link of no breed comes first in the order of links, although it was made last.
    (
        codes::LINK_WITH,
        None,
        &[Given::Agent(Named::Turtle(3))],
        Told::Link(3),
    ),
    // The link from the caller comes before the one to it, which was made first.
    (
        codes::LINK_WITH,
        None,
        &[Given::Agent(Named::Turtle(5))],
        Told::Link(1),
    ),
    (
        codes::IN_LINK_FROM,
        Some(WIRES),
        &[Given::Agent(Named::Turtle(5))],
        Told::Link(0),
    ),
    (
        codes::OUT_LINK_TO,
        Some(WIRES),
        &[Given::Agent(Named::Turtle(5))],
        Told::Link(1),
    ),
    (
        codes::LINK_WITH,
        None,
        &[Given::Agent(Named::Turtle(2))],
        Told::Nobody,
    ),
    (codes::LINK_WITH, None, &[DEAD], Told::Fail(NoAgent)),
];

#[test]
fn links_are_those_of_the_word(rt: HostRuntime) {
    assert_rows(&rt, rt.alloc(), CALLER, LINKS);
}

const ENDS: &[Row] = &[
    (codes::BOTH_ENDS, None, &[], Told::Turtles(&[2, 5])),
    (codes::LINK_LENGTH, None, &[], Told::Number(2_000_000)),
    (codes::LINK_HEADING, None, &[], Told::Number(53_000_000)),
    (codes::MY_LINKS, None, &[], Told::Fail(WrongType)),
];

#[test]
fn ends_stand_in_the_order_of_turtles(rt: HostRuntime) {
    assert_rows(&rt, rt.alloc(), Owner::Link(0), ENDS);
}
