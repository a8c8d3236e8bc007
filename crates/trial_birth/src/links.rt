//! The making of links over stores, by `link` of `nl_birth`. Each table runs over every store that there is.
//!
//! Coordinates are in tenths.

use crate::making::{Act, Answer, Call, NONE, acted, assert_acts, let_go, links};
use nl_agents::Store;
use nl_birth::{BirthFail, Way};
use nl_plain::Plain;
use nl_store::Indexed;
use std::alloc::Global;
use std::process::Abort;
use trial_stores::Tried;
use trial_stores::trial_model::{FOXES, OWLS, ROPES, WIRES};
use trial_stores::trials::{Look, Place, Step};

const HERE: Place = (0, 0);

const LINK_FAULT: Answer = Answer::Fails(BirthFail::LinkFault);

const TEN: &[Act] = &[(
    Call::Create(0, 100, true),
    Answer::Made(&[0, 1, 2, 3, 4, 5, 6, 7, 8, 9]),
    &[Look::Links(&[])],
)];

// Each member with all others, and the links that it makes.
const CLIQUE: &[(u64, &[u64], &[u64])] = &[
    (
        0,
        &[1, 2, 3, 4, 5, 6, 7, 8, 9],
        &[0, 1, 2, 3, 4, 5, 6, 7, 8],
    ),
    (
        1,
        &[0, 2, 3, 4, 5, 6, 7, 8, 9],
        &[9, 10, 11, 12, 13, 14, 15, 16],
    ),
    (
        2,
        &[0, 1, 3, 4, 5, 6, 7, 8, 9],
        &[17, 18, 19, 20, 21, 22, 23],
    ),
    (3, &[0, 1, 2, 4, 5, 6, 7, 8, 9], &[24, 25, 26, 27, 28, 29]),
    (4, &[0, 1, 2, 3, 5, 6, 7, 8, 9], &[30, 31, 32, 33, 34]),
    (5, &[0, 1, 2, 3, 4, 6, 7, 8, 9], &[35, 36, 37, 38]),
    (6, &[0, 1, 2, 3, 4, 5, 7, 8, 9], &[39, 40, 41]),
    (7, &[0, 1, 2, 3, 4, 5, 6, 8, 9], &[42, 43]),
    (8, &[0, 1, 2, 3, 4, 5, 6, 7, 9], &[44]),
    (9, &[0, 1, 2, 3, 4, 5, 6, 7, 8], &[]),
];

// Makes links of each member with all others, all that are missing or none.
fn assert_linked<S: Store>(rt: &impl Abort, alloc: Global, tried: &mut Tried<S>, missing: bool) {
    for (caller, others, made) in CLIQUE {
        let answer = if missing { Answer::Made(made) } else { NONE };
        assert!(rt;
            links(tried, alloc, 0, Way::With, *caller, others, answer),
            "{caller}"
        );
    }
    assert!(rt; tried.store.link_count() == 45);
}

const OF_THE_LAST: Look = Look::LinksOf(9, &[8, 16, 23, 29, 34, 38, 41, 43, 44]);

fn assert_clique<S: Store>(rt: &impl Abort, alloc: Global) {
    let mut tried: Tried<S> = acted(rt, alloc, &[], TEN);
    assert_linked(rt, alloc, &mut tried, true);
    assert_linked(rt, alloc, &mut tried, false);
    let last = tried.answers(alloc, OF_THE_LAST);
    let_go(tried);
    assert!(rt; last);
}

#[test]
fn a_clique_of_ten_has_forty_five_links(rt: HostRuntime) {
    assert_clique::<Plain>(&rt, rt.alloc());
    assert_clique::<Indexed>(&rt, rt.alloc());
}

// A turtle makes a link to another one, and then is to make one without a direction.
const ANOTHER_KIND: &[Act] = &[
    (
        Call::Create(0, 20, false),
        Answer::Made(&[0, 1]),
        &[Look::Links(&[])],
    ),
    (Call::Link(0, Way::To, 0, &[1]), Answer::Made(&[0]), &[]),
    (
        Call::Link(0, Way::With, 0, &[1]),
        LINK_FAULT,
        &[Look::Links(&[0]), Look::Link(0, 0, true, 0, 1)],
    ),
];

#[test]
fn a_link_of_the_other_kind_is_a_fault(rt: HostRuntime) {
    assert_acts(&rt, rt.alloc(), &[], ANOTHER_KIND);
}

const THREE: &[Step] = &[
    Step::Bear(0, HERE, None, 0),
    Step::Bear(FOXES, HERE, None, 1),
    Step::Bear(OWLS, HERE, None, 2),
];

// Where nothing is made, what was there stays.
const BOTH_WAYS: &[Act] = &[
    (Call::Link(0, Way::To, 0, &[1]), Answer::Made(&[0]), &[]),
    (Call::Link(0, Way::From, 0, &[1]), Answer::Made(&[1]), &[]),
    (
        Call::Link(0, Way::To, 1, &[0]),
        NONE,
        &[
            Look::Links(&[0, 1]),
            Look::Link(0, 0, true, 0, 1),
            Look::Link(1, 0, true, 1, 0),
        ],
    ),
    (
        Call::Link(0, Way::To, 0, &[0, 2]),
        LINK_FAULT,
        &[Look::Links(&[0, 1])],
    ),
    (
        Call::Link(0, Way::With, 0, &[1, 2]),
        LINK_FAULT,
        &[
            Look::Links(&[0, 1]),
            Look::Turtles(&[0, 1, 2]),
            Look::Link(0, 0, true, 0, 1),
        ],
    ),
    (
        Call::Link(0, Way::With, 0, &[]),
        NONE,
        &[Look::Links(&[0, 1])],
    ),
    (
        Call::Link(ROPES, Way::With, 2, &[0, 1]),
        Answer::Made(&[2, 3]),
        &[
            Look::Link(2, ROPES, false, 0, 2),
            Look::Link(3, ROPES, false, 1, 2),
            Look::Links(&[0, 1, 2, 3]),
        ],
    ),
];

#[test]
fn links_of_no_breed_are_of_one_kind(rt: HostRuntime) {
    assert_acts(&rt, rt.alloc(), THREE, BOTH_WAYS);
}

// Of a breed too, each way is a link of its own.
const WIRED: &[Act] = &[
    (Call::Link(WIRES, Way::To, 0, &[1]), Answer::Made(&[0]), &[]),
    (Call::Link(WIRES, Way::To, 1, &[0]), Answer::Made(&[1]), &[]),
    (Call::Link(WIRES, Way::From, 1, &[0]), NONE, &[]),
    (
        Call::Link(WIRES, Way::From, 2, &[0, 1]),
        Answer::Made(&[2, 3]),
        &[
            Look::Links(&[0, 1, 2, 3]),
            Look::Link(0, WIRES, true, 0, 1),
            Look::Link(1, WIRES, true, 1, 0),
            Look::Link(2, WIRES, true, 0, 2),
            Look::Link(3, WIRES, true, 1, 2),
        ],
    ),
    // Links of a breed stand in the way of none of another.
    (
        Call::Link(0, Way::With, 1, &[0, 2]),
        Answer::Made(&[4, 5]),
        &[
            Look::Link(4, 0, false, 0, 1),
            Look::Link(5, 0, false, 1, 2),
            Look::Unbreeded(false, 2),
        ],
    ),
];

#[test]
fn links_with_a_direction_lead_both_ways(rt: HostRuntime) {
    assert_acts(&rt, rt.alloc(), THREE, WIRED);
}

const WITHOUT_DIRECTION: &[Act] = &[
    (
        Call::Link(ROPES, Way::With, 0, &[1]),
        Answer::Made(&[0]),
        &[],
    ),
    (Call::Link(0, Way::With, 2, &[0]), Answer::Made(&[1]), &[]),
    (
        Call::Link(0, Way::From, 0, &[1, 2]),
        LINK_FAULT,
        &[Look::Links(&[0, 1])],
    ),
    (Call::Link(0, Way::To, 0, &[]), NONE, &[]),
    (
        Call::Link(0, Way::With, 2, &[2]),
        LINK_FAULT,
        &[Look::Links(&[0, 1])],
    ),
    (
        Call::Link(0, Way::With, 0, &[1, 2]),
        Answer::Made(&[2]),
        &[
            Look::Links(&[0, 1, 2]),
            Look::Link(0, ROPES, false, 0, 1),
            Look::Link(1, 0, false, 0, 2),
            Look::Link(2, 0, false, 0, 1),
        ],
    ),
];

#[test]
fn a_link_without_direction_is_made_once(rt: HostRuntime) {
    assert_acts(&rt, rt.alloc(), THREE, WITHOUT_DIRECTION);
}

// Also of a breed, and where links to the others could be made.
const WITH_ITSELF: &[Act] = &[
    (Call::Link(0, Way::With, 1, &[1]), LINK_FAULT, &[]),
    (Call::Link(0, Way::From, 1, &[0, 1]), LINK_FAULT, &[]),
    (Call::Link(WIRES, Way::To, 1, &[0, 1, 2]), LINK_FAULT, &[]),
    (
        Call::Link(ROPES, Way::With, 1, &[1, 2]),
        LINK_FAULT,
        &[Look::Links(&[]), Look::Turtles(&[0, 1, 2])],
    ),
];

#[test]
fn a_link_of_a_turtle_with_itself_is_a_fault(rt: HostRuntime) {
    assert_acts(&rt, rt.alloc(), THREE, WITH_ITSELF);
}

// One link at a time: made, left where it is there already, and refused.
const ONE_BY_ONE: &[Act] = &[
    (
        Call::LinkOne(0, Way::With, 1, 0),
        Answer::Done,
        &[Look::Links(&[0]), Look::Link(0, 0, false, 0, 1)],
    ),
    (
        Call::LinkOne(0, Way::With, 0, 1),
        Answer::Done,
        &[Look::Links(&[0])],
    ),
    (
        Call::LinkOne(0, Way::To, 0, 2),
        LINK_FAULT,
        &[Look::Links(&[0])],
    ),
    (
        Call::LinkOne(0, Way::To, 0, 1),
        LINK_FAULT,
        &[Look::Links(&[0])],
    ),
    (
        Call::LinkOne(ROPES, Way::With, 2, 2),
        LINK_FAULT,
        &[Look::Links(&[0])],
    ),
    (
        Call::LinkOne(WIRES, Way::From, 0, 2),
        Answer::Done,
        &[Look::Links(&[0, 1]), Look::Link(1, WIRES, true, 2, 0)],
    ),
    (
        Call::LinkOne(WIRES, Way::To, 0, 2),
        Answer::Done,
        &[Look::Links(&[0, 1, 2]), Look::Link(2, WIRES, true, 0, 2)],
    ),
    (
        Call::LinkOne(WIRES, Way::To, 2, 0),
        Answer::Done,
        &[Look::Links(&[0, 1, 2]), Look::LinksOf(0, &[0, 1, 2])],
    ),
];

#[test]
fn a_link_to_one_other_is_made_or_nothing_is_changed(rt: HostRuntime) {
    assert_acts(&rt, rt.alloc(), THREE, ONE_BY_ONE);
}
