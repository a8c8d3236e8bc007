//! As many turtles and links as may live, made by the calls of `nl_birth`. Each table runs over every store that there is.
//!
//! Numbers and coordinates are in tenths.

use crate::making::{Act, Answer, Call, NONE, act, acted, copies, go_on, links, links_one};
use nl_agents::Store;
use nl_birth::{BirthFail, Way};
use nl_plain::Plain;
use nl_store::Indexed;
use std::alloc::Global;
use std::process::Abort;
use trial_stores::Tried;
use trial_stores::asking::Listed;
use trial_stores::trial_model::{FOXES, OWLS};
use trial_stores::trials::{Look, Place, Scene, Step};

const MOST_TURTLES: usize = 200_000;

const MOST_LINKS: usize = 400_000;

const HERE: Place = (0, 0);

const TOO_MANY: Answer = Answer::Fails(BirthFail::TooMany);

const FLOOD: &[Act] = &[(
    Call::Create(0, 2_000_010, true),
    TOO_MANY,
    &[
        Look::Turtle(0, 0, HERE),
        Look::Turtle(199_999, 0, HERE),
        Look::DeadTurtle(200_000),
    ],
)];

// Whether as many turtles as may live stand at the origin, all of no breed, and each list has them all.
fn lists_everyone<S: Store>(tried: &Tried<S>, alloc: Global) -> bool {
    let count = MOST_TURTLES as u64;
    tried.counts_up(alloc, Listed::Turtles, count)
        && tried.counts_up(alloc, Listed::OfBreed(0), count)
        && tried.counts_up(alloc, Listed::On(HERE), count)
}

fn assert_flooded<S: Store>(rt: &impl Abort, alloc: Global, tried: &mut Tried<S>) {
    assert!(rt; tried.store.turtle_count() == MOST_TURTLES);
    assert!(rt; lists_everyone(tried, alloc));
    assert!(rt; copies(tried, alloc));
    assert!(rt; lists_everyone(tried, alloc));
}

fn assert_flood<S: Store>(rt: &impl Abort, alloc: Global) {
    let mut tried: Tried<S> = acted(rt, alloc, &[], FLOOD);
    assert_flooded(rt, alloc, &mut tried);
}

#[test]
fn of_200001_turtles_200000_are_created(rt: HostRuntime) {
    assert_flood::<Plain>(&rt, rt.alloc());
    assert_flood::<Indexed>(&rt, rt.alloc());
}

// The last ones that fit are hatched, and stay; then none is made, whichever way.
const FULL: &[Act] = &[
    (
        Call::Create(0, 1_999_900, true),
        Answer::Many(0, 199_990),
        &[],
    ),
    (
        Call::Sprout((14, -15), OWLS, 50),
        Answer::Many(199_990, 5),
        &[Look::On((10, -10), &[199_990, 199_991, 199_992, 199_993, 199_994])],
    ),
    (
        Call::Hatch(199_990, FOXES, 60),
        TOO_MANY,
        &[
            Look::OfBreed(FOXES, &[199_995, 199_996, 199_997, 199_998, 199_999]),
            Look::Turtle(199_999, FOXES, (10, -10)),
            Look::DeadTurtle(200_000),
        ],
    ),
    (Call::Hatch(0, 0, 10), TOO_MANY, &[]),
    (Call::Create(FOXES, 10, true), TOO_MANY, &[]),
    (Call::Create(FOXES, 10, false), TOO_MANY, &[]),
    (Call::Sprout(HERE, FOXES, 10), TOO_MANY, &[]),
    (Call::Create(FOXES, 9, true), NONE, &[]),
    (Call::Create(FOXES, -10, false), NONE, &[]),
    (Call::Sprout(HERE, FOXES, 0), NONE, &[]),
    (
        Call::Hatch(0, FOXES, 9),
        NONE,
        &[Look::OfBreed(FOXES, &[199_995, 199_996, 199_997, 199_998, 199_999])],
    ),
];

const TWO_DIE: &[Scene] = &[(&[Step::Kill(3), Step::Kill(199_996)], &[])];

const TWO_SPROUT: &[Act] = &[(
    Call::Sprout((-20, 10), OWLS, 30),
    TOO_MANY,
    &[
        Look::On((-20, 10), &[200_000, 200_001]),
        Look::Turtle(200_001, OWLS, (-20, 10)),
        Look::DeadTurtle(200_002),
        Look::DeadTurtle(3),
    ],
)];

fn assert_most_live<S: Store>(rt: &impl Abort, tried: &Tried<S>) {
    assert!(rt; tried.store.turtle_count() == MOST_TURTLES);
}

fn assert_full<S: Store>(rt: &impl Abort, alloc: Global) {
    let mut tried: Tried<S> = acted(rt, alloc, &[], FULL);
    assert_most_live(rt, &tried);
    go_on(rt, alloc, &mut tried, TWO_DIE);
    act(rt, alloc, &mut tried, TWO_SPROUT);
    assert_most_live(rt, &tried);
}

#[test]
fn those_that_fit_are_born_and_stay(rt: HostRuntime) {
    assert_full::<Plain>(&rt, rt.alloc());
    assert_full::<Indexed>(&rt, rt.alloc());
}

const EVERYONE: &[Act] = &[(
    Call::Create(0, 2_000_000, true),
    Answer::Many(0, MOST_TURTLES),
    &[],
)];

// The serials of so many turtles but one.
fn others(alloc: Global, count: u64, without: u64) -> Option<Vec<u64>> {
    let mut numbers = Vec::new(alloc);
    for number in 0..count {
        if number != without {
            numbers.push(number).ok()?;
        }
    }
    Some(numbers)
}

// Whether a turtle makes links with all others of so many, and the call answers so.
fn links_among<S: Store>(
    tried: &mut Tried<S>,
    alloc: Global,
    count: u64,
    caller: u64,
    answer: Answer,
) -> bool {
    match others(alloc, count, caller) {
        Some(numbers) => links(tried, alloc, 0, Way::With, caller, &numbers, answer),
        None => false,
    }
}

// Whether a turtle makes links with all others that may live, and the call answers so.
fn links_all<S: Store>(tried: &mut Tried<S>, alloc: Global, caller: u64, answer: Answer) -> bool {
    links_among(tried, alloc, MOST_TURTLES as u64, caller, answer)
}

// Whether as many links as may live are listed, and of the first turtle those with all others.
fn lists_web<S: Store>(tried: &Tried<S>, alloc: Global) -> bool {
    tried.counts_up(alloc, Listed::Links, MOST_LINKS as u64)
        && tried.counts_up(alloc, Listed::LinksOf(0), MOST_TURTLES as u64 - 1)
}

// As many links are made as may live, and no more.
fn assert_linked<S: Store>(rt: &impl Abort, alloc: Global, tried: &mut Tried<S>) {
    assert!(rt; links_all(tried, alloc, 0, Answer::Many(0, 199_999)));
    assert!(rt; links_all(tried, alloc, 1, Answer::Many(199_999, 199_998)));
    assert!(rt; links_all(tried, alloc, 2, TOO_MANY));
    assert!(rt; tried.store.link_count() == MOST_LINKS);
    assert!(rt; links_one(tried, alloc, 0, Way::With, 10, 11, TOO_MANY));
    assert!(rt; links_one(tried, alloc, 0, Way::With, 1, 11, Answer::Done));
    assert!(rt; tried.store.link_count() == MOST_LINKS);
}

// The links are listed and copied.
fn assert_listed<S: Store>(rt: &impl Abort, alloc: Global, tried: &mut Tried<S>) {
    assert!(rt; lists_web(tried, alloc));
    assert!(rt; copies(tried, alloc));
    assert!(rt; lists_web(tried, alloc));
    // The three for which there was room.
    assert!(rt; tried.answers(alloc, Look::LinksOf(4, &[3, 200_001, 399_998])));
}

fn assert_cleared<S: Store>(rt: &impl Abort, alloc: Global, tried: &mut Tried<S>) {
    assert!(rt; tried.play(alloc, Step::ClearTurtles));
    assert!(rt; tried.store.turtle_count() == 0 && tried.store.link_count() == 0);
    assert!(rt; tried.store.base() == 200_000);
}

fn assert_web<S: Store>(rt: &impl Abort, alloc: Global) {
    let mut tried: Tried<S> = acted(rt, alloc, &[], EVERYONE);
    assert_linked(rt, alloc, &mut tried);
    assert_listed(rt, alloc, &mut tried);
    assert_cleared(rt, alloc, &mut tried);
}

#[test]
fn four_hundred_thousand_links_may_live_and_be_cleared(rt: HostRuntime) {
    assert_web::<Plain>(&rt, rt.alloc());
    assert_web::<Indexed>(&rt, rt.alloc());
}

const CROWD: u64 = 1_001;

const CROWD_IS_BORN: &[Act] = &[(
    Call::Create(0, 10_010, true),
    Answer::Many(0, CROWD as usize),
    &[],
)];

const HUB_DIES: &[Scene] = &[(
    &[Step::Kill(0)],
    &[
        Look::Links(&[]),
        Look::Unbreeded(false, 0),
        Look::LinksOf(1, &[]),
        Look::LinksOf(1_000, &[]),
        Look::DeadTurtle(0),
        Look::DeadLink(0),
        Look::DeadLink(999),
    ],
)];

fn assert_hub_dies<S: Store>(rt: &impl Abort, alloc: Global, tried: &mut Tried<S>) {
    assert!(rt; links_among(tried, alloc, CROWD, 0, Answer::Many(0, 1_000)));
    go_on(rt, alloc, tried, HUB_DIES);
    assert!(rt; tried.store.turtle_count() == 1_000);
}

fn assert_star<S: Store>(rt: &impl Abort, alloc: Global) {
    let mut tried: Tried<S> = acted(rt, alloc, &[], CROWD_IS_BORN);
    assert_hub_dies(rt, alloc, &mut tried);
}

#[test]
fn a_thousand_links_die_with_their_turtle(rt: HostRuntime) {
    assert_star::<Plain>(&rt, rt.alloc());
    assert_star::<Indexed>(&rt, rt.alloc());
}
