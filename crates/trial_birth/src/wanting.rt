//! Births and links to which memory is refused: those that were made before it stay, and nothing else is changed.
//!
//! With ample memory all are made. Where `rt try --test --fail-alloc` has one allocation fail, the first of them were made.

use crate::making::{Answer, Call, makes};
use nl_agents::{Owner, Store};
use nl_birth::Way;
use nl_draw::Stream;
use nl_plain::Plain;
use nl_store::Indexed;
use std::alloc::Global;
use std::process::Abort;
use trial_stores::Tried;
use trial_stores::trial_model::{FOXES, OWLS, ROPES, WIRES, program};
use trial_stores::trials::{Look, Step, Wanted};

const HERE: (i64, i64) = (0, 0);

const FIRST: &[Step] = &[
    Step::Bear(FOXES, HERE, None, 0),
    Step::Bear(0, (10, 0), None, 1),
    Step::Bear(OWLS, (20, 0), None, 2),
    Step::Tie(WIRES, true, 0, 1, 0),
    Step::Set(Owner::Turtle(0), "den", 30, Wanted::Number(0)),
];

// What is true before a call and after it. No answer takes memory.
const ALWAYS: &[Look] = &[
    Look::Turtle(0, FOXES, HERE),
    Look::Turtle(1, 0, (10, 0)),
    Look::Turtle(2, OWLS, (20, 0)),
    Look::Link(0, WIRES, true, 0, 1),
    Look::Holds(Owner::Turtle(0), "den", Wanted::Number(30)),
    Look::Base(0),
];

const TURTLES: usize = 3;

const LINKS: usize = 1;

// A call with its answer, and how many turtles and links it makes.
type Trial = (Call, Answer, usize, usize);

const TRIALS: &[Trial] = &[
    (
        Call::Create(FOXES, 30, true),
        Answer::Made(&[3, 4, 5]),
        3,
        0,
    ),
    (Call::Create(0, 20, false), Answer::Made(&[3, 4]), 2, 0),
    (
        Call::Sprout((10, 10), OWLS, 20),
        Answer::Made(&[3, 4]),
        2,
        0,
    ),
    (Call::Hatch(0, FOXES, 20), Answer::Made(&[3, 4]), 2, 0),
    (Call::Hatch(0, OWLS, 10), Answer::Made(&[3]), 1, 0),
    (
        Call::Link(ROPES, Way::With, 1, &[0, 2]),
        Answer::Made(&[1, 2]),
        0,
        2,
    ),
    (
        Call::Link(WIRES, Way::To, 0, &[1, 2]),
        Answer::Made(&[1]),
        0,
        1,
    ),
    (Call::LinkOne(ROPES, Way::With, 1, 0), Answer::Done, 0, 1),
    (Call::LinkOne(WIRES, Way::To, 0, 1), Answer::Done, 0, 0),
];

// One link is made, or nothing is changed.
const ONE: &[Trial] = &[(Call::LinkOne(ROPES, Way::With, 1, 0), Answer::Done, 0, 1)];

fn plays<S: Store>(tried: &mut Tried<S>, alloc: Global, steps: &[Step]) -> bool {
    for step in steps {
        if !tried.play(alloc, *step) {
            return false;
        }
    }
    true
}

// A store with three turtles and a link. None at want of memory.
fn begun<S: Store>(alloc: Global) -> Option<Tried<S>> {
    let mut tried = Tried::new(alloc, program(alloc)?)?;
    if !plays(&mut tried, alloc, FIRST) {
        return None;
    }
    Some(tried)
}

// Whether the turtles and links that live are those of the first serials.
fn are_first<S: Store>(store: &S) -> bool {
    for turtle in 0..store.turtle_count() as u64 {
        if !store.turtle_lives(turtle) {
            return false;
        }
    }
    for link in 0..store.link_count() as u64 {
        if !store.link_lives(link) {
            return false;
        }
    }
    true
}

// Whether there are as many as before, or so many more at the most; and just so many where all were made.
fn is_count(count: usize, before: usize, more: usize, all: bool) -> bool {
    let most = before.saturating_add(more);
    if all {
        count == most
    } else {
        before <= count && count <= most
    }
}

// Makes the call, after which all that it makes live, or the first ones.
fn assert_made<S: Store>(rt: &impl Abort, alloc: Global, tried: &mut Tried<S>, trial: &Trial) {
    let (call, answer, turtles, links) = *trial;
    let all = makes(tried, alloc, &mut Stream::new(42), call, answer);
    assert!(rt;
        is_count(tried.store.turtle_count(), TURTLES, turtles, all),
        "{call:?}"
    );
    assert!(rt;
        is_count(tried.store.link_count(), LINKS, links, all),
        "{call:?}"
    );
    assert!(rt; are_first(&tried.store), "{call:?}");
}

// Asks what is true before a call and after it.
fn assert_unchanged<S: Store>(rt: &impl Abort, alloc: Global, tried: &Tried<S>, call: Call) {
    for look in ALWAYS {
        assert!(rt; tried.answers(alloc, *look), "{call:?}: {look:?}");
    }
}

fn assert_kept<S: Store>(rt: &impl Abort, alloc: Global, trial: &Trial) {
    let Some(mut tried) = begun::<S>(alloc) else {
        return;
    };
    assert_made(rt, alloc, &mut tried, trial);
    assert_unchanged(rt, alloc, &tried, trial.0);
}

// Makes the call, after which the link that it makes lives, or none but those from before.
fn assert_one_made<S: Store>(rt: &impl Abort, alloc: Global, tried: &mut Tried<S>, trial: &Trial) {
    let (call, answer, _, links) = *trial;
    let done = makes(tried, alloc, &mut Stream::new(42), call, answer);
    let more = if done { links } else { 0 };
    assert!(rt;
        is_count(tried.store.link_count(), LINKS, more, true),
        "{call:?}"
    );
}

fn assert_one<S: Store>(rt: &impl Abort, alloc: Global, trial: &Trial) {
    let Some(mut tried) = begun::<S>(alloc) else {
        return;
    };
    assert_one_made(rt, alloc, &mut tried, trial);
}

#[test]
fn one_link_is_made_or_nothing_is_changed(rt: HostRuntime) {
    for trial in ONE {
        assert_one::<Plain>(&rt, rt.alloc(), trial);
        assert_one::<Indexed>(&rt, rt.alloc(), trial);
    }
}

#[test]
fn what_was_made_before_memory_is_refused_stays(rt: HostRuntime) {
    for trial in TRIALS {
        assert_kept::<Plain>(&rt, rt.alloc(), trial);
        assert_kept::<Indexed>(&rt, rt.alloc(), trial);
    }
}
