//! Stores to which memory is refused: a call that is refused leaves the store as it was.
//!
//! With ample memory each call is made. Where `rt try --test --fail-alloc` has one allocation fail, the call was made whole or not at all.

use nl_agents::{Owner, Store};
use nl_plain::Plain;
use nl_store::Indexed;
use std::alloc::Global;
use std::process::Abort;
use trial_stores::asking::Listed;
use trial_stores::trial_model::{FOXES, OWLS, ROPES, WIRES, program};
use trial_stores::trials::{Look, Step, Tried, Wanted};

const HERE: (i64, i64) = (0, 0);

const ZERO: Wanted = Wanted::Number(0);

const FIRST: &[Step] = &[
    Step::Bear(FOXES, HERE, None, 0),
    Step::Bear(0, (10, 0), None, 1),
    Step::Tie(WIRES, true, 0, 1, 0),
    Step::Set(Owner::Turtle(0), "den", 30, ZERO),
];

// What is true before a call that may be refused. No answer takes memory.
const BEFORE: &[Look] = &[
    Look::Turtle(0, FOXES, HERE),
    Look::Turtle(1, 0, (10, 0)),
    Look::Unbreeded(false, 0),
    Look::Link(0, WIRES, true, 0, 1),
    Look::Holds(Owner::Turtle(0), "den", Wanted::Number(30)),
    Look::DeadTurtle(2),
    Look::DeadLink(1),
];

// A call, and what is true after it.
type Trial = (Step, &'static [Look]);

const TRIALS: &[Trial] = &[
    (
        Step::Bear(OWLS, HERE, None, 2),
        &[Look::Turtle(2, OWLS, HERE), Look::DeadTurtle(3)],
    ),
    (
        Step::Bear(FOXES, HERE, Some(0), 2),
        &[
            Look::Turtle(2, FOXES, HERE),
            Look::Holds(Owner::Turtle(2), "den", Wanted::Number(30)),
        ],
    ),
    (
        Step::Tie(ROPES, false, 1, 0, 1),
        &[Look::Link(1, ROPES, false, 1, 0), Look::DeadLink(2)],
    ),
    (
        Step::Tie(0, false, 0, 1, 1),
        &[Look::Link(1, 0, false, 0, 1), Look::Unbreeded(false, 1)],
    ),
    (Step::Copy, BEFORE),
];

fn plays<S: Store>(tried: &mut Tried<S>, alloc: Global, steps: &[Step]) -> bool {
    for step in steps {
        if !tried.play(alloc, *step) {
            return false;
        }
    }
    true
}

// A store with two turtles and a link. None at want of memory.
fn begun<S: Store>(alloc: Global) -> Option<Tried<S>> {
    let mut tried = Tried::new(alloc, program(alloc)?)?;
    if !plays(&mut tried, alloc, FIRST) {
        return None;
    }
    Some(tried)
}

fn assert_whole<S: Store>(rt: &impl Abort, alloc: Global, call: Step, after: &[Look]) {
    let Some(mut tried) = begun::<S>(alloc) else {
        return;
    };
    let looks = if tried.play(alloc, call) {
        after
    } else {
        BEFORE
    };
    for look in looks {
        assert!(rt; tried.answers(alloc, *look), "{call:?}: {look:?}");
    }
}

#[test]
fn a_call_is_made_whole_or_not_at_all(rt: HostRuntime) {
    for (call, after) in TRIALS {
        assert_whole::<Plain>(&rt, rt.alloc(), *call, after);
        assert_whole::<Indexed>(&rt, rt.alloc(), *call, after);
    }
}

// ---- many calls

const MANY: u64 = 20;

// Foxes at one place, each second one of the first.
fn birth(serial: u64) -> Step {
    let parent = if serial % 2 == 1 { Some(0) } else { None };
    Step::Bear(FOXES, HERE, parent, serial)
}

// Links from the first fox to each other one.
fn spoke(serial: u64) -> Step {
    Step::Tie(ROPES, false, 0, serial.saturating_add(1), serial)
}

// Whether so many foxes live, and so many links from the first one to the next ones, and all else is dead.
fn live<S: Store>(tried: &Tried<S>, alloc: Global, turtles: u64, links: u64) -> bool {
    for turtle in 0..turtles {
        if !tried.answers(alloc, Look::Turtle(turtle, FOXES, HERE)) {
            return false;
        }
    }
    for link in 0..links {
        let other = link.saturating_add(1);
        if !tried.answers(alloc, Look::Link(link, ROPES, false, 0, other)) {
            return false;
        }
    }
    tried.answers(alloc, Look::DeadTurtle(turtles)) && tried.answers(alloc, Look::DeadLink(links))
}

// Whether these are all that is listed. The links of the first fox are asked for where it lives.
fn list<S: Store>(tried: &Tried<S>, alloc: Global, turtles: u64, links: u64) -> bool {
    tried.counts_up(alloc, Listed::Turtles, turtles)
        && tried.counts_up(alloc, Listed::OfBreed(FOXES), turtles)
        && tried.counts_up(alloc, Listed::On(HERE), turtles)
        && tried.counts_up(alloc, Listed::Links, links)
        && (turtles == 0 || tried.counts_up(alloc, Listed::LinksOf(0), links))
}

// Whether the call is made, and where it is refused, nothing is changed and it is made once more.
fn is_made<S: Store>(
    tried: &mut Tried<S>,
    alloc: Global,
    call: Step,
    turtles: u64,
    links: u64,
) -> bool {
    if tried.play(alloc, call) {
        return true;
    }
    live(tried, alloc, turtles, links)
        && list(tried, alloc, turtles, links)
        && tried.play(alloc, call)
}

fn are_born<S: Store>(tried: &mut Tried<S>, alloc: Global) -> bool {
    for serial in 0..MANY {
        if !is_made(tried, alloc, birth(serial), serial, 0) {
            return false;
        }
    }
    true
}

fn are_tied<S: Store>(tried: &mut Tried<S>, alloc: Global) -> bool {
    for serial in 0..MANY - 1 {
        if !is_made(tried, alloc, spoke(serial), MANY, serial) {
            return false;
        }
    }
    true
}

// Of the lists one may be refused, and is asked for again.
fn assert_many<S: Store>(rt: &impl Abort, alloc: Global) {
    let Some(model) = program(alloc) else {
        return;
    };
    let Some(mut tried) = Tried::<S>::new(alloc, model) else {
        return;
    };
    assert!(rt; are_born(&mut tried, alloc));
    assert!(rt; are_tied(&mut tried, alloc));
    assert!(rt; live(&tried, alloc, MANY, MANY - 1));
    let listed = list(&tried, alloc, MANY, MANY - 1) || list(&tried, alloc, MANY, MANY - 1);
    assert!(rt; listed);
}

#[test]
fn a_call_that_is_refused_among_many_can_be_made_again(rt: HostRuntime) {
    assert_many::<Plain>(&rt, rt.alloc());
    assert_many::<Indexed>(&rt, rt.alloc());
}
