//! Agents and sets of stores as values: their text, equality and order. Each table runs over every store that there is.

use nl_agents::{Store, View};
use nl_plain::Plain;
use nl_store::Indexed;
use nl_value::equality::same;
use nl_value::order::before;
use nl_value::texts::text;
use std::alloc::Global;
use std::process::Abort;
use trial_stores::Tried;
use trial_stores::naming::Named;
use trial_stores::trial_model::{FOXES, OWLS, ROPES, WIRES, program};
use trial_stores::trials::{Look, Scene, Step, played};

fn prints<S: Store>(tried: &Tried<S>, alloc: Global, named: Named, wanted: &str) -> bool {
    let Some(value) = tried.value_of(alloc, named) else {
        return false;
    };
    match text(
        alloc,
        &value,
        false,
        &View::new(&tried.store, &tried.layout),
    ) {
        Ok(text) => text.as_bytes() == wanted.as_bytes(),
        Err(_) => false,
    }
}

// Whether two values are the same. None where one doesn't fit, and at want of memory.
fn compared<S: Store>(
    tried: &Tried<S>,
    alloc: Global,
    first: Named,
    second: Named,
) -> Option<bool> {
    let first = tried.value_of(alloc, first)?;
    let second = tried.value_of(alloc, second)?;
    match same(
        alloc,
        &first,
        &second,
        &View::new(&tried.store, &tried.layout),
    ) {
        Ok(same) => Some(same),
        Err(_) => None,
    }
}

fn ordered<S: Store>(tried: &Tried<S>, alloc: Global, first: Named, second: Named) -> Option<bool> {
    let first = tried.value_of(alloc, first)?;
    let second = tried.value_of(alloc, second)?;
    before(&first, &second, &View::new(&tried.store, &tried.layout))
}

// Who numbers begin anew behind a clear: turtle 2 is called 0. The owl is dead, and with it its rope.
const WORLD: &[Scene] = &[(
    &[
        Step::Bear(0, (0, 0), None, 0),
        Step::Bear(0, (0, 0), None, 1),
        Step::ClearTurtles,
        Step::Bear(0, (0, 0), None, 2),
        Step::Bear(FOXES, (0, 0), None, 3),
        Step::Bear(OWLS, (0, 0), None, 4),
        Step::Bear(0, (0, 0), None, 5),
        Step::Tie(0, false, 2, 3, 0),
        Step::Tie(WIRES, true, 2, 3, 1),
        Step::Tie(ROPES, false, 3, 4, 2),
        Step::Tie(0, false, 2, 5, 3),
        Step::Tie(WIRES, true, 3, 2, 4),
        Step::Tie(ROPES, false, 2, 3, 5),
        Step::Tie(ROPES, false, 2, 5, 6),
        Step::Tie(WIRES, true, 2, 5, 7),
        Step::Kill(4),
    ],
    &[
        Look::Turtles(&[2, 3, 5]),
        Look::Links(&[0, 1, 3, 4, 5, 6, 7]),
    ],
)];

// The store of the scene.
fn started<S: Store>(rt: &impl Abort, alloc: Global) -> Tried<S> {
    let Some(model) = program(alloc) else {
        panic!(rt);
    };
    match played(alloc, model, WORLD) {
        Ok(tried) => tried,
        Err(wrong) => panic!(rt; "{wrong:?}"),
    }
}

const TEXTS: &[(Named, &str)] = &[
    (Named::Turtle(5), "(turtle 3)"),
    (Named::Turtle(3), "(fox 1)"),
    (Named::Turtle(4), "nobody"),
    (Named::Turtle(0), "nobody"),
    (Named::Patch(23), "(patch 1 -2)"),
    (Named::Patch(0), "(patch -2 2)"),
    (Named::Link(0), "(link 0 1)"),
    (Named::Link(1), "(wire 0 1)"),
    (Named::Link(4), "(wire 1 0)"),
    (Named::Link(6), "(rope 0 3)"),
    (Named::Link(2), "nobody"),
    (Named::Turtles, "(agentset, 3 turtles)"),
    (Named::Breed(FOXES), "(agentset, 1 foxes)"),
    (Named::Breed(OWLS), "(agentset, 0 owls)"),
    (Named::SomeTurtles(3, 4), "(agentset, 1 turtles)"),
    (Named::Patches, "(agentset, 25 patches)"),
    (Named::SomePatches(0, 23), "(agentset, 2 patches)"),
    (Named::Links, "(agentset, 7 links)"),
    (Named::LinkBreed(WIRES), "(agentset, 3 wires)"),
    (Named::SomeLinks(1, 2), "(agentset, 1 links)"),
];

fn assert_texts<S: Store>(rt: &impl Abort, alloc: Global) {
    let tried = started::<S>(rt, alloc);
    for (named, wanted) in TEXTS {
        assert!(rt; prints(&tried, alloc, *named, wanted), "{named:?}");
    }
}

#[test]
fn agents_and_sets_of_a_store_have_these_texts(rt: HostRuntime) {
    assert_texts::<Plain>(&rt, rt.alloc());
    assert_texts::<Indexed>(&rt, rt.alloc());
}

// Dead agents are nobody; sets are the same where they are of one kind and have the same living members.
const SAME: &[(Named, Named, bool)] = &[
    (Named::Turtle(3), Named::Turtle(3), true),
    (Named::Turtle(3), Named::Turtle(2), false),
    (Named::Turtle(4), Named::Nobody, true),
    (Named::Turtle(4), Named::Turtle(0), true),
    (Named::Link(2), Named::Nobody, true),
    (Named::Link(2), Named::Turtle(4), true),
    (Named::Link(3), Named::Turtle(3), false),
    (Named::Link(0), Named::Link(1), false),
    (Named::Patch(3), Named::Patch(3), true),
    (Named::Breed(FOXES), Named::SomeTurtles(3, 4), true),
    (Named::Turtles, Named::SomeTurtles(2, 3), false),
    (Named::Breed(OWLS), Named::SomeTurtles(0, 1), true),
    (Named::Breed(OWLS), Named::SomeLinks(2, 9), false),
    (Named::LinkBreed(ROPES), Named::SomeLinks(5, 6), true),
    (Named::LinkBreed(WIRES), Named::SomeLinks(1, 4), false),
    (Named::SomePatches(0, 1), Named::SomePatches(0, 2), false),
];

fn assert_same<S: Store>(rt: &impl Abort, alloc: Global) {
    let tried = started::<S>(rt, alloc);
    for (first, second, wanted) in SAME {
        assert!(rt;
            compared(&tried, alloc, *first, *second) == Some(*wanted),
            "{first:?} and {second:?}"
        );
    }
}

#[test]
fn agents_and_sets_of_a_store_are_compared(rt: HostRuntime) {
    assert_same::<Plain>(&rt, rt.alloc());
    assert_same::<Indexed>(&rt, rt.alloc());
}

// Links go by their ends, then by breed, then by serial.
const ORDERED: &[(Named, Named, Option<bool>)] = &[
    (Named::Turtle(2), Named::Turtle(3), Some(true)),
    (Named::Turtle(5), Named::Turtle(3), Some(false)),
    (Named::Turtle(3), Named::Turtle(3), Some(false)),
    (Named::Patch(4), Named::Patch(23), Some(true)),
    (Named::Link(0), Named::Link(1), Some(true)),
    (Named::Link(5), Named::Link(3), Some(true)),
    (Named::Link(5), Named::Link(4), Some(true)),
    (Named::Link(4), Named::Link(7), Some(false)),
    (Named::Link(7), Named::Link(6), Some(true)),
    (Named::Turtle(2), Named::Patch(3), None),
    (Named::Turtle(4), Named::Turtle(5), None),
    (Named::Link(0), Named::Link(2), None),
    (Named::Turtles, Named::Turtles, None),
];

fn assert_ordered<S: Store>(rt: &impl Abort, alloc: Global) {
    let tried = started::<S>(rt, alloc);
    for (first, second, wanted) in ORDERED {
        assert!(rt;
            ordered(&tried, alloc, *first, *second) == *wanted,
            "{first:?} and {second:?}"
        );
    }
}

#[test]
fn agents_of_a_store_have_an_order(rt: HostRuntime) {
    assert_ordered::<Plain>(&rt, rt.alloc());
    assert_ordered::<Indexed>(&rt, rt.alloc());
}
