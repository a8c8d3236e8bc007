//! Acts over very many agents, and the longest name of an experiment: that they have memory far past the usual.

use crate::deeds::{Deed, ME, NO_ONE, Row, is_done, is_right, staged};
use crate::given::Given::Agent;
use crate::told::Told;
use nl_agents::{Owner, Store};
use nl_exec_acts::{OfRun, Stage};
use nl_fixed::Str;
use nl_listops::ValueWord;
use nl_listops::words::OfList;
use nl_plain::Plain;
use nl_store::Indexed;
use nl_value::Value;
use std::alloc::Global;
use trial_stores::naming::Named;
use trial_stores::trial_model::{FOXES, program};
use trial_stores::trials::{Step, Tried};

const CROWD: u64 = 100_000;

const SPOKES: u64 = 2_000;

// Whether so many foxes are born at the origin.
fn bears<S: Store>(alloc: Global, tried: &mut Tried<S>, count: u64) -> bool {
    for serial in 0..count {
        if !tried.play(alloc, Step::Bear(FOXES, (0, 0), None, serial)) {
            return false;
        }
    }
    true
}

// Whether so many links are made, each from the first turtle to the next one.
fn ties<S: Store>(alloc: Global, tried: &mut Tried<S>, count: u64) -> bool {
    for link in 0..count {
        if !tried.play(alloc, Step::Tie(0, false, 0, link + 1, link)) {
            return false;
        }
    }
    true
}

fn crowded<S: Store>(alloc: Global) -> Option<Tried<S>> {
    let model = program(alloc)?;
    let mut tried = Tried::<S>::new(alloc, model)?;
    if bears(alloc, &mut tried, CROWD) && ties(alloc, &mut tried, SPOKES) {
        Some(tried)
    } else {
        None
    }
}

const SORT: Deed = Deed::Values(ValueWord::OfList(OfList::Sort));

const ROWS: &[Row] = &[
    (
        SORT,
        ME,
        NO_ONE,
        &[Agent(Named::Turtles)],
        Told::Many(100_000),
        &[],
    ),
    (
        SORT,
        ME,
        NO_ONE,
        &[Agent(Named::Breed(FOXES))],
        Told::Many(100_000),
        &[],
    ),
    (
        SORT,
        ME,
        NO_ONE,
        &[Agent(Named::Links)],
        Told::Many(2_000),
        &[],
    ),
    (
        SORT,
        ME,
        NO_ONE,
        &[Agent(Named::Patches)],
        Told::Many(25),
        &[],
    ),
];

fn is_right_of_a_crowd<S: Store>(alloc: Global, row: &Row) -> bool {
    match crowded::<S>(alloc) {
        Some(tried) => is_right(alloc, tried, row),
        None => false,
    }
}

#[test]
fn a_hundred_thousand_agents_are_sorted(rt: HostRuntime) {
    for row in ROWS {
        assert!(rt; is_right_of_a_crowd::<Plain>(rt.alloc(), row));
        assert!(rt; is_right_of_a_crowd::<Indexed>(rt.alloc(), row));
    }
}

// A text may have at most 999,999 bytes.
const LONGEST: usize = 999_999;

fn name_of(alloc: Global, length: usize) -> Option<Str> {
    let mut bytes = Vec::new(alloc);
    for _byte in 0..length {
        bytes.push(b'x').ok()?;
    }
    Str::of(alloc, &bytes).ok()
}

// Whether the experiment has the name now.
fn names<S: Store>(alloc: Global, stage: &mut Stage<S>, name: Str) -> bool {
    let slot = stage.experiment;
    match Value::words(alloc, name) {
        Ok(name) => stage.store.set_var(Owner::Observer, slot, name).is_ok(),
        Err(_) => false,
    }
}

fn stage_of<S: Store>(alloc: Global) -> Option<Stage<S>> {
    let model = program(alloc)?;
    staged(Tried::<S>::new(alloc, model)?, None)
}

fn tells_a_name<S: Store>(alloc: Global, length: usize) -> bool {
    let Some(name) = name_of(alloc, length) else {
        return false;
    };
    let Some(mut stage) = stage_of::<S>(alloc) else {
        return false;
    };
    let row: Row = (
        Deed::Run(OfRun::Experiment),
        NO_ONE,
        NO_ONE,
        &[],
        Told::Bytes(length),
        &[],
    );
    names(alloc, &mut stage, name) && is_done(alloc, &row, &[], &mut stage)
}

#[test]
fn the_longest_name_of_an_experiment_is_told(rt: HostRuntime) {
    assert!(rt; tells_a_name::<Plain>(rt.alloc(), LONGEST));
    assert!(rt; tells_a_name::<Indexed>(rt.alloc(), LONGEST));
}
