//! What acts answer and what they leave, as plain data. Numbers and coordinates are in millionths.

use nl_agents::{Owner, Store};
use nl_draw::Stream;
use nl_exec_acts::{ActFail, ErrorKind, Stage};
use nl_fixed::Num;
use nl_value::{Items, Value};
use trial_stores::asking::is_wanted;
use trial_stores::trials::Wanted;

/// What an act answers.
#[derive(Clone, Copy)]
pub(crate) enum Told {
    Nobody,
    Number(i64),
    Truth(bool),
    Turtle(u64),
    Patch(u32),
    Link(u64),
    /// A list of numbers.
    Numbers(&'static [i64]),
    /// Lists of agents, by their serials or numbers.
    Turtles(&'static [u64]),
    Links(&'static [u64]),
    /// A list of so many items.
    Many(usize),
    /// A text of so many bytes.
    Bytes(usize),
    Fails(ErrorKind),
}

/// What is left after it.
#[derive(Clone, Copy)]
pub(crate) enum After {
    /// A turtle stands there.
    At(u64, (i64, i64)),
    /// A variable is this; numbers in tenths.
    Holds(Owner, u32, Wanted),
    /// So many live.
    Turtles(usize),
    Links(usize),
    Base(u64),
    Ticks(Option<i64>),
    /// The stream is that of a seed after so many draws.
    Drawn(u64, u64),
}

fn is_number(value: &Value, count: i64) -> bool {
    match value {
        Value::Number(number) => number.millionths() == count,
        _ => false,
    }
}

fn is_turtle(value: &Value, serial: u64) -> bool {
    match value {
        Value::Turtle(turtle) => *turtle == serial,
        _ => false,
    }
}

fn is_link(value: &Value, serial: u64) -> bool {
    match value {
        Value::Link(link) => *link == serial,
        _ => false,
    }
}

fn are_numbers(items: &Items, wanted: &[i64]) -> bool {
    for (item, count) in items.as_slice().iter().zip(wanted) {
        if !is_number(item, *count) {
            return false;
        }
    }
    items.len() == wanted.len()
}

fn are_turtles(items: &Items, wanted: &[u64]) -> bool {
    for (item, serial) in items.as_slice().iter().zip(wanted) {
        if !is_turtle(item, *serial) {
            return false;
        }
    }
    items.len() == wanted.len()
}

fn are_links(items: &Items, wanted: &[u64]) -> bool {
    for (item, serial) in items.as_slice().iter().zip(wanted) {
        if !is_link(item, *serial) {
            return false;
        }
    }
    items.len() == wanted.len()
}

fn is_list(items: &Items, told: Told) -> bool {
    match told {
        Told::Numbers(counts) => are_numbers(items, counts),
        Told::Turtles(serials) => are_turtles(items, serials),
        Told::Links(serials) => are_links(items, serials),
        Told::Many(count) => items.len() == count,
        _ => false,
    }
}

fn is_told(value: &Value, told: Told) -> bool {
    match (value, told) {
        (Value::Nobody, Told::Nobody) => true,
        (Value::Truth(truth), Told::Truth(wanted)) => *truth == wanted,
        (Value::Patch(patch), Told::Patch(wanted)) => *patch == wanted,
        (Value::Words(text), Told::Bytes(count)) => text.as_bytes().len() == count,
        (Value::Blank, Told::Bytes(count)) => count == 0,
        (Value::Items(items), told) => is_list(items, told),
        (value, Told::Number(count)) => is_number(value, count),
        (value, Told::Turtle(serial)) => is_turtle(value, serial),
        (value, Told::Link(serial)) => is_link(value, serial),
        _ => false,
    }
}

/// Whether an act answers this.
pub(crate) fn is_answer(answer: &Result<Value, ActFail>, told: Told) -> bool {
    match (answer, told) {
        (Err(ActFail::Error(error)), Told::Fails(wanted)) => *error == wanted,
        (Ok(value), told) => is_told(value, told),
        _ => false,
    }
}

fn holds<S: Store>(store: &S, owner: Owner, slot: u32, wanted: Wanted) -> bool {
    let lives = match owner {
        Owner::Observer => true,
        Owner::Turtle(turtle) => store.turtle_lives(turtle),
        Owner::Patch(patch) => patch < store.shape().patches(),
        Owner::Link(link) => store.link_lives(link),
    };
    lives && is_wanted(store.var(owner, slot), wanted)
}

fn stands<S: Store>(store: &S, turtle: u64, at: (i64, i64)) -> bool {
    if !store.turtle_lives(turtle) {
        return false;
    }
    let point = store.at(turtle);
    (point.x.millionths(), point.y.millionths()) == at
}

// Whether the stream is that of the seed after so many draws.
fn is_after(stream: &Stream, seed: u64, draws: u64) -> bool {
    let mut own = stream.copy();
    let mut other = Stream::new(seed);
    for _draw in 0..draws {
        let _drawn = other.draw(2);
    }
    own.draw(1_000_000_000_000) == other.draw(1_000_000_000_000)
}

fn is_count(ticks: Option<Num>, count: Option<i64>) -> bool {
    match (ticks, count) {
        (Some(ticks), Some(count)) => ticks.millionths() == count,
        (None, None) => true,
        _ => false,
    }
}

/// Whether this is left.
pub(crate) fn is_left<S: Store>(stage: &Stage<S>, after: After) -> bool {
    match after {
        After::At(turtle, at) => stands(&stage.store, turtle, at),
        After::Holds(owner, slot, wanted) => holds(&stage.store, owner, slot, wanted),
        After::Turtles(count) => stage.store.turtle_count() == count,
        After::Links(count) => stage.store.link_count() == count,
        After::Base(base) => stage.store.base() == base,
        After::Ticks(count) => is_count(stage.ticks, count),
        After::Drawn(seed, draws) => is_after(&stage.stream, seed, draws),
    }
}
