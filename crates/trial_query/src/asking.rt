//! Queries as plain data, asked of stores. Numbers are in millionths.
ghost use Rattle.std.specs.Prelude.{◌≡◌};
ghost use Rattle.nl_agentset.specs.Queries.{word_breed_fits};

use crate::giving::{Given, values_of};
use nl_agents::{Layout, Owner, Steps, Store, View};
use nl_agentset::{QueryFail, QueryWord, query, query_word};
use nl_agentset_query::words::Whole;
use nl_draw::Stream;
use nl_grid::Shape;
use nl_plain::Plain;
use nl_store::Indexed;
use nl_value::{AgentSet, Items, Value};
use std::alloc::Global;
use std::marker::Brand;
use std::process::Abort;
use std::sync::ledger::{Blank, Ledger};
use trial_stores::Tried;
use trial_stores::trial_model::{FOXES, ROPES, WIRES, program};
use trial_stores::trials::{Scene, Step, Wanted, proceed};

// Turtle 0 has the serial 2, is of no breed, faces east and stands at 2 0. Turtles 1 and 3 are foxes at -2 0 and at 0.4 -1.2, turtle 2 has
// died, and turtle 4 with link 4. In x the world goes on behind its sides. Places are in tenths here.
const WORLD: &[Scene] = &[(
    &[
        Step::Bear(0, (0, 0), None, 0),
        Step::Bear(0, (0, 0), None, 1),
        Step::ClearTurtles,
        Step::Bear(0, (20, 0), None, 2),
        Step::Bear(FOXES, (-20, 0), None, 3),
        Step::Bear(FOXES, (0, 0), None, 4),
        Step::Bear(FOXES, (4, -12), None, 5),
        Step::Kill(4),
        Step::Set(Owner::Turtle(2), "heading", 900, Wanted::Number(0)),
        Step::Tie(WIRES, true, 5, 2, 0),
        Step::Tie(WIRES, true, 2, 5, 1),
        Step::Tie(ROPES, false, 2, 3, 2),
        Step::Tie(0, false, 2, 3, 3),
        Step::Bear(0, (0, 0), None, 6),
        Step::Tie(0, false, 3, 6, 4),
        Step::Kill(6),
    ],
    &[],
)];

/// An answer.
#[derive(Clone, Copy, Debug)]
pub(crate) enum Told {
    Number(i64),
    Truth(bool),
    Nobody,
    Turtle(u64),
    Patch(u32),
    Link(u64),
    All,
    AllPatches,
    AllLinks,
    Breed(u32),
    LinkBreed(u32),
    Turtles(&'static [u64]),
    Patches(&'static [u64]),
    Links(&'static [u64]),
    Numbers(&'static [i64]),
    /// A set that lists so many members, or a list of so many items.
    Many(usize),
    Fail(QueryFail),
}

/// A word, perhaps of a breed, with its inputs and its answer.
pub(crate) type Row = (u16, Option<u32>, &'static [Given], Told);

// Whether the word may be of the breed.
fn may_be_of(word: QueryWord, breed: Option<u32>, layout: &Layout) -> bool
    ensures { result ≡ word_breed_fits layout.now word breed }
{
    match (word, breed) {
        (QueryWord::Whole(Whole::Turtles), Some(breed)) => layout.is_turtle_breed(breed),
        (QueryWord::Whole(Whole::Links), Some(breed)) => layout.is_link_breed(breed),
        _ => true,
    }
}

// What a store answers. None where the conditions of the call don't hold, and where the inputs want memory.
fn asked<S: Store, L: Ledger>(
    alloc: Global,
    blank: Blank,
    tried: &Tried<S>,
    caller: Owner,
    row: Row,
    stream: &mut Stream,
) -> Option<Result<Value, QueryFail>>
    requires name { blank.name ≡ L.name }
    requires parts { blank.parts ≡ L.parts }
    requires one { blank.parts ≡ 1 }
{
    let (code, breed, given, _) = row;
    let mut steps = Steps::<L>::new(blank);
    let inputs = values_of(alloc, tried, given)?;
    let word = query_word(code)?;
    if !may_be_of(word, breed, &tried.layout) || !tried.owner_lives(caller) {
        return None;
    }
    let view = View::new(&tried.store, &tried.layout);
    Some(query(
        alloc, code, breed, caller, &inputs, &view, stream, &mut steps,
    ))
}

fn are_counts(items: &Items, counts: &[i64]) -> bool {
    if items.len() != counts.len() {
        return false;
    }
    for (at, count) in counts.iter().enumerate() {
        match items.get(at) {
            Some(Value::Number(number)) if number.millionths() == *count => {}
            _ => return false,
        }
    }
    true
}

fn is_set(set: &AgentSet, told: Told) -> bool {
    match (set, told) {
        (AgentSet::Turtles, Told::All) => true,
        (AgentSet::Patches, Told::AllPatches) => true,
        (AgentSet::Links, Told::AllLinks) => true,
        (AgentSet::Breed(breed), Told::Breed(other)) => *breed == other,
        (AgentSet::LinkBreed(breed), Told::LinkBreed(other)) => *breed == other,
        (AgentSet::SomeTurtles(numbers), Told::Turtles(wanted)) => numbers.as_slice() == wanted,
        (AgentSet::SomePatches(numbers), Told::Patches(wanted)) => numbers.as_slice() == wanted,
        (AgentSet::SomeLinks(numbers), Told::Links(wanted)) => numbers.as_slice() == wanted,
        (AgentSet::SomeTurtles(numbers), Told::Many(many)) => numbers.len() == many,
        (AgentSet::SomePatches(numbers), Told::Many(many)) => numbers.len() == many,
        (AgentSet::SomeLinks(numbers), Told::Many(many)) => numbers.len() == many,
        _ => false,
    }
}

fn is_value(value: &Value, told: Told) -> bool {
    match (value, told) {
        (Value::Number(number), Told::Number(count)) => number.millionths() == count,
        (Value::Truth(truth), Told::Truth(true)) => *truth,
        (Value::Truth(truth), Told::Truth(false)) => !*truth,
        (Value::Nobody, Told::Nobody) => true,
        (Value::Turtle(turtle), Told::Turtle(other)) => *turtle == other,
        (Value::Patch(patch), Told::Patch(other)) => *patch == other,
        (Value::Link(link), Told::Link(other)) => *link == other,
        (Value::Items(items), Told::Numbers(counts)) => are_counts(items, counts),
        (Value::Items(items), Told::Many(many)) => items.len() == many,
        (Value::Set(set), told) => is_set(set, told),
        _ => false,
    }
}

fn is_answer(answer: &Result<Value, QueryFail>, told: Told) -> bool {
    match (answer, told) {
        (Ok(value), told) => is_value(value, told),
        (Err(fail), Told::Fail(other)) => *fail == other,
        _ => false,
    }
}

// Lets go of a thing by one call: what ends inside of a function is walked there, once on each way out.
fn let_go<T: Drop>(_thing: T) {}

/// Whether a store answers what the row says, at the seed 42.
pub(crate) fn tells<S: Store>(alloc: Global, tried: &Tried<S>, caller: Owner, row: Row) -> bool {
    let mut stream = Stream::new(42);
    let Some(answer) = asked::<S, Brand>(alloc, Blank::new(1), tried, caller, row, &mut stream)
    else {
        return false;
    };
    let told = is_answer(&answer, row.3);
    let_go(answer);
    told
}

/// A store of a shape on which scenes were played.
pub(crate) fn started<S: Store>(
    rt: &impl Abort,
    alloc: Global,
    shape: Option<Shape>,
    scenes: &[Scene],
) -> Tried<S> {
    let (Some(model), Some(shape)) = (program(alloc), shape) else {
        panic!(rt);
    };
    let Some(mut tried) = Tried::<S>::of(alloc, model, shape) else {
        panic!(rt);
    };
    let wrong = proceed(alloc, &mut tried, scenes);
    assert!(rt; wrong.is_none(), "{wrong:?}");
    tried
}

fn assert_over<S: Store>(rt: &impl Abort, alloc: Global, caller: Owner, rows: &[Row]) {
    let shape = Shape::new(-2, 2, -2, 2, true, false);
    let tried = started::<S>(rt, alloc, shape, WORLD);
    for row in rows {
        assert!(rt; tells(alloc, &tried, caller, *row), "{row:?}");
    }
}

/// Asks each store that there is all of this.
pub(crate) fn assert_rows(rt: &impl Abort, alloc: Global, caller: Owner, rows: &[Row]) {
    assert_over::<Plain>(rt, alloc, caller, rows);
    assert_over::<Indexed>(rt, alloc, caller, rows);
}

pub(crate) const CALLER: Owner = Owner::Turtle(2);

pub(crate) const ONE: i64 = 1_000_000;
