//! Words at inputs of which nothing lives.
ghost use Rattle.std.specs.Prelude.{◌≡◌};

use crate::rows;
use nl_draw::Stream;
use nl_fixed::{Num, Str};
use nl_listops::words::value_word;
use nl_listops_series::ListFail;
use nl_value::laws::every_value_fits_no_life;
use nl_value::texts::text;
use nl_value::{AgentSet, Items, NoLife, Value};
use nl_words::codes;
use std::alloc::Global;
use std::process::Abort;
use std::test::Fail;

/// An input of a row.
#[derive(Clone, Copy)]
pub(crate) enum Given {
    /// A number in millionths.
    Millionths(i64),
    Whole(i64),
    True,
    False,
    Text(&'static str),
    /// A list of whole numbers.
    Wholes(&'static [i64]),
    /// A list of the texts b, é, a and b.
    Texts,
    /// A list of a truth, 2, a text, 1, another text and nobody.
    Mixed,
    DeadTurtle,
    DeadLink,
    Patch,
    Nobody,
    /// The set of all turtles.
    Set,
    /// A list of two dead turtles and a patch between them.
    Agents,
    /// Empty lists in each other, so many deep.
    Deep(u64),
    /// A list of the whole numbers from 0 to below this one.
    Below(i64),
    /// A text of so many times é, and an a.
    Accents(usize),
}

pub(crate) struct Row {
    pub(crate) code: u16,
    pub(crate) inputs: &'static [Given],
    pub(crate) answer: &'static str,
}

/// A word with the inputs that stand before and after the one from the step before.
pub(crate) struct Step {
    pub(crate) code: u16,
    pub(crate) before: &'static [Given],
    pub(crate) after: &'static [Given],
}

pub(crate) struct Chain {
    pub(crate) steps: &'static [Step],
    pub(crate) answer: &'static str,
}

fn wholes(alloc: Global, numbers: &[i64]) -> Result<Items, Fail> {
    let mut items = Items::empty(alloc);
    for n in numbers {
        let number = Num::whole(*n).ok_or("out of range")?;
        items.push(alloc, Value::Number(number))?;
    }
    Ok(items)
}

fn agents(alloc: Global) -> Result<Items, Fail> {
    let mut items = Items::empty(alloc);
    items.push(alloc, Value::Turtle(3))?;
    items.push(alloc, Value::Patch(2))?;
    items.push(alloc, Value::Turtle(1))?;
    Ok(items)
}

fn texts(alloc: Global) -> Result<Items, Fail> {
    let mut items = Items::empty(alloc);
    for text in ["b", "é", "a", "b"] {
        items.push(
            alloc,
            Value::words(alloc, Str::of(alloc, text.as_bytes())?)?,
        )?;
    }
    Ok(items)
}

fn mixed(alloc: Global) -> Result<Items, Fail> {
    let mut items = Items::empty(alloc);
    items.push(alloc, Value::Truth(true))?;
    items.push(alloc, Value::Number(Num::whole(2).ok_or("out of range")?))?;
    items.push(alloc, Value::words(alloc, Str::of(alloc, b"b")?)?)?;
    items.push(alloc, Value::Number(Num::whole(1).ok_or("out of range")?))?;
    items.push(alloc, Value::words(alloc, Str::of(alloc, b"a")?)?)?;
    items.push(alloc, Value::Nobody)?;
    Ok(items)
}

fn deep(alloc: Global, depth: u64) -> Result<Value, Fail> {
    let mut list = Value::items(alloc, Items::empty(alloc))?;
    for _ in 1..depth {
        let mut around = Items::empty(alloc);
        around.push(alloc, list)?;
        list = Value::items(alloc, around)?;
    }
    Ok(list)
}

fn below(alloc: Global, count: i64) -> Result<Items, Fail> {
    let mut items = Items::empty(alloc);
    for n in 0..count {
        items.push(alloc, Value::Number(Num::whole(n).ok_or("out of range")?))?;
    }
    Ok(items)
}

fn accents(alloc: Global, count: usize) -> Result<Str, Fail> {
    let mut text = Str::of_vec(Vec::new(alloc));
    for _ in 0..count {
        text.append(alloc, "é".as_bytes())?;
    }
    text.append(alloc, b"a")?;
    Ok(text)
}

fn value_of(alloc: Global, given: Given) -> Result<Value, Fail> {
    Ok(match given {
        Given::Millionths(n) => Value::Number(Num::new(n).ok_or("out of range")?),
        Given::Whole(n) => Value::Number(Num::whole(n).ok_or("out of range")?),
        Given::True => Value::Truth(true),
        Given::False => Value::Truth(false),
        Given::Text(text) => Value::words(alloc, Str::of(alloc, text.as_bytes())?)?,
        Given::Wholes(numbers) => Value::items(alloc, wholes(alloc, numbers)?)?,
        Given::Texts => Value::items(alloc, texts(alloc)?)?,
        Given::Mixed => Value::items(alloc, mixed(alloc)?)?,
        Given::DeadTurtle => Value::Turtle(7),
        Given::DeadLink => Value::Link(3),
        Given::Patch => Value::Patch(2),
        Given::Nobody => Value::Nobody,
        Given::Set => Value::set(alloc, AgentSet::Turtles)?,
        Given::Agents => Value::items(alloc, agents(alloc)?)?,
        Given::Deep(depth) => deep(alloc, depth)?,
        Given::Below(count) => Value::items(alloc, below(alloc, count)?)?,
        Given::Accents(count) => Value::words(alloc, accents(alloc, count)?)?,
    })
}

/// What the word answers in a world where nothing lives.
fn answer(alloc: Global, code: u16, inputs: &[Value]) -> Result<Value, ListFail> {
    every_value_fits_no_life();
    let Some(word) = value_word(code) else {
        return Err(ListFail::WrongType);
    };
    let mut stream = Stream::new(42);
    word.apply(alloc, inputs, &NoLife, &mut stream)
}

/// The text of what the word answers, or the name of its error.
fn told(alloc: Global, code: u16, given: &[Given]) -> Result<Str, Fail> {
    every_value_fits_no_life();
    let mut inputs = Items::empty(alloc);
    for one in given {
        let value = value_of(alloc, *one)?;
        inputs.push(alloc, value)?;
    }
    match answer(alloc, code, inputs.as_slice()) {
        Ok(value) => Ok(text(alloc, &value, true, &NoLife)?),
        Err(fail) => {
            let name = format!(in alloc; "{fail:?}")?;
            Ok(Str::of(alloc, name.as_bytes())?)
        }
    }
}

fn rows_hold(rt: &impl Abort, alloc: Global, rows: &[Row]) -> Result<(), Fail> {
    for row in rows {
        let answer = told(alloc, row.code, row.inputs)?;
        assert_eq!(rt; answer.as_bytes(), row.answer.as_bytes());
    }
    Ok(())
}

#[test]
fn words_of_numbers(rt: HostRuntime) -> Result<(), Fail> {
    rows_hold(&rt, rt.alloc(), rows::NUMBERS)
}

#[test]
fn words_of_truths_and_kinds(rt: HostRuntime) -> Result<(), Fail> {
    rows_hold(&rt, rt.alloc(), rows::TRUTHS)
}

#[test]
fn words_of_lists(rt: HostRuntime) -> Result<(), Fail> {
    rows_hold(&rt, rt.alloc(), rows::LISTS)?;
    rows_hold(&rt, rt.alloc(), rows::PLACES)?;
    rows_hold(&rt, rt.alloc(), rows::SEARCHES)
}

#[test]
fn words_of_texts(rt: HostRuntime) -> Result<(), Fail> {
    rows_hold(&rt, rt.alloc(), rows::TEXTS)?;
    rows_hold(&rt, rt.alloc(), rows::ENDS)
}

#[test]
fn words_of_statistics_colors_and_draws(rt: HostRuntime) -> Result<(), Fail> {
    rows_hold(&rt, rt.alloc(), rows::STATISTICS)
}

#[test]
fn dead_agents_are_nobody(rt: HostRuntime) -> Result<(), Fail> {
    rows_hold(&rt, rt.alloc(), rows::AGENTS)
}

/// What a step answers of the answer before it, which stands between its inputs.
fn stepped(alloc: Global, step: &Step, value: Value) -> Result<Value, Fail> {
    let mut inputs = Items::empty(alloc);
    for one in step.before {
        let given = value_of(alloc, *one)?;
        inputs.push(alloc, given)?;
    }
    inputs.push(alloc, value)?;
    for one in step.after {
        let given = value_of(alloc, *one)?;
        inputs.push(alloc, given)?;
    }
    Ok(answer(alloc, step.code, inputs.as_slice())?)
}

/// What the steps answer one after another.
fn chained(alloc: Global, first: Given, steps: &[Step]) -> Result<Value, Fail> {
    let mut value = value_of(alloc, first)?;
    for step in steps {
        value = stepped(alloc, step, value)?;
    }
    Ok(value)
}

fn chains_hold(rt: &impl Abort, alloc: Global, first: Given, chains: &[Chain]) -> Result<(), Fail> {
    every_value_fits_no_life();
    for chain in chains {
        let answer = chained(alloc, first, chain.steps)?;
        let printed = text(alloc, &answer, true, &NoLife)?;
        assert_eq!(rt; printed.as_bytes(), chain.answer.as_bytes());
    }
    Ok(())
}

#[test]
fn deep_lists_are_answered(rt: HostRuntime) -> Result<(), Fail> {
    chains_hold(&rt, rt.alloc(), Given::Deep(200), rows::DEEP_LISTS)
}

#[test]
fn long_lists_are_answered(rt: HostRuntime) -> Result<(), Fail> {
    chains_hold(&rt, rt.alloc(), Given::Below(100_000), rows::LONG_LISTS)
}

#[test]
fn long_lists_have_answers(rt: HostRuntime) -> Result<(), Fail> {
    chains_hold(&rt, rt.alloc(), Given::Below(100_000), rows::LONG_ANSWERS)
}

#[test]
fn long_texts_are_answered(rt: HostRuntime) -> Result<(), Fail> {
    chains_hold(&rt, rt.alloc(), Given::Accents(100_000), rows::LONG_TEXTS)
}
