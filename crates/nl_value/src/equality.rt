//! When two values are the same.
ghost use Rattle.std.specs.Prelude.{◌≡◌, false, IsTrue, IfOk, IsOk};
ghost use Rattle.nl_value.specs.Plain.{PlainItems, PlainSet, PlainTurtle, PlainLink, plains};
ghost use Rattle.nl_value.specs.Living.{fits, all_fit};
ghost use Rattle.nl_value.specs.Equality.{same_values, same_lists, is_gone};
ghost use Rattle.nl_value.specs.Memory.{holds_set, some_hold_set};
ghost use Rattle.nl_value.specs.inner.Contents.{equals_number, equals_truth, equals_words, equals_turtle, equals_patch, equals_link};
ghost use Rattle.nl_value.specs.Views.{plain};

use crate::life::Life;
use crate::sets::AgentSet;
use crate::values::{Items, Value};
use nl_fixed::{NoMemory, Num};
use std::alloc::Global;

impl Value {
    fn is_number(&self, number: Num) -> bool
        ensures { result ≡ equals_number number (plain self.now) }
    {
        match self {
            Value::Number(other) => number.millionths() == other.millionths(),
            _ => false,
        }
    }

    fn is_truth(&self, truth: bool) -> bool
        ensures { result ≡ equals_truth truth (plain self.now) }
    {
        match self {
            Value::Truth(other) => truth == *other,
            _ => false,
        }
    }

    fn is_words(&self, words: &[u8]) -> bool
        ensures { result ≡ equals_words words.now (plain self.now) }
    {
        match self.text() {
            Some(other) => words == other,
            None => false,
        }
    }

    fn is_turtle(&self, turtle: u64) -> bool
        ensures { result ≡ equals_turtle turtle (plain self.now) }
    {
        match self {
            Value::Turtle(other) => turtle == *other,
            _ => false,
        }
    }

    fn is_patch(&self, patch: u32) -> bool
        ensures { result ≡ equals_patch patch (plain self.now) }
    {
        match self {
            Value::Patch(other) => patch == *other,
            _ => false,
        }
    }

    fn is_link(&self, link: u64) -> bool
        ensures { result ≡ equals_link link (plain self.now) }
    {
        match self {
            Value::Link(other) => link == *other,
            _ => false,
        }
    }

    /// Whether the value is nobody or an agent that doesn't live.
    pub fn is_gone<L: Life>(&self, life: &L) -> bool
        ensures { result ≡ is_gone (L.living life.now) (plain self.now) }
    {
        match self {
            Value::Turtle(turtle) => !life.turtle_lives(*turtle),
            Value::Link(link) => !life.link_lives(*link),
            Value::Nobody => true,
            _ => false,
        }
    }
}

/// The turtle against a value.
fn same_as_turtle<L: Life>(turtle: u64, value: &Value, life: &L) -> bool
    ensures { result ≡ same_values (L.living life.now) (PlainTurtle turtle) (plain value.now) }
{
    if life.turtle_lives(turtle) {
        value.is_turtle(turtle)
    } else {
        value.is_gone(life)
    }
}

/// The link against a value.
fn same_as_link<L: Life>(link: u64, value: &Value, life: &L) -> bool
    ensures { result ≡ same_values (L.living life.now) (PlainLink link) (plain value.now) }
{
    if life.link_lives(link) {
        value.is_link(link)
    } else {
        value.is_gone(life)
    }
}

/// The set against a value.
fn same_as_set<L: Life>(
    alloc: Global,
    set: &AgentSet,
    value: &Value,
    life: &L,
) -> Result<bool, NoMemory>
    requires first { IsTrue (fits (L.living life.now) (PlainSet set.now)) }
    requires second { IsTrue (fits (L.living life.now) (plain value.now)) }
    ensures { let w = L.living life.now in
        IfOk result (λ same. same ≡ same_values w (PlainSet set.now) (plain value.now)) }
{
    match value {
        Value::Set(other) => life.same_members(alloc, set, other),
        _ => Ok(false),
    }
}

/// The list against a value.
#[cycle(same)]
fn same_as_items<L: Life>(
    alloc: Global,
    items: &Items,
    value: &Value,
    life: &L,
) -> Result<bool, NoMemory>
    requires first { IsTrue (all_fit (L.living life.now) (plains items.now)) }
    requires second { IsTrue (fits (L.living life.now) (plain value.now)) }
    ensures same { let w = L.living life.now in
        IfOk result (λ same. same ≡ same_values w (PlainItems (plains items.now)) (plain value.now)) }
    ensures without { some_hold_set (plains items.now) ≡ false → IsOk result }
{
    match value {
        Value::Items(others) => same_items(alloc, items, others, life),
        _ => Ok(false),
    }
}

/// The items of two lists, one against one.
#[cycle(same)]
fn same_items<L: Life>(
    alloc: Global,
    items: &Items,
    others: &Items,
    life: &L,
) -> Result<bool, NoMemory>
    requires first { IsTrue (all_fit (L.living life.now) (plains items.now)) }
    requires second { IsTrue (all_fit (L.living life.now) (plains others.now)) }
    ensures same { let w = L.living life.now in
        IfOk result (λ same. same ≡ same_lists w (plains items.now) (plains others.now)) }
    ensures without { some_hold_set (plains items.now) ≡ false → IsOk result }
{
    let others = &others.list;
    if items.list.len() != others.len() {
        return Ok(false);
    }
    for (i, item) in items.list.iter().enumerate() {
        if !same(alloc, item, &others[i], life)? {
            return Ok(false);
        }
    }
    Ok(true)
}

/// Whether the values are the same: numbers, truths and texts by content, lists item by item, agents by number, sets where
/// they are of one kind and have the same living members. A dead agent is nobody, and values of different kinds differ.
#[cycle(same)]
pub fn same<L: Life>(alloc: Global, a: &Value, b: &Value, life: &L) -> Result<bool, NoMemory>
    requires first { IsTrue (fits (L.living life.now) (plain a.now)) }
    requires second { IsTrue (fits (L.living life.now) (plain b.now)) }
    ensures same { let w = L.living life.now in
        IfOk result (λ same. same ≡ same_values w (plain a.now) (plain b.now)) }
    ensures without { holds_set (plain a.now) ≡ false → IsOk result }
{
    match a {
        Value::Number(number) => Ok(b.is_number(*number)),
        Value::Truth(truth) => Ok(b.is_truth(*truth)),
        Value::Words(words) => Ok(b.is_words(words.as_bytes())),
        Value::Blank => Ok(b.is_words(&[])),
        Value::Items(items) => same_as_items(alloc, items, b, life),
        Value::Turtle(turtle) => Ok(same_as_turtle(*turtle, b, life)),
        Value::Patch(patch) => Ok(b.is_patch(*patch)),
        Value::Link(link) => Ok(same_as_link(*link, b, life)),
        Value::Nobody => Ok(b.is_gone(life)),
        Value::Set(set) => same_as_set(alloc, set, b, life),
    }
}
