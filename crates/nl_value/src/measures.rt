//! The size and the depth of values.
ghost use Rattle.std.specs.Prelude.{◌≡◌, ◌+◌, max, min, map};
ghost use Rattle.nl_value.specs.Measures.{listed, size_of, sizes_of, depth_of, deepest_of};
ghost use Rattle.nl_value.specs.Limits.{within_limits};
ghost use Rattle.nl_value.specs.Plain.{PlainItems, plains};
ghost use Rattle.nl_value.specs.Views.{plain};

use crate::sets::AgentSet;
use crate::values::{Items, Value};

/// How much a value takes at most.
pub const MOST_SIZE: u64 = 1_000_000;

/// How deep a value nests at most.
pub const MOST_DEPTH: u32 = 200;

impl AgentSet {
    /// How many members the set lists: 0 for all agents of a kind or a breed.
    fn listed_count(&self) -> u64
        ensures { result ≡ listed self.now }
    {
        match self {
            AgentSet::SomeTurtles(numbers) => numbers.len() as u64,
            AgentSet::SomePatches(numbers) => numbers.len() as u64,
            AgentSet::SomeLinks(numbers) => numbers.len() as u64,
            AgentSet::Turtles
            | AgentSet::Breed(_)
            | AgentSet::Patches
            | AgentSet::Links
            | AgentSet::LinkBreed(_) => 0,
        }
    }
}

/// The sum of the values' sizes, or the greatest u64 where it is greater.
pub(crate) fn sizes(values: &[Value]) -> u64
    ensures { result ≡ min (sizes_of (plains (map plain values.now))) u64.MAX }
{
    let mut total = 0u64;
    for value in values {
        total = total.saturating_add(value.size());
    }
    total
}

/// The greatest depth of the values and 0 where there are none, or the greatest u32 where it is greater.
pub(crate) fn depths(values: &[Value]) -> u32
    ensures { result ≡ min (deepest_of (plains (map plain values.now))) u32.MAX }
{
    let mut deepest = 0u32;
    for value in values {
        deepest = deepest.max(value.depth());
    }
    deepest
}

/// The sum of the values' sizes, where it is known together with that of one that is gone.
pub(crate) fn sizes_without(values: &[Value], sum: u64, gone: &Value) -> u64
    requires { sum ≡ min (sizes_of (plains (map plain values.now)) + size_of (plain gone.now)) u64.MAX }
    ensures { result ≡ min (sizes_of (plains (map plain values.now))) u64.MAX }
{
    if sum < u64::MAX {
        sum - gone.size()
    } else {
        sizes(values)
    }
}

/// The greatest depth of the values, where it is known together with that of one that is gone.
pub(crate) fn depths_without(values: &[Value], deepest: u32, gone: &Value) -> u32
    requires { deepest ≡ min (max (deepest_of (plains (map plain values.now))) (depth_of (plain gone.now))) u32.MAX }
    ensures { result ≡ min (deepest_of (plains (map plain values.now))) u32.MAX }
{
    if gone.depth() < deepest {
        return deepest;
    }
    // What all values are that are no lists.
    if deepest == 1 && !values.is_empty() {
        return 1;
    }
    depths(values)
}

impl Items {
    /// Whether the list that has these items is within the limits on values, as `Value::is_within_limits` says it.
    pub fn are_within_limits(&self) -> bool
        ensures { result ≡ within_limits (PlainItems (plains self.now)) }
    {
        self.size < MOST_SIZE && self.depth < MOST_DEPTH
    }
}

impl Value {
    /// How much the value takes: 1, and for a text its bytes, for a list its items' sizes, and for a set its listed members
    /// besides. The greatest u64 stands for each greater size.
    pub fn size(&self) -> u64
        ensures { result ≡ min (size_of (plain self.now)) u64.MAX }
    {
        match self {
            Value::Words(words) => (words.as_bytes().len() as u64).saturating_add(1),
            Value::Items(items) => items.size.saturating_add(1),
            Value::Set(set) => set.listed_count().saturating_add(1),
            Value::Number(_)
            | Value::Truth(_)
            | Value::Blank
            | Value::Turtle(_)
            | Value::Patch(_)
            | Value::Link(_)
            | Value::Nobody => 1,
        }
    }

    /// How deep the value nests: 1, and for a list 1 more than its deepest item. The greatest u32 stands for each greater
    /// depth.
    pub fn depth(&self) -> u32
        ensures { result ≡ min (depth_of (plain self.now)) u32.MAX }
    {
        match self {
            Value::Items(items) => items.depth.saturating_add(1),
            Value::Words(_)
            | Value::Blank
            | Value::Set(_)
            | Value::Number(_)
            | Value::Truth(_)
            | Value::Turtle(_)
            | Value::Patch(_)
            | Value::Link(_)
            | Value::Nobody => 1,
        }
    }
    /// Whether the value is within the limits on values: a size of at most 1,000,000 and a depth of at most 200.
    pub fn is_within_limits(&self) -> bool
        ensures { result ≡ within_limits (plain self.now) }
    {
        self.size() <= MOST_SIZE && self.depth() <= MOST_DEPTH
    }
}
