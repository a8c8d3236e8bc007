//! Values that share a list: what is made of one leaves the others as they are, and no list is walked to be copied or measured.
#![tactic(auto, using(nl_value::proofs::Fitting::fits_no_life))]

use nl_fixed::{NoMemory, Num};
use nl_value::life::NoLife;
use nl_value::texts::{TextFail, text};
use nl_value::values::{Items, Value};
use std::alloc::Global;
use std::rc::Rc;

fn let_go<T: Drop>(_thing: T) {}

/// Whether the answer is there and is yes.
fn holds<E: Drop>(answer: Result<bool, E>) -> bool {
    matches!(&answer, Ok(true))
}

/// Whether the text of the value is this one.
fn reads(alloc: Global, value: &Value, wanted: &[u8]) -> Result<bool, TextFail> {
    let printed = text(alloc, value, false, &NoLife)?;
    Ok(printed.as_bytes() == wanted)
}

/// The list of a truth and the value.
fn list_with(alloc: Global, value: Value) -> Result<Value, NoMemory> {
    let mut items = Items::empty(alloc);
    items.push(alloc, Value::Truth(true))?;
    items.push(alloc, value)?;
    Value::items(alloc, items)
}

/// The list, taken from the value that holds it, with nobody behind its items.
fn with_nobody(alloc: Global, shared: Rc<Items>) -> Result<Value, NoMemory> {
    let mut items = Items::taken(alloc, shared)?;
    items.push(alloc, Value::Nobody)?;
    Value::items(alloc, items)
}

/// The same of a list, and any other value as it is.
fn longer(alloc: Global, value: Value) -> Result<Value, NoMemory> {
    match value {
        Value::Items(shared) => with_nobody(alloc, shared),
        other => Ok(other),
    }
}

/// Whether a list that two values hold is made longer in one of them, and stays in the other.
fn is_longer_in_one(alloc: Global) -> Result<bool, TextFail> {
    let inner = list_with(alloc, Value::Nobody)?;
    let value = list_with(alloc, inner)?;
    let again = value.copy(alloc)?;
    let more = longer(alloc, again)?;
    let is_longer = reads(alloc, &more, b"[true [true nobody] nobody]")?;
    let stays = reads(alloc, &value, b"[true [true nobody]]")?;
    let_go(more);
    let_go(value);
    Ok(is_longer && stays)
}

/// Whether a list that one value holds is made longer.
fn is_longer_alone(alloc: Global) -> Result<bool, TextFail> {
    let value = list_with(alloc, Value::Nobody)?;
    let more = longer(alloc, value)?;
    let answer = reads(alloc, &more, b"[true nobody nobody]")?;
    let_go(more);
    Ok(answer)
}

#[test]
fn a_list_of_two_values_is_changed_in_one_of_them_alone(rt: HostRuntime) {
    assert!(rt; holds(is_longer_in_one(rt.alloc())));
    assert!(rt; holds(is_longer_alone(rt.alloc())));
}

/// The list that has the value twice.
fn twice(alloc: Global, value: Value) -> Result<Value, NoMemory> {
    let mut items = Items::empty(alloc);
    items.push(alloc, value.copy(alloc)?)?;
    items.push(alloc, value)?;
    Value::items(alloc, items)
}

/// A list that has nobody twice, and so many times over the list before it twice.
fn doubled(alloc: Global, times: u32) -> Result<Value, NoMemory> {
    let mut value = Value::Nobody;
    for _ in 0..times {
        value = twice(alloc, value)?;
    }
    Ok(value)
}

/// Whether the list that was doubled so often has this size, one more than its doublings of depth, and is within the limits or isn't.
fn measures(alloc: Global, times: u32, size: u64, within: bool) -> Result<bool, NoMemory> {
    let value = doubled(alloc, times)?;
    let is_so = value.size() == size && value.depth() == times.saturating_add(1);
    let answer = is_so && value.is_within_limits() == within;
    let_go(value);
    Ok(answer)
}

// A list that was doubled 40 times would take weeks to be walked.
#[test]
fn a_list_that_has_itself_twice_is_measured_at_once(rt: HostRuntime) {
    let alloc = rt.alloc();
    assert!(rt; holds(measures(alloc, 1, 3, true)));
    assert!(rt; holds(measures(alloc, 18, 524_287, true)));
    assert!(rt; holds(measures(alloc, 19, 1_048_575, false)));
    assert!(rt; holds(measures(alloc, 40, 2_199_023_255_551, false)));
    assert!(rt; holds(measures(alloc, 70, u64::MAX, false)));
}

/// A list of so many numbers.
fn many(alloc: Global, count: usize) -> Result<Value, NoMemory> {
    match Num::whole(1) {
        Some(one) => Value::items(alloc, Items::filled(alloc, one, count)?),
        None => Ok(Value::Nobody),
    }
}

/// Whether so many copies of a list of 100,000 numbers, one after the other, are as large as the list.
fn are_copied(alloc: Global, times: u32) -> Result<bool, NoMemory> {
    let mut value = many(alloc, 100_000)?;
    for _ in 0..times {
        value = value.copy(alloc)?;
    }
    let answer = value.size() == 100_001;
    let_go(value);
    Ok(answer)
}

#[test]
fn a_list_of_100_000_numbers_is_copied_a_million_times(rt: HostRuntime) {
    assert!(rt; holds(are_copied(rt.alloc(), 1_000_000)));
}
