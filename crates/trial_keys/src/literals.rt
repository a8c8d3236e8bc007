//! Literals of each kind, and texts that hold none.

use nl_experiment_keys::literals::{literal, number, whole};
use nl_fixed::{NoMemory, Str};
use nl_value::{Items, Value};
use std::alloc::Global;

// What a text holds.
#[derive(Clone, Copy, Debug)]
enum Held {
    Nothing,
    Number(i64),
    Truth(bool),
    Words(&'static str),
    Nobody,
    /// A list of these numbers, in millionths.
    Numbers(&'static [i64]),
    /// A list that holds one list, of so many lists in each other, of which the innermost is empty.
    Nested(usize),
}

fn is_count(value: &Value, wanted: i64) -> bool {
    match value {
        Value::Number(number) => number.millionths() == wanted,
        _ => false,
    }
}

fn are_counts(items: &Items, wanted: &[i64]) -> bool {
    if items.len() != wanted.len() {
        return false;
    }
    for (at, count) in wanted.iter().enumerate() {
        match items.get(at) {
            Some(value) => {
                if !is_count(value, *count) {
                    return false;
                }
            }
            None => return false,
        }
    }
    true
}

// Whether the list holds one list, and so on, so many times.
fn nests(items: &Items, times: usize) -> bool {
    let mut inner = items;
    for _ in 1..times {
        match inner.get(0) {
            Some(Value::Items(items)) => inner = items,
            _ => return false,
        }
    }
    inner.is_empty()
}

fn is_held(value: &Value, wanted: Held) -> bool {
    match (value, wanted) {
        (Value::Number(number), Held::Number(count)) => number.millionths() == count,
        (Value::Truth(truth), Held::Truth(other)) => *truth == other,
        (Value::Words(text), Held::Words(other)) => text.as_bytes() == other.as_bytes(),
        (Value::Nobody, Held::Nobody) => true,
        (Value::Items(items), Held::Numbers(counts)) => are_counts(items, counts),
        (Value::Items(items), Held::Nested(times)) => nests(items, times),
        _ => false,
    }
}

fn holds(alloc: Global, text: &[u8], wanted: Held) -> bool {
    match literal(alloc, text) {
        Ok(Some(value)) => is_held(&value, wanted),
        Ok(None) => matches!(wanted, Held::Nothing),
        Err(NoMemory) => false,
    }
}

const TEXTS: &[(&[u8], Held)] = &[
    (b"3", Held::Number(3_000_000)),
    (b"; c\n 3", Held::Number(3_000_000)),
    (b"-0.5", Held::Number(-500_000)),
    (b"1e3 ; thousand", Held::Number(1_000_000_000)),
    (b"\"\"", Held::Words("")),
    (b" \"a \\\"b\\\"\" ", Held::Words("a \"b\"")),
    (b"true", Held::Truth(true)),
    (b"FALSE", Held::Truth(false)),
    (b"nobody", Held::Nobody),
    (b"Red", Held::Number(15_000_000)),
    (b"white", Held::Number(9_900_000)),
    (b"[]", Held::Numbers(&[])),
    (b"[1 2]", Held::Numbers(&[1_000_000, 2_000_000])),
    (b"[red 0.1]", Held::Numbers(&[15_000_000, 100_000])),
    (b"[[[]]]", Held::Nested(3)),
    (b"", Held::Nothing),
    (b"  ; nothing", Held::Nothing),
    (b"1 2", Held::Nothing),
    (b"[1] 2", Held::Nothing),
    (b"[1", Held::Nothing),
    (b"]", Held::Nothing),
    (b"(1)", Held::Nothing),
    (b"x", Held::Nothing),
    (b"[x]", Held::Nothing),
    (b"1 + 2", Held::Nothing),
    (b"- 1", Held::Nothing),
    (b"\"open", Held::Nothing),
    (b"9000000000001", Held::Nothing),
    (b"\xff", Held::Nothing),
];

#[test]
fn texts_hold_one_literal_or_none(rt: HostRuntime) {
    for (text, wanted) in TEXTS {
        assert!(rt; holds(rt.alloc(), text, *wanted), "{wanted:?}");
    }
}

fn is_number(alloc: Global, text: &[u8], wanted: Option<i64>) -> bool {
    match number(alloc, text) {
        Ok(Some(number)) => Some(number.millionths()) == wanted,
        Ok(None) => wanted == None,
        Err(NoMemory) => false,
    }
}

#[test]
fn texts_hold_numbers(rt: HostRuntime) {
    assert!(rt; is_number(rt.alloc(), b" 1.5 ", Some(1_500_000)));
    assert!(rt; is_number(rt.alloc(), b"blue", Some(105_000_000)));
    assert!(rt; is_number(rt.alloc(), b"true", None));
    assert!(rt; is_number(rt.alloc(), b"[1]", None));
    assert!(rt; is_number(rt.alloc(), b"1 1", None));
}

fn is_whole(integer: i64, wanted: Option<i64>) -> bool {
    match whole(integer) {
        Some(value) => match wanted {
            Some(count) => is_count(&value, count),
            None => false,
        },
        None => wanted == None,
    }
}

#[test]
fn whole_numbers_have_a_range(rt: HostRuntime) {
    assert!(rt; is_whole(0, Some(0)));
    assert!(rt; is_whole(-16, Some(-16_000_000)));
    assert!(rt; is_whole(9_000_000_000_000, Some(9_000_000_000_000_000_000)));
    assert!(rt; is_whole(9_000_000_000_001, None));
    assert!(rt; is_whole(i64::MIN, None));
}

// So many times one text, between a first and a last one. None at want of memory.
fn repeated(alloc: Global, first: &[u8], text: &[u8], times: usize, last: &[u8]) -> Option<Str> {
    let mut whole = Str::of(alloc, first).ok()?;
    for _ in 0..times {
        whole.append(alloc, text).ok()?;
    }
    whole.append(alloc, last).ok()?;
    Some(whole)
}

// How many items the list has that such a text holds; none where it holds no list.
fn items_of(alloc: Global, text: &[u8], times: usize) -> Option<usize> {
    let whole = repeated(alloc, b"[", text, times, b"]")?;
    match literal(alloc, whole.as_bytes()).ok()? {
        Some(Value::Items(items)) => Some(items.len()),
        _ => None,
    }
}

#[test]
fn long_lists_are_read_up_to_the_length_of_their_text(rt: HostRuntime) {
    let alloc = rt.alloc();
    assert_eq!(rt; items_of(alloc, b"1 ", 100_000), Some(100_000));
    // the text of the list has 1,000,001 bytes, and its size is 500,001
    assert_eq!(rt; items_of(alloc, b"1 ", 500_000), None);
}

// The length of the text that so many letters between quotes hold; none where they hold no literal.
fn letters_of(alloc: Global, times: usize) -> Option<usize> {
    let whole = repeated(alloc, b"\"", b"x", times, b"\"")?;
    match literal(alloc, whole.as_bytes()).ok()? {
        Some(Value::Words(text)) => Some(text.as_bytes().len()),
        _ => None,
    }
}

#[test]
fn long_texts_are_read_up_to_the_limit(rt: HostRuntime) {
    let alloc = rt.alloc();
    assert_eq!(rt; letters_of(alloc, 999_999), Some(999_999));
    assert_eq!(rt; letters_of(alloc, 1_000_000), None);
}

fn is_nested(alloc: Global, times: usize, wanted: Held) -> bool {
    let Some(opened) = repeated(alloc, b"", b"[", times, b"") else {
        return false;
    };
    let Some(whole) = repeated(alloc, opened.as_bytes(), b"]", times, b"") else {
        return false;
    };
    holds(alloc, whole.as_bytes(), wanted)
}

#[test]
fn lists_nest_up_to_the_limit(rt: HostRuntime) {
    assert!(rt; is_nested(rt.alloc(), 200, Held::Nested(200)));
    assert!(rt; is_nested(rt.alloc(), 201, Held::Nothing));
}
