//! Values compared, ordered, printed and measured: the expected answers were written down by the rules.
#![tactic(auto, using(nl_value::proofs::Fitting::fits_no_life, crate::proofs::Fitting::fits_small))]

use crate::small_world::SmallWorld;
use Leaf::{Link, Nobody, Number, Patch, Truth, Turtle, Words};
use Members::{Breed, Links, Patches, SomeLinks, SomePatches, SomeTurtles, Turtles};
use Sample::{Deep, Falling, Letters, List, Nested, One, Set};
use nl_fixed::{NoMemory, Num, Str};
use nl_value::colors::{color_named, primary_colors};
use nl_value::equality::same;
use nl_value::life::NoLife;
use nl_value::order::{OrderKind, before, compare};
use nl_value::sets::{AgentSet, Serials};
use nl_value::texts::{TextFail, text};
use nl_value::values::{Items, Value};
use std::alloc::Global;
use std::process::Abort;
use std::test::Fail;

/// What a list of the tests holds.
#[derive(Clone, Copy)]
enum Leaf {
    /// So many millionths.
    Number(i64),
    Truth(bool),
    Words(&'static [u8]),
    Turtle(u64),
    Patch(u32),
    Link(u64),
    Nobody,
}

/// The members of a set: all of a kind, a breed, or two of a kind.
#[derive(Clone, Copy)]
enum Members {
    Turtles,
    Patches,
    Links,
    Breed(u32),
    SomeTurtles(u64, u64),
    SomePatches(u64, u64),
    SomeLinks(u64, u64),
}

/// What a value of the tests is made of. It holds no memory, so that a table of samples costs its proof little.
#[derive(Clone, Copy)]
enum Sample {
    One(Leaf),
    List(&'static [Leaf]),
    /// A list of a list and a leaf.
    Nested(&'static [Leaf], Leaf),
    Set(Members),
    /// A text of so many letters.
    Letters(usize),
    /// Nobody inside of so many lists.
    Deep(u32),
    /// Numbers from 100,000 down to 1.
    Falling,
}

/// Lets go of a thing by one call: a value that ends inside of a function is walked there variant by variant.
fn let_go<T: Drop>(_thing: T) {}

/// Whether the answer is there and is yes. A test asks so, and has one way out the less for each row.
fn holds<E: Drop>(answer: Result<bool, E>) -> bool {
    matches!(&answer, Ok(true))
}

/// Whether the answer is there and is no.
fn fails<E: Drop>(answer: Result<bool, E>) -> bool {
    matches!(&answer, Ok(false))
}

/// The number of so many millionths, which are in range.
fn number(millionths: i64) -> Value {
    match Num::new(millionths) {
        Some(number) => Value::Number(number),
        None => Value::Nobody,
    }
}

fn words(alloc: Global, bytes: &[u8]) -> Result<Value, NoMemory> {
    Value::words(alloc, Str::of(alloc, bytes)?)
}

fn leaf_of(alloc: Global, leaf: Leaf) -> Result<Value, NoMemory> {
    match leaf {
        Leaf::Number(millionths) => Ok(number(millionths)),
        Leaf::Truth(truth) => Ok(Value::Truth(truth)),
        Leaf::Words(bytes) => words(alloc, bytes),
        Leaf::Turtle(turtle) => Ok(Value::Turtle(turtle)),
        Leaf::Patch(patch) => Ok(Value::Patch(patch)),
        Leaf::Link(link) => Ok(Value::Link(link)),
        Leaf::Nobody => Ok(Value::Nobody),
    }
}

fn push_leaf(alloc: Global, items: &mut Items, leaf: Leaf) -> Result<(), NoMemory> {
    let value = leaf_of(alloc, leaf)?;
    items.push(alloc, value)
}

/// The list of these values.
fn list(alloc: Global, leaves: &[Leaf]) -> Result<Value, NoMemory> {
    let mut items = Items::empty(alloc);
    for leaf in leaves {
        push_leaf(alloc, &mut items, *leaf)?;
    }
    Value::items(alloc, items)
}

/// The list of the one value and a leaf.
fn list_and(alloc: Global, first: Value, second: Leaf) -> Result<Value, NoMemory> {
    let mut items = Items::empty(alloc);
    items.push(alloc, first)?;
    push_leaf(alloc, &mut items, second)?;
    Value::items(alloc, items)
}

/// The numbers of a slice that ascend from the first on.
fn serials(alloc: Global, first: u64, second: u64) -> Result<Serials, NoMemory> {
    let mut numbers = Serials::empty(alloc);
    numbers.push(alloc, first)?;
    if first < second {
        numbers.push(alloc, second)?;
    }
    Ok(numbers)
}

fn set_of(alloc: Global, members: Members) -> Result<AgentSet, NoMemory> {
    match members {
        Members::Turtles => Ok(AgentSet::Turtles),
        Members::Patches => Ok(AgentSet::Patches),
        Members::Links => Ok(AgentSet::Links),
        Members::Breed(breed) => Ok(AgentSet::Breed(breed)),
        Members::SomeTurtles(a, b) => Ok(AgentSet::SomeTurtles(serials(alloc, a, b)?)),
        Members::SomePatches(a, b) => Ok(AgentSet::SomePatches(serials(alloc, a, b)?)),
        Members::SomeLinks(a, b) => Ok(AgentSet::SomeLinks(serials(alloc, a, b)?)),
    }
}

/// The value of a sample.
fn made(alloc: Global, sample: Sample) -> Result<Value, NoMemory> {
    match sample {
        Sample::One(leaf) => leaf_of(alloc, leaf),
        Sample::List(leaves) => list(alloc, leaves),
        Sample::Nested(leaves, leaf) => list_and(alloc, list(alloc, leaves)?, leaf),
        Sample::Set(members) => Value::set(alloc, set_of(alloc, members)?),
        Sample::Letters(count) => letters(alloc, count),
        Sample::Deep(times) => nested(alloc, times),
        Sample::Falling => Value::items(alloc, falling(alloc)?),
    }
}

/// Whether the text of the value is this one.
fn reads(alloc: Global, value: &Value, quoted: bool, wanted: &str) -> Result<bool, TextFail> {
    let printed = text(alloc, value, quoted, &SmallWorld)?;
    Ok(printed.as_bytes() == wanted.as_bytes())
}

/// Whether the text of the sample's value is this one.
fn prints(alloc: Global, sample: Sample, quoted: bool, wanted: &str) -> Result<bool, TextFail> {
    let value = made(alloc, sample)?;
    let answer = reads(alloc, &value, quoted, wanted);
    let_go(value);
    answer
}

/// A sample, whether quotes are asked for, and its text.
type Printed = (Sample, bool, &'static str);

/// Whether each sample has its text.
fn all_print(alloc: Global, rows: &[Printed]) -> Result<bool, TextFail> {
    for (sample, quoted, wanted) in rows {
        if !prints(alloc, *sample, *quoted, wanted)? {
            return Ok(false);
        }
    }
    Ok(true)
}

const PRINTED: &[Printed] = &[
    (One(Number(1_500_000)), true, "1.5"),
    (One(Truth(true)), true, "true"),
    (One(Truth(false)), false, "false"),
    (One(Words(b"a\tb")), false, "a\tb"),
    (One(Words(b"a\tb\n\\\"")), true, "\"a\\tb\\n\\\\\\\"\""),
    (One(Nobody), true, "nobody"),
    (List(&[]), false, "[]"),
    (List(&[Number(1_000_000), Words(b"a")]), false, "[1 \"a\"]"),
    (
        Nested(&[Words(b"say \"no\"\n\tto \\"), Number(-2_500_000)], Nobody),
        false,
        "[[\"say \\\"no\\\"\\n\\tto \\\\\" -2.5] nobody]",
    ),
];

#[test]
fn values_without_agents_have_these_texts(rt: HostRuntime) {
    assert!(rt; holds(all_print(rt.alloc(), PRINTED)));
}

const PRINTED_OF_A_WORLD: &[Printed] = &[
    (One(Turtle(1)), false, "(turtle 1)"),
    (One(Turtle(2)), true, "(fox 2)"),
    (One(Turtle(7)), false, "nobody"),
    (One(Patch(0)), false, "(patch 1 -2)"),
    (One(Link(2)), false, "(link 0 1)"),
    (One(Link(9)), false, "nobody"),
    (Set(Breed(1)), false, "(agentset, 1 foxes)"),
    (Set(SomeTurtles(1, 7)), false, "(agentset, 2 turtles)"),
];

#[test]
fn agents_and_sets_have_these_texts(rt: HostRuntime) {
    assert!(rt; holds(all_print(rt.alloc(), PRINTED_OF_A_WORLD)));
}

/// Whether the text of the value is this one where there is no world.
fn reads_alone(alloc: Global, value: &Value, quoted: bool, wanted: &str) -> Result<bool, TextFail> {
    let printed = text(alloc, value, quoted, &NoLife)?;
    Ok(printed.as_bytes() == wanted.as_bytes())
}

/// Whether the text of the leaf's value is this one where there is no world.
fn prints_alone(alloc: Global, leaf: Leaf, quoted: bool, wanted: &str) -> Result<bool, TextFail> {
    let value = leaf_of(alloc, leaf)?;
    let answer = reads_alone(alloc, &value, quoted, wanted);
    let_go(value);
    answer
}

#[test]
fn agents_of_no_world_have_no_text_of_their_own(rt: HostRuntime) {
    assert!(rt; holds(prints_alone(rt.alloc(), Turtle(1), false, "nobody")));
    assert!(rt; holds(prints_alone(rt.alloc(), Patch(0), true, "")));
}

/// A text of so many letters.
fn letters(alloc: Global, count: usize) -> Result<Value, NoMemory> {
    let bytes = vec![in alloc; b'a'; count]?;
    words(alloc, bytes.as_slice())
}

/// How many bytes the text of the value has.
fn text_len(alloc: Global, value: &Value, quoted: bool) -> Result<usize, TextFail> {
    let printed = text(alloc, value, quoted, &NoLife)?;
    Ok(printed.as_bytes().len())
}

/// How many bytes the text of the sample's value has.
fn sample_len(alloc: Global, sample: Sample, quoted: bool) -> Result<usize, TextFail> {
    let value = made(alloc, sample)?;
    let len = text_len(alloc, &value, quoted);
    let_go(value);
    len
}

/// Whether the text of the sample's value has so many bytes.
fn has_text_of(alloc: Global, sample: Sample, quoted: bool, len: usize) -> bool {
    sample_len(alloc, sample, quoted) == Ok(len)
}

/// Whether the text of the sample's value is too large.
fn is_too_large(alloc: Global, sample: Sample, quoted: bool) -> bool {
    sample_len(alloc, sample, quoted) == Err(TextFail::TooLarge)
}

#[test]
fn a_text_of_a_million_bytes_is_too_large(rt: HostRuntime) {
    let alloc = rt.alloc();
    assert!(rt; has_text_of(alloc, Letters(999_999), false, 999_999));
    assert!(rt; is_too_large(alloc, Letters(999_999), true));
    assert!(rt; is_too_large(alloc, Letters(1_000_000), false));
}

/// Samples; those with one number are the same value, and no others are.
type Kind = (u8, Sample);

/// Whether the value and that of the sample are the same.
fn is_same(alloc: Global, value: &Value, other: Sample) -> Result<bool, NoMemory> {
    let other = made(alloc, other)?;
    let answer = same(alloc, value, &other, &SmallWorld);
    let_go(other);
    answer
}

/// Whether the value is the same as just those rows that have its number.
fn is_same_as_kind(
    alloc: Global,
    kind: u8,
    value: &Value,
    rows: &[Kind],
) -> Result<bool, NoMemory> {
    for (other, sample) in rows {
        if is_same(alloc, value, *sample)? != (kind == *other) {
            return Ok(false);
        }
    }
    Ok(true)
}

/// Whether the row is the same as just those rows that have its number.
fn is_same_as_its_kind(alloc: Global, row: &Kind, rows: &[Kind]) -> Result<bool, NoMemory> {
    let (kind, sample) = row;
    let value = made(alloc, *sample)?;
    let answer = is_same_as_kind(alloc, *kind, &value, rows);
    let_go(value);
    answer
}

const KINDS: &[Kind] = &[
    (1, One(Number(1_000_000))),
    (2, One(Number(2_000_000))),
    (3, One(Truth(true))),
    (4, One(Words(b"1"))),
    (5, List(&[Number(1), Nobody])),
    (5, List(&[Number(1), Link(8)])),
    (6, List(&[Nobody, Number(1)])),
    (7, One(Turtle(1))),
    (8, One(Turtle(2))),
    (9, One(Patch(1))),
    (10, One(Link(1))),
    (11, One(Nobody)),
    (11, One(Turtle(7))),
    (11, One(Link(7))),
    (12, Set(Turtles)),
    (12, Set(SomeTurtles(1, 2))),
    (13, Set(Breed(1))),
    (13, Set(SomeTurtles(2, 7))),
    (14, Set(SomeLinks(1, 2))),
    (15, Set(SomePatches(1, 2))),
];

// Of the agents some are dead, and some sets list dead members.
#[test]
fn values_are_the_same_as_these(rt: HostRuntime) {
    for row in KINDS {
        assert!(rt;
            holds(is_same_as_its_kind(rt.alloc(), row, KINDS)),
            "{}",
            row.0
        );
    }
}

/// Whether the value and that of the sample are the same where there is no world.
fn is_same_alone(alloc: Global, value: &Value, other: Sample) -> Result<bool, NoMemory> {
    let other = made(alloc, other)?;
    let answer = same(alloc, value, &other, &NoLife);
    let_go(other);
    answer
}

/// Whether the values of the samples are the same where there is no world.
fn are_same_alone(alloc: Global, sample: Sample, other: Sample) -> Result<bool, NoMemory> {
    let value = made(alloc, sample)?;
    let answer = is_same_alone(alloc, &value, other);
    let_go(value);
    answer
}

#[test]
fn sets_of_no_world_are_the_same_if_of_one_kind(rt: HostRuntime) {
    let alloc = rt.alloc();
    assert!(rt; holds(are_same_alone(alloc, Set(SomeTurtles(1, 2)), Set(Breed(4)))));
    assert!(rt; fails(are_same_alone(alloc, Set(SomeTurtles(1, 2)), Set(Patches))));
}

/// A sample, the kind of those with which it has an order, and where it comes among all rows: values of one place are equal.
type Row = (Sample, OrderKind, u8);

/// Whether the value has the first row's kind, and compares with the second row's as their places do.
fn compares_with(value: &Value, row: &Row, other: &Row, second: &Value) -> bool {
    let (_, kind, place) = row;
    let (_, other_kind, other_place) = other;
    let ordered = *kind != OrderKind::Unordered && *kind == *other_kind;
    let wanted = if ordered {
        Some(place < other_place)
    } else {
        None
    };
    value.order_kind(&SmallWorld) == *kind
        && before(value, second, &SmallWorld) == wanted
        && compare(value, second, &SmallWorld) == place.cmp(other_place)
}

/// Whether the value of the first row compares with the second row as their places do.
fn compares(alloc: Global, value: &Value, row: &Row, other: &Row) -> Result<bool, NoMemory> {
    let second = made(alloc, other.0)?;
    let answer = compares_with(value, row, other, &second);
    let_go(second);
    Ok(answer)
}

/// Whether the value of the row compares with each row as their places do.
fn value_compares(alloc: Global, value: &Value, row: &Row, rows: &[Row]) -> Result<bool, NoMemory> {
    for other in rows {
        if !compares(alloc, value, row, other)? {
            return Ok(false);
        }
    }
    Ok(true)
}

/// Whether the row compares with each row as their places do.
fn compares_with_all(alloc: Global, row: &Row, rows: &[Row]) -> Result<bool, NoMemory> {
    let value = made(alloc, row.0)?;
    let answer = value_compares(alloc, &value, row, rows);
    let_go(value);
    answer
}

const ORDER: &[Row] = &[
    (One(Number(-1_500_000)), OrderKind::Numbers, 0),
    (One(Number(0)), OrderKind::Numbers, 1),
    (One(Number(1)), OrderKind::Numbers, 2),
    (One(Words(b"")), OrderKind::Texts, 3),
    (One(Words(b"Z")), OrderKind::Texts, 4),
    (One(Words(b"a")), OrderKind::Texts, 5),
    (One(Words(b"ab")), OrderKind::Texts, 6),
    (One(Words(b"b")), OrderKind::Texts, 7),
    (One(Turtle(1)), OrderKind::Turtles, 8),
    (One(Turtle(2)), OrderKind::Turtles, 9),
    (One(Patch(0)), OrderKind::Patches, 10),
    (One(Patch(5)), OrderKind::Patches, 11),
    (One(Link(2)), OrderKind::Links, 12),
    (One(Link(4)), OrderKind::Links, 13),
    (One(Link(3)), OrderKind::Links, 14),
    (One(Link(1)), OrderKind::Links, 15),
    (One(Truth(false)), OrderKind::Unordered, 16),
    (One(Truth(true)), OrderKind::Unordered, 16),
    (List(&[]), OrderKind::Unordered, 16),
    (List(&[Number(1), Number(2)]), OrderKind::Unordered, 16),
    (One(Turtle(7)), OrderKind::Unordered, 16),
    (One(Link(9)), OrderKind::Unordered, 16),
    (One(Nobody), OrderKind::Unordered, 16),
    (Set(Links), OrderKind::Unordered, 16),
];

// Texts compare by their bytes, so that capital letters come before small ones. Of living agents turtles and patches come by number,
// links by their ends, then their breeds and then their serials.
#[test]
fn values_of_all_kinds_come_in_this_order(rt: HostRuntime) {
    for row in ORDER {
        assert!(rt;
            holds(compares_with_all(rt.alloc(), row, ORDER)),
            "{}",
            row.2
        );
    }
}

/// Values of several kinds, of which some are equal to the order of sorts.
fn mixed(alloc: Global) -> Result<Items, NoMemory> {
    let dead = Value::Turtle(7);
    let living = Value::Turtle(2);
    let two = number(2_000_000);
    let one = number(1_000_000);
    let list = vec![in alloc; Value::Nobody, Value::Truth(true), two, living, dead, one]?;
    Ok(Items::of_vec(list))
}

/// The values in the order of sorts.
fn sorted(alloc: Global, mut items: Items) -> Result<Value, NoMemory> {
    items.sort(alloc, &SmallWorld)?;
    Value::items(alloc, items)
}

/// Whether a sort of values of several kinds has this text.
fn mixed_sort_reads(alloc: Global, wanted: &str) -> Result<bool, TextFail> {
    let list = sorted(alloc, mixed(alloc)?)?;
    let answer = reads(alloc, &list, true, wanted);
    let_go(list);
    answer
}

#[test]
fn a_sort_keeps_equal_values_in_place(rt: HostRuntime) {
    let wanted = "[1 2 (fox 2) nobody true nobody]";
    assert!(rt; holds(mixed_sort_reads(rt.alloc(), wanted)));
}

/// Numbers from 100,000 down to 1.
fn falling(alloc: Global) -> Result<Items, NoMemory> {
    let mut items = Items::empty(alloc);
    for n in 0..100_000u32 {
        items.push(alloc, number(i64::from(100_000 - n) * 1_000_000))?;
    }
    Ok(items)
}

/// Whether the value at the place is this number.
fn has_number(items: &Items, at: usize, millionths: i64) -> bool {
    match items.get(at) {
        Some(Value::Number(number)) => number.millionths() == millionths,
        _ => false,
    }
}

/// Whether the numbers from 100,000 down to 1 are sorted from 1 on.
fn falling_are_sorted(alloc: Global) -> Result<bool, NoMemory> {
    let mut items = falling(alloc)?;
    items.sort(alloc, &NoLife)?;
    let first = has_number(&items, 0, 1_000_000);
    let last = has_number(&items, 99_999, 100_000_000_000);
    Ok(first && last)
}

#[test]
fn a_hundred_thousand_numbers_are_sorted(rt: HostRuntime) {
    assert!(rt; holds(falling_are_sorted(rt.alloc())));
}

/// Whether a copy of the value is the same value.
fn is_copied(alloc: Global, value: &Value) -> Result<bool, NoMemory> {
    let again = value.copy(alloc)?;
    let answer = same(alloc, value, &again, &NoLife);
    let_go(again);
    answer
}

/// Whether a copy of the sample's value is the same value.
fn copies(alloc: Global, sample: Sample) -> Result<bool, NoMemory> {
    let value = made(alloc, sample)?;
    let answer = is_copied(alloc, &value);
    let_go(value);
    answer
}

#[test]
fn a_hundred_thousand_numbers_are_copied_and_printed(rt: HostRuntime) {
    let alloc = rt.alloc();
    assert!(rt; holds(copies(alloc, Falling)));
    assert!(rt; has_text_of(alloc, Falling, false, 588_896));
}

/// Takes the last item away: whether it is nobody.
fn pops_nobody(items: &mut Items) -> bool {
    let last = items.pop();
    let answer = matches!(&last, Some(Value::Nobody));
    let_go(last);
    answer
}

/// Takes the last item away: whether there is none.
fn pops_nothing(items: &mut Items) -> bool {
    let last = items.pop();
    let answer = last.is_none();
    let_go(last);
    answer
}

/// The number three times, and nobody.
fn four(alloc: Global, number: Num) -> Result<Items, NoMemory> {
    let mut items = Items::filled(alloc, number, 3)?;
    push_leaf(alloc, &mut items, Nobody)?;
    Ok(items)
}

/// Whether of four items two are left where all behind the second are taken away, and none more behind the fifth.
fn are_cut_to_two(items: &mut Items) -> bool {
    items.truncate(2);
    items.truncate(5);
    items.len() == 2 && has_number(items, 1, 1_000_000)
}

/// Whether no item is left where all are taken away.
fn are_cut_to_none(items: &mut Items) -> bool {
    items.truncate(0);
    items.is_empty() && pops_nothing(items)
}

/// Whether four items are there and are taken away from the end.
fn are_taken_away(alloc: Global, number: Num) -> Result<bool, NoMemory> {
    let mut items = four(alloc, number)?;
    let are_four = items.len() == 4 && items.get(4).is_none();
    let taken = pops_nobody(&mut items) && are_cut_to_two(&mut items);
    let emptied = are_cut_to_none(&mut items);
    Ok(are_four && taken && emptied)
}

#[test]
fn items_are_taken_away_from_the_end(rt: HostRuntime) {
    match Num::whole(1) {
        Some(one) => assert!(rt; holds(are_taken_away(rt.alloc(), one))),
        None => panic!(rt),
    }
}

// Numbers, and whether they are among 1, 4 and 9.
const FOUND: &[(u64, bool)] = &[
    (1, true),
    (4, true),
    (9, true),
    (0, false),
    (5, false),
    (10, false),
];

fn assert_found(rt: &impl Abort, numbers: &Serials) {
    for &(number, found) in FOUND {
        assert!(rt; numbers.contains(number) == found, "{number}");
    }
}

#[test]
fn numbers_of_agents_are_found(rt: HostRuntime) -> Result<(), Fail> {
    assert!(rt; !Serials::empty(rt.alloc()).contains(0));
    let numbers = Serials::of_vec([1, 4, 9].to_vec(rt.alloc())?);
    assert_found(&rt, &numbers);
    Ok(())
}

/// Whether the value is within the limits as the one item of a list.
fn is_within_a_list(alloc: Global, value: Value) -> Result<bool, NoMemory> {
    let mut items = Items::empty(alloc);
    items.push(alloc, value)?;
    Ok(items.are_within_limits())
}

/// Whether the answers are these: is the sample's value within the limits alone, and is it as the one item of a list?
fn is_within(alloc: Global, sample: Sample, alone: bool, inside: bool) -> Result<bool, NoMemory> {
    let value = made(alloc, sample)?;
    let is_alone = value.is_within_limits();
    let is_inside = is_within_a_list(alloc, value)?;
    Ok(is_alone == alone && is_inside == inside)
}

// A sample, and whether its value is within the limits alone, and as the one item of a list.
const LIMITS: &[(Sample, bool, bool)] = &[
    (Letters(999_998), true, true),
    (Letters(999_999), true, false),
    (Letters(1_000_000), false, false),
    (Deep(198), true, true),
    (Deep(199), true, false),
    (Deep(200), false, false),
];

#[test]
fn values_are_within_a_size_of_a_million_and_a_depth_of_200(rt: HostRuntime) {
    for &(sample, alone, inside) in LIMITS {
        assert!(rt; holds(is_within(rt.alloc(), sample, alone, inside)));
    }
}

/// Whether the name is that of a color of so many tenths.
fn is_color(name: &str, tenths: i64) -> bool {
    match color_named(name.as_bytes()) {
        Some(number) => number.millionths() == tenths.saturating_mul(100_000),
        None => false,
    }
}

const COLORS: &[(&str, i64)] = &[
    ("gray", 50),
    ("red", 150),
    ("orange", 250),
    ("brown", 350),
    ("yellow", 450),
    ("green", 550),
    ("lime", 650),
    ("turquoise", 750),
    ("cyan", 850),
    ("sky", 950),
    ("blue", 1050),
    ("violet", 1150),
    ("magenta", 1250),
    ("pink", 1350),
    ("grey", 50),
    ("black", 0),
    ("white", 99),
];

/// Whether each color that has a name has its number.
fn all_are_colors() -> bool {
    COLORS.iter().all(|(name, tenths)| is_color(name, *tenths))
}

/// Whether the list of the primary colors has this text.
fn primary_read(alloc: Global, wanted: &str) -> Result<bool, TextFail> {
    let primary = Value::items(alloc, primary_colors(alloc)?)?;
    let answer = reads(alloc, &primary, false, wanted);
    let_go(primary);
    answer
}

#[test]
fn colors_have_these_numbers(rt: HostRuntime) {
    assert!(rt; all_are_colors());
    assert!(rt; color_named(b"purple").is_none());
    assert!(rt; color_named(b"Red").is_none());
    let wanted = "[5 15 25 35 45 55 65 75 85 95 105 115 125 135]";
    assert!(rt; holds(primary_read(rt.alloc(), wanted)));
}

/// Whether the value has this size and depth.
fn has_measures(value: &Value, size: u64, depth: u32) -> bool {
    value.size() == size && value.depth() == depth
}

/// Whether a copy of the value has this size and depth.
fn copy_measures(alloc: Global, value: &Value, size: u64, depth: u32) -> Result<bool, NoMemory> {
    let again = value.copy(alloc)?;
    let answer = has_measures(&again, size, depth);
    let_go(again);
    Ok(answer)
}

/// Whether a copy of the sample's value has this size and depth.
fn measures(alloc: Global, sample: Sample, size: u64, depth: u32) -> Result<bool, NoMemory> {
    let value = made(alloc, sample)?;
    let answer = copy_measures(alloc, &value, size, depth);
    let_go(value);
    answer
}

const MEASURES: &[(Sample, u64, u32)] = &[
    (One(Number(7)), 1, 1),
    (List(&[]), 1, 1),
    (Nested(&[Words(b"four"), Nobody], Truth(true)), 9, 3),
    (Set(SomeLinks(3, 4)), 3, 1),
];

#[test]
fn values_have_these_sizes_and_depths(rt: HostRuntime) {
    for &(sample, size, depth) in MEASURES {
        assert!(rt; holds(measures(rt.alloc(), sample, size, depth)));
    }
}

/// Replaces the second item by nobody: whether a number is handed back.
fn replaces_a_number(items: &mut Items) -> bool {
    if items.len() < 2 {
        return false;
    }
    let old = items.replace(1, Value::Nobody);
    let answer = matches!(&old, Value::Number(_));
    let_go(old);
    answer
}

/// True and the number 5.
fn truth_and_number(alloc: Global) -> Result<Items, NoMemory> {
    let mut items = Items::empty(alloc);
    push_leaf(alloc, &mut items, Truth(true))?;
    push_leaf(alloc, &mut items, Number(5))?;
    Ok(items)
}

/// Whether the number behind true is replaced by nobody.
fn is_replaced(alloc: Global) -> Result<bool, NoMemory> {
    let mut items = truth_and_number(alloc)?;
    let is_handed_back = replaces_a_number(&mut items);
    let is_left = matches!(items.as_slice(), [Value::Truth(true), Value::Nobody]);
    Ok(is_handed_back && is_left)
}

#[test]
fn a_replaced_item_is_handed_back(rt: HostRuntime) {
    assert!(rt; holds(is_replaced(rt.alloc())));
}

/// Nobody inside of so many lists.
fn nested(alloc: Global, times: u32) -> Result<Value, NoMemory> {
    let mut value = Value::Nobody;
    for _ in 0..times {
        let mut items = Items::empty(alloc);
        items.push(alloc, value)?;
        value = Value::items(alloc, items)?;
    }
    Ok(value)
}

// Values of the language nest 200 times at most; one that is built by hand may nest deeper.
#[test]
fn lists_may_nest_a_thousand_times(rt: HostRuntime) {
    let alloc = rt.alloc();
    assert!(rt; holds(measures(alloc, Deep(1_000), 1_001, 1_001)));
    assert!(rt; has_text_of(alloc, Deep(1_000), false, 2_006));
    assert!(rt; holds(copies(alloc, Deep(1_000))));
    assert!(rt; fails(are_same_alone(alloc, Deep(1_000), Deep(1_001))));
}
