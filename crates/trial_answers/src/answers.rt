//! Members by what they answered. The answers were worked out by hand, and those of many members outside this program.
#![tactic(auto)]

use nl_exec_meaning::{Answered, Answers, Over};
use nl_exec_walks::extremes::extremes;
use nl_exec_walks::lists::{members_of, values_of};
use nl_exec_walks::orders::{are_comparable, in_order};
use nl_exec_walks::replies::{Reply, reply_to};
use nl_exec_walks::several::first_members;
use nl_fixed::{NoMemory, Num};
use nl_value::{AgentKind, Items, NoLife, Serials, Value};
use std::alloc::Global;

/// Whether an answer came, and is yes.
fn holds(answer: Result<bool, NoMemory>) -> bool {
    match answer {
        Ok(is) => is,
        Err(_) => false,
    }
}

fn number(count: u32) -> Value {
    match Num::whole(i64::from(count)) {
        Some(number) => Value::Number(number),
        None => Value::Nobody,
    }
}

/// So many members, counted from 0: member i answers the last digit of 7 i.
fn digits(alloc: Global, count: u32) -> Result<Answers, NoMemory> {
    let mut made = Answers::empty(alloc);
    for member in 0..count {
        made.push(
            alloc,
            Answered {
                member: u64::from(member),
                value: number(member % 10 * 7 % 10),
            },
        )?;
    }
    Ok(made)
}

/// The same from the last member down, where every fifth one but two answers no number.
fn mixed(alloc: Global, count: u32) -> Result<Answers, NoMemory> {
    let mut made = Answers::empty(alloc);
    for passed in 0..count {
        let member = count - 1 - passed;
        let value = if member % 5 == 3 {
            Value::Truth(true)
        } else {
            number(member % 10 * 7 % 10)
        };
        made.push(
            alloc,
            Answered {
                member: u64::from(member),
                value,
            },
        )?;
    }
    Ok(made)
}

fn are(members: &[u64], wanted: &[u64]) -> bool {
    members == wanted
}

// ---- the greatest and the least

fn extremes_are_members(alloc: Global) -> Result<bool, NoMemory> {
    let made = digits(alloc, 27)?;
    let greatest = extremes(alloc, true, made.as_slice())?;
    let least = extremes(alloc, false, made.as_slice())?;
    Ok(are(&greatest, &[7, 17]) && are(&least, &[0, 10, 20]))
}

#[test]
fn the_greatest_and_the_least_are_all_members_with_that_number(rt: HostRuntime) {
    assert!(rt; holds(extremes_are_members(rt.alloc())));
}

fn none_are_extreme(alloc: Global) -> Result<bool, NoMemory> {
    let made = Answers::empty(alloc);
    let greatest = extremes(alloc, true, made.as_slice())?;
    Ok(greatest.is_empty())
}

#[test]
fn no_answers_have_no_greatest_one(rt: HostRuntime) {
    assert!(rt; holds(none_are_extreme(rt.alloc())));
}

fn many_have_extremes(alloc: Global) -> Result<bool, NoMemory> {
    let made = digits(alloc, 100_000)?;
    let greatest = extremes(alloc, true, made.as_slice())?;
    let all = members_of(alloc, made.as_slice())?;
    Ok(
        greatest.len() == 10_000
            && greatest.first().copied() == Some(7)
            && greatest.last().copied() == Some(99_997)
            && all.len() == 100_000
            && all.last().copied() == Some(99_999),
    )
}

#[test]
fn the_greatest_of_a_hundred_thousand_are_found(rt: HostRuntime) {
    assert!(rt; holds(many_have_extremes(rt.alloc())));
}

// ---- several of them

fn first(alloc: Global, up: bool, wanted: usize, count: u32) -> Result<Serials, NoMemory> {
    let made = mixed(alloc, count)?;
    first_members(alloc, up, wanted, made.as_slice())
}

fn first_four(alloc: Global) -> Result<bool, NoMemory> {
    let greatest = first(alloc, true, 4, 27)?;
    let least = first(alloc, false, 4, 27)?;
    Ok(are(greatest.as_slice(), &[7, 14, 17, 24]) && are(least.as_slice(), &[0, 10, 20, 26]))
}

#[test]
fn of_equal_numbers_the_first_in_the_given_order_is_taken(rt: HostRuntime) {
    assert!(rt; holds(first_four(rt.alloc())));
}

fn first_of_many(alloc: Global) -> Result<bool, NoMemory> {
    let greatest = first(alloc, true, 4, 100_000)?;
    Ok(are(greatest.as_slice(), &[99_967, 99_977, 99_987, 99_997]))
}

#[test]
fn four_of_a_hundred_thousand_are_taken(rt: HostRuntime) {
    assert!(rt; holds(first_of_many(rt.alloc())));
}

// ---- in order

fn is_turtle(value: Option<&Value>, turtle: u64) -> bool {
    match value {
        Some(Value::Turtle(serial)) => *serial == turtle,
        _ => false,
    }
}

fn is_number(value: Option<&Value>, count: i64) -> bool {
    match value {
        Some(Value::Number(number)) => Num::whole(count) == Some(*number),
        _ => false,
    }
}

fn sorted(alloc: Global, count: u32) -> Result<Items, NoMemory> {
    let made = digits(alloc, count)?;
    in_order(alloc, AgentKind::Turtle, made, &NoLife)
}

fn are_sorted(alloc: Global) -> Result<bool, NoMemory> {
    let few = sorted(alloc, 27)?;
    Ok(
        few.len() == 27
            && is_turtle(few.get(0), 0)
            && is_turtle(few.get(1), 10)
            && is_turtle(few.get(3), 3)
            && is_turtle(few.get(6), 6)
            && is_turtle(few.get(26), 17),
    )
}

#[test]
fn members_with_equal_values_stay_in_their_order(rt: HostRuntime) {
    assert!(rt; holds(are_sorted(rt.alloc())));
}

fn many_are_sorted(alloc: Global) -> Result<bool, NoMemory> {
    let many = sorted(alloc, 100_000)?;
    Ok(
        many.len() == 100_000
            && is_turtle(many.get(1), 10)
            && is_turtle(many.get(10_000), 3)
            && is_turtle(many.get(99_999), 99_997),
    )
}

#[test]
fn a_hundred_thousand_members_are_sorted(rt: HostRuntime) {
    assert!(rt; holds(many_are_sorted(rt.alloc())));
}

fn have_an_order(alloc: Global) -> Result<bool, NoMemory> {
    let numbers = digits(alloc, 27)?;
    let others = mixed(alloc, 27)?;
    Ok(are_comparable(numbers.as_slice(), &NoLife) && !are_comparable(others.as_slice(), &NoLife))
}

#[test]
fn numbers_and_truths_have_no_order(rt: HostRuntime) {
    assert!(rt; holds(have_an_order(rt.alloc())));
}

// ---- values

fn many_values(alloc: Global) -> Result<bool, NoMemory> {
    let made = digits(alloc, 100_000)?;
    let values = values_of(alloc, made.into_vec())?;
    Ok(values.len() == 100_000 && is_number(values.get(3), 1) && is_number(values.get(99_999), 3))
}

#[test]
fn values_stay_in_the_order_of_turns(rt: HostRuntime) {
    assert!(rt; holds(many_values(rt.alloc())));
}

// ---- what becomes of an answer

fn is_kept(reply: Reply) -> bool {
    match reply {
        Reply::Keep => true,
        _ => false,
    }
}

fn decides(reply: Reply) -> bool {
    match reply {
        Reply::Decide(truth) => !truth,
        _ => false,
    }
}

fn is_refused(reply: Reply) -> bool {
    match reply {
        Reply::Refuse => true,
        _ => false,
    }
}

#[test]
fn a_false_decides_for_all_and_nobody_is_no_truth(rt: HostRuntime) {
    assert!(rt; decides(reply_to(Over::All, &Value::Truth(false))));
    assert!(rt; is_kept(reply_to(Over::With, &Value::Truth(true))));
    assert!(rt; is_refused(reply_to(Over::With, &Value::Nobody)));
    assert!(rt; is_kept(reply_to(Over::Of, &Value::Nobody)));
    assert!(rt; !is_kept(reply_to(Over::MaxOneOf, &Value::Nobody)));
}
