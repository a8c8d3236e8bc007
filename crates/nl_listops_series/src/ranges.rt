//! Numbers in a row.
ghost use Rattle.std.specs.Prelude.{◌≡◌, ◌≢◌, ◌<◌, ℕ, ◌*◌, pos, ◌+ℤ◌, ◌*ℤ◌, ◌^◌, IfOk, map};
ghost use Rattle.nl_fixed.specs.Numbers.{IsInRange, one};
ghost use Rattle.nl_value.specs.Plain.{PlainNumber};
ghost use Rattle.nl_listops_series.specs.Outcomes.{Gives, outcome_map, list_value};
ghost use Rattle.nl_listops_series.specs.Ranges.{steps_within, range_length, numbers_from, range_by, range_of, limited_range};

use crate::fail::ListFail;
use nl_fixed::{NoMemory, Num};
use nl_value::measures::MOST_SIZE;
use nl_value::{Items, Value};
use std::alloc::Global;

/// How many steps of a size begin within a distance.
fn steps_within(distance: i128, size: u64) -> u128
    requires { 0 < size }
    ensures { result ≡ steps_within distance size }
{
    match u128::try_from(distance) {
        Ok(distance) => (distance + (u128::from(size) - 1)) / u128::from(size),
        Err(_) => 0,
    }
}

/// How many numbers a range has. Each lies between the start and the bound.
fn range_length(start: Num, bound: Num, step: Num) -> u128
    requires { step ≢ pos 0 }
    ensures length { result ≡ range_length start bound step }
    ensures in_range { (k : ℕ) → k < result → IsInRange (start +ℤ (pos k *ℤ step)) }
{
    let start = i128::from(start.millionths());
    let bound = i128::from(bound.millionths());
    let step = step.millionths();
    if step < 0 {
        steps_within(start - bound, step.unsigned_abs())
    } else {
        steps_within(bound - start, step.unsigned_abs())
    }
}

/// The sum, which is no number out of range.
fn plus(a: Num, b: Num) -> Num
    requires { IsInRange (a +ℤ b) }
    ensures { result ≡ a +ℤ b }
{
    match a.add(b) {
        Ok(sum) => sum,
        Err(_) => unreachable!(),
    }
}

/// So many numbers from the start on.
fn numbers_from(alloc: Global, start: Num, step: Num, length: usize) -> Result<Items, NoMemory>
    requires few { length < 2 ^ 63 }
    requires in_range { (k : ℕ) → k < length → IsInRange (start +ℤ (pos k *ℤ step)) }
    ensures { IfOk result (λ items. items ≡ map PlainNumber (numbers_from start step length)) }
{
    let mut items = Items::empty(alloc);
    let mut next = start;
    for k in 0..length {
        items.push(alloc, Value::Number(next))?;
        if k + 1 < length {
            next = plus(next, step);
        }
    }
    Ok(items)
}

/// The numbers from the start by steps to before the bound. Domain for a step of 0, and TooLarge where they pass the limit on
/// values.
pub fn range_by(alloc: Global, start: Num, bound: Num, step: Num) -> Result<Items, ListFail>
    ensures { Gives (outcome_map list_value result) (limited_range (range_by start bound step)) }
{
    if step.millionths() == 0 {
        return Err(ListFail::Domain);
    }
    let length = range_length(start, bound, step);
    if u128::from(MOST_SIZE) <= length {
        return Err(ListFail::TooLarge);
    }
    Ok(numbers_from(alloc, start, step, length as usize)?)
}

/// The number of a small whole number.
fn small(n: u8) -> Num
    ensures { result ≡ pos (n * one) }
{
    match Num::whole(i64::from(n)) {
        Some(number) => number,
        None => unreachable!(),
    }
}

/// Of one number: from 0 by 1 to below it; of two: from the first by 1 to below the second; of three: from the first to before the
/// second by steps of the third. Domain for a step of 0 and for other counts of numbers, and TooLarge as `range_by`.
pub fn range(alloc: Global, numbers: &[Num]) -> Result<Items, ListFail>
    ensures { Gives (outcome_map list_value result) (limited_range (range_of numbers.now)) }
{
    match numbers {
        [bound] => range_by(alloc, small(0), *bound, small(1)),
        [start, bound] => range_by(alloc, *start, *bound, small(1)),
        [start, bound, step] => range_by(alloc, *start, *bound, *step),
        _ => Err(ListFail::Domain),
    }
}
