//! Statistics over numbers, and over the numbers of a list.
ghost use Rattle.std.specs.Prelude.{◌≡◌, pos, IfOk};
ghost use Rattle.nl_value.specs.Views.{plain};
ghost use Rattle.nl_listops_series.specs.Outcomes.{Gives, numbered};
ghost use Rattle.nl_listops_series.specs.Lists.{counted};
ghost use Rattle.nl_listops_series.specs.Statistics.{number_of_item, numbers_among, sum_from, total_of, least_of, greatest_of, divided_among, mean_of, middle_of, ascending, square_from, squares_from, spread_about, variance_of, median_of, deviation_of};

use crate::fail::ListFail;
use nl_fixed::{NoMemory, Num, NumFault};
use nl_value::laws::sorting_is_a_function;
use nl_value::{Items, Value};
use std::alloc::Global;

/// A count as a number.
pub fn counted(n: usize) -> Result<Num, ListFail>
    ensures { result ≡ counted n }
{
    Ok(Num::from_integer(n as i128)?)
}

/// The value where it is a number.
fn number_of_item(value: &Value) -> Option<Num>
    ensures { result ≡ number_of_item (plain value.now) }
{
    match value {
        Value::Number(number) => Some(*number),
        _ => None,
    }
}

/// The numbers among the items, in their order.
pub fn numbers_among(alloc: Global, items: &Items) -> Result<Vec<Num>, NoMemory>
    ensures { IfOk result (λ numbers. numbers.items ≡ numbers_among items.now) }
{
    let values = items.as_slice();
    let mut numbers = Vec::new(alloc);
    for value in values {
        if let Some(number) = number_of_item(value) {
            numbers.push(number)?;
        }
    }
    Ok(numbers)
}

/// The sum of the numbers, from a total on.
fn sum_from(total: Num, numbers: &[Num]) -> Result<Num, NumFault>
    ensures { result ≡ sum_from total numbers.now }
{
    let mut sum = total;
    for number in numbers {
        sum = sum.add(*number)?;
    }
    Ok(sum)
}

/// Zero.
fn zero() -> Num
    ensures { result ≡ pos 0 }
{
    match Num::new(0) {
        Some(number) => number,
        None => unreachable!(),
    }
}

/// The sum of the numbers, from left to right.
pub fn total(numbers: &[Num]) -> Result<Num, ListFail>
    ensures { result ≡ total_of numbers.now }
{
    Ok(sum_from(zero(), numbers)?)
}

/// The least of the numbers. TooFew for none.
pub fn least(numbers: &[Num]) -> Result<Num, ListFail>
    ensures { result ≡ least_of numbers.now }
{
    let Some((first, others)) = numbers.split_first() else {
        return Err(ListFail::TooFew);
    };
    let mut least = *first;
    for number in others {
        if number.millionths() < least.millionths() {
            least = *number;
        }
    }
    Ok(least)
}

/// The greatest of the numbers. TooFew for none.
pub fn greatest(numbers: &[Num]) -> Result<Num, ListFail>
    ensures { result ≡ greatest_of numbers.now }
{
    let Some((first, others)) = numbers.split_first() else {
        return Err(ListFail::TooFew);
    };
    let mut greatest = *first;
    for number in others {
        if greatest.millionths() < number.millionths() {
            greatest = *number;
        }
    }
    Ok(greatest)
}

/// A number over a count.
fn divided_among(number: Num, n: usize) -> Result<Num, ListFail>
    ensures { result ≡ divided_among number n }
{
    Ok(number.div(counted(n)?)?)
}

/// The sum over the count. TooFew for none.
pub fn mean(numbers: &[Num]) -> Result<Num, ListFail>
    ensures { result ≡ mean_of numbers.now }
{
    if numbers.is_empty() {
        return Err(ListFail::TooFew);
    }
    divided_among(total(numbers)?, numbers.len())
}

/// The mean of the one or the two in the middle of numbers that ascend.
fn middle_mean(numbers: &[Num]) -> Result<Num, ListFail>
    ensures { result ≡ mean_of (middle_of numbers.now) }
{
    let length = numbers.len();
    if length == 0 {
        return Err(ListFail::TooFew);
    }
    mean(&numbers[(length - 1) / 2..length / 2 + 1])
}

/// The square of how far a number is from the mean.
fn square_from(mean: Num, number: Num) -> Result<Num, NumFault>
    ensures { result ≡ square_from mean number }
{
    let distance = number.sub(mean)?;
    distance.mul(distance)
}

/// The sum of these squares, from a total on.
fn squares_from(mean: Num, total: Num, numbers: &[Num]) -> Result<Num, NumFault>
    ensures { result ≡ squares_from mean total numbers.now }
{
    let mut sum = total;
    for number in numbers {
        sum = sum.add(square_from(mean, *number)?)?;
    }
    Ok(sum)
}

/// The mean square distance from the mean, with one less than the count as divisor. TooFew under two.
pub fn variance(numbers: &[Num]) -> Result<Num, ListFail>
    ensures { result ≡ variance_of numbers.now }
{
    if numbers.len() < 2 {
        return Err(ListFail::TooFew);
    }
    let mean = mean(numbers)?;
    let total = squares_from(mean, zero(), numbers)?;
    divided_among(total, numbers.len() - 1)
}

/// The square root of the variance.
pub fn deviation(numbers: &[Num]) -> Result<Num, ListFail>
    ensures { result ≡ deviation_of numbers.now }
{
    Ok(variance(numbers)?.sqrt()?)
}

/// The numbers, ascending.
fn sorted(mut numbers: Vec<Num>) -> Result<Vec<Num>, NoMemory>
    ensures { IfOk result (λ sorted. sorted.items ≡ ascending numbers.items) }
{
    sorting_is_a_function::<Num>();
    numbers.sort()?;
    Ok(numbers)
}

/// The mean of the one or the two in the middle of the numbers in order. TooFew for none.
pub fn median(_alloc: Global, numbers: Vec<Num>) -> Result<Num, ListFail>
    ensures { Gives result (median_of numbers.items) }
{
    middle_mean(&sorted(numbers)?)
}
