//! Words that draw.
ghost use Rattle.std.specs.Prelude.{◌≡◌, ◌≢◌, ◌≤◌, map, pos, unsigned_abs, OnErr, IfErr, IfOk};
ghost use Rattle.nl_draw.specs.Stream.{shuffled};
ghost use Rattle.nl_fixed.specs.Numbers.{limit, whole_limit};
ghost use Rattle.nl_value.specs.Views.{plain};
ghost use Rattle.nl_listops_series.specs.Outcomes.{Gives, outcome_map};
ghost use Rattle.nl_listops.specs.Answers.{signed_as, whole_size, whole_below, count_below, drawn_answer};

use crate::inputs::{list_at, number_at};
use crate::words::Draw;
use nl_draw::Stream;
use nl_fixed::Num;
use nl_listops_series::ListFail;
use nl_listops_series::lists::copies;
use nl_value::{Items, Value};
use std::alloc::Global;

/// A count with the sign of a number.
fn signed_as(number: Num, count: u64) -> Num
    requires { count ≤ limit }
    ensures { result ≡ signed_as number count }
{
    let count = count as i64;
    let signed = if number.millionths() < 0 {
        -count
    } else {
        count
    };
    match Num::new(signed) {
        Some(signed) => signed,
        None => unreachable!(),
    }
}

/// How many whole numbers there are from 0 to below a number's size.
fn whole_size(number: Num) -> u64
    ensures value { result ≡ whole_size number }
    ensures few { result ≤ whole_limit }
{
    number.abs().ceiling().whole_part().unsigned_abs()
}

/// A whole number from 0 to below the number, or down from 0. For 0 nothing is drawn.
fn whole_below(number: Num, stream: &mut Stream) -> Num
    ensures value { result ≡ (whole_below number stream.old).0 }
    ensures state { stream.new ≡ (whole_below number stream.old).1 }
{
    if number.millionths() == 0 {
        return number;
    }
    let whole = stream.draw(whole_size(number));
    signed_as(number, whole * 1_000_000)
}

/// A number from 0 to below the number, or down from 0. For 0 nothing is drawn.
fn count_below(number: Num, stream: &mut Stream) -> Num
    ensures value { result ≡ (count_below number stream.old).0 }
    ensures state { stream.new ≡ (count_below number stream.old).1 }
{
    if number.millionths() == 0 {
        return number;
    }
    let count = stream.draw(number.millionths().unsigned_abs());
    signed_as(number, count)
}

/// The items in random order.
fn shuffled(alloc: Global, items: &Items, stream: &mut Stream) -> Result<Items, ListFail>
    ensures items { IfOk result (λ mixed. mixed ≡ (shuffled items.now stream.old).0) }
    ensures state { IfOk result (λ mixed. stream.new ≡ (shuffled items.now stream.old).1) }
    ensures stays { OnErr result (stream.new ≡ stream.old) }
    ensures memory { IfErr result (λ fail. fail ≡ ListFail.NoMemory) }
{
    let mut values = copies(alloc, items.as_slice())?;
    stream.shuffle(&mut values);
    Ok(Items::of_vec(values))
}

impl Draw {
    /// What the word draws. An error draws nothing.
    pub(crate) fn of(
        self,
        alloc: Global,
        inputs: &[Value],
        stream: &mut Stream,
    ) -> Result<Value, ListFail>
        ensures answer { let state = stream.new in
            let drawn = drawn_answer self (map plain inputs.now) stream.old in
            Gives (outcome_map (λ value. (plain value, state)) result) drawn }
        ensures stays { OnErr result (stream.new ≡ stream.old) }
    {
        match self {
            Draw::Random => {
                let number = number_at(inputs, 0)?;
                Ok(Value::Number(whole_below(number, stream)))
            }
            Draw::RandomFloat => {
                let number = number_at(inputs, 0)?;
                Ok(Value::Number(count_below(number, stream)))
            }
            Draw::Shuffle => {
                let items = list_at(inputs, 0)?;
                let before = stream.save();
                let mixed = shuffled(alloc, items, stream)?;
                match Value::items(alloc, mixed) {
                    Ok(value) => Ok(value),
                    Err(refused) => {
                        // An error draws nothing.
                        stream.restore(before);
                        Err(ListFail::from(refused))
                    }
                }
            }
        }
    }
}
