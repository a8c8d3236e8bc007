//! What each word of values answers.
ghost use Rattle.std.specs.Prelude.{◌≡◌, map, is_some, IsTrue, IfOk, OnErr};
ghost use Rattle.std.specs.List.{list_all};
ghost use Rattle.nl_value.specs.Living.{fits};
ghost use Rattle.nl_value.specs.Views.{plain};
ghost use Rattle.nl_listops_series.specs.Outcomes.{Gives, and_then, outcome_map, limited};
ghost use Rattle.nl_listops.specs.Answers.{number_word, numbers_word, not_word, truths_word, compare_word, kind_word, list_word, end_word, series_word, place_word, put_word, search_word, sublist_word, substring_word, statistic_word, shade_word, scale_word, drawn_answer, kept_answer, word_answer, applied, Answers};
ghost use Rattle.nl_listops.specs.inner.Steps.{within_or_not};
ghost use Rattle.nl_listops.specs.Words.{value_word};

use crate::inputs::{list_at, number_at, text_at, truth_at, value_at};
use crate::many::kept_within;
use crate::shades::{are_shades, scaled_color};
use crate::words::{
    AtPlace, Comparison, Draw, Fixed, KindTest, OfList, OfNumber, OfNumbers, OfSeries, OfTruths,
    PutAtEnd, PutAtPlace, Search, Statistic, ValueWord, value_word,
};
use nl_draw::Stream;
use nl_fixed::Str;
use nl_listops_series::ListFail;
use nl_listops_series::lists::part_of;
use nl_listops_series::texts::text_part_of;
use nl_value::{Life, Value};
use std::alloc::Global;

impl OfNumber {
    fn answer(self, inputs: &[Value]) -> Result<Value, ListFail>
        ensures { outcome_map plain result ≡ number_word self (map plain inputs.now) }
    {
        let n = number_at(inputs, 0)?;
        Ok(Value::Number(self.of(n)?))
    }
}

impl OfNumbers {
    fn answer(self, inputs: &[Value]) -> Result<Value, ListFail>
        ensures { outcome_map plain result ≡ numbers_word self (map plain inputs.now) }
    {
        let a = number_at(inputs, 0)?;
        let b = number_at(inputs, 1)?;
        Ok(Value::Number(self.of(a, b)?))
    }
}

/// `not`
fn turned(inputs: &[Value]) -> Result<Value, ListFail>
    ensures { outcome_map plain result ≡ not_word (map plain inputs.now) }
{
    let truth = truth_at(inputs, 0)?;
    Ok(Value::Truth(!truth))
}

impl OfTruths {
    fn answer(self, inputs: &[Value]) -> Result<Value, ListFail>
        ensures { outcome_map plain result ≡ truths_word self (map plain inputs.now) }
    {
        let a = truth_at(inputs, 0)?;
        let b = truth_at(inputs, 1)?;
        Ok(Value::Truth(self.of(a, b)))
    }
}

impl Comparison {
    fn answer<L: Life>(self, alloc: Global, inputs: &[Value], life: &L) -> Result<Value, ListFail>
        requires { IsTrue (list_all (fits (L.living life.now)) (map plain inputs.now)) }
        ensures { let w = L.living life.now in
            Gives (outcome_map plain result) (compare_word w self (map plain inputs.now)) }
    {
        let a = value_at(inputs, 0)?;
        let b = value_at(inputs, 1)?;
        Ok(Value::Truth(self.of(alloc, a, b, life)?))
    }
}

impl KindTest {
    fn answer<L: Life>(self, inputs: &[Value], life: &L) -> Result<Value, ListFail>
        ensures { outcome_map plain result ≡ kind_word (L.living life.now) self (map plain inputs.now) }
    {
        let value = value_at(inputs, 0)?;
        Ok(Value::Truth(self.of(value, life)))
    }
}

impl OfList {
    fn answer<L: Life>(self, alloc: Global, inputs: &[Value], life: &L) -> Result<Value, ListFail>
        requires { IsTrue (list_all (fits (L.living life.now)) (map plain inputs.now)) }
        ensures { let w = L.living life.now in
            Gives (outcome_map plain result) (list_word w self (map plain inputs.now)) }
    {
        let items = list_at(inputs, 0)?;
        Ok(Value::items(alloc, self.of(alloc, items, life)?)?)
    }
}

impl PutAtEnd {
    fn answer(self, alloc: Global, inputs: &[Value]) -> Result<Value, ListFail>
        ensures { Gives (outcome_map plain result) (end_word self (map plain inputs.now)) }
    {
        let value = value_at(inputs, 0)?;
        let items = list_at(inputs, 1)?;
        Ok(Value::items(alloc, self.of(alloc, value, items)?)?)
    }
}

impl OfSeries {
    fn answer(self, alloc: Global, inputs: &[Value]) -> Result<Value, ListFail>
        ensures { Gives (outcome_map plain result) (series_word self (map plain inputs.now)) }
    {
        let series = value_at(inputs, 0)?;
        self.of(alloc, series)
    }
}

impl AtPlace {
    fn answer(self, alloc: Global, inputs: &[Value]) -> Result<Value, ListFail>
        ensures { Gives (outcome_map plain result) (place_word self (map plain inputs.now)) }
    {
        let number = number_at(inputs, 0)?;
        let series = value_at(inputs, 1)?;
        self.of(alloc, number, series)
    }
}

impl PutAtPlace {
    fn answer(self, alloc: Global, inputs: &[Value]) -> Result<Value, ListFail>
        ensures { Gives (outcome_map plain result) (put_word self (map plain inputs.now)) }
    {
        let number = number_at(inputs, 0)?;
        let series = value_at(inputs, 1)?;
        let value = value_at(inputs, 2)?;
        self.of(alloc, number, series, value)
    }
}

impl Search {
    fn answer<L: Life>(self, alloc: Global, inputs: &[Value], life: &L) -> Result<Value, ListFail>
        requires { IsTrue (list_all (fits (L.living life.now)) (map plain inputs.now)) }
        ensures { let w = L.living life.now in
            Gives (outcome_map plain result) (search_word w self (map plain inputs.now)) }
    {
        let value = value_at(inputs, 0)?;
        let series = value_at(inputs, 1)?;
        self.of(alloc, value, series, life)
    }
}

/// `sublist`
fn sublist(alloc: Global, inputs: &[Value]) -> Result<Value, ListFail>
    ensures { Gives (outcome_map plain result) (sublist_word (map plain inputs.now)) }
{
    let items = list_at(inputs, 0)?;
    let first = number_at(inputs, 1)?;
    let second = number_at(inputs, 2)?;
    Ok(Value::items(alloc, part_of(alloc, first, second, items)?)?)
}

/// `substring`
fn substring(alloc: Global, inputs: &[Value]) -> Result<Value, ListFail>
    ensures { Gives (outcome_map plain result) (substring_word (map plain inputs.now)) }
{
    let empty = Str::of_vec(Vec::new(alloc));
    let text = text_at(inputs, 0, &empty)?;
    let first = number_at(inputs, 1)?;
    let second = number_at(inputs, 2)?;
    Ok(Value::words(alloc, text_part_of(alloc, first, second, text)?)?)
}

impl Statistic {
    fn answer(self, alloc: Global, inputs: &[Value]) -> Result<Value, ListFail>
        ensures { Gives (outcome_map plain result) (statistic_word self (map plain inputs.now)) }
    {
        let items = list_at(inputs, 0)?;
        Ok(Value::Number(self.of(alloc, items)?))
    }
}

/// `shade-of?`
fn shade(inputs: &[Value]) -> Result<Value, ListFail>
    ensures { outcome_map plain result ≡ shade_word (map plain inputs.now) }
{
    let a = number_at(inputs, 0)?;
    let b = number_at(inputs, 1)?;
    Ok(Value::Truth(are_shades(a, b)?))
}

/// `scale-color`
fn scaled(inputs: &[Value]) -> Result<Value, ListFail>
    ensures { outcome_map plain result ≡ scale_word (map plain inputs.now) }
{
    let color = number_at(inputs, 0)?;
    let value = number_at(inputs, 1)?;
    let low = number_at(inputs, 2)?;
    let high = number_at(inputs, 3)?;
    Ok(Value::Number(scaled_color(color, value, low, high)?))
}

impl ValueWord {
    /// What the word answers, where it draws nothing.
    fn answer<L: Life>(self, alloc: Global, inputs: &[Value], life: &L) -> Result<Value, ListFail>
        requires { IsTrue (list_all (fits (L.living life.now)) (map plain inputs.now)) }
        ensures { let w = L.living life.now in
            Gives (outcome_map plain result) (within_or_not w self (map plain inputs.now)) }
    {
        match self {
            ValueWord::Fixed(which) => Ok(which.value(alloc)?),
            ValueWord::OfNumber(which) => which.answer(inputs),
            ValueWord::OfNumbers(which) => which.answer(inputs),
            ValueWord::Not => turned(inputs),
            ValueWord::OfTruths(which) => which.answer(inputs),
            ValueWord::Compare(which) => which.answer(alloc, inputs, life),
            ValueWord::IsKind(which) => which.answer(inputs, life),
            ValueWord::OfMany(which) => which.of(alloc, inputs, life),
            ValueWord::OfList(which) => which.answer(alloc, inputs, life),
            ValueWord::PutAtEnd(which) => which.answer(alloc, inputs),
            ValueWord::OfSeries(which) => which.answer(alloc, inputs),
            ValueWord::AtPlace(which) => which.answer(alloc, inputs),
            ValueWord::PutAtPlace(which) => which.answer(alloc, inputs),
            ValueWord::Search(which) => which.answer(alloc, inputs, life),
            ValueWord::Sublist => sublist(alloc, inputs),
            ValueWord::Substring => substring(alloc, inputs),
            ValueWord::Statistic(which) => which.answer(alloc, inputs),
            ValueWord::ShadeOf => shade(inputs),
            ValueWord::ScaleColor => scaled(inputs),
            ValueWord::Draws(_) => Err(ListFail::WrongType),
        }
    }
}

impl ValueWord {
    /// What the word answers within the limits on values, where it draws nothing.
    fn kept<L: Life>(self, alloc: Global, inputs: &[Value], life: &L) -> Result<Value, ListFail>
        requires { IsTrue (list_all (fits (L.living life.now)) (map plain inputs.now)) }
        ensures { let w = L.living life.now in
            Gives (outcome_map plain result) (limited (within_or_not w self (map plain inputs.now))) }
    {
        let value = self.answer(alloc, inputs, life)?;
        kept_within(value)
    }

    /// What the word answers of the inputs, and draws of the stream. Inputs of another kind than the word takes, and missing ones, are
    /// WrongType, from left to right; then come the word's own errors in their order, and last TooLarge where the answer would pass
    /// the limits on values. Inputs behind those that the word takes aren't looked at. An error draws nothing.
    pub fn apply<L: Life>(
        self,
        alloc: Global,
        inputs: &[Value],
        life: &L,
        stream: &mut Stream,
    ) -> Result<Value, ListFail>
        requires { IsTrue (list_all (fits (L.living life.now)) (map plain inputs.now)) }
        ensures answer { let w = L.living life.now in
            Answers result stream.new (word_answer w self (map plain inputs.now) stream.old) }
        ensures fit { IfOk result (λ value. IsTrue (fits (L.living life.now) (plain value))) }
        ensures stays { OnErr result (stream.new ≡ stream.old) }
    {
        match self {
            ValueWord::Draws(which) => drawn(which, alloc, inputs, stream),
            _ => self.kept(alloc, inputs, life),
        }
    }
}

/// What the word draws, within the limits on values. An error leaves the stream as it was.
fn drawn(
    which: Draw,
    alloc: Global,
    inputs: &[Value],
    stream: &mut Stream,
) -> Result<Value, ListFail>
    ensures answer { let drawn = drawn_answer which (map plain inputs.now) stream.old in
        Answers result stream.new (and_then drawn kept_answer) }
    ensures stays { OnErr result (stream.new ≡ stream.old) }
{
    let mark = stream.save();
    let value = which.of(alloc, inputs, stream)?;
    if value.is_within_limits() {
        return Ok(value);
    }
    stream.restore(mark);
    Err(ListFail::TooLarge)
}

/// What the word of values with this code answers of the inputs, as `ValueWord::apply` says.
pub fn apply<L: Life>(
    alloc: Global,
    code: u16,
    inputs: &[Value],
    life: &L,
    stream: &mut Stream,
) -> Result<Value, ListFail>
    requires word { IsTrue (is_some (value_word code)) }
    requires fit { IsTrue (list_all (fits (L.living life.now)) (map plain inputs.now)) }
    ensures answer { let w = L.living life.now in
        Answers result stream.new (applied w code (map plain inputs.now) stream.old) }
    ensures fit { IfOk result (λ value. IsTrue (fits (L.living life.now) (plain value))) }
    ensures stays { OnErr result (stream.new ≡ stream.old) }
{
    match value_word(code) {
        Some(word) => word.apply(alloc, inputs, life, stream),
        None => unreachable!(),
    }
}
