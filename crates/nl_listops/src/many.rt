//! Words that make a list or a text of values.
ghost use Rattle.std.specs.Prelude.{◌≡◌, map, IsTrue, IfOk};
ghost use Rattle.std.specs.List.{list_all};
ghost use Rattle.nl_value.specs.Living.{fits};
ghost use Rattle.nl_value.specs.Views.{plain};
ghost use Rattle.nl_listops_series.specs.Outcomes.{Gives, outcome_map, limited, kept_within, list_value};
ghost use Rattle.nl_value.specs.Plain.{PlainWords};
ghost use Rattle.nl_listops_series.specs.Lists.{sentence_of};
ghost use Rattle.nl_listops_series.specs.Texts.{word_of};
ghost use Rattle.nl_listops.specs.Answers.{fixed_value, range_answer, of_many, put_at_end, of_list};

use crate::inputs::numbers_in;
use crate::numbers::{circle_ratio, growth_base};
use crate::words::{Fixed, OfList, OfMany, PutAtEnd};
use nl_fixed::NoMemory;
use nl_listops_series::ListFail;
use nl_listops_series::lists::{list_of, put_first, put_last, sentence};
use nl_listops_series::ranges::range;
use nl_listops_series::repeats::{each_once, modes};
use nl_listops_series::sorts::sorted;
use nl_listops_series::texts::word;
use nl_value::colors::primary_colors;
use nl_value::{Items, Life, Value};
use std::alloc::Global;

/// The value, where it is within the limits on values; else TooLarge.
pub(crate) fn kept_within(value: Value) -> Result<Value, ListFail>
    ensures { outcome_map plain result ≡ kept_within (plain value) }
{
    if value.is_within_limits() {
        Ok(value)
    } else {
        Err(ListFail::TooLarge)
    }
}

impl Fixed {
    /// The value of the word.
    pub(crate) fn value(self, alloc: Global) -> Result<Value, NoMemory>
        ensures { IfOk result (λ value. plain value ≡ fixed_value self) }
    {
        match self {
            Fixed::Pi => Ok(Value::Number(circle_ratio())),
            Fixed::E => Ok(Value::Number(growth_base())),
            Fixed::True => Ok(Value::Truth(true)),
            Fixed::False => Ok(Value::Truth(false)),
            Fixed::Nobody => Ok(Value::Nobody),
            Fixed::BaseColors => Ok(Value::items(alloc, primary_colors(alloc)?)?),
        }
    }
}

/// The list of the values.
fn listed(alloc: Global, values: &[Value]) -> Result<Value, ListFail>
    ensures { Gives (outcome_map plain result) (kept_within (list_value (map plain values.now))) }
{
    kept_within(Value::items(alloc, list_of(alloc, values)?)?)
}

/// The list of the values, with the lists among them taken apart.
fn sentenced(alloc: Global, values: &[Value]) -> Result<Value, ListFail>
    ensures { let whole = sentence_of (map plain values.now) in
        Gives (outcome_map plain result) (kept_within (list_value whole)) }
{
    kept_within(Value::items(alloc, sentence(alloc, values)?)?)
}

/// The text of the values in one.
fn worded<L: Life>(alloc: Global, values: &[Value], life: &L) -> Result<Value, ListFail>
    requires { IsTrue (list_all (fits (L.living life.now)) (map plain values.now)) }
    ensures { let w = L.living life.now in
        Gives (outcome_map plain result) (kept_within (PlainWords (word_of w (map plain values.now)))) }
{
    Ok(Value::words(alloc, word(alloc, values, life)?)?)
}

/// The numbers in a row that the values tell.
fn ranged(alloc: Global, values: &[Value]) -> Result<Value, ListFail>
    ensures { Gives (outcome_map plain result) (limited (range_answer (map plain values.now))) }
{
    let numbers = numbers_in(alloc, values)?;
    Ok(Value::items(alloc, range(alloc, &numbers)?)?)
}

impl OfMany {
    /// What the word makes of the values, within the limits on values.
    pub(crate) fn of<L: Life>(
        self,
        alloc: Global,
        values: &[Value],
        life: &L,
    ) -> Result<Value, ListFail>
        requires { IsTrue (list_all (fits (L.living life.now)) (map plain values.now)) }
        ensures { let w = L.living life.now in
            Gives (outcome_map plain result) (limited (of_many w self (map plain values.now))) }
    {
        match self {
            OfMany::List => listed(alloc, values),
            OfMany::Sentence => sentenced(alloc, values),
            OfMany::Word => worded(alloc, values, life),
            OfMany::Range => ranged(alloc, values),
        }
    }
}

impl PutAtEnd {
    /// The list with the value at an end.
    pub(crate) fn of(self, alloc: Global, value: &Value, items: &Items) -> Result<Items, NoMemory>
        ensures { IfOk result (λ more. more ≡ put_at_end self (plain value.now) items.now) }
    {
        match self {
            PutAtEnd::First => put_first(alloc, value, items),
            PutAtEnd::Last => put_last(alloc, value, items),
        }
    }
}

impl OfList {
    /// What the word makes of the list.
    pub(crate) fn of<L: Life>(
        self,
        alloc: Global,
        items: &Items,
        life: &L,
    ) -> Result<Items, NoMemory>
        requires { IsTrue (list_all (fits (L.living life.now)) items.now) }
        ensures { IfOk result (λ made. made ≡ of_list (L.living life.now) self items.now) }
    {
        match self {
            OfList::RemoveDuplicates => each_once(alloc, items, life),
            OfList::Sort => sorted(alloc, items, life),
            OfList::Modes => modes(alloc, items, life),
        }
    }
}
