//! Words of a list or a text.
ghost use Rattle.std.specs.Prelude.{◌≡◌, IsTrue, IfOk};
ghost use Rattle.std.specs.List.{list_all};
ghost use Rattle.nl_value.specs.Living.{fits};
ghost use Rattle.nl_value.specs.Plain.{PlainWords};
ghost use Rattle.nl_value.specs.Views.{plain};
ghost use Rattle.nl_listops_series.specs.Outcomes.{Gives, outcome_map};
ghost use Rattle.nl_listops.specs.Answers.{place_answer, list_answer, of_items, of_text, of_series, at_place_of_items, at_place_of_text, at_place, put_in_items, put_in_text, put_at_place, sought_in_items, sought_in_text, not_in_text, value_in_text, sought_in};

use crate::inputs::as_text;
use crate::words::{AtPlace, OfSeries, PutAtPlace, Search};
use nl_fixed::{NoMemory, Num, Str};
use nl_listops_series::occurrences::{place_of_text, text_without};
use nl_listops_series::searches::{place_of_item, without_item};
use nl_listops_series::statistics::counted;
use nl_listops_series::{ListFail, lists, texts};
use nl_value::{Items, Life, Value};
use std::alloc::Global;

impl OfSeries {
    fn of_items(self, alloc: Global, items: &Items) -> Result<Value, ListFail>
        ensures { Gives (outcome_map plain result) (of_items self items.now) }
    {
        match self {
            OfSeries::First => lists::first(alloc, items),
            OfSeries::Last => lists::last(alloc, items),
            OfSeries::ButFirst => Ok(Value::items(alloc, lists::without_first(alloc, items)?)?),
            OfSeries::ButLast => Ok(Value::items(alloc, lists::without_last(alloc, items)?)?),
            OfSeries::Length => Ok(Value::Number(counted(items.len())?)),
            OfSeries::IsEmpty => Ok(Value::Truth(items.as_slice().is_empty())),
            OfSeries::Reverse => Ok(Value::items(alloc, lists::reversed(alloc, items)?)?),
        }
    }

    fn of_text(self, alloc: Global, text: &Str) -> Result<Value, ListFail>
        ensures { Gives (outcome_map plain result) (of_text self text.now) }
    {
        match self {
            OfSeries::First => Ok(Value::words(alloc, texts::first_character(alloc, text)?)?),
            OfSeries::Last => Ok(Value::words(alloc, texts::last_character(alloc, text)?)?),
            OfSeries::ButFirst => Ok(Value::words(alloc, texts::text_without_first(alloc, text)?)?),
            OfSeries::ButLast => Ok(Value::words(alloc, texts::text_without_last(alloc, text)?)?),
            OfSeries::Length => Ok(Value::Number(counted(text.char_count())?)),
            OfSeries::IsEmpty => Ok(Value::Truth(text.as_bytes().is_empty())),
            OfSeries::Reverse => Ok(Value::words(alloc, texts::text_reversed(alloc, text)?)?),
        }
    }

    /// What the word makes of a list or text.
    pub(crate) fn of(self, alloc: Global, series: &Value) -> Result<Value, ListFail>
        ensures { Gives (outcome_map plain result) (of_series self (plain series.now)) }
    {
        match series {
            Value::Items(items) => self.of_items(alloc, items),
            Value::Words(text) => self.of_text(alloc, text),
            Value::Blank => self.of_text(alloc, &Str::of_vec(Vec::new(alloc))),
            _ => Err(ListFail::WrongType),
        }
    }
}

impl AtPlace {
    fn of_items(self, alloc: Global, number: Num, items: &Items) -> Result<Value, ListFail>
        ensures { Gives (outcome_map plain result) (at_place_of_items self number items.now) }
    {
        match self {
            AtPlace::Item => lists::item_at(alloc, number, items),
            AtPlace::RemoveItem => Ok(Value::items(
                alloc,
                lists::without_at(alloc, number, items)?,
            )?),
        }
    }

    fn of_text(self, alloc: Global, number: Num, text: &Str) -> Result<Value, ListFail>
        ensures { Gives (outcome_map plain result) (at_place_of_text self number text.now) }
    {
        match self {
            AtPlace::Item => Ok(Value::words(alloc, texts::character_at(alloc, number, text)?)?),
            AtPlace::RemoveItem => Ok(Value::words(
                alloc,
                texts::text_without_at(alloc, number, text)?,
            )?),
        }
    }

    /// What the word makes of a list or text at a place.
    pub(crate) fn of(self, alloc: Global, number: Num, series: &Value) -> Result<Value, ListFail>
        ensures { Gives (outcome_map plain result) (at_place self number (plain series.now)) }
    {
        match series {
            Value::Items(items) => self.of_items(alloc, number, items),
            Value::Words(text) => self.of_text(alloc, number, text),
            Value::Blank => self.of_text(alloc, number, &Str::of_vec(Vec::new(alloc))),
            _ => Err(ListFail::WrongType),
        }
    }
}

impl PutAtPlace {
    fn in_items(
        self,
        alloc: Global,
        number: Num,
        items: &Items,
        value: &Value,
    ) -> Result<Value, ListFail>
        ensures { let put = put_in_items self number items.now (plain value.now) in
            Gives (outcome_map plain result) (list_answer put) }
    {
        let put = match self {
            PutAtPlace::ReplaceItem => lists::replaced_at(alloc, number, items, value)?,
            PutAtPlace::InsertItem => lists::inserted_at(alloc, number, items, value)?,
        };
        Ok(Value::items(alloc, put)?)
    }

    fn in_text(self, alloc: Global, number: Num, text: &Str, other: &Str) -> Result<Str, ListFail>
        ensures { Gives result (put_in_text self number text.now other.now) }
    {
        match self {
            PutAtPlace::ReplaceItem => texts::text_replaced_at(alloc, number, text, other),
            PutAtPlace::InsertItem => texts::text_inserted_at(alloc, number, text, other),
        }
    }

    fn value_in_text(
        self,
        alloc: Global,
        number: Num,
        text: &Str,
        value: &Value,
    ) -> Result<Value, ListFail>
        ensures { let put = put_at_place self number (PlainWords text.now) (plain value.now) in
            Gives (outcome_map plain result) put }
    {
        let empty = Str::of_vec(Vec::new(alloc));
        let other = as_text(value, &empty)?;
        Ok(Value::words(alloc, self.in_text(alloc, number, text, other)?)?)
    }

    /// The list or text with the value put at a place. Only a text fits into a text.
    pub(crate) fn of(
        self,
        alloc: Global,
        number: Num,
        series: &Value,
        value: &Value,
    ) -> Result<Value, ListFail>
        ensures { let put = put_at_place self number (plain series.now) (plain value.now) in
            Gives (outcome_map plain result) put }
    {
        match series {
            Value::Items(items) => self.in_items(alloc, number, items, value),
            Value::Words(text) => self.value_in_text(alloc, number, text, value),
            Value::Blank => {
                self.value_in_text(alloc, number, &Str::of_vec(Vec::new(alloc)), value)
            }
            _ => Err(ListFail::WrongType),
        }
    }
}

/// A place as a number, and false where there is none.
fn place_answer(place: Option<usize>) -> Result<Value, ListFail>
    ensures { outcome_map plain result ≡ place_answer place }
{
    match place {
        None => Ok(Value::Truth(false)),
        Some(place) => Ok(Value::Number(counted(place)?)),
    }
}

impl Search {
    fn in_items<L: Life>(
        self,
        alloc: Global,
        value: &Value,
        items: &Items,
        life: &L,
    ) -> Result<Value, ListFail>
        requires value { IsTrue (fits (L.living life.now) (plain value.now)) }
        requires items { IsTrue (list_all (fits (L.living life.now)) items.now) }
        ensures { let w = L.living life.now in
            Gives (outcome_map plain result) (sought_in_items w self (plain value.now) items.now) }
    {
        match self {
            Search::Member => {
                let place = place_of_item(alloc, value, items, life)?;
                Ok(Value::Truth(place.is_some()))
            }
            Search::Position => place_answer(place_of_item(alloc, value, items, life)?),
            Search::Remove => Ok(Value::items(alloc, without_item(alloc, value, items, life)?)?),
        }
    }

    fn in_text(self, alloc: Global, part: &Str, text: &Str) -> Result<Value, ListFail>
        ensures { Gives (outcome_map plain result) (sought_in_text self part.now text.now) }
    {
        match self {
            Search::Member => Ok(Value::Truth(place_of_text(part, text).is_some())),
            Search::Position => place_answer(place_of_text(part, text)),
            Search::Remove => Ok(Value::words(alloc, text_without(alloc, part, text)?)?),
        }
    }

    /// What the word answers where the value is no text.
    fn not_in_text(self, alloc: Global, text: &Str) -> Result<Value, NoMemory>
        ensures { IfOk result (λ answer. plain answer ≡ not_in_text self text.now) }
    {
        match self {
            Search::Member | Search::Position => Ok(Value::Truth(false)),
            Search::Remove => Ok(Value::words(alloc, text.copy(alloc)?)?),
        }
    }

    fn value_in_text(self, alloc: Global, value: &Value, text: &Str) -> Result<Value, ListFail>
        ensures { Gives (outcome_map plain result) (value_in_text self (plain value.now) text.now) }
    {
        match value {
            Value::Words(part) => self.in_text(alloc, part, text),
            Value::Blank => self.in_text(alloc, &Str::of_vec(Vec::new(alloc)), text),
            _ => Ok(self.not_in_text(alloc, text)?),
        }
    }

    /// What the word answers of a value in a list or text.
    pub(crate) fn of<L: Life>(
        self,
        alloc: Global,
        value: &Value,
        series: &Value,
        life: &L,
    ) -> Result<Value, ListFail>
        requires value { IsTrue (fits (L.living life.now) (plain value.now)) }
        requires series { IsTrue (fits (L.living life.now) (plain series.now)) }
        ensures { let w = L.living life.now in
            Gives (outcome_map plain result) (sought_in w self (plain value.now) (plain series.now)) }
    {
        match series {
            Value::Items(items) => self.in_items(alloc, value, items, life),
            Value::Words(text) => self.value_in_text(alloc, value, text),
            Value::Blank => self.value_in_text(alloc, value, &Str::of_vec(Vec::new(alloc))),
            _ => Err(ListFail::WrongType),
        }
    }
}
