//! Lists of values: their ends, their parts, and what is put together of values.
ghost use Rattle.std.specs.Prelude.{◌≡◌, ◌∷◌, ◌++◌, [], map, reverse, IfOk, OnOk};
ghost use Rattle.nl_listops_series.specs.Outcomes.{Gives, outcome_map};
ghost use Rattle.nl_listops_series.specs.Places.{first_of, last_of, without_first, without_last, item_at, without_at, replaced_at, inserted_at, part_of};
ghost use Rattle.nl_listops_series.specs.Lists.{sentence_of, put_first, put_last, items_in};
ghost use Rattle.nl_value.specs.Views.{plain};

use crate::fail::ListFail;
use crate::places::{index_of, place_below};
use nl_fixed::{NoMemory, Num};
use nl_value::{Items, Value};
use std::alloc::Global;

/// Appends copies of the values, in order.
pub fn append(alloc: Global, out: &mut Items, values: &[Value]) -> Result<(), NoMemory>
    ensures { OnOk result (out.new ≡ out.old ++ map plain values.now) }
{
    for value in values {
        let again = value.copy(alloc)?;
        out.push(alloc, again)?;
    }
    Ok(())
}

/// The list of the values.
pub fn list_of(alloc: Global, values: &[Value]) -> Result<Items, NoMemory>
    ensures { IfOk result (λ items. items ≡ map plain values.now) }
{
    let mut items = Items::empty(alloc);
    append(alloc, &mut items, values)?;
    Ok(items)
}

/// Appends the items of a list, or the value where it is none.
fn append_items_in(alloc: Global, out: &mut Items, value: &Value) -> Result<(), NoMemory>
    ensures { OnOk result (out.new ≡ out.old ++ items_in (plain value.now)) }
{
    match value {
        Value::Items(items) => append(alloc, out, items.as_slice()),
        _ => {
            let again = value.copy(alloc)?;
            out.push(alloc, again)
        }
    }
}

/// The list of the values, with the lists among them taken apart by one level.
pub fn sentence(alloc: Global, values: &[Value]) -> Result<Items, NoMemory>
    ensures { IfOk result (λ items. items ≡ sentence_of (map plain values.now)) }
{
    let mut items = Items::empty(alloc);
    for value in values {
        append_items_in(alloc, &mut items, value)?;
    }
    Ok(items)
}

/// The list with the value in front.
pub fn put_first(alloc: Global, value: &Value, items: &Items) -> Result<Items, NoMemory>
    ensures { IfOk result (λ more. more ≡ put_first (plain value.now) items.now) }
{
    let mut more = Items::empty(alloc);
    let again = value.copy(alloc)?;
    more.push(alloc, again)?;
    append(alloc, &mut more, items.as_slice())?;
    Ok(more)
}

/// The list with the value at the end.
pub fn put_last(alloc: Global, value: &Value, items: &Items) -> Result<Items, NoMemory>
    ensures { IfOk result (λ more. more ≡ put_last (plain value.now) items.now) }
{
    let mut more = items.copy(alloc)?;
    let again = value.copy(alloc)?;
    more.push(alloc, again)?;
    Ok(more)
}

/// The first item. OutOfList where there is none.
pub fn first(alloc: Global, items: &Items) -> Result<Value, ListFail>
    ensures { Gives (outcome_map plain result) (first_of items.now) }
{
    match items.as_slice().first() {
        Some(value) => Ok(value.copy(alloc)?),
        None => Err(ListFail::OutOfList),
    }
}

/// The last item. OutOfList where there is none.
pub fn last(alloc: Global, items: &Items) -> Result<Value, ListFail>
    ensures { Gives (outcome_map plain result) (last_of items.now) }
{
    match items.as_slice().last() {
        Some(value) => Ok(value.copy(alloc)?),
        None => Err(ListFail::OutOfList),
    }
}

/// All items but the first. OutOfList where there is none.
pub fn without_first(alloc: Global, items: &Items) -> Result<Items, ListFail>
    ensures { Gives result (without_first items.now) }
{
    match items.as_slice() {
        [] => Err(ListFail::OutOfList),
        [_, others @ ..] => Ok(list_of(alloc, others)?),
    }
}

/// All items but the last. OutOfList where there is none.
pub fn without_last(alloc: Global, items: &Items) -> Result<Items, ListFail>
    ensures { Gives result (without_last items.now) }
{
    match items.as_slice() {
        [] => Err(ListFail::OutOfList),
        [others @ .., _] => Ok(list_of(alloc, others)?),
    }
}

/// The item at a place. OutOfList where there is none.
pub fn item_at(alloc: Global, number: Num, items: &Items) -> Result<Value, ListFail>
    ensures { Gives (outcome_map plain result) (item_at number items.now) }
{
    let place = place_below(number, items.len())?;
    Ok(items.as_slice()[place].copy(alloc)?)
}

/// The list without the item at a place. OutOfList where there is none.
pub fn without_at(alloc: Global, number: Num, items: &Items) -> Result<Items, ListFail>
    ensures { Gives result (without_at number items.now) }
{
    let place = place_below(number, items.len())?;
    let values = items.as_slice();
    let mut all = list_of(alloc, &values[..place])?;
    append(alloc, &mut all, &values[place + 1..])?;
    Ok(all)
}

/// The values in front, the one between, and those behind.
fn with_value(
    alloc: Global,
    front: &[Value],
    value: &Value,
    back: &[Value],
) -> Result<Items, NoMemory>
    ensures { IfOk result (λ all. all ≡ map plain front.now ++ (plain value.now ∷ map plain back.now)) }
{
    let mut all = list_of(alloc, front)?;
    let again = value.copy(alloc)?;
    all.push(alloc, again)?;
    append(alloc, &mut all, back)?;
    Ok(all)
}

/// The list with the value in place of the item at a place. OutOfList where there is none.
pub fn replaced_at(
    alloc: Global,
    number: Num,
    items: &Items,
    value: &Value,
) -> Result<Items, ListFail>
    ensures { Gives result (replaced_at number items.now (plain value.now ∷ [])) }
{
    let place = place_below(number, items.len())?;
    let values = items.as_slice();
    Ok(with_value(alloc, &values[..place], value, &values[place + 1..])?)
}

/// The list with the value put in at a place, which may be the end. OutOfList beyond.
pub fn inserted_at(
    alloc: Global,
    number: Num,
    items: &Items,
    value: &Value,
) -> Result<Items, ListFail>
    ensures { Gives result (inserted_at number items.now (plain value.now ∷ [])) }
{
    let values = items.as_slice();
    match index_of(number) {
        Some(place) if place <= values.len() => {
            Ok(with_value(alloc, &values[..place], value, &values[place..])?)
        }
        _ => Err(ListFail::OutOfList),
    }
}

/// The items from the first place up to, but not with, the second. OutOfList unless both lie within the list or at its end, and
/// the second not before the first.
pub fn part_of(alloc: Global, first: Num, second: Num, items: &Items) -> Result<Items, ListFail>
    ensures { Gives result (part_of first second items.now) }
{
    let values = items.as_slice();
    match (index_of(first), index_of(second)) {
        (Some(from), Some(to)) if from <= to && to <= values.len() => {
            Ok(list_of(alloc, &values[from..to])?)
        }
        _ => Err(ListFail::OutOfList),
    }
}

/// Copies of the values, in order.
pub fn copies(alloc: Global, values: &[Value]) -> Result<Vec<Value>, NoMemory>
    ensures { IfOk result (λ list. map plain list.items ≡ map plain values.now) }
{
    let mut list = Vec::new(alloc);
    for value in values {
        let again = value.copy(alloc)?;
        list.push(again)?;
    }
    Ok(list)
}

/// The items, the last one first.
pub fn reversed(alloc: Global, items: &Items) -> Result<Items, NoMemory>
    ensures { IfOk result (λ turned. turned ≡ reverse items.now) }
{
    let mut list = copies(alloc, items.as_slice())?;
    list.reverse();
    Ok(Items::of_vec(list))
}
