//! The values of a turn, by the names of the block's head.
ghost use Rattle.std.specs.Prelude.{◌≡◌, ◌≤◌, ◌++◌, false, IfOk, IsTrue, OnOk, option_map, slice_get};
ghost use Rattle.std.specs.Option.{option_copied};
ghost use Rattle.nl_fixed.specs.Numbers.{whole_limit};
ghost use Rattle.nl_value.specs.Plain.{PlainNumber};
ghost use Rattle.nl_value.specs.Views.{plain};
ghost use Rattle.nl_exec_meaning.specs.Arrows.{head_of, place_number};
ghost use Rattle.nl_exec_meaning.specs.Calls.{bound};
ghost use Rattle.nl_exec_meaning.specs.Code.{node_at};
ghost use Rattle.nl_exec_meaning.specs.Ground.{Ground, all_fit};
ghost use Rattle.nl_exec_meaning.specs.Kept.{all_held};
ghost use Rattle.nl_exec_meaning.specs.Rounds.{RoundsStand, first_of, given, is_over, items_in};
ghost use Rattle.nl_exec_meaning.specs.Standing.{LocalsFit};
ghost use Rattle.nl_exec_meaning.specs.declared.words.Arrow.TheVariants as arrow;

use crate::lists::item_of;
use nl_exec_meaning::{Arrow, Code, Local, Locals, Rounds};
use nl_fixed::{NoMemory, Num};
use nl_value::Value;
use std::alloc::Global;

/// A place as a number. No list and no count of `n-values` has a place out of range.
fn place_number(at: usize) -> Num
    requires { at ≤ whole_limit }
    ensures { PlainNumber result ≡ place_number at }
{
    Num::whole(at as i64).unwrap()
}

/// The item of the one list that turns go over, at a place.
#[inline]
pub fn item_at(rounds: &Rounds, at: usize) -> Option<&Value>
    ensures { option_map plain (option_copied result) ≡ slice_get (items_in rounds.now) at }
{
    match rounds.over.get(0) {
        Some(list) => item_of(list, at),
        None => None,
    }
}

// The item of a list at the place of the next turn, where lists are gone through side by side.
#[inline]
fn item_beside(rounds: &Rounds, list: usize) -> Option<&Value>
    requires stand { RoundsStand arrow.Map rounds.now }
    requires left { is_over arrow.Map rounds.now ≡ false }
    ensures { option_map plain (option_copied result) ≡ slice_get (given arrow.Map rounds.now) list }
{
    match rounds.over.get(list) {
        Some(list) => item_of(list, rounds.at),
        None => None,
    }
}

// The one item of a turn of `filter`.
#[inline]
fn item_alone(rounds: &Rounds, which: usize) -> Option<&Value>
    ensures { option_map plain (option_copied result) ≡ slice_get (given arrow.Filter rounds.now) which }
{
    if which == 0 {
        item_at(rounds, rounds.at)
    } else {
        None
    }
}

// The two items of a turn of `sort-by`.
#[inline]
fn item_of_pair(rounds: &Rounds, which: usize) -> Option<&Value>
    requires stand { RoundsStand arrow.SortBy rounds.now }
    requires left { is_over arrow.SortBy rounds.now ≡ false }
    ensures { option_map plain (option_copied result) ≡ slice_get (given arrow.SortBy rounds.now) which }
{
    match which {
        0 => item_at(rounds, rounds.at),
        1 => item_at(rounds, rounds.place),
        _ => None,
    }
}

// The same value again, if there is one.
#[inline]
fn copied(alloc: Global, value: Option<&Value>) -> Result<Option<Value>, NoMemory>
    ensures { IfOk result (λ again. option_map plain again ≡ option_map plain (option_copied value.entry)) }
{
    match value {
        Some(value) => Ok(Some(value.copy(alloc)?)),
        None => Ok(None),
    }
}

/// The value that a turn of `reduce` has from the one before.
#[inline]
pub fn handed_on(alloc: Global, rounds: &Rounds) -> Result<Value, NoMemory>
    ensures { IfOk result (λ value. plain value ≡ first_of rounds.now.made) }
{
    match rounds.made.get(0) {
        Some(value) => value.copy(alloc),
        None => Ok(Value::Nobody),
    }
}

// What a turn of `reduce` has: the value of the one before, and an item.
#[inline]
fn value_or_item(alloc: Global, rounds: &Rounds, which: usize) -> Result<Option<Value>, NoMemory>
    ensures { IfOk result (λ value. option_map plain value ≡ slice_get (given arrow.Reduce rounds.now) which) }
{
    match which {
        0 => Ok(Some(handed_on(alloc, rounds)?)),
        1 => copied(alloc, item_at(rounds, rounds.at)),
        _ => Ok(None),
    }
}

// The number of a turn of `n-values`.
#[inline]
fn number_at(rounds: &Rounds, which: usize) -> Option<Value>
    requires stand { RoundsStand arrow.NValues rounds.now }
    requires left { is_over arrow.NValues rounds.now ≡ false }
    ensures { option_map plain result ≡ slice_get (given arrow.NValues rounds.now) which }
{
    if which == 0 {
        Some(Value::Number(place_number(rounds.at)))
    } else {
        None
    }
}

// A value of the next turn, counted from 0.
#[inline]
fn value_at(
    alloc: Global,
    word: Arrow,
    rounds: &Rounds,
    which: usize,
) -> Result<Option<Value>, NoMemory>
    requires stand { RoundsStand word rounds.now }
    requires left { is_over word rounds.now ≡ false }
    ensures { IfOk result (λ value. option_map plain value ≡ slice_get (given word rounds.now) which) }
{
    match word {
        Arrow::ForEach => copied(alloc, item_beside(rounds, which)),
        Arrow::Map => copied(alloc, item_beside(rounds, which)),
        Arrow::Filter => copied(alloc, item_alone(rounds, which)),
        Arrow::Reduce => value_or_item(alloc, rounds, which),
        Arrow::SortBy => copied(alloc, item_of_pair(rounds, which)),
        Arrow::NValues => Ok(number_at(rounds, which)),
    }
}

/// Makes locals of the values of the next turn, by the names of the block's head.
pub fn name_values(
    alloc: Global,
    code: &Code,
    locals: &mut Locals,
    block: u32,
    word: Arrow,
    rounds: &Rounds,
) -> Result<(), NoMemory>
    requires stand { RoundsStand word rounds.now }
    requires left { is_over word rounds.now ≡ false }
    ensures held { let names = head_of (node_at code.now block) in
        OnOk result (all_held code.now.names locals.new
        ≡ all_held code.now.names locals.old ++ bound names (given word rounds.now)) }
    ensures fits { (g : Ground) → IsTrue (all_fit g (given word rounds.now)) → LocalsFit g locals.old →
        OnOk result (LocalsFit g locals.new) }
{
    let head = code.head(block);
    for which in 0..head.len() {
        let Some(value) = value_at(alloc, word, rounds, which)? else {
            return Ok(());
        };
        let id = head[which];
        locals.push(alloc, Local { id, value })?;
    }
    Ok(())
}
