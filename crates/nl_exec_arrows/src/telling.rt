//! What the value of a turn makes of the turns that are left.
ghost use Rattle.std.specs.Prelude.{◌≡◌, ◌+◌, ◌<◌, ◌≤◌, ◌++◌, [], ◌∷◌, false, IfOk, OnOk, drop, take};
ghost use Rattle.nl_value.specs.Views.{plain};
ghost use Rattle.nl_exec_meaning.specs.Rounds.{RoundsStand, is_over, items_in, kept_item, kept_on, ranked_on, settled, told};
ghost use Rattle.nl_exec_arrows.specs.Telling.{Told};

use crate::giving::item_at;
use nl_exec_meaning::{Arrow, BoxedRounds};
use nl_fixed::NoMemory;
use nl_value::Value;
use std::alloc::Global;

// The place behind one that isn't the last.
#[inline(always)]
fn place_after(at: usize, many: usize) -> usize
    requires { at < many }
    ensures { result ≡ at + 1 }
{
    at + 1
}

// The value is kept, unless the list would pass the limits with it: then all are let go.
#[inline]
fn keep_value(alloc: Global, rounds: &mut BoxedRounds, value: Value) -> Result<(), NoMemory>
    requires { rounds.old.at < rounds.old.many }
    ensures { OnOk result (rounds.new ≡ kept_on rounds.old (plain value)) }
{
    let at = place_after(rounds.get().at, rounds.get().many);
    if !rounds.get().past {
        rounds.keep(alloc, value)?;
        if !rounds.get().made.are_within_limits() {
            rounds.let_go(alloc);
        }
    }
    rounds.go_to(at);
    Ok(())
}

// The item of the turn is kept where its value is true.
#[inline]
fn keep_item(alloc: Global, rounds: &mut BoxedRounds, value: &Value) -> Result<bool, NoMemory>
    requires { rounds.old.at < rounds.old.many }
    ensures { IfOk result (λ ok. Told ok rounds.new (kept_item rounds.old (plain value.now))) }
{
    let Value::Truth(truth) = value else {
        return Ok(false);
    };
    if *truth {
        keep_next(alloc, rounds)?;
    }
    let at = place_after(rounds.get().at, rounds.get().many);
    rounds.go_to(at);
    Ok(true)
}

// The item of the turn is kept.
#[inline]
fn keep_next(alloc: Global, rounds: &mut BoxedRounds) -> Result<(), NoMemory>
    ensures { let r = rounds.old in
        OnOk result (rounds.new ≡ record r { made = r.made ++ take 1 (drop r.at (items_in r)) }) }
{
    let all = rounds.get();
    let item = match item_at(all, all.at) {
        Some(item) => item.copy(alloc)?,
        None => return Ok(()),
    };
    rounds.keep(alloc, item)
}

// The pair at two places, or the next one: no item stands beside itself, and behind the last of the others comes the next item.
#[inline]
fn settle(rounds: &mut BoxedRounds, place: usize, at: usize)
    requires at { at ≤ rounds.old.many }
    requires place { place < rounds.old.many }
    ensures { rounds.new ≡ settled place at rounds.old }
{
    let many = rounds.get().many;
    let other = if at == place { at + 1 } else { at };
    if other < many {
        rounds.go_to_pair(place, other);
    } else {
        rounds.go_to_pair(place + 1, 0);
    }
}

// The item at the place has one more before it where the value is true.
#[inline]
fn rank_pair(rounds: &mut BoxedRounds, value: &Value) -> Result<bool, NoMemory>
    requires at { rounds.old.at < rounds.old.many }
    requires place { rounds.old.place < rounds.old.many }
    ensures { IfOk result (λ ok. Told ok rounds.new (ranked_on rounds.old (plain value.now))) }
{
    let Value::Truth(truth) = value else {
        return Ok(false);
    };
    if *truth {
        rounds.raise()?;
    }
    let all = rounds.get();
    let (place, at) = (all.place, place_after(all.at, all.many));
    settle(rounds, place, at);
    Ok(true)
}

// The value is handed on to the next turn.
#[inline]
fn hand_on(alloc: Global, rounds: &mut BoxedRounds, value: Value) -> Result<(), NoMemory>
    requires { rounds.old.at < rounds.old.many }
    ensures { OnOk result (rounds.new ≡ record rounds.old { made = plain value ∷ []; at = rounds.old.at + 1 }) }
{
    let at = place_after(rounds.get().at, rounds.get().many);
    rounds.hand_on(alloc, value)?;
    rounds.go_to(at);
    Ok(())
}

/// A turn has this value; false where it is of the wrong kind.
pub fn tell(
    alloc: Global,
    word: Arrow,
    rounds: &mut BoxedRounds,
    value: Value,
) -> Result<bool, NoMemory>
    requires stand { RoundsStand word rounds.old }
    requires left { is_over word rounds.old ≡ false }
    ensures { IfOk result (λ ok. Told ok rounds.new (told word rounds.old (plain value))) }
{
    match word {
        Arrow::ForEach => {
            let at = place_after(rounds.get().at, rounds.get().many);
            rounds.go_to(at);
            Ok(true)
        }
        Arrow::Map | Arrow::NValues => {
            keep_value(alloc, rounds, value)?;
            Ok(true)
        }
        Arrow::Filter => keep_item(alloc, rounds, &value),
        Arrow::Reduce => {
            hand_on(alloc, rounds, value)?;
            Ok(true)
        }
        Arrow::SortBy => rank_pair(rounds, &value),
    }
}
