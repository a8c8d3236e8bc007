//! What a word makes of its inputs: their kinds, its own errors, and then the turns.
ghost use Rattle.std.specs.Prelude.{◌≡◌, ◌==◌, ◌≤◌, ℕ, ℤ, pos, int_lt, false, List, [], ◌∷◌, length, option_map, replicate, slice_get, IfOk, IfSome, IsTrue};
ghost use Rattle.std.specs.List.{list_all};
ghost use Rattle.std.specs.Option.{option_copied};
ghost use Rattle.nl_fixed.specs.Nouns.{Names};
ghost use Rattle.nl_fixed.specs.Numbers.{whole_limit};
ghost use Rattle.nl_fixed.specs.declared.span.Span.{Span as Place};
ghost use Rattle.nl_birth.specs.Births.{count_of};
ghost use Rattle.nl_tree.specs.Tree.{parts, span};
ghost use Rattle.nl_value.specs.Plain.{Plain, PlainItems, plains};
ghost use Rattle.nl_value.specs.Views.{plain};
ghost use Rattle.nl_agents.specs.Names.{set_fits};
ghost use Rattle.nl_exec_acts.specs.Acts.{members_in_order};
ghost use Rattle.nl_exec_acts.specs.declared.fail.ErrorKind.TheVariants.{WrongType};
ghost use Rattle.nl_exec_meaning.specs.Arrows.{first_length, in_order, list_in, with_lists};
ghost use Rattle.nl_exec_meaning.specs.Code.{node_at};
ghost use Rattle.nl_exec_meaning.specs.Ground.{all_fit};
ghost use Rattle.nl_exec_meaning.specs.Means.{Means};
ghost use Rattle.nl_exec_meaning.specs.Rounds.{begun, first_of, listed, lists_of, one_of, settled, turns_left};
ghost use Rattle.nl_exec_meaning.specs.Seen.{ground, state_of};
ghost use Rattle.nl_exec_meaning.specs.Standing.{NextFits, RoundsFit};
ghost use Rattle.nl_exec_meaning.specs.State.{Outcome, State, come_to, fails, found, rest_of, with_number};
ghost use Rattle.nl_exec_meaning.specs.Work.{next_work};
ghost use Rattle.nl_exec_meaning.specs.declared.words.Arrow.TheVariants as arrow;
ghost use Rattle.nl_exec_arrows.specs.Lists.{IsOfLists, block_at};

use crate::lists::{all_are_lists, all_have_length, item_of, length_of};
use crate::orders::members_in_order;
use crate::rounds::next_round;
use nl_agents::Store;
use nl_exec_acts::ErrorKind;
use nl_exec_meaning::ends::fault;
use nl_exec_meaning::{Arrow, BoxedRounds, Code, Exit, Hands, Next, Numbers, Rounds};
use nl_fixed::{NoMemory, Num};
use nl_value::{AgentSet, Items, Value};
use std::alloc::Global;

// ---- the first turn

// The first turn comes.
fn begin_turns<S: Store>(
    alloc: Global,
    code: &Code,
    hands: &Hands<S>,
    node: u32,
    index: u32,
    word: Arrow,
    rounds: Rounds,
) -> Result<Next, NoMemory>
    requires rounds { RoundsFit (ground hands.now) word rounds }
    ensures meaning { IfOk result (λ next. Means code.now next hands.now hands.now
        (λ prev s. turns_left word prev (node_at code.now node) index rounds s)) }
    ensures falls { IfOk result (λ next. next_work code.now next ≡ 0) }
    ensures fits { IfOk result (λ next. NextFits (ground hands.now) next) }
{
    let rounds = BoxedRounds::new(alloc, rounds)?;
    next_round(alloc, code, hands, node, index, word, rounds)
}

// An error at the word.
#[inline]
fn refused<S: Store>(code: &Code, hands: &Hands<S>, node: u32, kind: ErrorKind) -> Next
    ensures meaning { Means code.now result hands.now hands.now
        (λ prev s. fails kind (span (node_at code.now node)) s) }
    ensures falls { next_work code.now result ≡ 0 }
    ensures fits { NextFits (ground hands.now) result }
{
    Next::Answer(fault(kind, code.span(node), hands.site))
}

// ---- lists side by side

// How many items the first of the lists has.
fn first_length(lists: &Items) -> usize
    ensures { result ≡ first_length (lists_of lists.now) }
{
    match lists.get(0) {
        Some(list) => length_of(list),
        None => 0,
    }
}

// How many places lists have that are gone through side by side: all have to be lists, of one length.
fn places_of(lists: &Items) -> Result<usize, ErrorKind>
    ensures meaning { (place : Place) (s : State) (next : List (List Plain) → Outcome) →
        with_lists lists.now place s next ≡ come_to result place s (λ many. next (lists_of lists.now)) }
    ensures first { IfOk result (λ many. many ≡ first_length (lists_of lists.now)) }
    ensures long { IfOk result (λ many. IsTrue (list_all (λ xs. length xs == many) (lists_of lists.now))) }
{
    if !all_are_lists(lists.as_slice()) {
        return Err(ErrorKind::WrongType);
    }
    let many = first_length(lists);
    if all_have_length(lists.as_slice(), many) {
        Ok(many)
    } else {
        Err(ErrorKind::OutOfList)
    }
}

// Turns over so many places.
#[inline]
fn over_places(alloc: Global, over: Items, many: usize) -> Rounds
    ensures { result ≡ record { over = over; at = 0; place = 0; many = many; made = []; past = false; ranks = [] } }
{
    Rounds {
        over,
        at: 0,
        place: 0,
        many,
        made: Items::empty(alloc),
        past: false,
        ranks: Numbers::empty(alloc),
    }
}

// The index of the block: the last part of `foreach`, the first one of `map`.
#[inline]
fn block_of_lists(code: &Code, node: u32, word: Arrow) -> u32
    ensures { result ≡ block_at word (length (parts (node_at code.now node))) }
{
    match word {
        Arrow::ForEach => code.count(node).saturating_sub(1),
        _ => 0,
    }
}

// `foreach` and `map` go through lists side by side.
fn begin_lists<S: Store>(
    alloc: Global,
    code: &Code,
    hands: &Hands<S>,
    node: u32,
    word: Arrow,
    made: Items,
) -> Result<Next, NoMemory>
    requires made { IsTrue (all_fit (ground hands.now) made) }
    requires word { IsOfLists word }
    ensures meaning { IfOk result (λ next. Means code.now next hands.now hands.now
        (λ prev s. begun word prev (node_at code.now node) made s)) }
    ensures falls { IfOk result (λ next. next_work code.now next ≡ 0) }
    ensures fits { IfOk result (λ next. NextFits (ground hands.now) next) }
{
    let index = block_of_lists(code, node, word);
    match places_of(&made) {
        Ok(many) => {
            let rounds = over_places(alloc, made, many);
            begin_turns(alloc, code, hands, node, index, word, rounds)
        }
        Err(kind) => Ok(refused(code, hands, node, kind)),
    }
}

// ---- one list

// The one input.
#[inline]
fn only(made: &Items) -> Option<&Value>
    ensures { option_map plain (option_copied result) ≡ one_of made.now }
{
    match made.as_slice() {
        [value] => Some(value),
        _ => None,
    }
}

// How many items the one input has, which has to be a list.
#[inline]
fn length_of_one(made: &Items) -> Option<usize>
    ensures meaning { (place : Place) (s : State) (next : List Plain → Outcome) →
        found (one_of made.now) WrongType place s (λ value. found (list_in value) WrongType place s next)
        ≡ found result WrongType place s (λ many. next (listed (first_of made.now))) }
    ensures long { IfSome result (λ many. many ≡ length (listed (first_of made.now))) }
{
    match made.as_slice() {
        [Value::Items(_)] => Some(first_length(made)),
        _ => None,
    }
}

// `filter` judges each item.
fn begin_filter<S: Store>(
    alloc: Global,
    code: &Code,
    hands: &Hands<S>,
    node: u32,
    made: Items,
) -> Result<Next, NoMemory>
    requires made { IsTrue (all_fit (ground hands.now) made) }
    ensures meaning { IfOk result (λ next. Means code.now next hands.now hands.now
        (λ prev s. begun arrow.Filter prev (node_at code.now node) made s)) }
    ensures falls { IfOk result (λ next. next_work code.now next ≡ 0) }
    ensures fits { IfOk result (λ next. NextFits (ground hands.now) next) }
{
    match length_of_one(&made) {
        Some(many) => {
            let rounds = over_places(alloc, made, many);
            begin_turns(alloc, code, hands, node, 0, Arrow::Filter, rounds)
        }
        None => Ok(refused(code, hands, node, ErrorKind::WrongType)),
    }
}

// The first item of the one list.
fn first_item(alloc: Global, made: &Items) -> Result<Option<Value>, NoMemory>
    ensures { IfOk result (λ value. option_map plain value ≡ slice_get (listed (first_of made.now)) 0) }
{
    match made.get(0) {
        Some(list) => match item_of(list, 0) {
            Some(item) => Ok(Some(item.copy(alloc)?)),
            None => Ok(None),
        },
        None => Ok(None),
    }
}

// Turns over the items behind the first one, which is handed on.
fn behind_first(alloc: Global, over: Items, many: usize, first: Value) -> Result<Rounds, NoMemory>
    ensures { let r : Rounds = record { over = over; at = 1; place = 0; many = many; made = plain first ∷ []; past = false; ranks = [] } in
        IfOk result (λ rounds. rounds ≡ r) }
{
    let mut rounds = over_places(alloc, over, many);
    rounds.made.push(alloc, first)?;
    rounds.at = 1;
    Ok(rounds)
}

// `reduce` hands the first item on to the turn of the second.
fn begin_reduce<S: Store>(
    alloc: Global,
    code: &Code,
    hands: &Hands<S>,
    node: u32,
    made: Items,
) -> Result<Next, NoMemory>
    requires made { IsTrue (all_fit (ground hands.now) made) }
    ensures meaning { IfOk result (λ next. Means code.now next hands.now hands.now
        (λ prev s. begun arrow.Reduce prev (node_at code.now node) made s)) }
    ensures falls { IfOk result (λ next. next_work code.now next ≡ 0) }
    ensures fits { IfOk result (λ next. NextFits (ground hands.now) next) }
{
    let Some(many) = length_of_one(&made) else {
        return Ok(refused(code, hands, node, ErrorKind::WrongType));
    };
    let Some(first) = first_item(alloc, &made)? else {
        return Ok(refused(code, hands, node, ErrorKind::TooFew));
    };
    let rounds = behind_first(alloc, made, many, first)?;
    begin_turns(alloc, code, hands, node, 0, Arrow::Reduce, rounds)
}

// ---- an order

// The items that are sorted: a list, or the living members of a set in their order.
fn sorted_input<S: Store>(
    alloc: Global,
    hands: &Hands<S>,
    made: Items,
) -> Result<Option<Items>, NoMemory>
    requires made { IsTrue (all_fit (ground hands.now) made) }
    ensures meaning { (names : Names) (units : ℕ) (place : Place) (next : List Plain → Outcome) →
        let s = state_of names hands.now units in
        IfOk result (λ over.
        found (one_of made) WrongType place s (λ value. found (in_order (rest_of s) value) WrongType place s next)
        ≡ found over WrongType place s (λ lists. next (listed (first_of lists)))) }
    ensures fits { IfOk result (λ over. IfSome over (λ lists. IsTrue (all_fit (ground hands.now) lists))) }
{
    match only(&made) {
        Some(Value::Items(_)) => Ok(Some(made)),
        Some(Value::Set(set)) => Ok(Some(listed_members(alloc, hands, set)?)),
        _ => Ok(None),
    }
}

// The living members of a set in their order, as the one list.
fn listed_members<S: Store>(
    alloc: Global,
    hands: &Hands<S>,
    set: &AgentSet,
) -> Result<Items, NoMemory>
    requires { IsTrue (set_fits (S.world hands.now.stage.store).rest set.now) }
    ensures { let r = (S.world hands.now.stage.store).rest in
        IfOk result (λ lists. lists ≡ PlainItems (plains (members_in_order r set.now)) ∷ []) }
{
    let members = members_in_order(alloc, hands, set)?;
    let list = Value::items(alloc, members)?;
    let mut lists = Items::empty(alloc);
    lists.push(alloc, list)?;
    Ok(lists)
}

// Turns over pairs of so many items, of which none comes before another yet.
fn over_pairs(alloc: Global, over: Items, many: usize) -> Result<Rounds, NoMemory>
    ensures { let r : Rounds = record { over = over; at = 0; place = 0; many = many; made = []; past = false; ranks = replicate many 0 } in
        IfOk result (λ rounds. rounds ≡ settled 0 0 r) }
{
    let ranks = Numbers::zeros(alloc, many)?;
    let mut rounds = over_places(alloc, over, many);
    rounds.ranks = ranks;
    // No item stands beside itself.
    if many <= 1 {
        rounds.place = 1;
    } else {
        rounds.at = 1;
    }
    Ok(rounds)
}

// `sort-by` asks of each item which others come before it.
fn begin_sort<S: Store>(
    alloc: Global,
    code: &Code,
    hands: &Hands<S>,
    node: u32,
    made: Items,
) -> Result<Next, NoMemory>
    requires made { IsTrue (all_fit (ground hands.now) made) }
    ensures meaning { IfOk result (λ next. Means code.now next hands.now hands.now
        (λ prev s. begun arrow.SortBy prev (node_at code.now node) made s)) }
    ensures falls { IfOk result (λ next. next_work code.now next ≡ 0) }
    ensures fits { IfOk result (λ next. NextFits (ground hands.now) next) }
{
    let Some(over) = sorted_input(alloc, hands, made)? else {
        return Ok(refused(code, hands, node, ErrorKind::WrongType));
    };
    let many = first_length(&over);
    let rounds = over_pairs(alloc, over, many)?;
    begin_turns(alloc, code, hands, node, 0, Arrow::SortBy, rounds)
}

// ---- numbers

// The number that is the one input.
#[inline]
fn number_of_one(made: &Items) -> Option<Num>
    ensures { (place : Place) (s : State) (next : ℤ → Outcome) →
        found (one_of made.now) WrongType place s (λ value. with_number value place s next)
        ≡ found result WrongType place s next }
{
    match made.as_slice() {
        [Value::Number(number)] => Some(*number),
        _ => None,
    }
}

// Whether a number is less than 0.
#[inline]
fn is_negative(number: Num) -> bool
    ensures { result ≡ int_lt number (pos 0) }
{
    number.millionths() < 0
}

// How many turns a number that isn't negative makes.
fn turns_of(number: Num) -> usize
    ensures value { result ≡ count_of number }
    ensures bound { result ≤ whole_limit }
{
    let whole = number.whole_part();
    if whole < 0 { 0 } else { whole as usize }
}

// `n-values` counts from 0 on.
fn begin_numbers<S: Store>(
    alloc: Global,
    code: &Code,
    hands: &Hands<S>,
    node: u32,
    made: Items,
) -> Result<Next, NoMemory>
    requires made { IsTrue (all_fit (ground hands.now) made) }
    ensures meaning { IfOk result (λ next. Means code.now next hands.now hands.now
        (λ prev s. begun arrow.NValues prev (node_at code.now node) made s)) }
    ensures falls { IfOk result (λ next. next_work code.now next ≡ 0) }
    ensures fits { IfOk result (λ next. NextFits (ground hands.now) next) }
{
    let Some(number) = number_of_one(&made) else {
        return Ok(refused(code, hands, node, ErrorKind::WrongType));
    };
    if is_negative(number) {
        return Ok(refused(code, hands, node, ErrorKind::Domain));
    }
    let rounds = over_places(alloc, Items::empty(alloc), turns_of(number));
    begin_turns(alloc, code, hands, node, 1, Arrow::NValues, rounds)
}

/// What a word makes of its inputs.
pub fn begin<S: Store>(
    alloc: Global,
    code: &Code,
    hands: &Hands<S>,
    node: u32,
    word: Arrow,
    made: Items,
) -> Result<Next, NoMemory>
    requires made { IsTrue (all_fit (ground hands.now) made) }
    ensures meaning { IfOk result (λ next. Means code.now next hands.now hands.now
        (λ prev s. begun word prev (node_at code.now node) made s)) }
    ensures falls { IfOk result (λ next. next_work code.now next ≡ 0) }
    ensures fits { IfOk result (λ next. NextFits (ground hands.now) next) }
{
    match word {
        Arrow::ForEach | Arrow::Map => begin_lists(alloc, code, hands, node, word, made),
        Arrow::Filter => begin_filter(alloc, code, hands, node, made),
        Arrow::Reduce => begin_reduce(alloc, code, hands, node, made),
        Arrow::SortBy => begin_sort(alloc, code, hands, node, made),
        Arrow::NValues => begin_numbers(alloc, code, hands, node, made),
    }
}
