//! Choices among the members of a set or the items of a list. An error draws nothing.
ghost use Rattle.std.specs.Prelude.{◌≡◌, ◌<◌, ◌≤◌, ◌^◌, ◌+◌, map, length, unsigned_abs, IsTrue, IfOk, OnErr};
ghost use Rattle.std.specs.List.{range_with_len};
ghost use Rattle.nl_value.specs.Views.{plain};
ghost use Rattle.nl_value.specs.Plain.{PlainItems, plains, items_of};
ghost use Rattle.nl_value.specs.Sets.{set_kind};
ghost use Rattle.nl_draw.specs.Stream.{chosen};
ghost use Rattle.nl_agents.specs.Members.{members_of, most_reads};
ghost use Rattle.nl_agents.specs.Names.{set_fits};
ghost use Rattle.nl_agents.specs.Standing.{fits_rest};
ghost use Rattle.nl_agentset_query.specs.Choices.{item_or_few, one_member, one_among, places_drawn, kept_from, some_of, are_too_few, wanted_of, several_items, several_members, several_among, chosen_by};
ghost use Rattle.nl_agentset_query.specs.Inputs.{inputs_fit};
ghost use Rattle.nl_agentset_query.specs.Outcomes.{Answers};
ghost use Rattle.nl_agentset_query.specs.Orders.{SameNumbers};
ghost use Rattle.nl_agentset_query.specs.Reads.{members_reads, choice_reads};

use crate::agents::{agent_or_nobody, listed};
use crate::fail::QueryFail;
use crate::inputs::{fitting_at, number_at};
use crate::orders::in_order;
use crate::words::Choice;
use crate::{living, one_of};
use nl_agents::{Steps, Store};
use nl_draw::Stream;
use nl_fixed::{NoMemory, Num};
use nl_value::{AgentSet, Items, Serials, Value};
use std::alloc::Global;
use std::sync::ledger::Ledger;

// ---- one

/// One item of a list by one draw; TooFew where there is none.
fn one_item(alloc: Global, items: &Items, stream: &mut Stream) -> Result<Value, QueryFail>
    ensures answer { Answers result stream.new (item_or_few (chosen items.now stream.old)) }
    ensures stays { OnErr result (stream.new ≡ stream.old) }
{
    let mark = stream.save();
    let values = items.as_slice();
    let Some(index) = stream.choose_index(values.len()) else {
        return Err(QueryFail::TooFew);
    };
    match values[index].copy(alloc) {
        Ok(value) => Ok(value),
        Err(_) => {
            stream.restore(mark);
            Err(QueryFail::NoMemory)
        }
    }
}

/// One member of a set by one draw, or nobody.
fn one_member<S: Store, L: Ledger>(
    alloc: Global,
    set: &AgentSet,
    store: &S,
    stream: &mut Stream,
    steps: &mut Steps<L>,
) -> Result<Value, NoMemory>
    requires { IsTrue (set_fits (S.world store.now).rest set.now) }
    ensures answer { let r = (S.world store.now).rest in let state = stream.new in
        IfOk result (λ value. (plain value, state) ≡ one_member r set.now stream.old) }
    ensures stays { OnErr result (stream.new ≡ stream.old) }
    ensures reads { steps.new ≤ steps.old + most_reads (S.world store.now).rest set.now }
{
    // What the numbers of patches rest on: the store stands for a world.
    let _stands = store.shape();
    let members = living(alloc, set, store, steps)?;
    let chosen = one_of(members.as_slice(), stream);
    Ok(agent_or_nobody(set.kind(), chosen))
}

/// One member or item of a value.
fn one_among<S: Store, L: Ledger>(
    alloc: Global,
    value: &Value,
    store: &S,
    stream: &mut Stream,
    steps: &mut Steps<L>,
) -> Result<Value, QueryFail>
    requires { IsTrue (fits_rest (S.world store.now).rest (plain value.now)) }
    ensures answer { let r = (S.world store.now).rest in
        Answers result stream.new (one_among r (plain value.now) stream.old) }
    ensures stays { OnErr result (stream.new ≡ stream.old) }
    ensures reads { steps.new ≤ steps.old + members_reads (S.world store.now).rest (plain value.now) }
{
    match value {
        Value::Items(items) => one_item(alloc, items, stream),
        Value::Set(set) => Ok(one_member(alloc, set, store, stream, steps)?),
        _ => Err(QueryFail::WrongType),
    }
}

// ---- several

/// Whether there are fewer than the word wants.
fn are_too_few(which: Choice, number: Num, many: usize) -> bool
    ensures { result ≡ are_too_few which number many }
{
    match which {
        Choice::UpToNOf => false,
        Choice::OneOf | Choice::NOf => (many as i128) < i128::from(number.whole_part()),
    }
}

/// How many are wanted of so many.
fn wanted_of(which: Choice, number: Num, many: usize) -> Result<usize, QueryFail>
    ensures { result ≡ wanted_of which number many }
{
    if are_too_few(which, number, many) {
        return Err(QueryFail::TooFew);
    }
    if number.millionths() < 0 {
        return Err(QueryFail::Domain);
    }
    Ok(number.whole_part().unsigned_abs() as usize)
}

/// The places of a list of so many.
fn places(alloc: Global, many: usize) -> Result<Vec<u64>, NoMemory>
    ensures { IfOk result (λ places. places.items ≡ range_with_len 0 many) }
{
    let mut places = Vec::new(alloc);
    for place in 0..many {
        places.push(place as u64)?;
    }
    Ok(places)
}

/// The first so many of the places of a list, which are shuffled: in their old order.
fn places_drawn(
    alloc: Global,
    wanted: usize,
    many: usize,
    stream: &mut Stream,
) -> Result<Serials, NoMemory>
    ensures places { let drawn = (places_drawn wanted many stream.old).0 in
        IfOk result (SameNumbers drawn) }
    ensures state { let after = (places_drawn wanted many stream.old).1 in let state = stream.new in
        IfOk result (λ places. state ≡ after) }
    ensures stays { OnErr result (stream.new ≡ stream.old) }
{
    let mut all = places(alloc, many)?;
    stream.shuffle(&mut all);
    all.truncate(wanted);
    Ok(in_order(all))
}

/// The numbers that stand at these places of a list.
fn numbers_kept(alloc: Global, list: &Serials, places: &Serials) -> Result<Serials, NoMemory>
    ensures { IfOk result (λ kept. kept ≡ kept_from 0 places.now list.now) }
{
    let mut kept = Vec::new(alloc);
    let numbers = list.as_slice();
    for (at, number) in numbers.iter().enumerate() {
        if places.contains(at as u64) {
            kept.push(*number)?;
        }
    }
    Ok(Serials::of_vec(kept))
}

/// The items that stand at these places of a list.
fn items_kept(alloc: Global, list: &Items, places: &Serials) -> Result<Items, NoMemory>
    ensures { IfOk result (λ kept. kept ≡ kept_from 0 places.now list.now) }
{
    let mut kept = Items::empty(alloc);
    let values = list.as_slice();
    for (at, value) in values.iter().enumerate() {
        if places.contains(at as u64) {
            let again = value.copy(alloc)?;
            kept.push(alloc, again)?;
        }
    }
    Ok(kept)
}

/// So many of the numbers of a list.
fn some_numbers(
    alloc: Global,
    wanted: usize,
    list: &Serials,
    stream: &mut Stream,
) -> Result<Serials, NoMemory>
    ensures kept { let kept = (some_of wanted list.now stream.old).0 in
        IfOk result (λ some. some ≡ kept) }
    ensures state { let after = (some_of wanted list.now stream.old).1 in let state = stream.new in
        IfOk result (λ some. state ≡ after) }
    ensures stays { OnErr result (stream.new ≡ stream.old) }
{
    let mark = stream.save();
    let places = places_drawn(alloc, wanted, list.len(), stream)?;
    match numbers_kept(alloc, list, &places) {
        Ok(kept) => Ok(kept),
        Err(refused) => {
            stream.restore(mark);
            Err(refused)
        }
    }
}

/// So many of the items of a list.
fn some_items(
    alloc: Global,
    wanted: usize,
    list: &Items,
    stream: &mut Stream,
) -> Result<Items, NoMemory>
    ensures kept { let kept = (some_of wanted list.now stream.old).0 in
        IfOk result (λ some. some ≡ kept) }
    ensures state { let after = (some_of wanted list.now stream.old).1 in let state = stream.new in
        IfOk result (λ some. state ≡ after) }
    ensures stays { OnErr result (stream.new ≡ stream.old) }
{
    let mark = stream.save();
    let places = places_drawn(alloc, wanted, list.len(), stream)?;
    match items_kept(alloc, list, &places) {
        Ok(kept) => Ok(kept),
        Err(refused) => {
            stream.restore(mark);
            Err(refused)
        }
    }
}

/// Several items of a list.
fn several_items(
    alloc: Global,
    which: Choice,
    number: Num,
    items: &Items,
    stream: &mut Stream,
) -> Result<Value, QueryFail>
    ensures answer { Answers result stream.new (several_items which number items.now stream.old) }
    ensures stays { OnErr result (stream.new ≡ stream.old) }
{
    let wanted = wanted_of(which, number, items.len())?;
    let mark = stream.save();
    let some = some_items(alloc, wanted, items, stream)?;
    match Value::items(alloc, some) {
        Ok(value) => Ok(value),
        Err(refused) => {
            stream.restore(mark);
            Err(QueryFail::from(refused))
        }
    }
}

/// Several members of a set.
fn several_members<S: Store, L: Ledger>(
    alloc: Global,
    which: Choice,
    number: Num,
    set: &AgentSet,
    store: &S,
    stream: &mut Stream,
    steps: &mut Steps<L>,
) -> Result<Value, QueryFail>
    requires { IsTrue (set_fits (S.world store.now).rest set.now) }
    ensures answer { let r = (S.world store.now).rest in
        Answers result stream.new (several_members r which number set.now stream.old) }
    ensures stays { OnErr result (stream.new ≡ stream.old) }
    ensures reads { steps.new ≤ steps.old + most_reads (S.world store.now).rest set.now }
{
    let members = living(alloc, set, store, steps)?;
    let wanted = wanted_of(which, number, members.len())?;
    let mark = stream.save();
    let some = some_numbers(alloc, wanted, &members, stream)?;
    match Value::set(alloc, listed(set.kind(), some)) {
        Ok(value) => Ok(value),
        Err(refused) => {
            stream.restore(mark);
            Err(QueryFail::from(refused))
        }
    }
}

/// Several members or items of a value.
fn several_among<S: Store, L: Ledger>(
    alloc: Global,
    which: Choice,
    number: Num,
    value: &Value,
    store: &S,
    stream: &mut Stream,
    steps: &mut Steps<L>,
) -> Result<Value, QueryFail>
    requires { IsTrue (fits_rest (S.world store.now).rest (plain value.now)) }
    ensures answer { let r = (S.world store.now).rest in
        Answers result stream.new (several_among r which number (plain value.now) stream.old) }
    ensures stays { OnErr result (stream.new ≡ stream.old) }
    ensures reads { steps.new ≤ steps.old + members_reads (S.world store.now).rest (plain value.now) }
{
    match value {
        Value::Items(items) => several_items(alloc, which, number, items, stream),
        Value::Set(set) => several_members(alloc, which, number, set, store, stream, steps),
        _ => Err(QueryFail::WrongType),
    }
}

/// What the word draws, among the members of a set that live or among the items of a list. The members are listed once.
pub fn chosen_by<S: Store, L: Ledger>(
    alloc: Global,
    which: Choice,
    inputs: &[Value],
    store: &S,
    stream: &mut Stream,
    steps: &mut Steps<L>,
) -> Result<Value, QueryFail>
    requires { IsTrue (inputs_fit (S.world store.now).rest (map plain inputs.now)) }
    ensures answer { let r = (S.world store.now).rest in
        let told = chosen_by r which (map plain inputs.now) stream.old in
        Answers result stream.new told }
    ensures stays { OnErr result (stream.new ≡ stream.old) }
    ensures reads { let r = (S.world store.now).rest in
        steps.new ≤ steps.old + choice_reads r which (map plain inputs.now) }
{
    match which {
        Choice::OneOf => {
            let value = fitting_at(inputs, 0, store)?;
            one_among(alloc, value, store, stream, steps)
        }
        Choice::NOf | Choice::UpToNOf => {
            let number = number_at(inputs, 0)?;
            let value = fitting_at(inputs, 1, store)?;
            several_among(alloc, which, number, value, store, stream, steps)
        }
    }
}
