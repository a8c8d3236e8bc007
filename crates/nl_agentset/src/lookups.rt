//! Agents by what they are called, and tests of their breed.
ghost use Rattle.std.specs.Prelude.{◌≡◌, ◌≤◌, ◌<◌, ◌+◌, map, find, option_map, All, IfSome, IfOk, IsTrue};
ghost use Rattle.nl_fixed.specs.Numbers.{whole_limit};
ghost use Rattle.nl_value.specs.Views.{plain};
ghost use Rattle.nl_agents.specs.Changes.{turtle_of, link_of, TurtleLives, LinkLives};
ghost use Rattle.nl_agentset_query.specs.Inputs.{inputs_fit};
ghost use Rattle.nl_agentset.specs.Reads.{found_reads, look_up_reads};
ghost use Rattle.nl_agentset_query.specs.Outcomes.{Gives, outcome_map};
ghost use Rattle.nl_agentset.specs.inner.Walks.{whole_from_zero};
ghost use Rattle.nl_agentset_query.specs.Agents.{breed_or_none, link_passes};
ghost use Rattle.nl_agentset.specs.Sets.{turtle_named, bred_or_wrong, turtle_called, patch_called, is_between, link_between, link_called, looked_up, is_of_breed_value, breed_tested};

use nl_agents::{Steps, Store};
use nl_agentset_query::agents::{agent_or_nobody, breed_or_none, is_link_of, is_of, is_turtle_of};
use nl_agentset_query::fail::QueryFail;
use nl_agentset_query::inputs::{number_at, value_at};
use nl_agentset_query::words::{LookUp, OfBreed};
use nl_fixed::{NoMemory, Num};
use nl_value::{AgentKind, Serials, Value};
use std::alloc::Global;
use std::sync::ledger::Ledger;

/// The number as a whole one from 0 on, where it is one.
fn whole_from_zero(number: Num) -> Option<u64>
    ensures value { result ≡ whole_from_zero number }
    ensures few { IfSome result (λ whole. whole ≤ whole_limit) }
{
    let whole = number.whole_part();
    if whole < 0 || !number.is_whole() {
        return None;
    }
    Some(whole.unsigned_abs())
}

/// The living turtle that is called by a number.
fn turtle_named<S: Store>(number: Num, store: &S) -> Option<u64>
    ensures turtle { result ≡ option_map (λ t. t.serial) (turtle_named (S.world store.now).rest number) }
    ensures lives { IfSome result (λ turtle. TurtleLives turtle (S.world store.now)) }
{
    // What the range of serials rests on: the store stands for a world.
    let _stands = store.shape();
    let Some(who) = whole_from_zero(number) else {
        return None;
    };
    let turtle = store.base() + who;
    if store.turtle_lives(turtle) {
        Some(turtle)
    } else {
        None
    }
}

/// The turtle that is called by a whole number, or nobody; WrongType where it is of another breed than the word's.
fn turtle_called<S: Store>(number: Num, breed: Option<u32>, store: &S) -> Result<Value, QueryFail>
    ensures { outcome_map plain result ≡ turtle_called (S.world store.now).rest breed number }
{
    // What the turtle that is found rests on: the store stands for a world.
    let _stands = store.shape();
    if !number.is_whole() {
        return Err(QueryFail::WrongType);
    }
    match turtle_named(number, store) {
        None => Ok(Value::Nobody),
        Some(turtle) => {
            if is_of(breed, store.breed_of(turtle)) {
                Ok(Value::Turtle(turtle))
            } else {
                Err(QueryFail::WrongType)
            }
        }
    }
}

/// The patch at a point of the world, or nobody.
fn patch_called<S: Store>(x: Num, y: Num, store: &S) -> Value
    ensures { plain result ≡ patch_called (S.world store.now).rest x y }
{
    let shape = store.shape();
    match shape.wrap(x, y) {
        Some(at) => Value::Patch(shape.patch_of(at)),
        None => Value::Nobody,
    }
}

/// Whether a living link is of the breed and leads from the first turtle to the second, or either way round without a direction.
fn is_between<S: Store>(link: u64, breed: u32, first: u64, second: u64, store: &S) -> bool
    requires { LinkLives link (S.world store.now) }
    ensures { let found = link_of link (S.world store.now).rest in
        result ≡ link_passes (is_between breed first second) found }
{
    let (end1, end2) = store.ends(link);
    let (own, directed) = store.link_breed(link);
    let along = end1 == first && end2 == second;
    let against = !directed && end1 == second && end2 == first;
    own == breed && (along || against)
}

/// The first of some living links that is between the turtles.
fn first_between<S: Store>(
    links: &Serials,
    breed: u32,
    first: u64,
    second: u64,
    store: &S,
) -> Option<u64>
    requires { All (λ link. LinkLives link (S.world store.now)) links.now }
    ensures { let r = (S.world store.now).rest in
        result ≡ find (λ link. link_passes (is_between breed first second) (link_of link r)) links.now }
{
    let numbers = links.as_slice();
    for link in numbers {
        if is_between(*link, breed, first, second, store) {
            return Some(*link);
        }
    }
    None
}

/// The link of a breed between the turtles that are called so, which is sought among the links of the first.
fn link_between<S: Store, L: Ledger>(
    alloc: Global,
    breed: u32,
    first: Num,
    second: Num,
    store: &S,
    steps: &mut Steps<L>,
) -> Result<Option<u64>, NoMemory>
    ensures link { let r = (S.world store.now).rest in
        let wanted = link_between r breed (turtle_named r first) (turtle_named r second) in
        IfOk result (λ found. found ≡ option_map (λ l. l.serial) wanted) }
    ensures reads { let r = (S.world store.now).rest in
        steps.new ≤ steps.old + found_reads r (option_map (λ t. t.serial) (turtle_named r first)) }
{
    // What the links that are found rest on: the store stands for a world.
    let _stands = store.shape();
    let (Some(first), Some(second)) = (turtle_named(first, store), turtle_named(second, store))
    else {
        return Ok(None);
    };
    let mut links = Serials::empty(alloc);
    store.links_of(alloc, first, &mut links, steps)?;
    Ok(first_between(&links, breed, first, second, store))
}

/// The link between the turtles that are called by two whole numbers, or nobody.
fn link_called<S: Store, L: Ledger>(
    alloc: Global,
    breed: Option<u32>,
    first: Num,
    second: Num,
    store: &S,
    steps: &mut Steps<L>,
) -> Result<Value, QueryFail>
    ensures answer { let r = (S.world store.now).rest in
        Gives (outcome_map plain result) (link_called r breed first second) }
    ensures reads { let r = (S.world store.now).rest in
        steps.new ≤ steps.old + found_reads r (option_map (λ t. t.serial) (turtle_named r first)) }
{
    if !first.is_whole() || !second.is_whole() {
        return Err(QueryFail::WrongType);
    }
    let found = link_between(alloc, breed_or_none(breed), first, second, store, steps)?;
    Ok(agent_or_nobody(AgentKind::Link, found))
}

/// `turtle`, `patch`, `link` and the forms of breeds.
pub fn looked_up<S: Store, L: Ledger>(
    alloc: Global,
    which: LookUp,
    breed: Option<u32>,
    inputs: &[Value],
    store: &S,
    steps: &mut Steps<L>,
) -> Result<Value, QueryFail>
    ensures answer { let r = (S.world store.now).rest in
        Gives (outcome_map plain result) (looked_up r which breed (map plain inputs.now)) }
    ensures reads { let r = (S.world store.now).rest in
        steps.new ≤ steps.old + look_up_reads r which (map plain inputs.now) }
{
    let first = number_at(inputs, 0)?;
    match which {
        LookUp::Turtle => turtle_called(first, breed, store),
        LookUp::Patch => {
            let second = number_at(inputs, 1)?;
            Ok(patch_called(first, second, store))
        }
        LookUp::Link => {
            let second = number_at(inputs, 1)?;
            link_called(alloc, breed, first, second, store, steps)
        }
    }
}

/// Whether a value is a living agent of the breed.
fn is_of_breed_value<S: Store>(which: OfBreed, breed: Option<u32>, value: &Value, store: &S) -> bool
    ensures { result ≡ is_of_breed_value (S.world store.now).rest which breed (plain value.now) }
{
    match (which, value) {
        (OfBreed::Turtle, Value::Turtle(turtle)) => is_turtle_of(*turtle, breed, store),
        (OfBreed::Link, Value::Link(link)) => is_link_of(*link, breed, store),
        _ => false,
    }
}

/// `is-turtle?`, `is-link?` and the forms of breeds.
pub fn breed_tested<S: Store>(
    which: OfBreed,
    breed: Option<u32>,
    inputs: &[Value],
    store: &S,
) -> Result<Value, QueryFail>
    ensures { let r = (S.world store.now).rest in
        outcome_map plain result ≡ breed_tested r which breed (map plain inputs.now) }
{
    let value = value_at(inputs, 0)?;
    Ok(Value::Truth(is_of_breed_value(which, breed, value, store)))
}
