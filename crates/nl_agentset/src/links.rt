//! Links of the caller, and the turtles at their other ends.
ghost use Rattle.std.specs.Prelude.{◌≡◌, ◌≤◌, ◌+◌, ◌==◌, Some, option_map, filter, filter_map, map, All, IsTrue, IfOk};
ghost use Rattle.nl_value.specs.Views.{plain};
ghost use Rattle.nl_agents.specs.Changes.{OwnerLives, TurtleLives, LinkLives, link_of};
ghost use Rattle.nl_agents.specs.Members.{links_where};
ghost use Rattle.nl_agents.specs.Names.{living_of};
ghost use Rattle.nl_agentset_query.specs.Inputs.{inputs_fit};
ghost use Rattle.nl_agentset.specs.Links.{leads, is_link_at, other_end_of, is_link_to, links_at, neighbors_at, is_least, least_of, own_links, own_neighbors, neighbor_tested, link_found};
ghost use Rattle.nl_agentset.specs.Reads.{links_reads, own_reads};
ghost use Rattle.nl_agentset_query.specs.Outcomes.{Gives, outcome_map};
ghost use Rattle.nl_agentset_query.specs.Agents.{link_passes};

use nl_agents::view::View;
use nl_agents::{Owner, Steps, Store};
use nl_agentset_query::agents::{agent_or_nobody, is_of};
use nl_agentset_query::fail::QueryFail;
use nl_agentset_query::inputs::agent_at;
use nl_agentset_query::orders::in_order;
use nl_agentset_query::words::Side;
use nl_fixed::NoMemory;
use nl_value::{AgentKind, AgentSet, Life, Serials, Value};
use std::alloc::Global;
use std::sync::ledger::Ledger;

/// Whether a link with these ends leads to the turtle, or from it; one without a direction does both.
fn leads(which: Side, turtle: u64, directed: bool, end1: u64, end2: u64) -> bool
    ensures { result ≡ leads which turtle directed end1 end2 }
{
    match which {
        Side::Any => true,
        Side::In => !directed || end2 == turtle,
        Side::Out => !directed || end1 == turtle,
    }
}

/// Whether a living link has the turtle as an end, and is of the word's breed and side.
fn is_link_at<S: Store>(side: Side, breed: Option<u32>, turtle: u64, link: u64, store: &S) -> bool
    requires { LinkLives link (S.world store.now) }
    ensures { let r = (S.world store.now).rest in
        result ≡ link_passes (is_link_at side breed turtle) (link_of link r) }
{
    let (end1, end2) = store.ends(link);
    let (own, directed) = store.link_breed(link);
    let has_end = end1 == turtle || end2 == turtle;
    has_end && is_of(breed, own) && leads(side, turtle, directed, end1, end2)
}

/// The links of a list that are of the word's breed and side.
fn links_kept<S: Store>(
    alloc: Global,
    side: Side,
    breed: Option<u32>,
    turtle: u64,
    list: &Serials,
    store: &S,
) -> Result<Serials, NoMemory>
    requires { All (λ link. LinkLives link (S.world store.now)) list.now }
    ensures { let r = (S.world store.now).rest in
        let kept = filter (λ link. link_passes (is_link_at side breed turtle) (link_of link r)) list.now in
        IfOk result (λ links. links ≡ kept) }
{
    let mut kept = Vec::new(alloc);
    let links = list.as_slice();
    for link in links {
        if is_link_at(side, breed, turtle, *link, store) {
            kept.push(*link)?;
        }
    }
    Ok(Serials::of_vec(kept))
}

/// The links of a turtle, of the word's breed and side. What is read is one record for each link of the turtle, and one more.
fn links_at<S: Store, L: Ledger>(
    alloc: Global,
    side: Side,
    breed: Option<u32>,
    turtle: u64,
    store: &S,
    steps: &mut Steps<L>,
) -> Result<Serials, NoMemory>
    requires { TurtleLives turtle (S.world store.now) }
    ensures links { let r = (S.world store.now).rest in
        IfOk result (λ links. links ≡ links_at r side breed turtle) }
    ensures live { IfOk result (All (λ link. LinkLives link (S.world store.now))) }
    ensures reads { steps.new ≤ steps.old + links_reads (S.world store.now).rest turtle }
{
    // What the order of the links rests on: the store stands for a world.
    let _stands = store.shape();
    let mut all = Serials::empty(alloc);
    store.links_of(alloc, turtle, &mut all, steps)?;
    links_kept(alloc, side, breed, turtle, &all, store)
}

/// The turtle at the other end of a living link.
fn other_end<S: Store>(turtle: u64, link: u64, store: &S) -> u64
    requires { LinkLives link (S.world store.now) }
    ensures { let r = (S.world store.now).rest in
        Some result ≡ option_map (other_end_of turtle) (link_of link r) }
{
    let (end1, end2) = store.ends(link);
    if end1 == turtle { end2 } else { end1 }
}

/// The other ends of some living links, link by link.
fn other_ends<S: Store>(
    alloc: Global,
    turtle: u64,
    links: &Serials,
    store: &S,
) -> Result<Vec<u64>, NoMemory>
    requires { All (λ link. LinkLives link (S.world store.now)) links.now }
    ensures { let r = (S.world store.now).rest in
        let others = filter_map (λ link. option_map (other_end_of turtle) (link_of link r)) links.now in
        IfOk result (λ ends. ends.items ≡ others) }
{
    let mut ends = Vec::new(alloc);
    let numbers = links.as_slice();
    for link in numbers {
        ends.push(other_end(turtle, *link, store))?;
    }
    Ok(ends)
}

/// The turtles at the other ends of a turtle's links of the word's breed and side.
fn neighbors_at<S: Store, L: Ledger>(
    alloc: Global,
    side: Side,
    breed: Option<u32>,
    turtle: u64,
    store: &S,
    steps: &mut Steps<L>,
) -> Result<Serials, NoMemory>
    requires { TurtleLives turtle (S.world store.now) }
    ensures turtles { let r = (S.world store.now).rest in
        IfOk result (λ turtles. turtles ≡ neighbors_at r side breed turtle) }
    ensures reads { steps.new ≤ steps.old + links_reads (S.world store.now).rest turtle }
{
    // What the ends rest on: the store stands for a world.
    let _stands = store.shape();
    let links = links_at(alloc, side, breed, turtle, store, steps)?;
    let ends = other_ends(alloc, turtle, &links, store)?;
    Ok(in_order(ends))
}

/// Whether a living link of a turtle leads to another one.
fn leads_to<S: Store>(turtle: u64, other: u64, link: u64, store: &S) -> bool
    requires { LinkLives link (S.world store.now) }
    ensures { let found = link_of link (S.world store.now).rest in
        result ≡ link_passes (λ l. other_end_of turtle l == other) found }
{
    other_end(turtle, link, store) == other
}

/// The links of a list that lead to another turtle.
fn links_to_other<S: Store>(
    alloc: Global,
    turtle: u64,
    other: u64,
    list: &Serials,
    store: &S,
) -> Result<Serials, NoMemory>
    requires { All (λ link. LinkLives link (S.world store.now)) list.now }
    ensures { let r = (S.world store.now).rest in
        let kept = filter (λ link. link_passes (λ l. other_end_of turtle l == other) (link_of link r)) list.now in
        IfOk result (λ links. links ≡ kept) }
{
    let mut kept = Vec::new(alloc);
    let links = list.as_slice();
    for link in links {
        if leads_to(turtle, other, *link, store) {
            kept.push(*link)?;
        }
    }
    Ok(Serials::of_vec(kept))
}

/// The links of the word's breed and side that join a turtle with another one.
fn links_to<S: Store, L: Ledger>(
    alloc: Global,
    side: Side,
    breed: Option<u32>,
    turtle: u64,
    other: u64,
    store: &S,
    steps: &mut Steps<L>,
) -> Result<Serials, NoMemory>
    requires { TurtleLives turtle (S.world store.now) }
    ensures links { let r = (S.world store.now).rest in
        IfOk result (λ links. links ≡ links_where (is_link_to side breed turtle other) r) }
    ensures live { IfOk result (All (λ link. LinkLives link (S.world store.now))) }
    ensures reads { steps.new ≤ steps.old + links_reads (S.world store.now).rest turtle }
{
    // What the order of the links rests on: the store stands for a world.
    let _stands = store.shape();
    let links = links_at(alloc, side, breed, turtle, store, steps)?;
    links_to_other(alloc, turtle, other, &links, store)
}

/// Whether no link of a list comes before a link.
fn is_least<S: Store>(link: u64, list: &[u64], view: &View<S>) -> bool
    requires link { LinkLives link (S.world view.now.store.now) }
    requires list { All (λ other. LinkLives other (S.world view.now.store.now)) list.now }
    ensures { result ≡ is_least (living_of (S.world view.now.store.now).rest) list.now link }
{
    for other in list {
        if view.link_before(*other, link) {
            return false;
        }
    }
    true
}

/// The link of a list before which none of the list comes. There is at most one link of a breed for each way, so the list is short.
fn least_of<S: Store>(list: &Serials, view: &View<S>) -> Option<u64>
    requires { All (λ link. LinkLives link (S.world view.now.store.now)) list.now }
    ensures { result ≡ least_of (S.world view.now.store.now).rest list.now }
{
    let links = list.as_slice();
    for link in links {
        if is_least(*link, links, view) {
            return Some(*link);
        }
    }
    None
}

// ---- the words

/// `my-links` and its kin.
pub fn own_links<S: Store, L: Ledger>(
    alloc: Global,
    which: Side,
    breed: Option<u32>,
    caller: Owner,
    store: &S,
    steps: &mut Steps<L>,
) -> Result<Value, QueryFail>
    requires { OwnerLives caller (S.world store.now) }
    ensures answer { let r = (S.world store.now).rest in
        Gives (outcome_map plain result) (own_links r which breed caller) }
    ensures reads { steps.new ≤ steps.old + own_reads (S.world store.now).rest caller }
{
    let Owner::Turtle(turtle) = caller else {
        return Err(QueryFail::WrongType);
    };
    let links = links_at(alloc, which, breed, turtle, store, steps)?;
    Ok(Value::set(alloc, AgentSet::SomeLinks(links))?)
}

/// `link-neighbors` and its kin.
pub fn own_neighbors<S: Store, L: Ledger>(
    alloc: Global,
    which: Side,
    breed: Option<u32>,
    caller: Owner,
    store: &S,
    steps: &mut Steps<L>,
) -> Result<Value, QueryFail>
    requires { OwnerLives caller (S.world store.now) }
    ensures answer { let r = (S.world store.now).rest in
        Gives (outcome_map plain result) (own_neighbors r which breed caller) }
    ensures reads { steps.new ≤ steps.old + own_reads (S.world store.now).rest caller }
{
    let Owner::Turtle(turtle) = caller else {
        return Err(QueryFail::WrongType);
    };
    let turtles = neighbors_at(alloc, which, breed, turtle, store, steps)?;
    Ok(Value::set(alloc, AgentSet::SomeTurtles(turtles))?)
}

/// `link-neighbor?` and its kin.
pub fn neighbor_tested<S: Store, L: Ledger>(
    alloc: Global,
    which: Side,
    breed: Option<u32>,
    caller: Owner,
    inputs: &[Value],
    store: &S,
    steps: &mut Steps<L>,
) -> Result<Value, QueryFail>
    requires fit { IsTrue (inputs_fit (S.world store.now).rest (map plain inputs.now)) }
    requires lives { OwnerLives caller (S.world store.now) }
    ensures answer { let r = (S.world store.now).rest in
        Gives (outcome_map plain result) (neighbor_tested r which breed caller (map plain inputs.now)) }
    ensures reads { steps.new ≤ steps.old + own_reads (S.world store.now).rest caller }
{
    let Owner::Turtle(turtle) = caller else {
        return Err(QueryFail::WrongType);
    };
    match agent_at(inputs, 0, store)? {
        Owner::Turtle(other) => {
            let links = links_to(alloc, which, breed, turtle, other, store, steps)?;
            Ok(Value::Truth(!links.is_empty()))
        }
        _ => Ok(Value::Truth(false)),
    }
}

/// `link-with` and its kin.
pub fn link_found<S: Store, L: Ledger>(
    alloc: Global,
    which: Side,
    breed: Option<u32>,
    caller: Owner,
    inputs: &[Value],
    view: &View<S>,
    steps: &mut Steps<L>,
) -> Result<Value, QueryFail>
    requires fit { IsTrue (inputs_fit (S.world view.now.store.now).rest (map plain inputs.now)) }
    requires lives { OwnerLives caller (S.world view.now.store.now) }
    ensures answer { let r = (S.world view.now.store.now).rest in
        Gives (outcome_map plain result) (link_found r which breed caller (map plain inputs.now)) }
    ensures reads { steps.new ≤ steps.old + own_reads (S.world view.now.store.now).rest caller }
{
    let Owner::Turtle(turtle) = caller else {
        return Err(QueryFail::WrongType);
    };
    match agent_at(inputs, 0, view.store)? {
        Owner::Turtle(other) => {
            let links = links_to(alloc, which, breed, turtle, other, view.store, steps)?;
            Ok(agent_or_nobody(AgentKind::Link, least_of(&links, view)))
        }
        _ => Ok(Value::Nobody),
    }
}
