//! Sets without inputs, and words of a set alone.
ghost use Rattle.std.specs.Prelude.{◌≡◌, ◌≤◌, ◌+◌, ◌*ℤ◌, pos, map, filter, length, IsTrue, IfOk, [], not};
ghost use Rattle.std.specs.List.{list_any};
ghost use Rattle.nl_fixed.specs.Numbers.{one};
ghost use Rattle.nl_value.specs.Views.{plain};
ghost use Rattle.nl_value.specs.Sets.{set_kind};
ghost use Rattle.nl_value.specs.declared.sets.AgentSet.TheVariants as the_set;
ghost use Rattle.nl_agents.specs.Changes.{turtle_lives, link_lives};
ghost use Rattle.nl_agents.specs.Members.{members_of, most_reads};
ghost use Rattle.nl_agents.specs.Names.{set_fits};
ghost use Rattle.nl_agentset_query.specs.Inputs.{inputs_fit, set_at};
ghost use Rattle.nl_agentset_query.specs.Outcomes.{Gives, outcome_map};
ghost use Rattle.nl_agentset.specs.Reads.{count_reads, set_reads, or_none};
ghost use Rattle.nl_agentset.specs.Sets.{turtles_of, links_of, whole_set, is_caller, others, has_members, of_agents, set_told};

use nl_agents::{Owner, Steps, Store};
use nl_agentset_query::agents::listed;
use nl_agentset_query::fail::QueryFail;
use nl_agentset_query::inputs::set_at;
use nl_agentset_query::living;
use nl_agentset_query::words::{OfSet, Whole};
use nl_fixed::{NoMemory, Num};
use nl_value::{AgentKind, AgentSet, Serials, Value};
use std::alloc::Global;
use std::sync::ledger::Ledger;

/// All turtles, or those of a breed.
fn turtles_of(breed: Option<u32>) -> AgentSet
    ensures { result ≡ turtles_of breed }
{
    match breed {
        None => AgentSet::Turtles,
        Some(breed) => AgentSet::Breed(breed),
    }
}

/// All links, or those of a breed.
fn links_of(breed: Option<u32>) -> AgentSet
    ensures { result ≡ links_of breed }
{
    match breed {
        None => AgentSet::Links,
        Some(breed) => AgentSet::LinkBreed(breed),
    }
}

/// `turtles`, `patches`, `links` and the sets without members.
pub fn whole_set(alloc: Global, which: Whole, breed: Option<u32>) -> AgentSet
    ensures { result ≡ whole_set which breed }
{
    match which {
        Whole::Turtles => turtles_of(breed),
        Whole::Patches => AgentSet::Patches,
        Whole::Links => links_of(breed),
        Whole::NoTurtles => AgentSet::SomeTurtles(Serials::empty(alloc)),
        Whole::NoPatches => AgentSet::SomePatches(Serials::empty(alloc)),
        Whole::NoLinks => AgentSet::SomeLinks(Serials::empty(alloc)),
    }
}

// ---- other

/// Whether the caller is the agent of this kind and number.
fn is_caller(caller: Owner, kind: AgentKind, number: u64) -> bool
    ensures { result ≡ is_caller caller kind number }
{
    match (caller, kind) {
        (Owner::Turtle(turtle), AgentKind::Turtle) => number == turtle,
        (Owner::Patch(patch), AgentKind::Patch) => number == u64::from(patch),
        (Owner::Link(link), AgentKind::Link) => number == link,
        _ => false,
    }
}

/// The numbers of a list but the caller's.
fn without(
    alloc: Global,
    list: &Serials,
    caller: Owner,
    kind: AgentKind,
) -> Result<Serials, NoMemory>
    ensures { let kept = filter (λ number. not (is_caller caller kind number)) list.now in
        IfOk result (λ rest. rest ≡ kept) }
{
    let mut rest = Vec::new(alloc);
    let numbers = list.as_slice();
    for number in numbers {
        if !is_caller(caller, kind, *number) {
            rest.push(*number)?;
        }
    }
    Ok(Serials::of_vec(rest))
}

/// The members of a set but the caller.
fn others<S: Store, L: Ledger>(
    alloc: Global,
    caller: Owner,
    set: &AgentSet,
    store: &S,
    steps: &mut Steps<L>,
) -> Result<Serials, NoMemory>
    requires { IsTrue (set_fits (S.world store.now).rest set.now) }
    ensures list { IfOk result (λ rest. rest ≡ others (S.world store.now).rest caller set.now) }
    ensures reads { steps.new ≤ steps.old + most_reads (S.world store.now).rest set.now }
{
    let members = living(alloc, set, store, steps)?;
    without(alloc, &members, caller, set.kind())
}

// ---- how many

/// How many living members a set has. No list is made where the store can count.
pub(crate) fn count<S: Store, L: Ledger>(
    alloc: Global,
    set: &AgentSet,
    store: &S,
    steps: &mut Steps<L>,
) -> Result<usize, NoMemory>
    requires { IsTrue (set_fits (S.world store.now).rest set.now) }
    ensures count { IfOk result (λ count. count ≡ length (members_of (S.world store.now).rest set.now)) }
    ensures reads { steps.new ≤ steps.old + count_reads (S.world store.now).rest set.now }
{
    match set {
        AgentSet::Turtles => Ok(store.turtle_count()),
        AgentSet::Breed(breed) => Ok(store.breed_count(*breed)),
        AgentSet::Patches => Ok(store.shape().patches() as usize),
        AgentSet::Links => Ok(store.link_count()),
        AgentSet::LinkBreed(_)
        | AgentSet::SomeTurtles(_)
        | AgentSet::SomePatches(_)
        | AgentSet::SomeLinks(_) => {
            let members = living(alloc, set, store, steps)?;
            Ok(members.len())
        }
    }
}

/// Whether a turtle of the list lives. No turtle behind the first that lives is looked at.
fn has_living_turtle<S: Store>(numbers: &[u64], store: &S) -> bool
    ensures { result ≡ list_any (turtle_lives (S.world store.now).rest) numbers.now }
{
    for number in numbers {
        if store.turtle_lives(*number) {
            return true;
        }
    }
    false
}

/// Whether a link of the list lives. No link behind the first that lives is looked at.
fn has_living_link<S: Store>(numbers: &[u64], store: &S) -> bool
    ensures { result ≡ list_any (link_lives (S.world store.now).rest) numbers.now }
{
    for number in numbers {
        if store.link_lives(*number) {
            return true;
        }
    }
    false
}

/// Whether a set has a living member.
fn has_members<S: Store, L: Ledger>(
    alloc: Global,
    set: &AgentSet,
    store: &S,
    steps: &mut Steps<L>,
) -> Result<bool, NoMemory>
    requires { IsTrue (set_fits (S.world store.now).rest set.now) }
    ensures some { let members = members_of (S.world store.now).rest set.now in
        IfOk result (λ some. some ≡ has_members members) }
    ensures reads { steps.new ≤ steps.old + count_reads (S.world store.now).rest set.now }
{
    // What the order of the members rests on: the store stands for a world.
    let _stands = store.shape();
    match set {
        AgentSet::SomeTurtles(numbers) => Ok(has_living_turtle(numbers.as_slice(), store)),
        AgentSet::SomeLinks(numbers) => Ok(has_living_link(numbers.as_slice(), store)),
        _ => {
            let many = count(alloc, set, store, steps)?;
            Ok(many != 0)
        }
    }
}

/// A count as a number.
fn whole(count: usize) -> Num
    requires { count ≤ 9_000_000_000_000 }
    ensures { result ≡ (pos count *ℤ pos one) }
{
    Num::whole(count as i64).unwrap()
}

/// What the word makes of a set.
fn of_agents<S: Store, L: Ledger>(
    alloc: Global,
    which: OfSet,
    caller: Owner,
    set: &AgentSet,
    store: &S,
    steps: &mut Steps<L>,
) -> Result<Value, NoMemory>
    requires { IsTrue (set_fits (S.world store.now).rest set.now) }
    ensures value { let r = (S.world store.now).rest in
        IfOk result (λ value. plain value ≡ of_agents r caller which set.now) }
    ensures reads { steps.new ≤ steps.old + set_reads (S.world store.now).rest which set.now }
{
    // What the number's range rests on: the store stands for a world.
    let _stands = store.shape();
    match which {
        OfSet::Other => {
            let rest = others(alloc, caller, set, store, steps)?;
            Ok(Value::set(alloc, listed(set.kind(), rest))?)
        }
        OfSet::Count => {
            let many = count(alloc, set, store, steps)?;
            Ok(Value::Number(whole(many)))
        }
        OfSet::Any => {
            let some = has_members(alloc, set, store, steps)?;
            Ok(Value::Truth(some))
        }
    }
}

/// `other`, `count` and `any?`.
pub fn set_told<S: Store, L: Ledger>(
    alloc: Global,
    which: OfSet,
    caller: Owner,
    inputs: &[Value],
    store: &S,
    steps: &mut Steps<L>,
) -> Result<Value, QueryFail>
    requires { IsTrue (inputs_fit (S.world store.now).rest (map plain inputs.now)) }
    ensures answer { let r = (S.world store.now).rest in
        Gives (outcome_map plain result) (set_told r caller which (map plain inputs.now)) }
    ensures reads { let r = (S.world store.now).rest in
        let most = or_none (outcome_map (set_reads r which) (set_at (map plain inputs.now) 0)) in
        steps.new ≤ steps.old + most }
{
    let set = set_at(inputs, 0, store)?;
    Ok(of_agents(alloc, which, caller, set, store, steps)?)
}
