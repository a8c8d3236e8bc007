//! Words of values, over a store. `sort` and `member?` take sets too.
ghost use Rattle.std.specs.Prelude.{◌≡◌, ◌<◌, ◌^◌, All, map, option_map, IsTrue, IfOk, IfSome, OnErr};
ghost use Rattle.nl_value.specs.Views.{plain};
ghost use Rattle.nl_value.specs.Sets.{set_kind};
ghost use Rattle.nl_value.specs.declared.sets.AgentKind.TheVariants as the_kind;
ghost use Rattle.nl_value.specs.declared.sets.AgentSet.TheVariants as the_set;
ghost use Rattle.nl_agents.specs.Members.{members_of, is_listed};
ghost use Rattle.nl_agents.specs.Names.{patch_fits, set_fits, living_of};
ghost use Rattle.nl_agents.specs.Standing.{fits_rest};
ghost use Rattle.nl_agentset_query.specs.Inputs.{inputs_fit};
ghost use Rattle.nl_agentset_query.specs.Agents.{agent_value};
ghost use Rattle.nl_listops.specs.Answers.{word_answer};
ghost use Rattle.nl_exec_acts.specs.Fails.{told_as, error_of_list, Answers};
ghost use Rattle.nl_exec_acts.specs.Acts.{members_in_order, is_agent_in, is_member, set_word, of_set, valued};

use crate::fail::ActFail;
use crate::words::SetWord;
use nl_agents::view::View;
use nl_agents::{Steps, Store};
use nl_agentset_query::agents::{agent_value, is_link_of, is_turtle_of};
use nl_agentset_query::inputs::{set_at, value_at};
use nl_agentset_query::living;
use nl_draw::Stream;
use nl_fixed::NoMemory;
use nl_listops::ValueWord;
use nl_listops::words::{OfList, Search};
use nl_value::{AgentKind, AgentSet, Items, Serials, Value};
use std::alloc::Global;
use std::sync::ledger::Ledger;

// ---- `sort` of a set

/// Agents of a kind as values, by their numbers.
fn agents_of(alloc: Global, kind: AgentKind, numbers: &[u64]) -> Result<Items, NoMemory>
    requires { kind ≡ the_kind.Patch → All (λ number. number < 2 ^ 32) numbers.now }
    ensures { IfOk result (λ items. items ≡ map (agent_value kind) numbers.now) }
{
    let mut items = Items::empty(alloc);
    for number in numbers {
        items.push(alloc, agent_value(kind, *number))?;
    }
    Ok(items)
}

/// The living members of a set, in the order of agents.
fn members_in_order<S: Store, L: Ledger>(
    alloc: Global,
    set: &AgentSet,
    view: &View<S>,
    steps: &mut Steps<L>,
) -> Result<Items, NoMemory>
    requires { IsTrue (set_fits (S.world view.now.store.now).rest set.now) }
    ensures { IfOk result (λ items. items ≡ members_in_order (S.world view.now.store.now).rest set.now) }
{
    // what the numbers of patches rest on: the store stands for a world
    let _stands = view.store.shape();
    let members = living(alloc, set, view.store, steps)?;
    let mut items = agents_of(alloc, set.kind(), members.as_slice())?;
    items.sort(alloc, view)?;
    Ok(items)
}

// ---- `member?` of a set

/// Whether a turtle is a living member of the set. No list is made.
fn has_turtle<S: Store>(turtle: u64, set: &AgentSet, store: &S) -> bool
    ensures { result ≡ is_agent_in (S.world store.now).rest the_kind.Turtle turtle set.now }
{
    // what the order of serials rests on: the store stands for a world
    let _stands = store.shape();
    match set {
        AgentSet::Turtles => store.turtle_lives(turtle),
        AgentSet::Breed(breed) => is_turtle_of(turtle, Some(*breed), store),
        AgentSet::SomeTurtles(listed) => has_listed_turtle(turtle, listed, store),
        _ => false,
    }
}

fn has_listed_turtle<S: Store>(turtle: u64, listed: &Serials, store: &S) -> bool
    ensures { let r = (S.world store.now).rest in
        result ≡ is_listed (members_of r (the_set.SomeTurtles listed.now)) turtle }
{
    let _stands = store.shape();
    let _ascending = listed.as_slice();
    listed.contains(turtle) && store.turtle_lives(turtle)
}

/// Whether a patch is a member of the set.
fn has_patch<S: Store>(patch: u32, set: &AgentSet, store: &S) -> bool
    ensures { result ≡ is_agent_in (S.world store.now).rest the_kind.Patch patch set.now }
{
    match set {
        AgentSet::Patches => is_inside(patch, store),
        AgentSet::SomePatches(listed) => has_listed_patch(patch, listed, store),
        _ => false,
    }
}

fn has_listed_patch<S: Store>(patch: u32, listed: &Serials, store: &S) -> bool
    ensures { let r = (S.world store.now).rest in
        result ≡ is_listed (members_of r (the_set.SomePatches listed.now)) patch }
{
    is_inside(patch, store) && listed.contains(u64::from(patch))
}

/// Whether the patch is one of the world.
fn is_inside<S: Store>(patch: u32, store: &S) -> bool
    ensures { result ≡ patch_fits (S.world store.now).rest patch }
{
    patch < store.shape().patches()
}

/// Whether a link is a living member of the set. No list is made.
fn has_link<S: Store>(link: u64, set: &AgentSet, store: &S) -> bool
    ensures { result ≡ is_agent_in (S.world store.now).rest the_kind.Link link set.now }
{
    // what the order of serials rests on: the store stands for a world
    let _stands = store.shape();
    match set {
        AgentSet::Links => store.link_lives(link),
        AgentSet::LinkBreed(breed) => is_link_of(link, Some(*breed), store),
        AgentSet::SomeLinks(listed) => has_listed_link(link, listed, store),
        _ => false,
    }
}

fn has_listed_link<S: Store>(link: u64, listed: &Serials, store: &S) -> bool
    ensures { let r = (S.world store.now).rest in
        result ≡ is_listed (members_of r (the_set.SomeLinks listed.now)) link }
{
    let _stands = store.shape();
    let _ascending = listed.as_slice();
    listed.contains(link) && store.link_lives(link)
}

/// Whether the value is a living member of the set.
fn is_member<S: Store>(value: &Value, set: &AgentSet, store: &S) -> bool
    ensures { result ≡ is_member (S.world store.now).rest (plain value.now) set.now }
{
    match value {
        Value::Turtle(turtle) => has_turtle(*turtle, set, store),
        Value::Patch(patch) => has_patch(*patch, set, store),
        Value::Link(link) => has_link(*link, set, store),
        _ => false,
    }
}

// ---- all words of values

/// Which word takes sets too.
fn set_word(which: ValueWord) -> Option<SetWord>
    ensures { result ≡ set_word which }
{
    match which {
        ValueWord::OfList(OfList::Sort) => Some(SetWord::Sort),
        ValueWord::Search(Search::Member) => Some(SetWord::Member),
        _ => None,
    }
}

/// What the word answers of a set, where it is given one.
fn of_set<S: Store, L: Ledger>(
    alloc: Global,
    word: Option<SetWord>,
    inputs: &[Value],
    view: &View<S>,
    steps: &mut Steps<L>,
) -> Result<Option<Value>, NoMemory>
    requires { IsTrue (inputs_fit (S.world view.now.store.now).rest (map plain inputs.now)) }
    ensures answer { let r = (S.world view.now.store.now).rest in
        IfOk result (λ answer. option_map plain answer ≡ of_set r word (map plain inputs.now)) }
    ensures fit { let r = (S.world view.now.store.now).rest in
        IfOk result (λ answer. IfSome answer (λ value. IsTrue (fits_rest r (plain value)))) }
{
    match word {
        Some(SetWord::Sort) => match set_at(inputs, 0, view.store) {
            Ok(set) => {
                let members = members_in_order(alloc, set, view, steps)?;
                Ok(Some(Value::items(alloc, members)?))
            }
            Err(_) => Ok(None),
        },
        Some(SetWord::Member) => match (value_at(inputs, 0), set_at(inputs, 1, view.store)) {
            (Ok(value), Ok(set)) => Ok(Some(Value::Truth(is_member(value, set, view.store)))),
            _ => Ok(None),
        },
        None => Ok(None),
    }
}

/// What the word answers of values that are no sets, and draws of the stream.
fn applied<S: Store>(
    alloc: Global,
    which: ValueWord,
    inputs: &[Value],
    view: &View<S>,
    stream: &mut Stream,
) -> Result<Value, ActFail>
    requires { IsTrue (inputs_fit (S.world view.now.store.now).rest (map plain inputs.now)) }
    ensures answer { let r = (S.world view.now.store.now).rest in
        let outcome = word_answer (living_of r) which (map plain inputs.now) stream.old in
        Answers result stream.new (told_as error_of_list outcome) }
    ensures fit { let r = (S.world view.now.store.now).rest in
        IfOk result (λ value. IsTrue (fits_rest r (plain value))) }
    ensures stays { OnErr result (stream.new ≡ stream.old) }
{
    match which.apply(alloc, inputs, view, stream) {
        Ok(value) => Ok(value),
        Err(fail) => Err(ActFail::from(fail)),
    }
}

/// What the word answers, and draws of the stream. An error draws nothing.
pub(crate) fn value_of<S: Store, L: Ledger>(
    alloc: Global,
    which: ValueWord,
    inputs: &[Value],
    view: &View<S>,
    stream: &mut Stream,
    steps: &mut Steps<L>,
) -> Result<Value, ActFail>
    requires { IsTrue (inputs_fit (S.world view.now.store.now).rest (map plain inputs.now)) }
    ensures answer { let r = (S.world view.now.store.now).rest in
        Answers result stream.new (valued r which (map plain inputs.now) stream.old) }
    ensures fit { let r = (S.world view.now.store.now).rest in
        IfOk result (λ value. IsTrue (fits_rest r (plain value))) }
    ensures stays { OnErr result (stream.new ≡ stream.old) }
{
    match of_set(alloc, set_word(which), inputs, view, steps)? {
        Some(answer) => Ok(answer),
        None => applied(alloc, which, inputs, view, stream),
    }
}
