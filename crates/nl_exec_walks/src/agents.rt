//! Who is asked: the members of a set in the order of their turns, or one agent.
ghost use Rattle.std.specs.Prelude.{◌≡◌, ◌<◌, [], ◌∷◌, ℕ, IsTrue, IfOk, IfSome, IsPermutation, option_map};
ghost use Rattle.std.specs.Result.{result_ok};
ghost use Rattle.std.specs.List.Sorted.{IsStrictlyIncreasing};
ghost use Rattle.nl_fixed.specs.Nouns.{Names};
ghost use Rattle.nl_value.specs.Sets.{set_kind};
ghost use Rattle.nl_value.specs.Views.{plain};
ghost use Rattle.nl_draw.specs.Stream.{shuffled};
ghost use Rattle.nl_agents.specs.Members.{members_of};
ghost use Rattle.nl_agents.specs.Names.{set_fits};
ghost use Rattle.nl_exec_meaning.specs.Walks.{at_stream, one_of, set_in};
ghost use Rattle.nl_exec_meaning.specs.Ground.{Ground, agent_fits, fits, ground_of};
ghost use Rattle.nl_exec_meaning.specs.Means.{Stands};
ghost use Rattle.nl_exec_meaning.specs.Seen.{ground, state_of};
ghost use Rattle.nl_exec_meaning.specs.Standing.{HandsFit, MembersFit};
ghost use Rattle.nl_exec_walks.specs.Groups.{asked_of, asking, asking_one, group_of, listing, one_or_none};
ghost use Rattle.nl_exec_walks.specs.Telling.{Tells};

use nl_agents::{Owner, Steps, Store};
use nl_agentset_query::inputs::as_agent;
use nl_agentset_query::{Walk, living};
use nl_exec_acts::{ActFail, ErrorKind};
use nl_exec_meaning::Hands;
use nl_fixed::NoMemory;
use nl_value::{AgentKind, AgentSet, Serials, Value};
use std::alloc::Global;
use std::marker::Brand;
use std::sync::ledger::{Blank, Ledger};

/// Agents of one kind in the order of their turns, and whether they are the members of a set.
#[derive(Drop)]
pub struct Group {
    pub which: AgentKind,
    pub members: Walk,
    pub several: bool,
}

// ---- members of sets

fn members_by<S: Store, L: Ledger>(
    alloc: Global,
    blank: Blank,
    set: &AgentSet,
    store: &S,
) -> Result<Serials, NoMemory>
    requires name { blank.name ≡ L.name }
    requires parts { blank.parts ≡ L.parts }
    requires some { 0 < blank.parts }
    requires fit { IsTrue (set_fits (S.world store.now).rest set.now) }
    ensures { IfOk result (λ members. members ≡ members_of (S.world store.now).rest set.now) }
{
    let mut steps = Steps::<L>::new(blank);
    living(alloc, set, store, &mut steps)
}

/// The living members of a set, ascending. What the store reads for them is counted by nobody.
pub fn members<S: Store>(alloc: Global, set: &AgentSet, store: &S) -> Result<Serials, NoMemory>
    requires { IsTrue (set_fits (S.world store.now).rest set.now) }
    ensures { IfOk result (λ members. members ≡ members_of (S.world store.now).rest set.now) }
{
    members_by::<S, Brand>(alloc, Blank::new(1), set, store)
}

// The same as a list of turns.
fn in_order<S: Store>(alloc: Global, set: &AgentSet, store: &S) -> Result<Walk, NoMemory>
    requires { IsTrue (set_fits (S.world store.now).rest set.now) }
    ensures list { IfOk result (λ walk. walk ≡ members_of (S.world store.now).rest set.now) }
    ensures fits { let r = (S.world store.now).rest in
        IfOk result (λ walk. MembersFit (ground_of r) (set_kind set.now) walk) }
    ensures ascend { IfOk result (λ walk. IsStrictlyIncreasing walk) }
{
    let members = members(alloc, set, store)?;
    Ok(Walk::of_vec(members.into_vec()))
}

/// The agents in random order: one shuffle of them.
pub fn mixed<S: Store>(hands: &mut Hands<S>, mut list: Vec<u64>) -> Walk
    requires { HandsFit hands.old }
    ensures walk { result ≡ (shuffled list.items hands.old.stage.stream).0 }
    ensures members { IsPermutation list.items result }
    ensures state { (names : Names) (units : ℕ) → state_of names hands.new units
        ≡ at_stream (shuffled list.items hands.old.stage.stream).1 (state_of names hands.old units) }
    ensures stands { Stands hands.new hands.old }
{
    hands.stage.stream.shuffle(&mut list);
    Walk::of_vec(list)
}

// The members of a set, shuffled once.
fn shuffled_set<S: Store>(
    alloc: Global,
    hands: &mut Hands<S>,
    set: &AgentSet,
) -> Result<Walk, NoMemory>
    requires set { IsTrue (set_fits (S.world hands.old.stage.store).rest set.now) }
    requires fit { HandsFit hands.old }
    ensures walk { let numbers = members_of (S.world hands.old.stage.store).rest set.now in
        IfOk result (λ walk. walk ≡ (shuffled numbers hands.old.stage.stream).0) }
    ensures fits { IfOk result (λ walk. MembersFit (ground hands.new) (set_kind set.now) walk) }
    ensures state { let numbers = members_of (S.world hands.old.stage.store).rest set.now in
        IfOk result (λ walk. (names : Names) (units : ℕ) → state_of names hands.new units
        ≡ at_stream (shuffled numbers hands.old.stage.stream).1 (state_of names hands.old units)) }
    ensures stands { Stands hands.new hands.old }
{
    let members = members(alloc, set, &hands.stage.store)?;
    Ok(mixed(hands, members.into_vec()))
}

// ---- who is asked

// An agent by its kind and number; the observer is none.
fn turn_of(agent: Owner) -> Option<(AgentKind, u64)>
    ensures turn { one_of agent ≡ one_or_none result }
    ensures fits { (g : Ground) → IsTrue (agent_fits g agent) →
        IfSome result (λ turn. MembersFit g turn.0 (turn.1 ∷ [])) }
{
    match agent {
        Owner::Observer => None,
        Owner::Turtle(turtle) => Some((AgentKind::Turtle, turtle)),
        Owner::Patch(patch) => Some((AgentKind::Patch, u64::from(patch))),
        Owner::Link(link) => Some((AgentKind::Link, link)),
    }
}

// One living agent.
fn one_agent<S: Store>(alloc: Global, hands: &Hands<S>, value: &Value) -> Result<Group, ActFail>
    requires { IsTrue (fits (ground hands.now) (plain value.now)) }
    ensures told { Tells asked_of result hands.now hands.now (asking_one (plain value.now)) }
    ensures fits { IfOk result (λ group. MembersFit (ground hands.now) group.which group.members) }
{
    let agent = as_agent(value, &hands.stage.store)?;
    let Some((which, number)) = turn_of(agent) else {
        return Err(ActFail::Error(ErrorKind::NoAgent));
    };
    let mut members = Walk::empty(alloc);
    members.push(alloc, number)?;
    Ok(Group {
        which,
        members,
        several: false,
    })
}

// The set that a value is.
fn set_of(value: &Value) -> Option<&AgentSet>
    ensures { option_map (λ set. set.now) result ≡ result_ok (set_in (plain value.now)) }
{
    match value {
        Value::Set(set) => Some(&**set),
        _ => None,
    }
}

/// Who is asked: the living members of a set, shuffled once, or one living agent, without a draw.
pub fn agents_in<S: Store>(
    alloc: Global,
    hands: &mut Hands<S>,
    value: &Value,
) -> Result<Group, ActFail>
    requires value { IsTrue (fits (ground hands.old) (plain value.now)) }
    requires fit { HandsFit hands.old }
    ensures told { Tells asked_of result hands.new hands.old (asking (plain value.now)) }
    ensures fits { IfOk result (λ group. MembersFit (ground hands.new) group.which group.members) }
    ensures stands { Stands hands.new hands.old }
{
    match set_of(value) {
        Some(set) => {
            let members = shuffled_set(alloc, hands, set)?;
            Ok(Group {
                which: set.kind(),
                members,
                several: true,
            })
        }
        None => one_agent(alloc, hands, value),
    }
}

/// The living members of a set, ascending. Nobody is no set.
pub fn set_in<S: Store>(alloc: Global, hands: &Hands<S>, value: &Value) -> Result<Group, ActFail>
    requires { IsTrue (fits (ground hands.now) (plain value.now)) }
    ensures told { Tells group_of result hands.now hands.now (listing (plain value.now)) }
    ensures fits { IfOk result (λ group. MembersFit (ground hands.now) group.which group.members) }
    ensures ascend { IfOk result (λ group. IsStrictlyIncreasing group.members) }
{
    let Value::Set(set) = value else {
        return Err(ActFail::Error(ErrorKind::WrongType));
    };
    let set: &AgentSet = set;
    let members = in_order(alloc, set, &hands.stage.store)?;
    Ok(Group {
        which: set.kind(),
        members,
        several: true,
    })
}
