//! Unions of agents, sets and lists of them.
ghost use Rattle.std.specs.Prelude.{◌≡◌, ◌≤◌, ◌+◌, ◌++◌, map, IsTrue};
ghost use Rattle.nl_value.specs.Views.{plain};
ghost use Rattle.nl_value.specs.Plain.{PlainSet, plains};
ghost use Rattle.nl_agents.specs.Members.{most_reads};
ghost use Rattle.nl_agents.specs.Names.{set_fits};
ghost use Rattle.nl_agents.specs.Standing.{fits_rest};
ghost use Rattle.nl_agentset_query.specs.Inputs.{inputs_fit};
ghost use Rattle.nl_agentset_query.specs.Outcomes.{Gives, outcome_map};
ghost use Rattle.nl_agentset_query.specs.Reads.{united_reads, all_united_reads};
ghost use Rattle.nl_agentset_query.specs.Unions.{one_united, united, all_united, union_of};

use crate::agents::listed;
use crate::fail::QueryFail;
use crate::living;
use crate::orders::in_order;
use nl_agents::{Steps, Store};
use nl_value::{AgentKind, AgentSet, Value};
use std::alloc::Global;
use std::sync::ledger::Ledger;

/// Appends an agent of the kind that lives. One that has died is nobody, which is passed over.
fn gather_agent(
    kind: AgentKind,
    own: AgentKind,
    lives: bool,
    number: u64,
    into: &mut Vec<u64>,
) -> Result<(), QueryFail>
    ensures { let so_far = into.old.items in let all = into.new.items in
        let given = outcome_map (λ more. so_far ++ more) (one_united kind own lives number) in
        Gives (outcome_map (λ _. all) result) given }
{
    if !lives {
        return Ok(());
    }
    if kind != own {
        return Err(QueryFail::WrongType);
    }
    into.push(number)?;
    Ok(())
}

/// Appends the living members of a set of the kind.
fn gather_set<S: Store, L: Ledger>(
    alloc: Global,
    kind: AgentKind,
    set: &AgentSet,
    into: &mut Vec<u64>,
    store: &S,
    steps: &mut Steps<L>,
) -> Result<(), QueryFail>
    requires { IsTrue (set_fits (S.world store.now).rest set.now) }
    ensures gathered { let r = (S.world store.now).rest in
        let so_far = into.old.items in let all = into.new.items in
        let given = outcome_map (λ more. so_far ++ more) (united r kind (PlainSet set.now)) in
        Gives (outcome_map (λ _. all) result) given }
    ensures reads { steps.new ≤ steps.old + most_reads (S.world store.now).rest set.now }
{
    if kind != set.kind() {
        return Err(QueryFail::WrongType);
    }
    let members = living(alloc, set, store, steps)?;
    into.extend_from_slice(members.as_slice())?;
    Ok(())
}

/// Appends the agents of the kind that are in a value, at any depth.
#[cycle(gather)]
fn gather<S: Store, L: Ledger>(
    alloc: Global,
    kind: AgentKind,
    value: &Value,
    into: &mut Vec<u64>,
    store: &S,
    steps: &mut Steps<L>,
) -> Result<(), QueryFail>
    requires { IsTrue (fits_rest (S.world store.now).rest (plain value.now)) }
    ensures gathered { let r = (S.world store.now).rest in
        let so_far = into.old.items in let all = into.new.items in
        let given = outcome_map (λ more. so_far ++ more) (united r kind (plain value.now)) in
        Gives (outcome_map (λ _. all) result) given }
    ensures reads { steps.new ≤ steps.old + united_reads (S.world store.now).rest (plain value.now) }
{
    match value {
        Value::Turtle(turtle) => {
            let lives = store.turtle_lives(*turtle);
            gather_agent(kind, AgentKind::Turtle, lives, *turtle, into)
        }
        Value::Patch(patch) => {
            gather_agent(kind, AgentKind::Patch, true, u64::from(*patch), into)
        }
        Value::Link(link) => {
            let lives = store.link_lives(*link);
            gather_agent(kind, AgentKind::Link, lives, *link, into)
        }
        Value::Nobody => Ok(()),
        Value::Set(set) => gather_set(alloc, kind, set, into, store, steps),
        Value::Items(items) => gather_all(alloc, kind, items.as_slice(), into, store, steps),
        Value::Number(_) | Value::Truth(_) | Value::Words(_) | Value::Blank => {
            Err(QueryFail::WrongType)
        }
    }
}

/// Appends the agents of the kind that are in some values.
#[cycle(gather)]
fn gather_all<S: Store, L: Ledger>(
    alloc: Global,
    kind: AgentKind,
    values: &[Value],
    into: &mut Vec<u64>,
    store: &S,
    steps: &mut Steps<L>,
) -> Result<(), QueryFail>
    requires { IsTrue (inputs_fit (S.world store.now).rest (map plain values.now)) }
    ensures gathered { let r = (S.world store.now).rest in
        let so_far = into.old.items in let all = into.new.items in
        let given = outcome_map (λ more. so_far ++ more) (all_united r kind (plains (map plain values.now))) in
        Gives (outcome_map (λ _. all) result) given }
    ensures reads { let r = (S.world store.now).rest in
        steps.new ≤ steps.old + all_united_reads r (plains (map plain values.now)) }
{
    for value in values {
        gather(alloc, kind, value, into, store, steps)?;
    }
    Ok(())
}

/// The set of all agents of the kind that are in one of the values. The members of each set among them are listed once.
pub fn union_of<S: Store, L: Ledger>(
    alloc: Global,
    kind: AgentKind,
    values: &[Value],
    store: &S,
    steps: &mut Steps<L>,
) -> Result<Value, QueryFail>
    requires { IsTrue (inputs_fit (S.world store.now).rest (map plain values.now)) }
    ensures answer { let r = (S.world store.now).rest in
        Gives (outcome_map plain result) (union_of r kind (plains (map plain values.now))) }
    ensures reads { let r = (S.world store.now).rest in
        steps.new ≤ steps.old + all_united_reads r (plains (map plain values.now)) }
{
    // What the order of the members rests on: the store stands for a world.
    let _stands = store.shape();
    let mut found = Vec::new(alloc);
    gather_all(alloc, kind, values, &mut found, store, steps)?;
    Ok(Value::set(alloc, listed(kind, in_order(found)))?)
}
