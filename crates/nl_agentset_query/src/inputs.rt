//! The inputs of a query, by place. One that is of another kind than the word takes there is WrongType, as one that is missing.
ghost use Rattle.std.specs.Prelude.{◌≡◌, map, IsTrue, IfOk};
ghost use Rattle.nl_value.specs.Views.{plain};
ghost use Rattle.nl_grid.specs.Geometry.{IsPointOf};
ghost use Rattle.nl_agents.specs.Changes.{OwnerLives};
ghost use Rattle.nl_agents.specs.Names.{set_fits};
ghost use Rattle.nl_agents.specs.Standing.{fits_rest};
ghost use Rattle.nl_agentset_query.specs.Inputs.{inputs_fit, value_at, number_at, set_at, list_at, agent_at, standing_set_at, point_at, as_number, as_set, as_list, as_agent, standing_set, standing_at};
ghost use Rattle.nl_agentset_query.specs.Outcomes.{outcome_map};

use crate::agents::place_of;
use crate::fail::QueryFail;
use nl_agents::{Owner, Store};
use nl_fixed::Num;
use nl_grid::Point;
use nl_value::{AgentKind, AgentSet, Items, Value};

/// The value as a number.
pub fn as_number(value: &Value) -> Result<Num, QueryFail>
    ensures { result ≡ as_number (plain value.now) }
{
    match value {
        Value::Number(number) => Ok(*number),
        _ => Err(QueryFail::WrongType),
    }
}

/// The value as a list.
pub fn as_list(value: &Value) -> Result<&Items, QueryFail>
    ensures { outcome_map (λ items. items.now) result ≡ as_list (plain value.now) }
{
    match value {
        Value::Items(items) => Ok(&**items),
        _ => Err(QueryFail::WrongType),
    }
}

fn as_set(value: &Value) -> Result<&AgentSet, QueryFail>
    ensures { outcome_map (λ set. set.now) result ≡ as_set (plain value.now) }
{
    match value {
        Value::Set(set) => Ok(&**set),
        _ => Err(QueryFail::WrongType),
    }
}

/// The value as one living agent.
pub fn as_agent<S: Store>(value: &Value, store: &S) -> Result<Owner, QueryFail>
    requires { IsTrue (fits_rest (S.world store.now).rest (plain value.now)) }
    ensures agent { result ≡ as_agent (S.world store.now).rest (plain value.now) }
    ensures lives { IfOk result (λ agent. OwnerLives agent (S.world store.now)) }
{
    match value {
        Value::Turtle(turtle) if store.turtle_lives(*turtle) => Ok(Owner::Turtle(*turtle)),
        Value::Link(link) if store.link_lives(*link) => Ok(Owner::Link(*link)),
        Value::Patch(patch) => Ok(Owner::Patch(*patch)),
        Value::Turtle(_) | Value::Link(_) | Value::Nobody => Err(QueryFail::NoAgent),
        _ => Err(QueryFail::WrongType),
    }
}

/// A set of agents that stand somewhere: one of links is WrongType.
pub fn standing_set(set: &AgentSet) -> Result<&AgentSet, QueryFail>
    ensures { outcome_map (λ some. some.now) result ≡ standing_set set.now }
{
    if set.kind() == AgentKind::Link {
        return Err(QueryFail::WrongType);
    }
    Ok(set)
}

/// The point of an agent that stands somewhere: a link is WrongType.
pub fn standing_at<S: Store>(agent: Owner, store: &S) -> Result<Point, QueryFail>
    requires { OwnerLives agent (S.world store.now) }
    ensures at { result ≡ standing_at (S.world store.now).rest agent }
    ensures inside { IfOk result (IsPointOf (S.world store.now).rest.shape) }
{
    match agent {
        Owner::Link(_) => Err(QueryFail::WrongType),
        _ => Ok(place_of(agent, store)),
    }
}

// ---- by place

/// The input at a place.
pub fn value_at(inputs: &[Value], at: usize) -> Result<&Value, QueryFail>
    ensures { outcome_map (λ value. plain value.now) result ≡ value_at (map plain inputs.now) at }
{
    match inputs.get(at) {
        Some(value) => Ok(value),
        None => Err(QueryFail::WrongType),
    }
}

/// The input at a place, as a number.
pub fn number_at(inputs: &[Value], at: usize) -> Result<Num, QueryFail>
    ensures { result ≡ number_at (map plain inputs.now) at }
{
    as_number(value_at(inputs, at)?)
}

/// The input at a place, as a list.
pub fn list_at(inputs: &[Value], at: usize) -> Result<&Items, QueryFail>
    ensures { outcome_map (λ items. items.now) result ≡ list_at (map plain inputs.now) at }
{
    as_list(value_at(inputs, at)?)
}

/// The input at a place, which fits the world.
pub fn fitting_at<'a, S: Store>(
    inputs: &'a [Value],
    at: usize,
    store: &S,
) -> Result<&'a Value, QueryFail>
    requires { IsTrue (inputs_fit (S.world store.now).rest (map plain inputs.now)) }
    ensures value { outcome_map (λ value. plain value.now) result ≡ value_at (map plain inputs.now) at }
    ensures fit { IfOk result (λ value. IsTrue (fits_rest (S.world store.now).rest (plain value.now))) }
{
    let _store = store;
    value_at(inputs, at)
}

/// The input at a place, as a set.
pub fn set_at<'a, S: Store>(
    inputs: &'a [Value],
    at: usize,
    store: &S,
) -> Result<&'a AgentSet, QueryFail>
    requires { IsTrue (inputs_fit (S.world store.now).rest (map plain inputs.now)) }
    ensures set { outcome_map (λ set. set.now) result ≡ set_at (map plain inputs.now) at }
    ensures fit { IfOk result (λ set. IsTrue (set_fits (S.world store.now).rest set.now)) }
{
    as_set(fitting_at(inputs, at, store)?)
}

/// The input at a place, as one living agent.
pub fn agent_at<S: Store>(inputs: &[Value], at: usize, store: &S) -> Result<Owner, QueryFail>
    requires { IsTrue (inputs_fit (S.world store.now).rest (map plain inputs.now)) }
    ensures agent { result ≡ agent_at (S.world store.now).rest (map plain inputs.now) at }
    ensures lives { IfOk result (λ agent. OwnerLives agent (S.world store.now)) }
{
    let value = fitting_at(inputs, at, store)?;
    as_agent(value, store)
}

/// The input at a place, as a set of turtles or patches.
pub fn standing_set_at<'a, S: Store>(
    inputs: &'a [Value],
    at: usize,
    store: &S,
) -> Result<&'a AgentSet, QueryFail>
    requires { IsTrue (inputs_fit (S.world store.now).rest (map plain inputs.now)) }
    ensures set { outcome_map (λ set. set.now) result ≡ standing_set_at (map plain inputs.now) at }
    ensures fit { IfOk result (λ set. IsTrue (set_fits (S.world store.now).rest set.now)) }
{
    let set = set_at(inputs, at, store)?;
    standing_set(set)
}

/// The point of the turtle or the patch that is the input at a place.
pub fn point_at<S: Store>(inputs: &[Value], at: usize, store: &S) -> Result<Point, QueryFail>
    requires { IsTrue (inputs_fit (S.world store.now).rest (map plain inputs.now)) }
    ensures at { result ≡ point_at (S.world store.now).rest (map plain inputs.now) at }
    ensures inside { IfOk result (IsPointOf (S.world store.now).rest.shape) }
{
    let agent = agent_at(inputs, at, store)?;
    standing_at(agent, store)
}
