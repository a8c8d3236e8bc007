//! Distances and directions from where the caller stands, and what the ends of a link give.
ghost use Rattle.std.specs.Prelude.{◌≡◌, ◌==◌, false, map, IsTrue, IfOk};
ghost use Rattle.nl_value.specs.Views.{plain};
ghost use Rattle.nl_grid.specs.Geometry.{IsPointOf};
ghost use Rattle.nl_agents.specs.Changes.{OwnerLives, LinkLives, link_of};
ghost use Rattle.nl_agentset_query.specs.Inputs.{inputs_fit};
ghost use Rattle.nl_agentset.specs.Links.{both_of, of_link_found, ends_told};
ghost use Rattle.nl_agentset_query.specs.Outcomes.{Gives, outcome_map};
ghost use Rattle.nl_agentset.specs.Places.{measured, measured_to, measured_to_xy};

use nl_agents::{Owner, Store};
use nl_agentset_query::agents::place_of;
use nl_agentset_query::fail::QueryFail;
use nl_agentset_query::inputs::{number_at, point_at};
use nl_agentset_query::words::{Measure, OfEnds};
use nl_fixed::NoMemory;
use nl_grid::{Point, Shape};
use nl_value::{AgentSet, Serials, Value};
use std::alloc::Global;

/// How far or in which direction one point is from another.
fn measured(which: Measure, shape: &Shape, from: Point, to: Point) -> Result<Value, QueryFail>
    requires from { IsPointOf shape.now from }
    requires to { IsPointOf shape.now to }
    ensures { outcome_map plain result ≡ measured shape.now which from to }
{
    match which {
        Measure::Distance => Ok(Value::Number(shape.distance(from, to))),
        Measure::Towards => match shape.towards(from, to) {
            Ok(heading) => Ok(Value::Number(heading)),
            Err(_) => Err(QueryFail::SamePoint),
        },
    }
}

/// `distance` and `towards`.
pub fn measured_to<S: Store>(
    which: Measure,
    caller: Owner,
    inputs: &[Value],
    store: &S,
) -> Result<Value, QueryFail>
    requires fit { IsTrue (inputs_fit (S.world store.now).rest (map plain inputs.now)) }
    requires lives { OwnerLives caller (S.world store.now) }
    ensures { let r = (S.world store.now).rest in
        outcome_map plain result ≡ measured_to r caller which (map plain inputs.now) }
{
    let to = point_at(inputs, 0, store)?;
    let from = place_of(caller, store);
    measured(which, &store.shape(), from, to)
}

/// `distancexy` and `towardsxy`: of coordinates, which are wrapped first.
pub fn measured_to_xy<S: Store>(
    which: Measure,
    caller: Owner,
    inputs: &[Value],
    store: &S,
) -> Result<Value, QueryFail>
    requires { OwnerLives caller (S.world store.now) }
    ensures { let r = (S.world store.now).rest in
        outcome_map plain result ≡ measured_to_xy r caller which (map plain inputs.now) }
{
    let x = number_at(inputs, 0)?;
    let y = number_at(inputs, 1)?;
    let shape = store.shape();
    let from = place_of(caller, store);
    match shape.wrap(x, y) {
        Some(to) => measured(which, &shape, from, to),
        None => Err(QueryFail::OutOfWorld),
    }
}

/// Two turtles in the order of their serials.
fn both_of(alloc: Global, a: u64, b: u64) -> Result<Serials, NoMemory>
    requires { (a == b) ≡ false }
    ensures { IfOk result (λ both. both ≡ both_of a b) }
{
    let mut both = Serials::empty(alloc);
    both.push(alloc, a.min(b))?;
    both.push(alloc, a.max(b))?;
    Ok(both)
}

/// What the ends of a living link give.
fn of_link<S: Store>(alloc: Global, which: OfEnds, link: u64, store: &S) -> Result<Value, QueryFail>
    requires { LinkLives link (S.world store.now) }
    ensures { let r = (S.world store.now).rest in
        Gives (outcome_map plain result) (of_link_found r which (link_of link r)) }
{
    // What the ends rest on: the store stands for a world.
    let shape = store.shape();
    let (end1, end2) = store.ends(link);
    match which {
        OfEnds::Both => {
            let both = both_of(alloc, end1, end2)?;
            Ok(Value::set(alloc, AgentSet::SomeTurtles(both))?)
        }
        OfEnds::Length => measured(Measure::Distance, &shape, store.at(end1), store.at(end2)),
        OfEnds::Heading => measured(Measure::Towards, &shape, store.at(end1), store.at(end2)),
    }
}

/// `both-ends`, `link-length` and `link-heading`.
pub fn ends_told<S: Store>(
    alloc: Global,
    which: OfEnds,
    caller: Owner,
    store: &S,
) -> Result<Value, QueryFail>
    requires { OwnerLives caller (S.world store.now) }
    ensures { let r = (S.world store.now).rest in
        Gives (outcome_map plain result) (ends_told r which caller) }
{
    match caller {
        Owner::Link(link) => of_link(alloc, which, link, store),
        _ => Err(QueryFail::WrongType),
    }
}
