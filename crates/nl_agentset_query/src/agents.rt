//! Agents as values, where they stand and what they face.
ghost use Rattle.std.specs.Prelude.{◌≡◌, ◌<◌, ◌+◌, ◌^◌, ℕ, IfSome};
ghost use Rattle.nl_value.specs.Views.{plain};
ghost use Rattle.nl_value.specs.declared.sets.AgentKind.TheVariants as the_kind;
ghost use Rattle.nl_grid.specs.Geometry.{IsPointOf, patches_of};
ghost use Rattle.nl_agents.specs.Changes.{OwnerLives, turtle_of, link_of};
ghost use Rattle.nl_agentset_query.specs.Agents.{origin, place_of, own_patch, heading_in, is_of, breed_or_none, agent_value, agent_or_nobody, listed, turtle_passes, link_passes};

use nl_agents::{HEADING, Owner, Store};
use nl_fixed::Num;
use nl_grid::Point;
use nl_value::{AgentKind, AgentSet, Serials, Value};

/// Whether a breed is the word's: a word without a breed is of all.
pub fn is_of(breed: Option<u32>, own: u32) -> bool
    ensures { result ≡ is_of breed own }
{
    match breed {
        None => true,
        Some(breed) => own == breed,
    }
}

/// The breed of a word, or that of agents of no breed.
pub fn breed_or_none(breed: Option<u32>) -> u32
    ensures { result ≡ breed_or_none breed }
{
    match breed {
        None => 0,
        Some(breed) => breed,
    }
}

/// Whether a turtle lives and is of the word's breed.
pub fn is_turtle_of<S: Store>(turtle: u64, breed: Option<u32>, store: &S) -> bool
    ensures { let found = turtle_of turtle (S.world store.now).rest in
        result ≡ turtle_passes (λ t. is_of breed t.breed) found }
{
    store.turtle_lives(turtle) && is_of(breed, store.breed_of(turtle))
}

/// Whether a link lives and is of the word's breed.
pub fn is_link_of<S: Store>(link: u64, breed: Option<u32>, store: &S) -> bool
    ensures { let found = link_of link (S.world store.now).rest in
        result ≡ link_passes (λ l. is_of breed l.breed) found }
{
    if !store.link_lives(link) {
        return false;
    }
    let (own, _) = store.link_breed(link);
    is_of(breed, own)
}

/// An agent of a kind, by its number.
pub fn agent_value(kind: AgentKind, number: u64) -> Value
    requires { kind ≡ the_kind.Patch → number < 2 ^ 32 }
    ensures { plain result ≡ agent_value kind number }
{
    match kind {
        AgentKind::Turtle => Value::Turtle(number),
        AgentKind::Patch => Value::Patch(number as u32),
        AgentKind::Link => Value::Link(number),
    }
}

/// An agent of a kind, or nobody.
pub fn agent_or_nobody(kind: AgentKind, number: Option<u64>) -> Value
    requires { kind ≡ the_kind.Patch → IfSome number (λ n. n < 2 ^ 32) }
    ensures { plain result ≡ agent_or_nobody kind number }
{
    match number {
        Some(number) => agent_value(kind, number),
        None => Value::Nobody,
    }
}

/// The set that lists agents of a kind.
pub fn listed(kind: AgentKind, numbers: Serials) -> AgentSet
    ensures { result ≡ listed kind numbers }
{
    match kind {
        AgentKind::Turtle => AgentSet::SomeTurtles(numbers),
        AgentKind::Patch => AgentSet::SomePatches(numbers),
        AgentKind::Link => AgentSet::SomeLinks(numbers),
    }
}

// ---- where they stand

/// The point 0 0.
fn origin() -> Point
    ensures { result ≡ origin }
{
    Point {
        x: Num::whole(0).unwrap(),
        y: Num::whole(0).unwrap(),
    }
}

/// The point of a turtle, the center of a patch, and 0 0 for whoever stands nowhere.
pub fn place_of<S: Store>(agent: Owner, store: &S) -> Point
    requires { OwnerLives agent (S.world store.now) }
    ensures at { result ≡ place_of (S.world store.now).rest agent }
    ensures inside { IsPointOf (S.world store.now).rest.shape result }
{
    let shape = store.shape();
    match agent {
        Owner::Turtle(turtle) => store.at(turtle),
        Owner::Patch(patch) => shape.center(patch),
        Owner::Observer | Owner::Link(_) => origin(),
    }
}

/// The patch on which an agent stands; a patch stands on itself.
pub fn own_patch<S: Store>(agent: Owner, store: &S) -> u32
    requires { OwnerLives agent (S.world store.now) }
    ensures patch { result ≡ own_patch (S.world store.now).rest agent }
    ensures below { result < patches_of (S.world store.now).rest.shape }
{
    match agent {
        Owner::Patch(patch) => patch,
        _ => store.shape().patch_of(place_of(agent, store)),
    }
}

/// The heading of a turtle, in degrees; 0 for whoever has none.
pub fn heading_in<S: Store>(agent: Owner, store: &S) -> Num
    requires { OwnerLives agent (S.world store.now) }
    ensures { result ≡ heading_in (S.world store.now).rest agent }
{
    match agent {
        Owner::Turtle(_) => match store.var(agent, HEADING) {
            Some(Value::Number(heading)) => *heading,
            _ => Num::whole(0).unwrap(),
        },
        _ => Num::whole(0).unwrap(),
    }
}
