//! Variables that are kept under no slot: what an agent is, and where it stands.
ghost use Rattle.std.specs.Prelude.{◌≡◌, ◌<◌, ◌≤◌, ◌*ℤ◌, pos, IsTrue, IfOk, not, option_map};
ghost use Rattle.std.specs.Option.{option_and_then};
ghost use Rattle.nl_fixed.specs.Numbers.{one};
ghost use Rattle.nl_value.specs.Plain.{PlainNumber, PlainSet};
ghost use Rattle.nl_value.specs.Views.{plain};
ghost use Rattle.nl_grid.specs.Geometry.{patches_of};
ghost use Rattle.nl_agents.specs.World.{Rest};
ghost use Rattle.nl_agents.specs.Changes.{OwnerLives, TurtleLives, LinkLives, link_of, turtle_of};
ghost use Rattle.nl_exec_meaning.specs.Variables.{read_apart, apart_value, of_patch, of_turtle, of_link, breed_set, link_breed_set};
ghost use Rattle.nl_exec_meaning.specs.Means.{EndsAs};
ghost use Rattle.nl_exec_meaning.specs.Seen.{ground};
ghost use Rattle.nl_exec_meaning.specs.Standing.{ExitFits, HandsFit};
ghost use Rattle.nl_exec_variables.specs.Facts.{value_of_fact};

use nl_agents::{Owner, Store};
use nl_exec_acts::ErrorKind;
use nl_exec_meaning::ends::{barred, fault};
use nl_exec_meaning::{Apart, Code, Exit, Hands};
use nl_fixed::{NoMemory, Num, Span};
use nl_grid::Shape;
use nl_value::{AgentSet, Value};
use nl_words::Kinds;
use std::alloc::Global;

/// What an agent is or where it stands, before it is a value: a set that is one takes memory.
#[derive(Clone, Copy, Debug, PartialEq, Eq)]
pub enum Fact {
    Number(Num),
    /// The turtle with this serial.
    Turtle(u64),
    /// All turtles of a breed, or of any for 0.
    Breed(u32),
    /// All links of a breed, or of any for 0.
    LinkBreed(u32),
}

impl Fact {
    /// The value that the fact is.
    pub fn into_value(self, alloc: Global) -> Result<Value, NoMemory>
        ensures { IfOk result (λ value. plain value ≡ value_of_fact self) }
    {
        match self {
            Fact::Number(number) => Ok(Value::Number(number)),
            Fact::Turtle(turtle) => Ok(Value::Turtle(turtle)),
            Fact::Breed(breed) => Value::set(alloc, turtles_of(breed)),
            Fact::LinkBreed(breed) => Value::set(alloc, links_of(breed)),
        }
    }
}

// All turtles of a breed, or all turtles.
fn turtles_of(breed: u32) -> AgentSet
    ensures { PlainSet result ≡ breed_set breed }
{
    if breed == 0 {
        AgentSet::Turtles
    } else {
        AgentSet::Breed(breed)
    }
}

// All links of a breed, or all links.
fn links_of(breed: u32) -> AgentSet
    ensures { PlainSet result ≡ link_breed_set breed }
{
    if breed == 0 {
        AgentSet::Links
    } else {
        AgentSet::LinkBreed(breed)
    }
}

// A number of agents, or what an agent is called by.
fn number_from(count: u64) -> Num
    requires { count ≤ 9_000_000_000_000 }
    ensures { result ≡ pos count *ℤ pos one }
{
    Num::whole(count as i64).unwrap()
}

#[tactic(auto, unfolding(nl_grid::specs::Geometry::center_of))]
fn fact_of_patch(which: Apart, shape: &Shape, patch: u32) -> Option<Fact>
    requires { patch < patches_of shape.now }
    ensures { (r : Rest) → r.shape ≡ shape.now → option_map value_of_fact result ≡ of_patch which r patch }
{
    match which {
        Apart::Pxcor => Some(Fact::Number(shape.center(patch).x)),
        Apart::Pycor => Some(Fact::Number(shape.center(patch).y)),
        Apart::Who | Apart::Xcor | Apart::Ycor | Apart::Breed | Apart::End1 | Apart::End2 => None,
    }
}

#[tactic(auto, using(crate::proofs::Aside::turtle_there))]
fn fact_of_turtle<S: Store>(which: Apart, store: &S, turtle: u64) -> Option<Fact>
    requires { TurtleLives turtle (S.world store.now) }
    ensures { let r = (S.world store.now).rest in
        option_map value_of_fact result ≡ option_and_then (of_turtle which r) (turtle_of turtle r) }
{
    let shape = store.shape();
    let at = store.at(turtle);
    match which {
        Apart::Who => Some(Fact::Number(number_from(turtle - store.base()))),
        Apart::Xcor => Some(Fact::Number(at.x)),
        Apart::Ycor => Some(Fact::Number(at.y)),
        Apart::Breed => Some(Fact::Breed(store.breed_of(turtle))),
        Apart::Pxcor => fact_of_patch(Apart::Pxcor, &shape, shape.patch_of(at)),
        Apart::Pycor => fact_of_patch(Apart::Pycor, &shape, shape.patch_of(at)),
        Apart::End1 | Apart::End2 => None,
    }
}

fn fact_of_link<S: Store>(which: Apart, store: &S, link: u64) -> Option<Fact>
    requires { LinkLives link (S.world store.now) }
    ensures { let r = (S.world store.now).rest in
        option_map value_of_fact result ≡ option_and_then (of_link which) (link_of link r) }
{
    match which {
        Apart::End1 => Some(Fact::Turtle(store.ends(link).0)),
        Apart::End2 => Some(Fact::Turtle(store.ends(link).1)),
        Apart::Breed => Some(Fact::LinkBreed(store.link_breed(link).0)),
        _ => None,
    }
}

/// What a living agent has under a variable that is kept under no slot, or None where such an agent has none.
pub fn fact_of<S: Store>(which: Apart, store: &S, agent: Owner) -> Option<Fact>
    requires { OwnerLives agent (S.world store.now) }
    ensures { option_map value_of_fact result ≡ apart_value (S.world store.now).rest which agent }
{
    match agent {
        Owner::Observer => None,
        Owner::Turtle(turtle) => fact_of_turtle(which, store, turtle),
        Owner::Patch(patch) => fact_of_patch(which, &store.shape(), patch),
        Owner::Link(link) => fact_of_link(which, store, link),
    }
}

/// A variable of agents that is kept under no slot.
#[inline]
#[tactic(auto, using(crate::proofs::Aside::aside_fits))]
pub fn read_apart<S: Store>(
    alloc: Global,
    code: &Code,
    hands: &Hands<S>,
    runs: Kinds,
    which: Apart,
    place: Span,
) -> Result<Exit, NoMemory>
    requires agents { IsTrue (not runs.observer) }
    requires fit { HandsFit hands.now }
    ensures meaning { IfOk result (λ exit. EndsAs code.now exit hands.now hands.now
        (λ s. read_apart runs which place s)) }
    ensures fits { IfOk result (λ exit. ExitFits (ground hands.now) exit) }
{
    if let Some(exit) = barred(hands, runs, place) {
        return Ok(exit);
    }
    // What the value's fit rests on: the store stands for a world.
    let _stands = hands.stage.store.shape();
    match fact_of(which, &hands.stage.store, hands.site.agent) {
        Some(fact) => Ok(Exit::Gives(fact.into_value(alloc)?)),
        None => Ok(fault(ErrorKind::NoVariable, place, hands.site)),
    }
}
