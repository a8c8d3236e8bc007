//! Agents and sets of stores under trial as values.
ghost use Rattle.std.specs.Prelude.{◌≡◌, ◌<◌, ◌∷◌, [], IfSome, IsTrue};
ghost use Rattle.nl_value.specs.Living.{fits};
ghost use Rattle.nl_value.specs.Views.{plain};
ghost use Rattle.nl_agents.specs.Names.{living_of, set_fits};

use crate::trials::Tried;
use nl_agents::Store;
use nl_value::{AgentSet, Serials, Value};
use std::alloc::Global;

/// An agent or a set.
#[derive(Clone, Copy, Debug)]
pub enum Named {
    Nobody,
    Turtle(u64),
    Patch(u32),
    Link(u64),
    Turtles,
    Patches,
    Links,
    Breed(u32),
    LinkBreed(u32),
    /// Two by their serials or numbers, the lower one first.
    SomeTurtles(u64, u64),
    SomePatches(u64, u64),
    SomeLinks(u64, u64),
}

fn pair(alloc: Global, first: u64, second: u64) -> Option<Serials>
    requires { first < second }
    ensures { IfSome result (λ pair. pair ≡ first ∷ second ∷ []) }
{
    let mut numbers = Serials::empty(alloc);
    numbers.push(alloc, first).ok()?;
    numbers.push(alloc, second).ok()?;
    Some(numbers)
}

impl<S: Store> Tried<S> {
    fn listed_set(&self, alloc: Global, named: Named) -> Option<AgentSet>
        ensures { IfSome result (λ set. IsTrue (set_fits (S.world self.now.store).rest set)) }
    {
        match named {
            Named::SomeTurtles(first, second) if first < second => {
                Some(AgentSet::SomeTurtles(pair(alloc, first, second)?))
            }
            Named::SomeLinks(first, second) if first < second => {
                Some(AgentSet::SomeLinks(pair(alloc, first, second)?))
            }
            Named::SomePatches(first, second) if first < second => {
                let patches = u64::from(self.store.shape().patches());
                if second >= patches {
                    return None;
                }
                Some(AgentSet::SomePatches(pair(alloc, first, second)?))
            }
            _ => None,
        }
    }

    fn set_of(&self, alloc: Global, named: Named) -> Option<AgentSet>
        ensures { IfSome result (λ set. IsTrue (set_fits (S.world self.now.store).rest set)) }
    {
        match named {
            Named::Turtles => Some(AgentSet::Turtles),
            Named::Patches => Some(AgentSet::Patches),
            Named::Links => Some(AgentSet::Links),
            Named::Breed(breed) if self.layout.is_turtle_breed(breed) => {
                Some(AgentSet::Breed(breed))
            }
            Named::LinkBreed(breed) if self.layout.is_link_breed(breed) => {
                Some(AgentSet::LinkBreed(breed))
            }
            listed => self.listed_set(alloc, listed),
        }
    }

    /// The value of that name. None where it doesn't fit the store, and at want of memory.
    pub fn value_of(&self, alloc: Global, named: Named) -> Option<Value>
        ensures { IfSome result (λ value. IsTrue (fits (living_of (S.world self.now.store).rest) (plain value))) }
    {
        match named {
            Named::Nobody => Some(Value::Nobody),
            Named::Turtle(turtle) => Some(Value::Turtle(turtle)),
            Named::Link(link) => Some(Value::Link(link)),
            Named::Patch(patch) => {
                if patch < self.store.shape().patches() {
                    Some(Value::Patch(patch))
                } else {
                    None
                }
            }
            set => Value::set(alloc, self.set_of(alloc, set)?).ok(),
        }
    }
}
