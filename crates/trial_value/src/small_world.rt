//! A small world for the tests: turtles 1 and 2 live, of which 2 is a fox, and links 1 to 4.
ghost use Rattle.std.specs.Prelude.{◌≡◌, IfOk};
ghost use Rattle.std.specs.List.{filter};
ghost use Rattle.std.specs.List.Sorted.{IsStrictlyIncreasing};
ghost use Rattle.nl_value.specs.Living.{link_key};
ghost use Rattle.trial_value.specs.SmallWorld.{small_world, small_members, small_turtle_lives, small_link_lives};

use nl_fixed::{NoMemory, Str};
use nl_value::life::Life;
use nl_value::sets::{AgentSet, Serials};
use nl_value::values::Value;
use std::alloc::Global;

/// The living turtles of a list.
fn living_turtles(alloc: Global, numbers: &Serials) -> Result<Vec<u64>, NoMemory>
    ensures members { IfOk result (λ members. members.items ≡ filter small_turtle_lives numbers.now) }
    ensures ascending { IsStrictlyIncreasing (filter small_turtle_lives numbers.now) }
{
    let numbers = numbers.as_slice();
    let members = numbers
        .iter()
        .copied()
        .filter(|n| *n == 1 || *n == 2)
        .collect(alloc)?;
    Ok(members)
}

/// The living links of a list.
fn living_links(alloc: Global, numbers: &Serials) -> Result<Vec<u64>, NoMemory>
    ensures members { IfOk result (λ members. members.items ≡ filter small_link_lives numbers.now) }
    ensures ascending { IsStrictlyIncreasing (filter small_link_lives numbers.now) }
{
    let numbers = numbers.as_slice();
    let members = numbers
        .iter()
        .copied()
        .filter(|n| 1 <= *n && *n <= 4)
        .collect(alloc)?;
    Ok(members)
}

/// The living members of a set.
fn members(alloc: Global, set: &AgentSet) -> Result<Vec<u64>, NoMemory>
    ensures members { IfOk result (λ members. members.items ≡ small_members set.now) }
    ensures ascending { IsStrictlyIncreasing (small_members set.now) }
{
    match set {
        AgentSet::Turtles => Ok([1, 2].to_vec(alloc)?),
        AgentSet::Breed(_) => Ok([2].to_vec(alloc)?),
        AgentSet::Patches => Ok([0].to_vec(alloc)?),
        AgentSet::Links => Ok([1, 2, 3, 4].to_vec(alloc)?),
        AgentSet::LinkBreed(_) => Ok([3].to_vec(alloc)?),
        AgentSet::SomeTurtles(numbers) => living_turtles(alloc, numbers),
        AgentSet::SomePatches(numbers) => Ok(numbers.as_slice().to_vec(alloc)?),
        AgentSet::SomeLinks(numbers) => living_links(alloc, numbers),
    }
}

/// The ends, the breed and the number of a link.
fn key(link: u64) -> [u64; 4]
    ensures { result ≡ link_key small_world link }
{
    match link {
        1 => [1, 2, 0, link],
        3 => [0, 1, 1, link],
        _ => [0, 1, 0, link],
    }
}

#[derive(Clone, Copy, Debug)]
pub struct SmallWorld;

impl Life for SmallWorld {
    ghost living = { λ _. small_world };

    fn turtle_lives(&self, turtle: u64) -> bool {
        turtle == 1 || turtle == 2
    }

    fn link_lives(&self, link: u64) -> bool {
        1 <= link && link <= 4
    }

    fn same_members(&self, alloc: Global, a: &AgentSet, b: &AgentSet) -> Result<bool, NoMemory> {
        let first = members(alloc, a)?;
        let second = members(alloc, b)?;
        Ok(a.kind() == b.kind() && first.as_slice() == second.as_slice())
    }

    fn link_before(&self, a: u64, b: u64) -> bool {
        key(a).as_slice().cmp(key(b).as_slice()).is_lt()
    }

    fn name(&self, alloc: Global, value: &Value) -> Result<Str, NoMemory> {
        match value {
            Value::Turtle(2) => Str::of(alloc, b"(fox 2)"),
            Value::Turtle(_) => Str::of(alloc, b"(turtle 1)"),
            Value::Link(_) => Str::of(alloc, b"(link 0 1)"),
            Value::Set(set) => match &**set {
                AgentSet::Breed(_) => Str::of(alloc, b"(agentset, 1 foxes)"),
                _ => Str::of(alloc, b"(agentset, 2 turtles)"),
            },
            _ => Str::of(alloc, b"(patch 1 -2)"),
        }
    }
}
