//! What values ask the world.
ghost use Rattle.std.specs.Prelude.{◌≡◌, IsTrue, IfOk, OnOk};
ghost use Rattle.std.specs.List.Sorted.{IsStrictlyIncreasing};
ghost use Rattle.nl_value.specs.Living.{Living, fits, has_name, same_sets, link_comes_before, no_life};
ghost use Rattle.nl_value.specs.Views.{plain};

use crate::sets::AgentSet;
use crate::values::Value;
use nl_fixed::{NoMemory, Str};
use std::alloc::Global;

/// Tells which turtles and links live, whether two sets have the same members, the order of links, and the texts of agents
/// and sets.
pub trait Life {
    /// What it tells, as functions of plain values.
    ghost living: { Self → Living };

    /// Whether a turtle of this serial lives.
    fn turtle_lives(&self, turtle: u64) -> bool
        ensures { result ≡ (living self.now).turtle_lives turtle };

    /// Whether a link of this serial lives.
    fn link_lives(&self, link: u64) -> bool
        ensures { result ≡ (living self.now).link_lives link };

    /// Whether the sets are of one kind and have the same living members. The members of a set ascend, so that two sets have
    /// the same ones exactly where these are the same lists.
    fn same_members(&self, alloc: Global, a: &AgentSet, b: &AgentSet) -> Result<bool, NoMemory>
        requires first { IsTrue ((living self.now).set_fits a.now) }
        requires second { IsTrue ((living self.now).set_fits b.now) }
        ensures same { IfOk result (λ same. same ≡ same_sets (living self.now) a.now b.now) }
        ensures first_ascends { OnOk result (IsStrictlyIncreasing ((living self.now).members a.now)) }
        ensures second_ascends { OnOk result (IsStrictlyIncreasing ((living self.now).members b.now)) };

    /// Whether the first link comes before the second: by the first ends, the second ends, the breeds and the serials.
    fn link_before(&self, a: u64, b: u64) -> bool
        requires first { IsTrue ((living self.now).link_lives a) }
        requires second { IsTrue ((living self.now).link_lives b) }
        ensures { result ≡ link_comes_before (living self.now) a b };

    /// The text of an agent or a set. What it is for a dead agent is left open, since the text of such a value is `nobody`.
    fn name(&self, alloc: Global, value: &Value) -> Result<Str, NoMemory>
        requires named { IsTrue (has_name (plain value.now)) }
        requires fit { IsTrue (fits (living self.now) (plain value.now)) }
        ensures { IfOk result (λ name. name ≡ (living self.now).name (plain value.now)) };
}

/// A world in which nothing lives, every set is empty and every name is the empty text. Literals are compared and printed
/// with it.
#[derive(Clone, Copy, Debug)]
pub struct NoLife;

impl Life for NoLife {
    ghost living = { λ _. no_life };

    fn turtle_lives(&self, _turtle: u64) -> bool {
        false
    }

    fn link_lives(&self, _link: u64) -> bool {
        false
    }

    fn same_members(&self, _alloc: Global, a: &AgentSet, b: &AgentSet) -> Result<bool, NoMemory> {
        Ok(a.kind() == b.kind())
    }

    // No two links live here, so this asks for none.
    fn link_before(&self, a: u64, b: u64) -> bool
        ensures { result ≡ link_comes_before no_life a b }
    {
        a < b
    }

    fn name(&self, alloc: Global, _value: &Value) -> Result<Str, NoMemory> {
        Str::of(alloc, &[])
    }
}
