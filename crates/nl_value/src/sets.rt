//! Sets of agents.
ghost use Rattle.std.specs.Prelude.{◌≡◌, [], ◌∷◌, ◌++◌, ◌↔◌, ◌==◌, length, IsTrue, IfOk, OnOk, OnErr};
ghost use Rattle.std.specs.List.{list_any};
ghost use Rattle.std.specs.List.Sorted.{IsStrictlyIncreasing};
ghost use Rattle.nl_value.specs.Ascending.{IsAboveLast};

use nl_fixed::NoMemory;
use std::alloc::Global;
use std::marker::Model;

/// Numbers of agents, each greater than the one before it.
#[derive(Drop)]
pub struct Serials {
    list: Vec<u64>,
}

impl Model for Serials {
    ghost use Rattle.std.specs.Prelude.{ℕ, List};
    ghost use Rattle.std.specs.List.Sorted.{IsStrictlyIncreasing};

    ghost Value = { List ℕ };

    ghost view = { λ s. s.list.items };

    ghost invariant = { λ s. IsStrictlyIncreasing s.list.items };
}

impl Serials {
    /// No numbers.
    pub fn empty(alloc: Global) -> Serials
        ensures { result ≡ [] }
    {
        Serials {
            list: Vec::new(alloc),
        }
    }

    /// The numbers of a vector, which ascend, without a copy.
    pub fn of_vec(list: Vec<u64>) -> Serials
        requires { IsStrictlyIncreasing list.items }
        ensures { result ≡ list.items }
    {
        Serials { list }
    }

    /// The numbers, ascending.
    pub fn as_slice(&self) -> &[u64]
        ensures value { result.now ≡ self.now }
        ensures ascending { IsStrictlyIncreasing self.now }
    {
        self.list.as_slice()
    }

    /// The numbers, ascending, as a vector, without a copy.
    pub fn into_vec(self) -> Vec<u64>
        ensures value { result.items ≡ self }
        ensures ascending { IsStrictlyIncreasing self }
    {
        self.list
    }

    /// How many numbers there are.
    pub fn len(&self) -> usize
        ensures { result ≡ length self.now }
    {
        self.list.len()
    }

    /// Whether there are none.
    pub fn is_empty(&self) -> bool
        ensures { IsTrue result ↔ (self.now ≡ []) }
    {
        self.list.is_empty()
    }

    /// Whether the number is among them, by a binary search.
    pub fn contains(&self, number: u64) -> bool
        ensures { result ≡ list_any (λ other. other == number) self.now }
    {
        self.list.binary_search(&number).is_ok()
    }

    /// Takes all numbers away.
    pub fn clear(&mut self)
        ensures { self.new ≡ [] }
    {
        self.list.clear();
    }

    /// Appends a number that is greater than the last one, or leaves the list as it was.
    pub fn push(&mut self, _alloc: Global, number: u64) -> Result<(), NoMemory>
        requires { IsAboveLast number self.old }
        ensures ok { OnOk result (self.new ≡ self.old ++ number ∷ []) }
        ensures err { OnErr result (self.new ≡ self.old) }
    {
        self.list.push(number)?;
        Ok(())
    }

    /// The same numbers again.
    pub fn copy(&self, alloc: Global) -> Result<Serials, NoMemory>
        ensures { IfOk result (λ again. again ≡ self.now) }
    {
        let list = self.list.as_slice().to_vec(alloc)?;
        Ok(Serials { list })
    }
}

/// The kinds of agents that form sets.
#[derive(Clone, Copy, PartialEq, Eq, Debug)]
pub enum AgentKind {
    Turtle,
    Patch,
    Link,
}

/// A set of agents of one kind: all of the kind, all of a breed by its number, or those of a list of numbers. A listed set
/// may list agents that have died since; they are no members.
#[derive(Drop)]
pub enum AgentSet {
    Turtles,
    Breed(u32),
    Patches,
    Links,
    LinkBreed(u32),
    SomeTurtles(Serials),
    SomePatches(Serials),
    SomeLinks(Serials),
}

impl AgentSet {
    ghost use Rattle.nl_value.specs.Sets.{set_kind};

    /// The kind of the agents that the set may hold.
    pub fn kind(&self) -> AgentKind
        ensures { result ≡ set_kind self.now }
    {
        match self {
            AgentSet::Turtles | AgentSet::Breed(_) | AgentSet::SomeTurtles(_) => AgentKind::Turtle,
            AgentSet::Patches | AgentSet::SomePatches(_) => AgentKind::Patch,
            AgentSet::Links | AgentSet::LinkBreed(_) | AgentSet::SomeLinks(_) => AgentKind::Link,
        }
    }
}
