//! A list of agents in any order.
ghost use Rattle.std.specs.Prelude.{◌≡◌, [], ◌∷◌, ◌++◌, length, OnOk, OnErr};

use nl_fixed::NoMemory;
use std::alloc::Global;
use std::marker::Model;

/// Serials of turtles or links, or numbers of patches, in the order in which they are asked.
#[derive(Drop)]
pub struct Walk {
    list: Vec<u64>,
}

impl Model for Walk {
    ghost use Rattle.std.specs.Prelude.{ℕ, List};

    ghost Value = { List ℕ };

    ghost view = { λ w. w.list.items };
}

impl Walk {
    /// No agents.
    pub fn empty(alloc: Global) -> Walk
        ensures { result ≡ [] }
    {
        Walk {
            list: Vec::new(alloc),
        }
    }

    /// The agents of a vector, without a copy.
    pub fn of_vec(list: Vec<u64>) -> Walk
        ensures { result ≡ list.items }
    {
        Walk { list }
    }

    /// The agents, in order.
    pub fn as_slice(&self) -> &[u64]
        ensures { result.now ≡ self.now }
    {
        self.list.as_slice()
    }

    /// How many agents there are.
    pub fn len(&self) -> usize
        ensures { result ≡ length self.now }
    {
        self.list.len()
    }

    /// Appends an agent, or leaves the list as it was.
    pub fn push(&mut self, _alloc: Global, number: u64) -> Result<(), NoMemory>
        ensures ok { OnOk result (self.new ≡ self.old ++ number ∷ []) }
        ensures err { OnErr result (self.new ≡ self.old) }
    {
        self.list.push(number)?;
        Ok(())
    }
}
