//! Slots of variables.
ghost use Rattle.std.specs.Prelude.{◌≡◌, ℕ, [], length, slice_get, Some, false, IfOk, MatchOption};
ghost use Rattle.std.specs.List.Sorted.{IsStrictlyIncreasing};
ghost use Rattle.nl_agents_layout.specs.Layouts.{has_slot};

use nl_fixed::NoMemory;
use std::alloc::Global;
use std::marker::Model;

/// Slots of variables, each greater than the one before it.
#[derive(Drop)]
pub struct Slots {
    list: Vec<u32>,
}

impl Model for Slots {
    ghost use Rattle.std.specs.Prelude.{ℕ, List};
    ghost use Rattle.std.specs.List.Sorted.{IsStrictlyIncreasing};

    ghost Value = { List ℕ };

    ghost view = { λ slots. slots.list.items };

    ghost invariant = { λ slots. IsStrictlyIncreasing slots.list.items };
}

impl Slots {
    /// No slots.
    pub fn empty(alloc: Global) -> Slots
        ensures { result ≡ [] }
    {
        Slots {
            list: Vec::new(alloc),
        }
    }

    /// The slots of a vector, which may be in any order and stand there more than once. It takes no memory.
    pub fn of_vec(list: Vec<u32>) -> Slots
        ensures same { (slot : ℕ) → has_slot result slot ≡ has_slot list.items slot }
        ensures ascending { IsStrictlyIncreasing result }
    {
        let mut list = list;
        list.sort_unstable();
        list.dedup();
        Slots { list }
    }

    /// The slots, ascending.
    pub fn as_slice(&self) -> &[u32]
        ensures value { result.now ≡ self.now }
        ensures ascending { IsStrictlyIncreasing self.now }
    {
        self.list.as_slice()
    }

    /// Whether the slot is among them, by a binary search.
    pub fn contains(&self, slot: u32) -> bool
        ensures { result ≡ has_slot self.now slot }
    {
        self.list.binary_search(&slot).is_ok()
    }

    /// How many slots there are.
    pub fn len(&self) -> usize
        ensures { result ≡ length self.now }
    {
        self.list.len()
    }

    /// Where the slot stands among them, counted from 0, by a binary search.
    pub fn place(&self, slot: u32) -> Option<usize>
        ensures at { MatchOption result (has_slot self.now slot ≡ false)
            (λ at. slice_get self.now at ≡ Some slot) }
        ensures ascending { IsStrictlyIncreasing self.now }
    {
        self.list.binary_search(&slot).ok()
    }

    /// The same slots again.
    pub fn copy(&self, alloc: Global) -> Result<Slots, NoMemory>
        ensures { IfOk result (λ again. again ≡ self.now) }
    {
        let list = self.list.as_slice().to_vec(alloc)?;
        Ok(Slots { list })
    }
}
