//! Keys of agents by serial.
ghost use Rattle.std.specs.Prelude.{◌≡◌, ◌+◌, ℕ, Some, None, OnOk, IsSome};
ghost use Rattle.nl_store_files.specs.Keys.{key_count, key_in, HasPlace, SameKeys, SetsKey};

use indexmap::IndexMap;
use nl_fixed::NoMemory;
use nl_links::guesses::{Hints, guessed};
use std::alloc::Global;

/// The keys of the turtles, or of the links, that live.
#[derive(Drop)]
pub struct Keys {
    map: IndexMap<u64, usize>,
    hints: Hints,
}

impl Keys {
    /// No keys.
    pub(crate) fn new(alloc: Global) -> Keys
        ensures keys { (s : ℕ) → key_in result s ≡ None }
        ensures count { key_count result ≡ 0 }
    {
        Keys {
            map: IndexMap::new(alloc),
            hints: Hints::new(alloc),
        }
    }

    /// How many there are.
    pub(crate) fn len(&self) -> usize
        ensures { result ≡ key_count self.now }
    {
        self.map.len()
    }

    /// The key of a serial.
    pub(crate) fn get(&self, serial: u64) -> Option<usize>
        ensures { result ≡ key_in self.now serial }
    {
        match guessed(&self.map, self.hints.of(serial), serial) {
            Some(key) => Some(*key),
            None => self.found(serial),
        }
    }

    // The key of a serial, by its hash. It stands apart, so that where a hint suffices nothing is kept for it.
    #[inline(never)]
    fn found(&self, serial: u64) -> Option<usize>
        ensures { result ≡ key_in self.now serial }
    {
        self.map.get(&serial).copied()
    }

    /// Makes room for one more.
    pub(crate) fn room(&mut self, alloc: Global) -> Result<(), NoMemory>
        ensures room { OnOk result (HasPlace self.new) }
        ensures keys { (s : ℕ) → key_in self.new s ≡ key_in self.old s }
        ensures count { key_count self.new ≡ key_count self.old }
    {
        self.map.reserve(1)?;
        self.hints.room(alloc, self.map.len() + 1)
    }

    /// Keeps the key of a serial that has none. It takes no memory.
    pub(crate) fn put(&mut self, serial: u64, key: usize)
        requires room { HasPlace self.old }
        requires new { key_in self.old serial ≡ None }
        ensures put { SetsKey self.old self.new serial (Some key) }
        ensures count { key_count self.new ≡ key_count self.old + 1 }
    {
        self.hints.put(serial, self.map.len());
        let _ = self.map.insert(serial, key).unwrap();
    }

    /// Takes the key of a serial out. It takes no memory.
    pub(crate) fn take(&mut self, serial: u64) -> usize
        requires { IsSome (key_in self.old serial) }
        ensures key { key_in self.old serial ≡ Some result }
        ensures taken { SetsKey self.old self.new serial None }
        ensures count { key_count self.new + 1 ≡ key_count self.old }
    {
        let (index, _, key) = self.map.swap_remove_full(&serial).unwrap();
        if let Some((moved, _)) = self.map.get_index(index) {
            self.hints.put(*moved, index);
        }
        key
    }
}
