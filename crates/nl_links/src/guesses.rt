//! Entries of maps by serial, looked for where they may stand.
ghost use Rattle.std.specs.Prelude.{◌≡◌, ◌≤◌, ◌*◌, ◌%◌, ◌<◌, [], length, max, nat_eq, Some, IfSome, OnOk};
ghost use Rattle.indexmap.specs.IndexMap.{get};
ghost use Rattle.nl_links.specs.Hints.{hint_of, with_hint, FewHints, SameHints};

use indexmap::IndexMap;
use nl_fixed::NoMemory;
use std::alloc::Global;
use std::marker::Model;

/// So many hints are kept at first. It is a power of two.
const FEWEST: usize = 64;

/// Where the entries of serials may stand in a map, each kept at the last bits of its serial. Serials are given one after another, so that
/// few of those that live share a place. A hint is looked at before it is believed: nothing but time depends on it.
#[derive(Drop)]
pub struct Hints {
    /// As many as some power of two, or none.
    indices: Vec<u32>,
}

impl Model for Hints {
    ghost use Rattle.std.specs.Prelude.{ℕ, List};
    ghost use Rattle.nl_links.specs.Hints.{AreHints};

    ghost Value = { List ℕ };

    ghost view = { λ hints. hints.indices.items };

    ghost invariant = { λ hints. AreHints hints.indices.items };
}

impl Hints {
    /// No hints.
    pub fn new(alloc: Global) -> Hints
        ensures { result ≡ [] }
    {
        Hints {
            indices: Vec::new(alloc),
        }
    }

    /// Makes room for the hints of so many entries, and for less than twice as many where there wasn't. Whatever it answers, each serial has
    /// the hint that it had.
    pub fn room(&mut self, _alloc: Global, entries: usize) -> Result<(), NoMemory>
        ensures room { OnOk result (entries ≤ length self.new) }
        ensures kept { entries ≤ length self.old → self.new ≡ self.old }
        ensures few { FewHints self.new self.old entries }
        ensures same { SameHints self.new self.old }
    {
        while self.indices.len() < entries {
            self.grow()?;
        }
        Ok(())
    }

    // Makes room for twice as many hints, or for the first ones.
    fn grow(&mut self) -> Result<(), NoMemory>
        ensures more { OnOk result (length self.old < length self.new) }
        ensures few { length self.new ≤ max 64 (2 * length self.old) }
        ensures same { SameHints self.new self.old }
    {
        if self.indices.is_empty() {
            self.indices.resize(FEWEST, 0)?;
            return Ok(());
        }
        // Each serial has its place here or so many further on, and its hint stands in both.
        self.indices.extend_from_within(..)?;
        Ok(())
    }

    /// The entry of the serial stands at this index.
    pub fn put(&mut self, serial: u64, index: usize)
        ensures { self.new ≡ with_hint self.old serial index }
    {
        let place = self.place(serial);
        if let (Some(hint), Ok(index)) = (self.indices.get_mut(place), u32::try_from(index)) {
            *hint = index;
        }
    }

    /// Where the entry of the serial may stand.
    pub fn of(&self, serial: u64) -> usize
        ensures { result ≡ hint_of self.now serial }
    {
        match self.indices.get(self.place(serial)) {
            Some(index) => *index as usize,
            None => 0,
        }
    }

    fn place(&self, serial: u64) -> usize
        ensures { 0 < length self.now → result ≡ serial % length self.now }
    {
        serial as usize & self.indices.len().wrapping_sub(1)
    }
}

/// What a serial has in a map, where its entry stands at this index.
pub fn guessed<V>(map: &IndexMap<u64, V>, index: usize, serial: u64) -> Option<&V>
    ensures { IfSome result (λ value. get nat_eq map.now serial ≡ Some value.now) }
{
    let (there, value) = map.get_index(index)?;
    if *there == serial { Some(value) } else { None }
}
