//! What an agent keeps.
ghost use Rattle.std.specs.Prelude.{◌≡◌, ◌<◌, ◌∷◌, ◌++◌, [], Some, None, length, slice_get, slice_index_or, slice_set, IfOk, IfErr, OnOk, OnErr, option_map};
ghost use Rattle.std.specs.Option.{option_copied};
ghost use Rattle.nl_value.specs.Views.{plain};
ghost use Rattle.nl_agents.specs.Changes.{value_in, value_set, set_entry};

use nl_agents_layout::Slots;
use nl_fixed::NoMemory;
use nl_value::Value;
use std::alloc::Global;
use std::marker::Model;

/// The values of an agent's variables, one entry a slot of the agents of its kind, in order of the slots: none where the agent's breed
/// doesn't own the variable.
#[derive(Drop)]
pub struct Variables {
    list: Vec<Option<Value>>,
}

impl Model for Variables {
    ghost use Rattle.std.specs.Prelude.{List, Option, map};
    ghost use Rattle.std.specs.Option.{option_map};
    ghost use Rattle.nl_value.specs.Plain.{Plain};
    ghost use Rattle.nl_value.specs.Views.{plain};
    ghost use Rattle.std.specs.Coded.{coded_list, coded_option};
    ghost use Rattle.nl_value.specs.inner.Codes.{plain_code};

    ghost Value = { List (Option Plain) };

    ghost coded = { coded_list (coded_option plain_code) };

    ghost view = { λ vars. map (option_map plain) vars.list.items };
}

impl Variables {
    /// No variables.
    pub fn empty(alloc: Global) -> Variables
        ensures { result ≡ [] }
    {
        Variables {
            list: Vec::new(alloc),
        }
    }

    /// No variables, and room for so many.
    pub(crate) fn with_room(alloc: Global, many: usize) -> Result<Variables, NoMemory>
        ensures { IfOk result (λ vars. vars ≡ []) }
    {
        Ok(Variables {
            list: Vec::with_capacity(alloc, many)?,
        })
    }

    /// Appends an entry, or leaves the variables as they were.
    pub(crate) fn push(&mut self, _alloc: Global, entry: Option<Value>) -> Result<(), NoMemory>
        ensures ok { OnOk result (self.new ≡ self.old ++ option_map plain entry ∷ []) }
        ensures err { OnErr result (self.new ≡ self.old) }
    {
        self.list.push(entry)?;
        Ok(())
    }

    /// Puts an entry at a place, counted from 0, and hands back the one that stood there.
    pub(crate) fn replace(&mut self, at: usize, entry: Option<Value>) -> Option<Value>
        requires { at < length self.old }
        ensures new { self.new ≡ slice_set self.old at (option_map plain entry) }
        ensures old { slice_get self.old at ≡ Some (option_map plain result) }
    {
        std::mem::replace(&mut self.list[at], entry)
    }

    /// How many entries there are.
    pub fn len(&self) -> usize
        ensures { result ≡ length self.now }
    {
        self.list.len()
    }

    /// The value at a place, counted from 0. None where it isn't owned, or there is no such place.
    fn entry(&self, at: usize) -> Option<&Value>
        ensures { option_map plain (option_copied result) ≡ slice_index_or self.now at None }
    {
        match self.list.get(at) {
            Some(Some(value)) => Some(value),
            _ => None,
        }
    }

    /// Puts the value at a place where one is owned, and hands back the old one; else the new one.
    fn set_entry(&mut self, at: usize, value: Value) -> Result<Value, Value>
        ensures old { IfOk result (λ old. slice_index_or self.old at None ≡ Some (plain old)) }
        ensures back { IfErr result (λ back. plain back ≡ plain value) }
        ensures not_owned { OnErr result (slice_index_or self.old at None ≡ None) }
        ensures new { self.new
            ≡ slice_set self.old at (set_entry (plain value) (slice_index_or self.old at None)) }
        ensures kept { OnErr result (self.new ≡ self.old) }
    {
        if at >= self.len() {
            return Err(value);
        }
        put(&mut self.list[at], value)
    }

    /// The value under a slot, of what is kept under these slots. None where it isn't owned.
    #[tactic(auto, using(crate::proofs::Entries::value_at, crate::proofs::Entries::value_nowhere))]
    pub fn get(&self, slots: &Slots, slot: u32) -> Option<&Value>
        ensures { option_map plain (option_copied result) ≡ value_in slots.now self.now slot }
    {
        match slots.place(slot) {
            Some(at) => self.entry(at),
            None => None,
        }
    }

    /// Puts the value under a slot, of what is kept under these slots, and hands back the old one. Where the variable isn't owned the
    /// new value is handed back in an `Err`, and nothing is changed.
    #[tactic(auto, using(crate::proofs::Entries::value_at, crate::proofs::Entries::value_nowhere, crate::proofs::Entries::set_at, crate::proofs::Entries::set_nowhere))]
    pub fn set(&mut self, slots: &Slots, slot: u32, value: Value) -> Result<Value, Value>
        ensures old { IfOk result (λ old. value_in slots.now self.old slot ≡ Some (plain old)) }
        ensures back { IfErr result (λ back. plain back ≡ plain value) }
        ensures not_owned { OnErr result (value_in slots.now self.old slot ≡ None) }
        ensures new { self.new ≡ value_set slots.now self.old slot (plain value) }
        ensures kept { OnErr result (self.new ≡ self.old) }
    {
        match slots.place(slot) {
            Some(at) => self.set_entry(at, value),
            None => Err(value),
        }
    }

    /// The same variables again.
    pub fn copy(&self, alloc: Global) -> Result<Variables, NoMemory>
        ensures { IfOk result (λ again. again ≡ self.now) }
    {
        let mut copied = Variables::with_room(alloc, self.list.len())?;
        for entry in &self.list {
            let again = copy_entry(alloc, entry)?;
            copied.push(alloc, again)?;
        }
        Ok(copied)
    }
}

/// Puts the value in the place of an owned one, which is handed back.
fn put(entry: &mut Option<Value>, value: Value) -> Result<Value, Value>
    ensures old { IfOk result (λ old. option_map plain entry.old ≡ Some (plain old)) }
    ensures back { IfErr result (λ back. plain back ≡ plain value) }
    ensures not_owned { OnErr result (option_map plain entry.old ≡ None) }
    ensures new { option_map plain entry.new ≡ set_entry (plain value) (option_map plain entry.old) }
    ensures kept { OnErr result (entry.new ≡ entry.old) }
{
    match entry {
        Some(old) => Ok(std::mem::replace(old, value)),
        None => Err(value),
    }
}

/// The same entry again.
fn copy_entry(alloc: Global, entry: &Option<Value>) -> Result<Option<Value>, NoMemory>
    ensures { IfOk result (λ again. option_map plain again ≡ option_map plain entry.now) }
{
    match entry {
        Some(value) => Ok(Some(value.copy(alloc)?)),
        None => Ok(None),
    }
}
