//! What agents of a layout keep: at first, and after a change of breed.
ghost use Rattle.std.specs.Prelude.{◌≡◌, true, IfOk, IsTrue, length, option_map};
ghost use Rattle.nl_value.specs.Views.{plain};
ghost use Rattle.nl_agents_layout.specs.Layouts.{has_slot, turtle_owns, link_owns};
ghost use Rattle.nl_agents.specs.World.{first_turtle_vars, first_link_vars, first_patch_vars};
ghost use Rattle.nl_agents.specs.Changes.{bred_vars, bred_entry};

use crate::variables::Variables;
use nl_agents_layout::built_in::{first_of_link, first_of_patch, first_of_turtle};
use nl_agents_layout::{Layout, Slots};
use nl_fixed::{NoMemory, Num};
use nl_value::Value;
use std::alloc::Global;

impl Variables {
    /// The first values of a turtle of a breed.
    pub fn first_of_turtle(
        alloc: Global,
        layout: &Layout,
        breed: u32,
    ) -> Result<Variables, NoMemory>
        ensures { IfOk result (λ vars. vars ≡ first_turtle_vars layout.now breed) }
    {
        let mut vars = Variables::with_room(alloc, layout.some_turtle.len())?;
        let mut next = 0;
        for slot in layout.some_turtle.as_slice() {
            let entry = if turtle_owns(layout, breed, *slot, &mut next) {
                Some(first_of_turtle(alloc, *slot)?)
            } else {
                None
            };
            vars.push(alloc, entry)?;
        }
        Ok(vars)
    }

    /// The first values of a link of a breed.
    pub fn first_of_link(alloc: Global, layout: &Layout, breed: u32) -> Result<Variables, NoMemory>
        ensures { IfOk result (λ vars. vars ≡ first_link_vars layout.now breed) }
    {
        let mut vars = Variables::with_room(alloc, layout.some_link.len())?;
        let mut next = 0;
        for slot in layout.some_link.as_slice() {
            let entry = if link_owns(layout, breed, *slot, &mut next) {
                Some(first_of_link(alloc, *slot)?)
            } else {
                None
            };
            vars.push(alloc, entry)?;
        }
        Ok(vars)
    }

    /// The first values of a patch.
    pub fn first_of_patch(alloc: Global, layout: &Layout) -> Result<Variables, NoMemory>
        ensures { IfOk result (λ vars. vars ≡ first_patch_vars layout.now) }
    {
        let mut vars = Variables::with_room(alloc, layout.every_patch.len())?;
        for slot in layout.every_patch.as_slice() {
            vars.push(alloc, Some(first_of_patch(alloc, *slot)))?;
        }
        Ok(vars)
    }

    /// Gives a patch its first values again, without memory.
    pub fn reset_patch(&mut self, alloc: Global, layout: &Layout)
        requires { length self.old ≡ length layout.now.every_patch }
        ensures { self.new ≡ first_patch_vars layout.now }
    {
        let slots = layout.every_patch.as_slice();
        for at in 0..slots.len() {
            let _ = self.replace(at, Some(first_of_patch(alloc, slots[at])));
        }
    }

    /// What a turtle keeps that comes to be of a breed, without memory: what it owned and owns keeps its value, what it owns now is 0,
    /// and the rest is gone.
    pub fn rebreed(&mut self, layout: &Layout, breed: u32)
        requires { length self.old ≡ length layout.now.some_turtle }
        ensures { self.new ≡ bred_vars layout.now breed self.old }
    {
        let slots = layout.some_turtle.as_slice();
        let mut next = 0;
        for at in 0..slots.len() {
            let owned = turtle_owns(layout, breed, slots[at], &mut next);
            let old = self.replace(at, None);
            let _ = self.replace(at, bred(owned, old));
        }
    }

    /// What a turtle of a breed keeps that is hatched from one with these variables.
    pub fn hatched(&self, alloc: Global, layout: &Layout, breed: u32) -> Result<Variables, NoMemory>
        requires { length self.now ≡ length layout.now.some_turtle }
        ensures { IfOk result (λ vars. vars ≡ bred_vars layout.now breed self.now) }
    {
        let mut vars = self.copy(alloc)?;
        vars.rebreed(layout, breed);
        Ok(vars)
    }
}

/// Whether turtles of a breed own the variable of a slot: with no search, where it is the next one of those that all turtles own.
fn turtle_owns(layout: &Layout, breed: u32, slot: u32, next: &mut usize) -> bool
    ensures { result ≡ turtle_owns layout.now breed slot }
{
    is_next(&layout.every_turtle, slot, next) || layout.turtle_owns(breed, slot)
}

/// Whether links of a breed own the variable of a slot: with no search, where it is the next one of those that all links own.
fn link_owns(layout: &Layout, breed: u32, slot: u32, next: &mut usize) -> bool
    ensures { result ≡ link_owns layout.now breed slot }
{
    is_next(&layout.every_link, slot, next) || layout.link_owns(breed, slot)
}

/// Whether a slot stands at a place of these. Where it does, the place goes on to the next one: so all of these are found without a search
/// by asking for them in order, from place 0 on, whatever other slots are asked for in between.
#[tactic(auto, using(crate::proofs::Entries::has_slot_at))]
fn is_next(slots: &Slots, slot: u32, next: &mut usize) -> bool
    ensures { IsTrue result → has_slot slots.now slot ≡ true }
{
    if slots.as_slice().get(*next).copied() != Some(slot) {
        return false;
    }
    *next += 1;
    true
}

/// One entry after a change of breed.
fn bred(owned: bool, old: Option<Value>) -> Option<Value>
    ensures { option_map plain result ≡ bred_entry owned (option_map plain old) }
{
    if !owned {
        return None;
    }
    match old {
        Some(value) => Some(value),
        None => Some(Value::Number(Num::whole(0).unwrap())),
    }
}
