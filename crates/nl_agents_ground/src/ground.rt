//! The ground of a world: its shape, layout, global variables and patches.
ghost use Rattle.std.specs.Prelude.{◌≡◌, ◌<◌, ◌++◌, map, length, slice_get, option_map, All, None, Some, IfOk, IfErr, OnErr};
ghost use Rattle.std.specs.Option.{option_copied};
ghost use Rattle.nl_value.specs.Views.{plain};
ghost use Rattle.nl_agents.specs.World.{first_patch_vars};
ghost use Rattle.nl_agents.specs.Changes.{cleared_from};
ghost use Rattle.nl_agents_ground.specs.Grounds.{globals_set, patch_entry, patches_set, run_set, IsFirst, KeepsGlobals, KeepsPatches};

use crate::globals::{clear_coded, global_in, set_global, zeros};
use crate::patches::{copy_patches, first_patches, patch_in, reset_patches, set_patch};
use nl_agents::{Layout, Variables};
use nl_fixed::NoMemory;
use nl_grid::Shape;
use nl_value::{Items, Value};
use std::alloc::Global;

/// What a world has beside its turtles and links.
#[derive(Drop)]
pub struct Ground {
    pub alloc: Global,
    pub shape: Shape,
    pub layout: Layout,
    pub globals: Items,
    /// The number of the run and the name of the experiment.
    pub run: Items,
    pub patches: Vec<Variables>,
}

impl Ground {
    /// Each global variable is 0, and patches have their first values.
    pub fn first(alloc: Global, layout: &Layout, shape: Shape) -> Result<Ground, NoMemory>
        ensures { IfOk result (IsFirst layout.now shape) }
    {
        let layout = layout.copy(alloc)?;
        let globals = zeros(alloc, layout.globals as usize)?;
        let run = zeros(alloc, 2)?;
        let patches = first_patches(alloc, &layout, shape.patches())?;
        Ok(Ground {
            alloc,
            shape,
            layout,
            globals,
            run,
            patches,
        })
    }

    /// The value of a global variable. None where there is no such slot.
    pub fn global(&self, slot: u32) -> Option<&Value>
        ensures { option_map plain (option_copied result) ≡ slice_get (self.now.globals ++ self.now.run) slot }
    {
        global_in(&self.globals, &self.run, slot)
    }

    /// The value of a variable of a patch. None where patches don't own it.
    pub fn patch_value(&self, patch: u32, slot: u32) -> Option<&Value>
        requires { patch < length self.now.patches.items }
        ensures { option_map plain (option_copied result)
            ≡ patch_entry self.now.layout.every_patch slot patch self.now.patches.items }
    {
        patch_in(&self.patches, patch).get(&self.layout.every_patch, slot)
    }

    /// Puts the value into a global variable, and hands back the old one; the new one where there is no such slot.
    pub fn set_global(&mut self, slot: u32, value: Value) -> Result<Value, Value>
        ensures old { IfOk result (λ old. slice_get (self.old.globals ++ self.old.run) slot ≡ Some (plain old)) }
        ensures back { IfErr result (λ back. plain back ≡ plain value) }
        ensures not_owned { OnErr result (slice_get (self.old.globals ++ self.old.run) slot ≡ None) }
        ensures globals { self.new.globals ≡ globals_set slot (plain value) self.old.globals }
        ensures run { self.new.run ≡ run_set slot (plain value) self.old.globals self.old.run }
        ensures kept { OnErr result ((self.new.globals ≡ self.old.globals) × (self.new.run ≡ self.old.run)) }
        ensures rest { KeepsPatches self.old self.new }
    {
        set_global(&mut self.globals, &mut self.run, slot, value)
    }

    /// Puts the value into a variable of a patch, and hands back the old one; the new one where patches don't own it.
    pub fn set_patch(&mut self, patch: u32, slot: u32, value: Value) -> Result<Value, Value>
        requires { patch < length self.old.patches.items }
        ensures old { IfOk result (λ old.
            patch_entry self.old.layout.every_patch slot patch self.old.patches.items ≡ Some (plain old)) }
        ensures back { IfErr result (λ back. plain back ≡ plain value) }
        ensures not_owned { OnErr result
            (patch_entry self.old.layout.every_patch slot patch self.old.patches.items ≡ None) }
        ensures patches { self.new.patches.items
            ≡ patches_set self.old.layout.every_patch slot (plain value) patch self.old.patches.items }
        ensures kept { OnErr result (self.new.patches.items ≡ self.old.patches.items) }
        ensures rest { KeepsGlobals self.old self.new }
    {
        set_patch(
            &mut self.patches,
            &self.layout.every_patch,
            patch,
            slot,
            value,
        )
    }

    /// Gives all patches their first values again. It takes no memory.
    pub fn clear_patches(&mut self)
        requires { All (λ vars. length vars ≡ length self.old.layout.every_patch) self.old.patches.items }
        ensures patches { self.new.patches.items ≡ map (λ vars. first_patch_vars self.old.layout) self.old.patches.items }
        ensures rest { KeepsGlobals self.old self.new }
    {
        reset_patches(self.alloc, &mut self.patches, &self.layout);
    }

    /// Has each global variable that the code declares be 0. It takes no memory.
    pub fn clear_globals(&mut self)
        requires { length self.old.globals ≡ self.old.layout.globals }
        ensures globals { self.new.globals ≡ cleared_from self.old.layout.coded 0 self.old.globals }
        ensures run { self.new.run ≡ self.old.run }
        ensures rest { KeepsPatches self.old self.new }
    {
        clear_coded(&mut self.globals, &self.layout);
    }

    /// The same ground again.
    pub fn copy(&self, alloc: Global) -> Result<Ground, NoMemory>
        ensures shape { IfOk result (KeepsGlobals self.now) }
        ensures patches { IfOk result (KeepsPatches self.now) }
    {
        Ok(Ground {
            alloc,
            shape: self.shape,
            layout: self.layout.copy(alloc)?,
            globals: self.globals.copy(alloc)?,
            run: self.run.copy(alloc)?,
            patches: copy_patches(alloc, &self.patches)?,
        })
    }
}
