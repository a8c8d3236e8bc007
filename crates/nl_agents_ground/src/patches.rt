//! Lists of patches.
ghost use Rattle.std.specs.Prelude.{◌≡◌, ◌<◌, map, length, replicate, slice_get, All, None, Some, IfOk, IfErr, OnErr};
ghost use Rattle.nl_value.specs.Views.{plain};
ghost use Rattle.nl_agents.specs.World.{first_patch_vars};
ghost use Rattle.nl_agents_ground.specs.Grounds.{patch_entry, patches_set};

use nl_agents::{Layout, Slots, Variables};
use nl_fixed::NoMemory;
use nl_value::Value;
use std::alloc::Global;

/// So many patches with their first values.
pub(crate) fn first_patches(
    alloc: Global,
    layout: &Layout,
    count: u32,
) -> Result<Vec<Variables>, NoMemory>
    ensures { IfOk result (λ patches. patches.items ≡ replicate count (first_patch_vars layout.now)) }
{
    let mut patches = Vec::with_capacity(alloc, count as usize)?;
    for _ in 0..count {
        patches.push(Variables::first_of_patch(alloc, layout)?)?;
    }
    Ok(patches)
}

/// Gives all patches their first values again, without memory.
pub(crate) fn reset_patches(alloc: Global, patches: &mut Vec<Variables>, layout: &Layout)
    requires { All (λ vars. length vars ≡ length layout.now.every_patch) patches.old.items }
    ensures { patches.new.items ≡ map (λ vars. first_patch_vars layout.now) patches.old.items }
{
    let count = patches.as_slice().len();
    for at in 0..count {
        patches[at].reset_patch(alloc, layout);
    }
}

/// What the patch of a number keeps.
pub(crate) fn patch_in(patches: &[Variables], patch: u32) -> &Variables
    requires { patch < length patches.now }
    ensures { slice_get patches.now patch ≡ Some result.now }
{
    &patches[patch as usize]
}

/// Sets a variable of a patch, where patches own it.
pub(crate) fn set_patch(
    patches: &mut Vec<Variables>,
    slots: &Slots,
    patch: u32,
    slot: u32,
    value: Value,
) -> Result<Value, Value>
    requires { patch < length patches.old.items }
    ensures old { IfOk result (λ old. patch_entry slots.now slot patch patches.old.items ≡ Some (plain old)) }
    ensures back { IfErr result (λ back. plain back ≡ plain value) }
    ensures not_owned { OnErr result (patch_entry slots.now slot patch patches.old.items ≡ None) }
    ensures new { patches.new.items ≡ patches_set slots.now slot (plain value) patch patches.old.items }
    ensures kept { OnErr result (patches.new.items ≡ patches.old.items) }
{
    patches[patch as usize].set(slots, slot, value)
}

/// The same patches again.
pub(crate) fn copy_patches(alloc: Global, patches: &[Variables]) -> Result<Vec<Variables>, NoMemory>
    ensures { IfOk result (λ again. again.items ≡ patches.now) }
{
    let mut copied = Vec::with_capacity(alloc, patches.len())?;
    for vars in patches {
        copied.push(vars.copy(alloc)?)?;
    }
    Ok(copied)
}
