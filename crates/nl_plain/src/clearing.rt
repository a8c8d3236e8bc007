//! Clears of whole lists, and first values.
ghost use Rattle.std.specs.Prelude.{◌≡◌, ◌<◌, map, length, replicate, slice_set, All, IfOk, if◌then◌else◌};
ghost use Rattle.nl_agents_layout.specs.BuiltIn.{zero_value};
ghost use Rattle.nl_agents.specs.World.{first_patch_vars};
ghost use Rattle.nl_agents.specs.Changes.{cleared_from};

use nl_agents::{Layout, Variables};
use nl_fixed::{NoMemory, Num};
use nl_value::{Items, Value};
use std::alloc::Global;

/// So many patches with their first values.
pub(crate) fn first_patches(
    alloc: Global,
    layout: &Layout,
    count: u32,
) -> Result<Vec<Variables>, NoMemory>
    ensures { IfOk result (λ patches. patches.items ≡ replicate count (first_patch_vars layout.now)) }
{
    let mut patches = Vec::with_capacity(alloc, count as usize)?;
    for _ in 0..count {
        patches.push(Variables::first_of_patch(alloc, layout)?)?;
    }
    Ok(patches)
}

/// Gives all patches their first values again, without memory.
pub(crate) fn reset_patches(alloc: Global, patches: &mut Vec<Variables>, layout: &Layout)
    requires { All (λ vars. length vars ≡ length layout.now.every_patch) patches.old.items }
    ensures { patches.new.items ≡ map (λ vars. first_patch_vars layout.now) patches.old.items }
{
    let count = patches.as_slice().len();
    for at in 0..count {
        patches[at].reset_patch(alloc, layout);
    }
}

/// Has each global variable that the code declares be 0.
pub(crate) fn clear_coded(globals: &mut Items, layout: &Layout)
    requires { length globals.old ≡ layout.now.globals }
    ensures { globals.new ≡ cleared_from layout.now.coded 0 globals.old }
{
    for slot in 0..layout.globals {
        clear_one(globals, layout.is_coded(slot), slot as usize);
    }
}

/// Has a global variable be 0, where the code declares it.
fn clear_one(globals: &mut Items, coded: bool, at: usize)
    requires { at < length globals.old }
    ensures { globals.new ≡ (if coded then slice_set globals.old at zero_value else globals.old) }
{
    if coded {
        let zero = Num::whole(0).unwrap();
        let _ = globals.replace(at, Value::Number(zero));
    }
}
