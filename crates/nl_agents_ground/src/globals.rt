//! Global variables: those of the model, and behind them the number of the run and the name of the experiment.
ghost use Rattle.std.specs.Prelude.{◌≡◌, ◌<◌, ◌++◌, length, replicate, slice_get, slice_set, option_map, None, Some, IfOk, IfErr, OnErr, if◌then◌else◌};
ghost use Rattle.std.specs.Option.{option_copied};
ghost use Rattle.nl_value.specs.Views.{plain};
ghost use Rattle.nl_agents_layout.specs.BuiltIn.{zero_value};
ghost use Rattle.nl_agents.specs.Changes.{cleared_from};
ghost use Rattle.nl_agents_ground.specs.Grounds.{globals_set, run_set};

use nl_agents::Layout;
use nl_fixed::{NoMemory, Num};
use nl_value::{Items, Value};
use std::alloc::Global;

/// The value under a slot.
pub(crate) fn global_in<'a>(globals: &'a Items, run: &'a Items, slot: u32) -> Option<&'a Value>
    ensures { option_map plain (option_copied result) ≡ slice_get (globals.now ++ run.now) slot }
{
    let slot = slot as usize;
    if slot < globals.len() {
        globals.get(slot)
    } else {
        run.get(slot - globals.len())
    }
}

/// Puts the value under a slot, and hands back the old one; the new one where there is no such slot.
pub(crate) fn set_global(
    globals: &mut Items,
    run: &mut Items,
    slot: u32,
    value: Value,
) -> Result<Value, Value>
    ensures old { IfOk result (λ old. slice_get (globals.old ++ run.old) slot ≡ Some (plain old)) }
    ensures back { IfErr result (λ back. plain back ≡ plain value) }
    ensures not_owned { OnErr result (slice_get (globals.old ++ run.old) slot ≡ None) }
    ensures globals { globals.new ≡ globals_set slot (plain value) globals.old }
    ensures run { run.new ≡ run_set slot (plain value) globals.old run.old }
    ensures kept { OnErr result ((globals.new ≡ globals.old) × (run.new ≡ run.old)) }
{
    let slot = slot as usize;
    let many = globals.len();
    if slot < many {
        return Ok(globals.replace(slot, value));
    }
    if slot - many < run.len() {
        return Ok(run.replace(slot - many, value));
    }
    Err(value)
}

/// The number 0, so many times.
pub(crate) fn zeros(alloc: Global, count: usize) -> Result<Items, NoMemory>
    ensures { IfOk result (λ items. items ≡ replicate count zero_value) }
{
    let zero = Num::whole(0).unwrap();
    Items::filled(alloc, zero, count)
}

/// Has each global variable that the code declares be 0.
pub(crate) fn clear_coded(globals: &mut Items, layout: &Layout)
    requires { length globals.old ≡ layout.now.globals }
    ensures { globals.new ≡ cleared_from layout.now.coded 0 globals.old }
{
    for slot in 0..layout.globals {
        clear_one(globals, layout.is_coded(slot), slot as usize);
    }
}

/// Has a global variable be 0, where the code declares it.
fn clear_one(globals: &mut Items, coded: bool, at: usize)
    requires { at < length globals.old }
    ensures { globals.new ≡ (if coded then slice_set globals.old at zero_value else globals.old) }
{
    if coded {
        let zero = Num::whole(0).unwrap();
        let _ = globals.replace(at, Value::Number(zero));
    }
}
