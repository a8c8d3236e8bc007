//! Global variables: those of the model, and behind them the number of the run and the name of the experiment.
ghost use Rattle.std.specs.Prelude.{◌≡◌, ◌++◌, slice_get, option_map, None, Some, IfOk, IfErr, OnErr};
ghost use Rattle.std.specs.Option.{option_copied};
ghost use Rattle.nl_value.specs.Views.{plain};
ghost use Rattle.nl_plain.specs.Lists.{globals_set, run_set};

use nl_value::{Items, Value};

/// The value under a slot.
pub(crate) fn global_in<'a>(globals: &'a Items, run: &'a Items, slot: u32) -> Option<&'a Value>
    ensures { option_map plain (option_copied result) ≡ slice_get (globals.now ++ run.now) slot }
{
    let slot = slot as usize;
    if slot < globals.len() {
        globals.get(slot)
    } else {
        run.get(slot - globals.len())
    }
}

/// Puts the value under a slot, and hands back the old one; the new one where there is no such slot.
pub(crate) fn set_global(
    globals: &mut Items,
    run: &mut Items,
    slot: u32,
    value: Value,
) -> Result<Value, Value>
    ensures old { IfOk result (λ old. slice_get (globals.old ++ run.old) slot ≡ Some (plain old)) }
    ensures back { IfErr result (λ back. plain back ≡ plain value) }
    ensures not_owned { OnErr result (slice_get (globals.old ++ run.old) slot ≡ None) }
    ensures globals { globals.new ≡ globals_set slot (plain value) globals.old }
    ensures run { run.new ≡ run_set slot (plain value) globals.old run.old }
    ensures kept { OnErr result ((globals.new ≡ globals.old) × (run.new ≡ run.old)) }
{
    let slot = slot as usize;
    let many = globals.len();
    if slot < many {
        return Ok(globals.replace(slot, value));
    }
    if slot - many < run.len() {
        return Ok(run.replace(slot - many, value));
    }
    Err(value)
}
