//! Other variables of one agent.
ghost use Rattle.std.specs.Prelude.{◌≡◌, Some, None, IsSome, IfOk, IfErr, OnErr, length};
ghost use Rattle.nl_value.specs.Views.{plain};
ghost use Rattle.nl_agents.specs.Changes.{bred_vars, value_set};
ghost use Rattle.nl_store_records.specs.Records.{record_at, fields_at};
ghost use Rattle.nl_store_files.specs.Agents.{entry_in, HasMany};
ghost use Rattle.nl_store_files.specs.Standing.{ChangesVars};

use nl_agents::{Layout, Slots, Variables};
use nl_store_records::{Body, Fields, Records};
use nl_value::Value;
use std::alloc::Global;

/// Fields that stand for an agent's while these are changed.
fn blank(alloc: Global) -> Fields {
    Fields {
        serial: 0,
        body: Body::Link {
            directed: false,
            end1: 0,
            end2: 0,
        },
        breed: 0,
        vars: Variables::empty(alloc),
    }
}

/// Sets a variable of the agent under a key, where its breed owns it.
pub(crate) fn set_variable(
    alloc: Global,
    records: &mut Records,
    key: usize,
    slots: &Slots,
    slot: u32,
    value: Value,
) -> Result<Value, Value>
    requires { IsSome (record_at records.old key) }
    ensures old { IfOk result (λ old.
        entry_in slots.now slot (fields_at (record_at records.old) key) ≡ Some (plain old)) }
    ensures back { IfErr result (λ back. plain back ≡ plain value) }
    ensures not_owned { OnErr result
        (entry_in slots.now slot (fields_at (record_at records.old) key) ≡ None) }
    ensures set { ChangesVars (record_at records.old) (record_at records.new) key
        (λ vars. value_set slots.now vars slot (plain value)) }
{
    let mut fields = records.set_fields(key, blank(alloc));
    let result = fields.vars.set(slots, slot, value);
    let _ = records.set_fields(key, fields);
    result
}

/// Has the turtle under a key keep what one of the breed does.
pub(crate) fn rebreed_variables(
    alloc: Global,
    records: &mut Records,
    key: usize,
    layout: &Layout,
    breed: u32,
)
    requires held { IsSome (record_at records.old key) }
    requires many { HasMany layout.now (fields_at (record_at records.old) key) }
    ensures { ChangesVars (record_at records.old) (record_at records.new) key (bred_vars layout.now breed) }
{
    let mut fields = records.set_fields(key, blank(alloc));
    fields.vars.rebreed(layout, breed);
    let _ = records.set_fields(key, fields);
}
