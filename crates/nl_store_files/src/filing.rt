//! One record that comes or goes.
ghost use Rattle.std.specs.Prelude.{◌≡◌, ℕ, Some, None, IsOk, OnOk};
ghost use Rattle.nl_store_records.specs.Records.{record_at, HasRoom, SameRecords, Sets};
ghost use Rattle.nl_store_records.specs.declared.record.Record.{Record};
ghost use Rattle.nl_store_files.specs.Keys.{HasPlace, SameKeys};
ghost use Rattle.nl_store_files.specs.Standing.{PutsNew};

use crate::keys::Keys;
use nl_fixed::NoMemory;
use nl_store_records::{Fields, Record, Records};
use std::alloc::Global;

/// Makes room for one more record and its key.
pub(crate) fn make_room(
    alloc: Global,
    records: &mut Records,
    keys: &mut Keys,
) -> Result<(), NoMemory>
    ensures room { OnOk result (HasRoom records.new) }
    ensures place { OnOk result (HasPlace keys.new) }
    ensures records { SameRecords (record_at records.old) (record_at records.new) }
    ensures keys { SameKeys keys.old keys.new }
{
    records.room(alloc)?;
    keys.room(alloc)?;
    Ok(())
}

/// Holds a new record, for which there is room.
pub(crate) fn put_new(alloc: Global, records: &mut Records, fields: Fields) -> usize
    requires { HasRoom records.old }
    ensures vacant { record_at records.old result ≡ None }
    ensures put { PutsNew (record_at records.old) (record_at records.new) result fields }
{
    records.put(alloc, Record::new(fields)).unwrap()
}
