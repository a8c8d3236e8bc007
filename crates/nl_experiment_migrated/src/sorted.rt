//! That the keys of a table ascend, in each table inside of it too.
ghost use Rattle.std.specs.Prelude.{◌≡◌, true};
ghost use Rattle.toml.specs.Data.{is_sorted, items_are_sorted, members_are_sorted};
ghost use Rattle.toml.specs.View.{array_view, table_view, view};

use toml::value::Array;
use toml::{Table, Value};

#[cycle(walk)]
fn value_ascends(value: &Value)
    ensures { is_sorted (view value.now) ≡ true }
{
    match value {
        Value::Array(array) => array_ascends(array),
        Value::Table(table) => keys_ascend(table),
        _ => {}
    }
}

#[cycle(walk)]
fn array_ascends(array: &Array)
    ensures { items_are_sorted (array_view array.now) ≡ true }
{
    'items: for item in array {
        value_ascends(item);
    }
}

/// Goes through a table. Nothing is done: that its keys ascend, by which a key stands there once, is known of each table that is gone through.
#[cycle(walk)]
pub(crate) fn keys_ascend(table: &Table)
    ensures { members_are_sorted (table_view table.now) ≡ true }
{
    'members: for (_key, member) in table.iter() {
        value_ascends(member);
    }
}
