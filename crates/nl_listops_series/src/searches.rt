//! Searches for values in lists.
ghost use Rattle.std.specs.Prelude.{◌≡◌, map, IsTrue, IfOk};
ghost use Rattle.std.specs.List.{list_all};
ghost use Rattle.nl_value.specs.Living.{fits};
ghost use Rattle.nl_value.specs.Views.{plain};
ghost use Rattle.nl_listops_series.specs.Searches.{place_of_item, without_item};

use nl_fixed::NoMemory;
use nl_value::equality::same;
use nl_value::{Items, Life, Value};
use std::alloc::Global;

/// The first place of an item that is the same as the value.
pub fn place_of_item<L: Life>(
    alloc: Global,
    value: &Value,
    items: &Items,
    life: &L,
) -> Result<Option<usize>, NoMemory>
    requires value { IsTrue (fits (L.living life.now) (plain value.now)) }
    requires items { IsTrue (list_all (fits (L.living life.now)) items.now) }
    ensures { let w = L.living life.now in
        IfOk result (λ place. place ≡ place_of_item w (plain value.now) items.now) }
{
    let values = items.as_slice();
    for (place, item) in values.iter().enumerate() {
        if same(alloc, value, item, life)? {
            return Ok(Some(place));
        }
    }
    Ok(None)
}

/// The items that aren't the same as the value.
pub fn without_item<L: Life>(
    alloc: Global,
    value: &Value,
    items: &Items,
    life: &L,
) -> Result<Items, NoMemory>
    requires value { IsTrue (fits (L.living life.now) (plain value.now)) }
    requires items { IsTrue (list_all (fits (L.living life.now)) items.now) }
    ensures { let w = L.living life.now in
        IfOk result (λ others. others ≡ without_item w (plain value.now) items.now) }
{
    let values = items.as_slice();
    let mut others = Items::empty(alloc);
    for item in values {
        if !same(alloc, value, item, life)? {
            let again = item.copy(alloc)?;
            others.push(alloc, again)?;
        }
    }
    Ok(others)
}
