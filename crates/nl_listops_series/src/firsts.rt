//! For each item of a list the place of the first one that is the same.
//!
//! An item is compared with those alone that have its digest, and of those that are the same with the first one. So a list of which few
//! items that differ have one digest is gone through in time in proportion to its length; sets of agents have one digest in all.
ghost use Rattle.std.specs.Prelude.{◌≡◌, ◌<◌, length, map, IsTrue, IfOk};
ghost use Rattle.std.specs.List.{list_all};
ghost use Rattle.nl_value.specs.Living.{fits};
ghost use Rattle.nl_value.specs.Views.{plain};
ghost use Rattle.nl_listops_series.specs.inner.Firsts.{first_place, item_of, digest_at, IsLatest, IsChained};

use crate::digests::digest_of;
use nl_fixed::NoMemory;
use nl_value::equality::same;
use nl_value::laws::equality_is_an_equivalence;
use nl_value::{Life, Value};
use std::alloc::Global;
use std::collections::BTreeMap;

/// The place of the first item that is the same as the one at a place. It is sought back from the last first item of the same digest, from
/// each to the one before it.
fn first_place<L: Life>(
    alloc: Global,
    values: &[Value],
    place: usize,
    from: Option<usize>,
    earlier: &[Option<usize>],
    life: &L,
) -> Result<usize, NoMemory>
    requires inside { place < length values.now }
    requires fit { IsTrue (list_all (fits (L.living life.now)) (map plain values.now)) }
    requires from { let items = map plain values.now in
        let w = L.living life.now in
        IsLatest w items (digest_at w items place) place from }
    requires chained { IsChained (L.living life.now) (map plain values.now) place earlier.now }
    ensures { let items = map plain values.now in
        IfOk result (λ first. first ≡ first_place (L.living life.now) items (item_of items place)) }
{
    equality_is_an_equivalence();
    let mut candidate = from;
    while let Some(other) = candidate {
        if same(alloc, &values[place], &values[other], life)? {
            return Ok(other);
        }
        candidate = earlier[other];
    }
    Ok(place)
}

/// For each item the place of the first one that is the same.
pub(crate) fn first_places<L: Life>(
    alloc: Global,
    values: &[Value],
    life: &L,
) -> Result<Vec<usize>, NoMemory>
    requires { IsTrue (list_all (fits (L.living life.now)) (map plain values.now)) }
    ensures { let items = map plain values.now in
        IfOk result (λ places. places.items ≡ map (first_place (L.living life.now) items) items) }
{
    equality_is_an_equivalence();
    let mut places = Vec::new(alloc);
    let mut earlier = Vec::new(alloc);
    let mut latest = BTreeMap::new(alloc);
    for (place, value) in values.iter().enumerate() {
        let digest = digest_of(value, life);
        let before = latest.get(&digest).copied();
        let first = first_place(alloc, values, place, before, &earlier, life)?;
        places.push(first)?;
        earlier.push(before)?;
        if first == place {
            latest.insert(digest, place)?;
        }
    }
    Ok(places)
}
