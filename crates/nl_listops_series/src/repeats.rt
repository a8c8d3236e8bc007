//! Items that stand in a list more than once.
ghost use Rattle.std.specs.Prelude.{◌≡◌, length, map, IsTrue, IfOk};
ghost use Rattle.std.specs.List.{list_all};
ghost use Rattle.nl_value.specs.Living.{fits};
ghost use Rattle.nl_value.specs.Measures.{greatest};
ghost use Rattle.nl_value.specs.Views.{plain};
ghost use Rattle.nl_listops_series.specs.Searches.{each_once, modes_of};
ghost use Rattle.nl_listops_series.specs.inner.Firsts.{AllBelow, IsCount, times_among};

use crate::firsts::first_places;
use nl_fixed::NoMemory;
use nl_value::laws::equality_is_an_equivalence;
use nl_value::{Items, Life, Value};
use std::alloc::Global;

/// The items, each of those that are the same once, by its first place.
pub fn each_once<L: Life>(alloc: Global, items: &Items, life: &L) -> Result<Items, NoMemory>
    requires { IsTrue (list_all (fits (L.living life.now)) items.now) }
    ensures { IfOk result (λ once. once ≡ each_once (L.living life.now) items.now) }
{
    equality_is_an_equivalence();
    let values = items.as_slice();
    let places = first_places(alloc, values, life)?;
    let mut once = Items::empty(alloc);
    for (place, value) in values.iter().enumerate() {
        if places[place] == place {
            let again = value.copy(alloc)?;
            once.push(alloc, again)?;
        }
    }
    Ok(once)
}

/// How often each number below their count stands among the numbers.
fn counts(alloc: Global, numbers: &[usize]) -> Result<Vec<usize>, NoMemory>
    requires { AllBelow (length numbers.now) numbers.now }
    ensures long { IfOk result (λ counts. length counts.items ≡ length numbers.now) }
    ensures counts { IfOk result (λ counts. IsCount numbers.now counts.items) }
{
    let mut counts = vec![in alloc; 0; numbers.len()]?;
    for number in numbers {
        counts[*number] += 1;
    }
    Ok(counts)
}

/// How often each of the numbers stands among them.
fn times(alloc: Global, numbers: &[usize]) -> Result<Vec<usize>, NoMemory>
    requires { AllBelow (length numbers.now) numbers.now }
    ensures { IfOk result (λ times. times.items ≡ times_among numbers.now) }
{
    let counts = counts(alloc, numbers)?;
    let mut times = Vec::new(alloc);
    for number in numbers {
        times.push(counts[*number])?;
    }
    Ok(times)
}

/// The greatest of the numbers, and 0 of none.
fn greatest(numbers: &[usize]) -> usize
    ensures { result ≡ greatest numbers.now }
{
    let mut greatest = 0;
    for number in numbers {
        greatest = greatest.max(*number);
    }
    greatest
}

/// The items that stand in the list most often, each once, by first place.
pub fn modes<L: Life>(alloc: Global, items: &Items, life: &L) -> Result<Items, NoMemory>
    requires { IsTrue (list_all (fits (L.living life.now)) items.now) }
    ensures { IfOk result (λ modes. modes ≡ modes_of (L.living life.now) items.now) }
{
    equality_is_an_equivalence();
    let values = items.as_slice();
    let places = first_places(alloc, values, life)?;
    let times = times(alloc, &places)?;
    let most = greatest(&times);
    let mut modes = Items::empty(alloc);
    for (place, value) in values.iter().enumerate() {
        if places[place] == place && times[place] == most {
            let again = value.copy(alloc)?;
            modes.push(alloc, again)?;
        }
    }
    Ok(modes)
}
