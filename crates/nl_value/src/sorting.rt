//! Sorts of values.
ghost use Rattle.std.specs.Prelude.{◌≡◌, ◌≤◌, length, IsOk, OnOk, OnErr};
ghost use Rattle.nl_value.specs.Order.{comes_first};
ghost use Rattle.nl_value.specs.Sorting.{sorted_by};

use crate::life::Life;
use crate::measures::{depths, sizes};
use crate::order::compare;
use crate::values::Items;
use nl_fixed::NoMemory;
use std::alloc::Global;

impl Items {
    /// Sorts the values by `compare`; those that it takes for equal stay in place. Up to 20 values are sorted without memory, and
    /// where memory is refused all stay in place.
    pub fn sort<L: Life>(&mut self, _alloc: Global, life: &L) -> Result<(), NoMemory>
        ensures ok { OnOk result (self.new ≡ sorted_by (comes_first (L.living life.now)) self.old) }
        ensures err { OnErr result (self.new ≡ self.old) }
        ensures few { length self.old ≤ 20 → IsOk result }
    {
        self.list.sort_by(|a, b| compare(a, b, life))?;
        self.size = sizes(&self.list);
        self.depth = depths(&self.list);
        Ok(())
    }
}
