//! Words of truths, and comparisons.
ghost use Rattle.std.specs.Prelude.{◌≡◌, IsTrue};
ghost use Rattle.nl_value.specs.Living.{fits};
ghost use Rattle.nl_value.specs.Views.{plain};
ghost use Rattle.nl_listops_series.specs.Outcomes.{Gives};
ghost use Rattle.nl_listops.specs.Truths.{truth_of_two, ordered, comparison_of};

use crate::words::{Comparison, OfTruths};
use nl_listops_series::ListFail;
use nl_value::equality::same;
use nl_value::order::before;
use nl_value::{Life, Value};
use std::alloc::Global;

impl OfTruths {
    /// What the word makes of two truths.
    pub(crate) fn of(self, a: bool, b: bool) -> bool
        ensures { result ≡ truth_of_two self a b }
    {
        match self {
            OfTruths::And => a && b,
            OfTruths::Or => a || b,
            OfTruths::Xor => a != b,
        }
    }
}

/// Whether the first value comes before the second. WrongType where they have no order.
fn ordered<L: Life>(a: &Value, b: &Value, life: &L) -> Result<bool, ListFail>
    requires first { IsTrue (fits (L.living life.now) (plain a.now)) }
    requires second { IsTrue (fits (L.living life.now) (plain b.now)) }
    ensures { result ≡ ordered (L.living life.now) (plain a.now) (plain b.now) }
{
    match before(a, b, life) {
        Some(answer) => Ok(answer),
        None => Err(ListFail::WrongType),
    }
}

impl Comparison {
    /// How the values compare.
    pub(crate) fn of<L: Life>(
        self,
        alloc: Global,
        a: &Value,
        b: &Value,
        life: &L,
    ) -> Result<bool, ListFail>
        requires first { IsTrue (fits (L.living life.now) (plain a.now)) }
        requires second { IsTrue (fits (L.living life.now) (plain b.now)) }
        ensures { Gives result (comparison_of (L.living life.now) self (plain a.now) (plain b.now)) }
    {
        match self {
            Comparison::Equal => Ok(same(alloc, a, b, life)?),
            Comparison::NotEqual => Ok(!same(alloc, a, b, life)?),
            Comparison::Less => ordered(a, b, life),
            Comparison::Greater => ordered(b, a, life),
            Comparison::LessEqual => Ok(!ordered(b, a, life)?),
            Comparison::GreaterEqual => Ok(!ordered(a, b, life)?),
        }
    }
}
