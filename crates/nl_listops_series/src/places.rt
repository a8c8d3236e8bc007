//! Places in lists and texts, counted from 0.
ghost use Rattle.std.specs.Prelude.{◌≡◌};
ghost use Rattle.nl_listops_series.specs.Places.{index_of, place_below};

use crate::fail::ListFail;
use nl_fixed::Num;

/// The place that a number names: its whole part, cut toward 0, where that isn't negative.
pub(crate) fn index_of(number: Num) -> Option<usize>
    ensures { result ≡ index_of number }
{
    usize::try_from(number.whole_part()).ok()
}

/// The place that a number names, where it is below the bound; else OutOfList.
pub(crate) fn place_below(number: Num, bound: usize) -> Result<usize, ListFail>
    ensures { result ≡ place_below number bound }
{
    match index_of(number) {
        Some(place) if place < bound => Ok(place),
        _ => Err(ListFail::OutOfList),
    }
}
