//! What the words of lists and texts make of each other, and what statistics say of numbers. These functions do nothing: the contract of each is a law.
ghost use Rattle.nl_listops_series.specs.Laws.{ListsTurnBack, SentencesAddUp, PartsStayElsewhere, SearchesFindTheFirst, ItemsAreFound, CharactersMakeTheText, SortsPermute, RangesEndAtTheBound};
ghost use Rattle.nl_listops_series.specs.StatisticLaws.{MinIsLeast, MaxIsGreatest, MeanLiesBetween};

use nl_fixed::number_laws::quotients_are_rounded;
use nl_value::laws::{all_values_have_an_order, equality_is_an_equivalence};

/// A list turned twice is itself, and a part of a list away from a place is the same with another item at the place.
pub fn lists_keep_their_items<T>()
    ensures turned { ListsTurnBack T }
    ensures parts { PartsStayElsewhere T }
{}

/// A sentence has as many items as its values have, and the characters of a text are put together to the text.
pub fn joins_lose_nothing()
    ensures sentences { SentencesAddUp }
    ensures texts { CharactersMakeTheText }
{}

/// A search finds the first item that is the same, and each item of a list is found.
pub fn searches_find_the_first()
    ensures first { SearchesFindTheFirst }
    ensures found { ItemsAreFound }
{
    equality_is_an_equivalence();
}

/// What is sorted ascends, is a permutation of what is kept, and sorted again is itself.
pub fn sorts_permute()
    ensures { SortsPermute }
{
    all_values_have_an_order();
}

/// A range goes by its steps to before its bound, and no further step would be before it.
pub fn ranges_end_at_the_bound()
    ensures { RangesEndAtTheBound }
{}

/// `min` is a number of the list that none is below, and `max` one that none is above.
pub fn extremes_are_members()
    ensures least { MinIsLeast }
    ensures greatest { MaxIsGreatest }
{}

/// The mean lies between them.
pub fn mean_lies_between()
    ensures { MeanLiesBetween }
{
    quotients_are_rounded();
}
