//! Laws of words with arrow blocks. The functions do nothing: their contracts are the laws.
ghost use Rattle.nl_exec_arrows.specs.Laws.{FiltersSelect, MapsAreAsLong, SortsFollowAnOrder, SortsPermute, TurnsAreForgotten};

/// `map` over one list gives a list as long, whatever its block does.
pub fn maps_are_as_long()
    ensures { MapsAreAsLong }
{}

/// `filter` gives some of the items of its list, in their order.
pub fn filters_select()
    ensures { FiltersSelect }
{}

/// `sort-by` of a list gives just its items, whatever its block says.
pub fn sorts_permute()
    ensures { SortsPermute }
{}

/// Where the block of `sort-by` tells an order, the items stand in that order, and those that are as high stay in place.
pub fn sorts_follow_an_order()
    ensures { SortsFollowAnOrder }
{}

/// No name of a turn is known behind it.
pub fn turns_are_forgotten()
    ensures { TurnsAreForgotten }
{}
