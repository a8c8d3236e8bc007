//! What holds of linked lists, and of lists in order. These functions do nothing: the contract of each is a law.
ghost use Rattle.nl_store_lists.specs.Laws.{CollectedKeysAreThose, CollectedKeysRise, CollectingLeavesOut, KeysArePutLast, KeysAreTakenOut, ListsAreOne, NoKeysAtFirst, PuttingKeepsOrder, RisingListsAreOne, RisingListsHaveKeysOnce, SortedListsRise, TakingKeepsOrder, TakingShortens};

/// Lists are empty at first. A key is put at the end of a list, or taken out of one, by writes to its places and to those beside it; the
/// other keys keep their order, and the other lists are as they were.
pub fn keys_are_put_and_taken()
    ensures none { NoKeysAtFirst }
    ensures put { KeysArePutLast }
    ensures taken { KeysAreTakenOut }
{}

/// What stands after each key tells what the lists are.
pub fn lists_are_one()
    ensures { ListsAreOne }
{}

/// Lists in order are told by their keys, each of which they have once. They stay in order without a key, and with one behind them that is
/// above all others.
pub fn rising_lists_are_one()
    ensures one { RisingListsAreOne }
    ensures once { RisingListsHaveKeysOnce }
    ensures taken { TakingKeepsOrder }
    ensures put { PuttingKeepsOrder }
    ensures shorter { TakingShortens }
{}

/// Different numbers that are sorted are the same numbers in order.
pub fn sorted_lists_rise()
    ensures { SortedListsRise }
{}

/// What is collected by rising number is what there is, in order, and what is no longer there is left out.
pub fn collected_lists_rise()
    ensures those { CollectedKeysAreThose }
    ensures rise { CollectedKeysRise }
    ensures without { CollectingLeavesOut }
{}
