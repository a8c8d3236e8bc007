//! What the chains of links hold. These functions do nothing: the contract of each is a law.
ghost use Rattle.nl_links.specs.Laws.{EndsAreFilters, ListsAreOne};

/// Each of a turtle's chains holds just the filed links with it as that end, each once. Chains and records tell what the lists are.
pub fn chains_are_filters()
    ensures filters { EndsAreFilters }
    ensures one { ListsAreOne }
{}
