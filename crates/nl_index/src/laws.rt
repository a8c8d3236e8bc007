//! What chains hold. These functions do nothing: the contract of each is a law.
ghost use Rattle.nl_index.specs.Laws.{BirthsAreInOrder, ChainsAreFilters, ListsAreOne};

/// Each chain holds just the filed agents that belong in it, each once: turtles among the turtles, on their patch and of their breed, and
/// links among the links. All turtles, and all links, are in order of serial. Chains and records tell what the lists are.
pub fn chains_are_filters()
    ensures filters { ChainsAreFilters }
    ensures order { BirthsAreInOrder }
    ensures one { ListsAreOne }
{}
