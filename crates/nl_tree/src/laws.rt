//! What the words of a text are. The function does nothing: its contract is a law.
ghost use Rattle.nl_tree.specs.Order.{UsesAreWords, UsesAscend};

/// The uses of words that a text's tree has are the words of its tokens, in order, but for names that `let` makes and the minus sign of a
/// negation.
pub fn uses_are_words()
    ensures words { UsesAreWords }
    ensures ascend { UsesAscend }
{}
