//! What the definition of literals means. This function does nothing: its contract is a law.
ghost use Rattle.nl_experiment_keys.specs.Laws.{LiteralsAreThose};

/// Tokens are read as a value exactly where they are a literal of this value: a constant, or brackets with literals between them.
pub fn literals_are_constants_and_lists()
    ensures { LiteralsAreThose }
{}
