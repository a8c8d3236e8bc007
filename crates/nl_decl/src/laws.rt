//! What the definitions of what a model declares mean. The function does nothing: its contract is a law.
ghost use Rattle.nl_decl.specs.Laws.{BodiesLieInOrder};

/// The bodies of procedures lie in the text in order, without overlap, each closed by its `end`.
pub fn bodies_lie_in_order()
    ensures { BodiesLieInOrder }
{}
