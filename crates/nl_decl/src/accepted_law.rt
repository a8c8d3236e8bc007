//! What the definition of names that are declared twice means. The functions do nothing: their contracts are laws.
ghost use Rattle.nl_decl.specs.Accepted.{AcceptedWhereNoneIsTwice, NoneIsTwiceWhereAccepted};

/// Declarations in which no name is declared twice are accepted: what they declare in all passes each test of a model's names.
pub fn declarations_are_accepted()
    ensures { AcceptedWhereNoneIsTwice }
{}

/// A name is declared twice only in declarations that are not accepted: where what they declare in all passes the test of a model's names
/// for duplicates, there is none.
pub fn accepted_are_declared_once()
    ensures { NoneIsTwiceWhereAccepted }
{}
