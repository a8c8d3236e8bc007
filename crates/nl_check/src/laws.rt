//! What the definitions of faults of context mean. These functions do nothing: the contract of each is a law.
ghost use Rattle.nl_check.specs.Laws.{BodiesAreRightOrFaulty, FaultsAreUnique, LoneFaultsAreUnique, RightBodiesHaveNoFault, RightTextsHaveNoFault, TextsAreRightOrFaulty};

/// The bodies of a model have one first fault at most: one body, one kind of fault and one place. So has a lone text.
pub fn faults_are_unique()
    ensures model { FaultsAreUnique }
    ensures lone { LoneFaultsAreUnique }
{}

/// The bodies of a model that are right have no first fault, and neither has a lone text that is right.
pub fn right_has_no_fault()
    ensures model { RightBodiesHaveNoFault }
    ensures lone { RightTextsHaveNoFault }
{}

/// The bodies of a model, one a procedure, are right or have a first fault. So is a lone text beside them.
pub fn bodies_are_right_or_faulty()
    ensures model { BodiesAreRightOrFaulty }
    ensures lone { TextsAreRightOrFaulty }
{}
