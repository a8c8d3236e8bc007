//! What the definition of verdicts means. This function does nothing: its contract is a law.
ghost use Rattle.nl_check_model.specs.Laws.{AcceptedHasNoFault, CodeFaultsAreUnique, CodeIsAcceptedOrFaulty, FilesHaveVerdicts, FirstBytesSayAll, ProgramsAreUnique, ProgramsHaveTheirBodies, ProgramsHaveTheirWidgets, VerdictsAreUnique};

/// Code that has tokens is a program or has a first fault, and not both, and has one at most. So a model's file says one thing exactly, whatever
/// the widgets are: the checked programs that it is are the same but for the order of their words, and have these widgets and a
/// body for each procedure. Of a file that is too long the first bytes say what all of it says.
pub fn models_say_one_thing()
    ensures either { CodeIsAcceptedOrFaulty }
    ensures unique { CodeFaultsAreUnique }
    ensures apart { AcceptedHasNoFault }
    ensures said { FilesHaveVerdicts }
    ensures verdicts { VerdictsAreUnique }
    ensures programs { ProgramsAreUnique }
    ensures widgets { ProgramsHaveTheirWidgets }
    ensures bodies { ProgramsHaveTheirBodies }
    ensures first { FirstBytesSayAll }
{}
