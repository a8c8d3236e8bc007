//! What the definitions of experiments mean. These functions do nothing: the contract of each is a law.
ghost use Rattle.nl_experiment.specs.Laws.{FaultsAreUnique, NamesAreWidgets, TextsHaveTreesOrFaults, TreesHaveNoFaults};

/// Beside a program the texts of an experiment have trees or a first fault, and not both, and one first fault at most.
pub fn experiments_say_one_thing()
    ensures texts { TextsHaveTreesOrFaults }
    ensures trees { TreesHaveNoFaults }
    ensures faults { FaultsAreUnique }
{}

/// No name that an experiment sets or varies is dropped: it is a widget's, or one of the run itself.
pub fn names_are_widgets()
    ensures { NamesAreWidgets }
{}
