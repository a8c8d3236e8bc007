//! What the definition of lone texts means. This function does nothing: its contract is a law.
ghost use Rattle.nl_check_model.specs.LoneLaws.{InnersAreUnique, TextsHaveTreesOrFaults, TreesAreUnique, TreesHaveNoFaults};

/// A lone text has a tree or a first fault, and not both, and has one at most. So it says one thing exactly.
pub fn lone_texts_say_one_thing()
    ensures either { TextsHaveTreesOrFaults }
    ensures apart { TreesHaveNoFaults }
    ensures trees { TreesAreUnique }
    ensures faults { InnersAreUnique }
{}
