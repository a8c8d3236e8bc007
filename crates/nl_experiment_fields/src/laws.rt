//! What the definitions of an experiment's file mean. These functions do nothing: their contracts are laws.
ghost use Rattle.nl_experiment_fields.specs.Laws.{FaultsAreOfTheFile, FaultsGoByKeys, NamesAreApart, StepsReachTheEnd, TheFirstFaultIsTold};

/// Of the numbers from one to another by a step the last one doesn't pass the end, and a further one would.
pub fn steps_reach_the_end()
    ensures { StepsReachTheEnd }
{}

/// The names that a file sets are in lower case and differ, and so are those that it varies.
pub fn names_are_apart()
    ensures { NamesAreApart }
{}

/// A fault is one of the whole file, or stands at a key that the document has, or at one that it has to have and doesn't.
pub fn faults_are_of_the_file()
    ensures { FaultsAreOfTheFile }
{}

/// A document's fault is that of an unknown key or, behind it, the first one in the order of the known keys.
pub fn the_first_fault_is_told()
    ensures keys { FaultsGoByKeys }
    ensures first { TheFirstFaultIsTold }
{}
