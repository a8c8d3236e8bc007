//! What the order of runs means. These functions do nothing: the contract of each is a law.
ghost use Rattle.nl_experiment_sweep.specs.Laws.{ChoicesHaveOneCombination, CombinationsAreChoices, EachPlaceHasARun, EachRunHasAPlace, FirstIsSlowest, SeedsDiffer, SettingsAreTheCombinations};

/// Each run has one combination of values and one repetition, and each pair of these is that of one run. So every combination comes as often
/// as there are repetitions.
pub fn runs_go_through_all_combinations()
    ensures places { EachRunHasAPlace }
    ensures runs { EachPlaceHasARun }
{}

/// Each choice of one value for each variable is that of one combination, and each combination is that of a choice.
pub fn combinations_are_choices()
    ensures settings { SettingsAreTheCombinations }
    ensures choices { CombinationsAreChoices }
    ensures once { ChoicesHaveOneCombination }
{}

/// Where no seed is varied, any two runs of an experiment have different seeds.
pub fn runs_differ_in_seeds()
    ensures { SeedsDiffer }
{}

/// The first varied variable is the slowest.
pub fn the_first_variable_is_the_slowest()
    ensures { FirstIsSlowest }
{}
