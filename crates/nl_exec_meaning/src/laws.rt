//! Laws of words and texts. The functions do nothing: their contracts are the laws.
ghost use Rattle.nl_exec_meaning.specs.Laws.{NoUnitsComeBack};
ghost use Rattle.nl_exec_meaning.specs.Families.{SecondSpellingsAreTheirFirst, WordsAreOfOneFamily, WordsOfBreedsGoByThem};

/// No word of the table is of two families, but `and` and `or`, which are words of values too.
pub fn words_are_of_one_family()
    ensures { WordsAreOfOneFamily }
{}

/// A second spelling has the row of the first but for its name, and is the same construct.
pub fn second_spellings_are_their_first()
    ensures { SecondSpellingsAreTheirFirst }
{}

/// Each word that a breed makes goes by that breed: it makes turtles or links of it, or asks after them.
pub fn words_of_breeds_go_by_them()
    ensures { WordsOfBreedsGoByThem }
{}

/// No evaluation of a node gives back more units than it was given.
pub fn no_units_come_back()
    ensures { NoUnitsComeBack }
{}
