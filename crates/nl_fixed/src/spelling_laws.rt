//! What the definitions of the spelling of numbers mean. These functions do nothing: the contract of each is a law.
ghost use Rattle.nl_fixed.specs.SpellingLaws.{PartsFollowTheForm, FormIsComputed, PartsAreUnique, WordsReadAsRounded, OthersReadAsNothing, TextsReadBack, TextsDiffer};

/// A word that has the form of a number has it in one way, and its parts are computed from it.
pub fn words_have_one_reading()
    ensures computed { PartsFollowTheForm }
    ensures form { FormIsComputed }
    ensures unique { PartsAreUnique }
{}

/// A word is read by its form: as its digits and its exponent say, rounded once, and else not at all.
pub fn words_read_by_their_form()
    ensures rounded { WordsReadAsRounded }
    ensures others { OthersReadAsNothing }
{}

/// The text of each number reads back as that number, so that numbers that differ have texts that differ.
pub fn texts_read_back()
    ensures same { TextsReadBack }
    ensures apart { TextsDiffer }
{}
