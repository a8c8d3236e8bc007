//! What the definitions of declarations mean. These functions do nothing: the contract of each is a law.
ghost use Rattle.nl_decl_outline.specs.Laws.{BadPlacesAreUnique, BeginningsAreTaken, DeclarationsAreTaken, DeclarationsAreUnique, DeclarationsHaveLengths, DeclarationsOrBadPlace, NamesAreNames};

/// Tokens are one list of declarations at most, and are one exactly where they are taken whole, token by token; they
/// begin one exactly where they are taken.
pub fn declarations_are_taken()
    ensures unique { DeclarationsAreUnique }
    ensures taken { DeclarationsAreTaken }
    ensures beginnings { BeginningsAreTaken }
{}

/// Tokens have one bad index at most, and have one exactly where they are no declarations.
pub fn tokens_are_declarations_or_bad()
    ensures unique { BadPlacesAreUnique }
    ensures either { DeclarationsOrBadPlace }
{}

/// Each name that is declared is a word of the text, and so has a name's form.
pub fn names_are_names()
    ensures { NamesAreNames }
{}

/// Declarations have as many tokens as they are read from.
pub fn declarations_have_lengths()
    ensures { DeclarationsHaveLengths }
{}
