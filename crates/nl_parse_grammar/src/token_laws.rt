//! What the plain tokens of a text are. The function does nothing: its contract is a law.
ghost use Rattle.nl_parse_grammar.specs.TokenLaws.{TokensArePlain};

/// Each token of a text is what a text can have: a word in lower case has a name's form, and the content of a text is
/// UTF-8.
pub fn tokens_are_plain()
    ensures { TokensArePlain }
{}
