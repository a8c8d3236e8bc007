//! What the definitions of tokens and faults mean. These functions do nothing: the contract of each is a law.
ghost use Rattle.nl_scan.specs.Cuts.{FaultOrTokens, FaultsAreComputed, FaultsAreUnique, StretchesJoin, TextsAreCutOnce, TokensAreComputed, TokensAreMeant};
ghost use Rattle.nl_scan.specs.Written.{QuotedIsFirst, QuotedIsOneToken, QuotedSays, TokensLieIn, WrittenSays};

/// A text is cut into gaps and tokens in one way at most, and joined they are the text.
pub fn texts_are_cut_once()
    ensures once { TextsAreCutOnce }
    ensures joined { StretchesJoin }
{}

/// A text has one fault at most, and has one exactly where it has no tokens.
pub fn texts_have_tokens_or_a_fault()
    ensures unique { FaultsAreUnique }
    ensures either { FaultOrTokens }
{}

/// What is computed of a text are its tokens or its fault.
pub fn tokens_are_computed()
    ensures tokens { TokensAreComputed }
    ensures faults { FaultsAreComputed }
{}

/// Each token that is computed of a text is what its bytes say: a word has a word's form and not a number's, a number
/// reads as its value, and a text has quotes around it and only escapes that are known.
pub fn tokens_are_what_they_say()
    ensures { TokensAreMeant }
{}

/// Each token of a text lies in it.
pub fn tokens_lie_in_their_text()
    ensures { TokensLieIn }
{}

/// What is written with the four escapes says what it was written from: with its escapes resolved, and as a token.
pub fn written_texts_say_what_they_were_written_from()
    ensures written { WrittenSays }
    ensures quoted { QuotedSays }
{}

/// Any bytes, written between quotes, are the first token of each text that begins with them; and they are its only one
/// where nothing is behind them and the whole is UTF-8 and not too long.
pub fn written_texts_are_one_token()
    ensures first { QuotedIsFirst }
    ensures alone { QuotedIsOneToken }
{}
