//! What the grammar means. These functions do nothing: the contract of each is a law.
ghost use Rattle.nl_parse_grammar.specs.Laws.{BeginningsAreTaken, CompletionsAreLeast, FaultsAreTold, FaultsAreUnique, GoodHasNoFault, ModelsHaveWords, TextsAreGoodOrFaulty, TextsAreTaken, TreesAreUnique};

/// Tokens have one tree at most, whatever the table of words is and whatever names are known.
pub fn trees_are_unique()
    ensures { TreesAreUnique }
{}

/// Tokens that begin a text become a text when each thing that they leave open gets what it misses, in its least form, and no text that
/// they begin has a tree of less depth. The table has the few words of which completions are made, as that of every model has.
pub fn completions_are_least()
    ensures least { CompletionsAreLeast }
    ensures words { ModelsHaveWords }
{}

/// The machine that the reader is goes over exactly the tokens of texts and what begins them, and ends with the trees; of what begins a
/// good text it knows that the least depth is allowed.
pub fn texts_are_taken()
    ensures whole { TextsAreTaken }
    ensures begun { BeginningsAreTaken }
{}

/// The first fault of tokens, and its kind, are those of the first token that the machine doesn't go over, or over which it goes to a state
/// that allows no good text.
pub fn faults_are_told()
    ensures { FaultsAreTold }
{}

/// Tokens and what ends them are a good text or have a first fault, and not both; and a first fault is one place and one kind.
pub fn texts_are_good_or_faulty()
    ensures either { TextsAreGoodOrFaulty }
    ensures apart { GoodHasNoFault }
    ensures unique { FaultsAreUnique }
{}
