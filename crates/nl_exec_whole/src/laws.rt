//! Laws of texts that are read. The functions do nothing: their contracts are the laws.
ghost use Rattle.nl_exec_whole.specs.Looks.{NodesAreWhole};
ghost use Rattle.nl_exec_whole.specs.Parts.{NodesHaveTheirParts};
ghost use Rattle.nl_exec_whole.specs.Scopes.{NamesAreKnown};
ghost use Rattle.nl_exec_whole.specs.Settings.{TextsSetWhatTheyMay};
ghost use Rattle.nl_exec_whole.specs.Texts.{LoneTextsHaveAll, ProgramsHaveAll};

/// Each node of a text has the parts that its label or its word's row asks for, each of the right kind.
pub fn nodes_have_their_parts()
    ensures { NodesHaveTheirParts }
{}

/// Each name of a text has a row, or is an input, or was made before it by `let` in its block or in a block around it, or stands in the head of an
/// arrow block around it.
pub fn names_are_known()
    ensures { NamesAreKnown }
{}

/// Each node of a text is a construct, and has the parts, the procedure, the slot or the variable that the construct looks for.
pub fn nodes_are_whole()
    ensures { NodesAreWhole }
{}

/// What a right text sets by `set` isn't fixed, and what it spreads by `diffuse` and its kin is kept under a slot.
pub fn texts_set_what_they_may()
    ensures { TextsSetWhatTheyMay }
{}

/// The bodies of a checked program, and the lone texts that the observer may run beside it, have whatever their meaning looks for.
pub fn checked_texts_have_all()
    ensures programs { ProgramsHaveAll }
    ensures texts { LoneTextsHaveAll }
{}
