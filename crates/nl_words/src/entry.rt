//! What the table says of one word.

/// What a word is in a text.
#[derive(Clone, Copy, Debug, PartialEq, Eq)]
pub enum Role {
    /// Begins a statement.
    Command,
    /// Stands before its inputs, and has a value.
    Reporter,
    /// Stands between its inputs, and has a value. The level, from 1 to 9, says how tightly it binds: 1 the tightest. Level 3 is that of
    /// reporters before their inputs, and no operator has it. The levels are this project's own choice.
    Operator(u8),
    /// A value that may stand in a literal list: a truth, `nobody` or a color.
    Constant,
    /// A variable that agents of some kind have from the start.
    Variable,
    /// Part of a declaration. It may stand nowhere in a body.
    Reserved,
}

/// What a word reads at one place. The inputs of an operator are those of both its sides, in the order of the text, so `of` has its block
/// first and each other operator its left side.
#[derive(Clone, Copy, Debug, PartialEq, Eq)]
pub enum Input {
    /// A value. The role says how much is read for it: a whole expression after a command, an item after a reporter, and what the level
    /// of an operator asks for on its sides.
    Value,
    /// A whole expression, after a reporter too.
    Expression,
    /// A block of commands.
    Commands,
    /// A block of commands that may be missing.
    MaybeCommands,
    /// A block of one expression.
    Reporter,
    /// The name of a variable.
    Variable,
    /// A name that nothing has yet.
    Fresh,
    /// A block of commands that is run once a turn, and may name the values of the turn.
    ArrowCommands,
    /// A block of one expression that is evaluated once a turn, and may name the values of the turn.
    ArrowReporter,
    /// Conditions, each with its block, and at most one block behind them. They are read in parentheses alone, in place of all inputs.
    Cases,
}

/// Kinds of agents.
#[derive(Clone, Copy, Debug, PartialEq, Eq)]
pub struct Kinds {
    pub observer: bool,
    pub turtle: bool,
    pub patch: bool,
    pub link: bool,
}

/// Who runs the blocks of a word.
#[derive(Clone, Copy, Debug, PartialEq, Eq)]
pub enum Runner {
    /// The word has no block.
    NoBlock,
    /// The agent that runs the word.
    Same,
    /// The turtles that the word makes.
    Turtles,
    /// The links that the word makes.
    Links,
    /// The agents that the word is given: those of its input of agents, which is the left side of an operator of level 1, and else the last
    /// `Value`.
    Given,
}

/// How many values a turn of a word has, which its arrow block may name.
#[derive(Clone, Copy, Debug, PartialEq, Eq)]
pub enum Turns {
    /// The word has no arrow block.
    NoTurn,
    OneValue,
    TwoValues,
    /// An item of each list that the word is given.
    ValueOfEachList,
}

/// How a word stands at its place in a text.
#[derive(Clone, Copy, Debug, PartialEq, Eq)]
pub enum Manner {
    /// The agent that runs the text runs the word.
    Run,
    /// The word is a variable, which the agent that runs the text sets.
    Set,
    /// The word is a variable, which is read or written on patches, whoever runs the text.
    Spread,
}

/// Whether the agent that runs a word leaves the procedure with it.
#[derive(Clone, Copy, Debug, PartialEq, Eq)]
pub enum Leaving {
    /// It goes on after the word.
    Stays,
    /// It leaves with a value.
    Reports,
    /// It leaves without a value.
    Stops,
}

/// The row of one word.
///
/// `name` is in lower case. `many` says that the word may be given more with parentheses round the whole: one or more lists where a turn has
/// a value of each list, else its cases where they are its last input, else more or fewer of its last input. `runs` has the kinds of
/// agents that may run the word; it has all kinds where the word belongs to no agent, as a constant or a reserved word.
///
/// `gives` says what agents the value may hold, which is known only of some words. Turtles, patches or links alone are told for a word
/// that gives such agents. All three are told for a word that gives agents of its own input of agents (the left side of an operator of
/// level 1, else its last `Value`), and so what that input may hold. None is told where nothing is known: for words of other values, for
/// variables, and for `self`, `myself` and `of`. No row gives the observer.
///
/// `blocks` says who runs the word's blocks, and `turns` how many values its arrow block is given. `manner` says how the variable stands there that the word names, as that of `set` does; it is
/// `Run` where the word names none. `fixed` is told of a variable that no text sets.
///
/// `code` is the place of the row in the table, from 0. A second spelling has a row and a code of its own.
#[derive(Clone, Copy, Debug)]
pub struct Entry {
    pub name: &'static str,
    pub role: Role,
    pub inputs: &'static [Input],
    pub many: bool,
    pub runs: Kinds,
    pub gives: Kinds,
    pub blocks: Runner,
    pub turns: Turns,
    pub manner: Manner,
    pub fixed: bool,
    pub leaving: Leaving,
    pub code: u16,
}
