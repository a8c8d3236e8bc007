//! What words read, and what ends statements.

/// What stands in an arrow block behind its head.
#[derive(Clone, Copy, Debug, Drop, PartialEq, Eq)]
pub enum Content {
    Commands,
    /// One expression.
    Reporter,
}

/// What a block holds.
#[derive(Clone, Copy, Debug, Drop, PartialEq, Eq)]
pub enum Block {
    Commands,
    /// One expression.
    Reporter,
    /// A head of at most so many names, which may be missing, and the content.
    Arrow(Content, u64),
}

/// What a word reads at one place.
#[derive(Clone, Copy, Debug, Drop, PartialEq, Eq)]
pub enum Need {
    /// A call with its inputs, or what is closed.
    Item,
    /// An expression with all its operators.
    Whole,
    Within(Block),
    /// A block of commands that may be missing.
    Maybe,
    /// The name of a variable.
    Variable,
}

/// What ends statements: the bracket of their block, or the end of the text.
#[derive(Clone, Copy, Debug, Drop, PartialEq, Eq)]
pub enum Ending {
    AtBracket,
    AtEnd,
}
