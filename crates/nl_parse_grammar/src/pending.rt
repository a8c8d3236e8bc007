//! What is open while a text is read.
use nl_tree::Block;

/// What follows the inputs of a call.
#[derive(Clone, Copy, Debug, Drop, PartialEq, Eq)]
pub enum Last {
    Item,
    Block(Block),
    /// The inputs are those of a command.
    Nothing,
}

/// What a tree at hand may also be.
#[derive(Clone, Copy, Debug, Drop, PartialEq, Eq)]
pub enum Shape {
    /// An item of a literal list.
    Literal,
    /// A call that more items may follow in parentheses.
    Growing,
    Fixed,
}
