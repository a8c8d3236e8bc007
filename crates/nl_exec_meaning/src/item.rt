//! Resolved nodes.

use crate::words::{Apart, Built};
use nl_fixed::{Num, Span};
use nl_words::Kinds;

/// What a node is, once its name was looked up.
#[derive(Clone, Copy)]
pub enum Op {
    /// A number, also that of a color.
    Number(Num),
    /// A text as it is written: `Code::text` has it.
    Words,
    /// A literal list of the parts.
    Items,
    /// The negative of the part.
    Negation,
    /// What stands in parentheses, or in a block of one expression.
    Inside,
    /// A block of commands, or a whole body.
    Statements,
    /// A local variable, by the number of its name.
    Local(u32),
    /// A global variable, by its slot.
    Global(u32),
    /// A variable of agents, by its slot, and the kinds that may run it.
    Owned {
        runs: Kinds,
        slot: u32,
    },
    /// A variable of agents that has no slot, and the kinds that may run it.
    Aside {
        runs: Kinds,
        which: Apart,
    },
    /// A call of the procedure at a place.
    Procedure(u32),
    /// A built-in word, or that of the breed with this number.
    Word {
        runs: Kinds,
        breed: Option<u32>,
        word: Built,
    },
    /// No word of a text.
    Nothing,
}

/// A node: what it is, where it stands in its text, and the places of its parts, which stand side by side.
#[derive(Clone, Copy)]
pub struct Item {
    pub op: Op,
    pub span: Span,
    pub first: u32,
    pub count: u32,
}
