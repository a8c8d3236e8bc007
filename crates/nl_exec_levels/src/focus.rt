//! Where a machine stands.

use nl_exec_meaning::Exit;
use nl_tree::Form;

/// What comes once a unit is spent.
#[derive(Clone, Copy, PartialEq, Eq, Debug)]
pub enum Wish {
    /// A node is evaluated.
    Node(u32),
    /// The topmost level goes on.
    Tick,
}

/// What a machine does next.
#[derive(Drop)]
pub enum Focus {
    /// It begins a lone text, at its node.
    Start(Form, u32),
    /// It evaluates a node.
    Enter(u32),
    /// It wants a unit first.
    Want(Wish),
    /// It hands an end to the topmost level.
    Give(Exit),
}

/// Where a machine stops without a unit.
#[derive(Drop)]
pub enum Stop {
    /// A unit is wanted.
    Wanted(Wish),
    /// The text has ended.
    End(Exit),
}
