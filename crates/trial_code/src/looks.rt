//! What code is asked, as plain data.

use nl_exec_meaning::{Built, Code, Control, Making, Op};

/// What a node is. Locals are told by their numbers.
#[derive(Clone, Copy, Debug, PartialEq, Eq)]
pub(crate) enum Kind {
    Number(i64),
    Words,
    Items,
    Inside,
    Statements,
    Local(u32),
    Global(u32),
    Owned { turtle: bool, slot: u32 },
    Control(Control),
    /// `create-turtles`, or that of a breed.
    Create { turtle: bool, breed: Option<u32> },
    Act { breed: Option<u32> },
    Procedure(u32),
    Other,
}

/// What code is asked, with the answer. Nodes are counted from a first one.
#[derive(Clone, Copy, Debug)]
pub(crate) enum Look {
    /// A way from a node down to a part of a part, and what stands there.
    Is(u32, &'static [u32], Kind),
    /// How many parts a node has.
    Count(u32, u32),
    /// The node of the body of a procedure.
    Body(u32, Option<u32>),
    /// The number of a procedure's input by its place.
    Input(u32, usize, Option<u32>),
    /// The text that a node is.
    Text(u32, &'static [u8]),
    /// A node stands behind another one in the text.
    Behind(u32, u32),
}

fn kind_of_word(turtle: bool, breed: Option<u32>, word: Built) -> Kind {
    match word {
        Built::Control(control) => Kind::Control(control),
        Built::Making(Making::Create { ordered: false }) => Kind::Create { turtle, breed },
        Built::Act(_) => Kind::Act { breed },
        _ => Kind::Other,
    }
}

fn kind_of(op: Op) -> Kind {
    match op {
        Op::Number(number) => Kind::Number(number.millionths()),
        Op::Words => Kind::Words,
        Op::Items => Kind::Items,
        Op::Inside => Kind::Inside,
        Op::Statements => Kind::Statements,
        Op::Local(id) => Kind::Local(id),
        Op::Global(slot) => Kind::Global(slot),
        Op::Owned { runs, slot } => Kind::Owned {
            turtle: runs.turtle,
            slot,
        },
        Op::Word { runs, breed, word } => kind_of_word(runs.turtle, breed, word),
        Op::Procedure(index) => Kind::Procedure(index),
        _ => Kind::Other,
    }
}

fn find(code: &Code, root: u32, way: &[u32]) -> Option<u32> {
    let mut node = root;
    for at in way {
        node = code.part(node, *at)?;
    }
    Some(node)
}

fn is_at(code: &Code, root: u32, way: &[u32], kind: Kind) -> bool {
    match find(code, root, way) {
        Some(node) => kind_of(code.op(node)) == kind,
        None => false,
    }
}

// Whether a node has so many parts, and none behind them.
fn has_parts(code: &Code, node: u32, count: u32) -> bool {
    code.count(node) == count && code.part(node, count).is_none()
}

fn is_text(code: &Code, node: u32, wanted: &[u8]) -> bool {
    match code.text(node) {
        Some(text) => text.as_bytes() == wanted,
        None => false,
    }
}

// Whether the code gives the answer, where nodes are counted from a first one.
fn answers(code: &Code, first: u32, look: Look) -> bool {
    match look {
        Look::Is(root, way, kind) => is_at(code, first.saturating_add(root), way, kind),
        Look::Count(node, count) => has_parts(code, first.saturating_add(node), count),
        Look::Body(procedure, node) => code.body(procedure) == node,
        Look::Input(procedure, at, id) => code.input(procedure, at) == id,
        Look::Text(node, wanted) => is_text(code, first.saturating_add(node), wanted),
        Look::Behind(node, other) => code.span(node).start > code.span(other).start,
    }
}

/// The first of these to which the code gives another answer, where nodes are counted from a first one.
pub(crate) fn wrong_in(code: &Code, first: u32, looks: &[Look]) -> Option<Look> {
    for look in looks {
        if !answers(code, first, *look) {
            return Some(*look);
        }
    }
    None
}
