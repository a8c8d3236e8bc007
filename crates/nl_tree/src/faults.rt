//! What is wrong with a text.
use std::fmt;

/// Why the tokens of a text have no tree that is allowed.
#[derive(Clone, Copy, Debug, PartialEq, Eq)]
pub enum BodyKind {
    /// A word that has no row and is no known local or input.
    UnknownName,
    /// A token that can't follow those before it.
    Unexpected,
    /// The tokens can still be read, but only as a tree of more than 200 levels.
    TooDeep,
}

/// What is wrong with a word in its place. At one word the first of these counts.
#[derive(Clone, Copy, Debug, PartialEq, Eq)]
pub enum CheckKind {
    /// No kind of agents is left that may run the word there.
    WrongContext,
    /// The name stands where a variable is set, or read and written on patches, and can't be.
    NotSettable,
    /// A `report` outside of a reporter procedure or in a block that other agents run, or a `stop` in a reporter procedure and in no such
    /// block.
    NoReport,
}

impl fmt::Display for BodyKind {
    ghost use Rattle.nl_tree.specs.FaultText.{body_kind_text};
    ghost use Rattle.std.specs.Prelude.{Some};

    ghost output = { λ kind. Some (body_kind_text kind) };

    fn fmt<W: fmt::Write>(&self, f: &mut fmt::Formatter<W>) -> fmt::Result {
        match self {
            BodyKind::UnknownName => write!(f, "UnknownName"),
            BodyKind::Unexpected => write!(f, "Unexpected"),
            BodyKind::TooDeep => write!(f, "TooDeep"),
        }
    }
}

impl fmt::Display for CheckKind {
    ghost use Rattle.nl_tree.specs.FaultText.{check_kind_text};
    ghost use Rattle.std.specs.Prelude.{Some};

    ghost output = { λ kind. Some (check_kind_text kind) };

    fn fmt<W: fmt::Write>(&self, f: &mut fmt::Formatter<W>) -> fmt::Result {
        match self {
            CheckKind::WrongContext => write!(f, "WrongContext"),
            CheckKind::NotSettable => write!(f, "NotSettable"),
            CheckKind::NoReport => write!(f, "NoReport"),
        }
    }
}
