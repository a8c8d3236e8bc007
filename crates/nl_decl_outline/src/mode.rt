//! What comes next in a text, while its declarations are read.

use crate::declaration::{Owner, Sort};
use nl_fixed::{Names, Str};

/// What names in brackets are for.
#[derive(Drop)]
pub enum Subject {
    Globals,
    Own(Owner),
    Breed(Sort),
    /// The inputs of a procedure: whether it reports, and its name.
    Inputs(bool, Str),
}

/// What comes next in a list of declarations.
#[derive(Drop)]
pub enum Mode {
    /// A declaration.
    Between,
    /// An opening bracket.
    Awaiting(Subject),
    /// A name, or the closing bracket, behind these names.
    Listing(Subject, Names),
    /// The name of a procedure.
    Titling(bool),
    /// The inputs of a procedure, or its body.
    Heading(bool, Str),
    /// A token of a body, behind so many of them, or the word that ends it.
    Inside(bool, Str, Option<Names>, usize),
}
