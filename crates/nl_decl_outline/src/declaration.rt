//! What a model declares, declaration by declaration.
use nl_fixed::{Names, Str};

/// What a breed is of.
#[derive(Clone, Copy, Debug, PartialEq, Eq)]
pub enum Sort {
    Turtles,
    /// Links that have a direction.
    Directed,
    Undirected,
}

/// Who owns variables.
#[derive(Clone, Copy, Debug, PartialEq, Eq)]
pub enum Owner {
    AllTurtles,
    AllPatches,
    AllLinks,
    /// A breed, by its place among the breeds, from 0.
    BreedAt(usize),
}

/// A declaration, with its names in lower case.
#[derive(Drop)]
pub enum Declaration {
    Globals(Names),
    Own(Owner, Names),
    /// A breed: what it is of, its plural and its singular.
    Breed(Sort, Str, Str),
    /// A procedure: whether it reports, its name, its inputs where they stand in brackets, and how many tokens its body has.
    Procedure(bool, Str, Option<Names>, usize),
}
