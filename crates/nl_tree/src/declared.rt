//! The names that a model declares, and what its words are.
ghost use Rattle.std.specs.Prelude.{◌≡◌, [], ◌∷◌, ◌++◌, OnOk, OnErr};
ghost use Rattle.std.specs.List.Sorted.{IsPermutation, IsSortedBy};

use crate::index::NamedWords;
use nl_fixed::{Names, NoMemory, Str};
use nl_words::Kinds;
use std::alloc::Global;
use std::marker::Model;

/// A breed of turtles or of links.
#[derive(Drop)]
pub struct Breed {
    pub plural: Str,
    pub singular: Str,
    /// Whether it is a breed of links.
    pub link: bool,
    /// Whether its links have a direction; false for a breed of turtles.
    pub directed: bool,
    /// The variables that its agents own beside those of all turtles or links.
    pub own: Names,
}

/// A procedure. Its body is the tokens of the model from the place `first` up to, and without, the place `after`.
#[derive(Drop)]
pub struct Procedure {
    pub name: Str,
    /// Whether it reports a value.
    pub reporter: bool,
    pub inputs: Names,
    pub first: usize,
    pub after: usize,
}

/// All that a model declares, and the names of its widgets. Names are in lower case.
#[derive(Drop)]
pub struct Declared {
    pub widgets: Names,
    pub globals: Names,
    pub turtles_own: Names,
    pub patches_own: Names,
    pub links_own: Names,
    pub breeds: Breeds,
    pub procedures: Procedures,
    /// The rows of all words that the widgets and declarations make, by which a word is found without a walk.
    pub index: NamedWords,
}

/// What a text is.
#[derive(Clone, Copy, Debug, PartialEq, Eq)]
pub enum Form {
    /// Statements.
    Commands,
    /// One expression.
    Reporter,
}

/// What a word of a model is.
#[derive(Clone, Copy, Debug, PartialEq, Eq)]
pub enum What {
    /// A built-in word, by its code.
    Base(u16),
    /// A global variable, by its place among the widgets and then the further globals.
    Global(u32),
    /// A variable that agents own, by its place among all such names: those of turtles, patches, links and then of each breed, each name
    /// once.
    Own(u32),
    /// A word of a breed: the breed's number, which is 1 for the first, and the code of the word without a breed.
    Made(u32, u16),
    /// A procedure, by its place.
    Procedure(u32),
}

/// A word of a model and what it is.
#[derive(Drop)]
pub struct NamedWhat {
    pub name: Str,
    pub what: What,
}

/// Breeds, in the order of the text.
#[derive(Drop)]
pub struct Breeds {
    list: Vec<Breed>,
}

impl Model for Breeds {
    ghost use Rattle.std.specs.Prelude.{List};
    ghost use Rattle.nl_tree.specs.declared.declared.Breed.{Breed};

    ghost Value = { List Breed };

    ghost view = { λ breeds. breeds.list.items };
}

impl Breeds {
    /// No breeds.
    pub fn empty(alloc: Global) -> Breeds
        ensures { result ≡ [] }
    {
        Breeds {
            list: Vec::new(alloc),
        }
    }

    /// These breeds.
    pub fn of_vec(list: Vec<Breed>) -> Breeds
        ensures { result ≡ list.items }
    {
        Breeds { list }
    }

    /// The breeds, in order.
    pub fn as_slice(&self) -> &[Breed]
        ensures { result.now ≡ self.now }
    {
        self.list.as_slice()
    }

    /// Appends a breed, or leaves the list as it was.
    pub fn push(&mut self, _alloc: Global, breed: Breed) -> Result<(), NoMemory>
        ensures ok { OnOk result (self.new ≡ self.old ++ breed ∷ []) }
        ensures err { OnErr result (self.new ≡ self.old) }
    {
        self.list.push(breed)?;
        Ok(())
    }
}

/// Procedures, in the order of the text.
#[derive(Drop)]
pub struct Procedures {
    list: Vec<Procedure>,
}

impl Model for Procedures {
    ghost use Rattle.std.specs.Prelude.{List};
    ghost use Rattle.nl_tree.specs.declared.declared.Procedure.{Procedure};

    ghost Value = { List Procedure };

    ghost view = { λ procedures. procedures.list.items };
}

impl Procedures {
    /// No procedures.
    pub fn empty(alloc: Global) -> Procedures
        ensures { result ≡ [] }
    {
        Procedures {
            list: Vec::new(alloc),
        }
    }

    /// The procedures, in order.
    pub fn as_slice(&self) -> &[Procedure]
        ensures { result.now ≡ self.now }
    {
        self.list.as_slice()
    }

    /// Appends a procedure, or leaves the list as it was.
    pub fn push(&mut self, _alloc: Global, procedure: Procedure) -> Result<(), NoMemory>
        ensures ok { OnOk result (self.new ≡ self.old ++ procedure ∷ []) }
        ensures err { OnErr result (self.new ≡ self.old) }
    {
        self.list.push(procedure)?;
        Ok(())
    }
}

/// Words of a model and what they are, in order.
#[derive(Drop)]
pub struct NamedWhats {
    list: Vec<NamedWhat>,
}

impl Model for NamedWhats {
    ghost use Rattle.std.specs.Prelude.{List};
    ghost use Rattle.nl_tree.specs.declared.declared.NamedWhat.{NamedWhat};

    ghost Value = { List NamedWhat };

    ghost view = { λ rows. rows.list.items };
}

impl NamedWhats {
    ghost use Rattle.std.specs.Prelude.{◌≡◌, [], ◌∷◌, ◌++◌, OnOk, OnErr};
    ghost use Rattle.std.specs.List.Sorted.{IsPermutation, IsSortedBy};
    ghost use Rattle.nl_tree.specs.Checked.{comes_before};

    /// No words.
    pub fn empty(alloc: Global) -> NamedWhats
        ensures { result ≡ [] }
    {
        NamedWhats {
            list: Vec::new(alloc),
        }
    }

    /// The same words in the order of their names.
    pub(crate) fn sorted(self) -> Vec<NamedWhat>
        ensures moved { IsPermutation self result.items }
        ensures sorted { IsSortedBy comes_before result.items }
    {
        let mut rows = self.list;
        rows.sort_unstable_by(|a, b| a.name.as_bytes().cmp(b.name.as_bytes()));
        rows
    }

    /// The words, in order.
    pub fn as_slice(&self) -> &[NamedWhat]
        ensures { result.now ≡ self.now }
    {
        self.list.as_slice()
    }

    /// Appends a word, or leaves the list as it was.
    pub fn push(&mut self, _alloc: Global, row: NamedWhat) -> Result<(), NoMemory>
        ensures ok { OnOk result (self.new ≡ self.old ++ row ∷ []) }
        ensures err { OnErr result (self.new ≡ self.old) }
    {
        self.list.push(row)?;
        Ok(())
    }
}

/// Kinds of agents, one entry a procedure.
#[derive(Drop)]
pub struct KindsList {
    list: Vec<Kinds>,
}

impl Model for KindsList {
    ghost use Rattle.std.specs.Prelude.{List};
    ghost use Rattle.nl_words.specs.declared.entry.Kinds.{Kinds};

    ghost Value = { List Kinds };

    ghost view = { λ kinds. kinds.list.items };
}

impl KindsList {
    /// No entries.
    pub fn empty(alloc: Global) -> KindsList
        ensures { result ≡ [] }
    {
        KindsList {
            list: Vec::new(alloc),
        }
    }

    /// The entries, in order.
    pub fn as_slice(&self) -> &[Kinds]
        ensures { result.now ≡ self.now }
    {
        self.list.as_slice()
    }

    /// Appends an entry, or leaves the list as it was.
    pub fn push(&mut self, _alloc: Global, kinds: Kinds) -> Result<(), NoMemory>
        ensures ok { OnOk result (self.new ≡ self.old ++ kinds ∷ []) }
        ensures err { OnErr result (self.new ≡ self.old) }
    {
        self.list.push(kinds)?;
        Ok(())
    }
}
