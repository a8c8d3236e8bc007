//! Lists of texts.
ghost use Rattle.std.specs.Prelude.{◌≡◌, [], ◌∷◌, ◌++◌, OnOk, OnErr};

use crate::memory::NoMemory;
use crate::text::Str;
use std::alloc::Global;
use std::marker::Model;

/// Texts, in order.
#[derive(Drop)]
pub struct Texts {
    list: Vec<Str>,
}

/// Names, in order.
pub type Names = Texts;

/// The cells of one line of a table, in order.
pub type Cells = Texts;

impl Model for Texts {
    ghost use Rattle.nl_fixed.specs.Nouns.{Texts as TextList};

    ghost Value = { TextList };

    ghost view = { λ texts. texts.list.items };
}

impl Texts {
    /// No texts.
    pub fn empty(alloc: Global) -> Texts
        ensures { result ≡ [] }
    {
        Texts {
            list: Vec::new(alloc),
        }
    }

    /// The texts, in order.
    pub fn as_slice(&self) -> &[Str]
        ensures { result.now ≡ self.now }
    {
        self.list.as_slice()
    }

    /// Appends a text, or leaves the list as it was.
    pub fn push(&mut self, _alloc: Global, text: Str) -> Result<(), NoMemory>
        ensures ok { OnOk result (self.new ≡ self.old ++ text ∷ []) }
        ensures err { OnErr result (self.new ≡ self.old) }
    {
        self.list.push(text)?;
        Ok(())
    }
}
