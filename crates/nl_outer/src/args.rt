//! The words of a command.
ghost use Rattle.std.specs.Prelude.{◌≡◌, ◌++◌, ◌∷◌, [], length, OnOk, OnErr, slice_get};
ghost use Rattle.std.specs.Option.{option_map};

use nl_fixed::NoMemory;
use std::alloc::Global;
use std::marker::Model;

/// A list of words, in order. Each is UTF-8.
#[derive(Drop)]
pub struct Args {
    words: Vec<String>,
}

impl Model for Args {
    ghost use Rattle.nl_outer.specs.Nouns.{Words};
    ghost use Rattle.std.specs.Prelude.{map, string_bytes};

    ghost Value = { Words };

    ghost view = { λ args. map string_bytes args.words.items };
}

impl Args {
    /// No words.
    pub fn new(alloc: Global) -> Args
        ensures { result ≡ [] }
    {
        Args {
            words: Vec::new(alloc),
        }
    }

    /// Appends a word, or leaves the list as it was.
    pub fn push(&mut self, alloc: Global, word: &str) -> Result<(), NoMemory>
        ensures ok { OnOk result (self.new ≡ self.old ++ word.now ∷ []) }
        ensures err { OnErr result (self.new ≡ self.old) }
    {
        let copy = String::from_str(alloc, word)?;
        self.words.push(copy)?;
        Ok(())
    }

    /// How many words there are.
    pub fn len(&self) -> usize
        ensures { result ≡ length self.now }
    {
        self.words.len()
    }

    /// The word of an index, counted from 0.
    pub fn word(&self, index: usize) -> Option<&str>
        ensures { option_map (λ word. word.now) result ≡ slice_get self.now index }
    {
        match self.words.get(index) {
            Some(word) => Some(word.as_str()),
            None => None,
        }
    }
}
