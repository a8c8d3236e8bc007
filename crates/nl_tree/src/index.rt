//! The rows of a model's own words, kept for finding them.
ghost use Rattle.std.specs.Prelude.{◌≡◌, All, MatchOption, bytes_eq, false, map};
ghost use Rattle.std.specs.List.{Contains};
ghost use Rattle.std.specs.List.Sorted.{IsPermutation, IsSortedBy};
ghost use Rattle.nl_tree.specs.Index.{term_of, stands_before};

use crate::declared::What;
use nl_fixed::Str;
use nl_words::{Input, Kinds, Role, Turns};
use std::marker::Model;

/// The row of a word in the model's whole word table, without its name.
#[derive(Clone, Copy, Debug)]
pub struct Word {
    pub role: Role,
    /// What the word's place in the language asks for: of a built-in word the inputs of its row, of a breed's word those of the word without
    /// a breed, else none.
    pub inputs: &'static [Input],
    /// How many further inputs the word has, each of them a `Value`: the inputs of a procedure, else 0.
    pub values: u32,
    pub many: bool,
    pub turns: Turns,
    pub runs: Kinds,
    pub gives: Kinds,
    pub what: What,
}

/// A word of a model and its row.
#[derive(Drop)]
pub struct NamedWord {
    pub name: Str,
    pub word: Word,
}

/// Words of a model and their rows, in the order of the bytes of their names.
#[derive(Drop)]
pub struct NamedWords {
    list: Vec<NamedWord>,
}

impl Model for NamedWords {
    ghost use Rattle.std.specs.Prelude.{List};
    ghost use Rattle.std.specs.Coded.{coded_list};
    ghost use Rattle.nl_tree.specs.Term.{Term};
    ghost use Rattle.nl_tree.specs.inner.TermCode.{term_code};

    ghost Value = { List Term };

    ghost coded = { coded_list term_code };

    ghost use Rattle.std.specs.Prelude.{map};
    ghost use Rattle.std.specs.List.Sorted.{IsSortedBy};
    ghost use Rattle.nl_tree.specs.Index.{term_of, stands_before};

    ghost view = { λ words. map term_of words.list.items };

    ghost invariant = { λ words. IsSortedBy stands_before words.list.items };
}

impl NamedWords {
    /// These words, in the order of their names.
    pub fn new(words: Vec<NamedWord>) -> NamedWords
        ensures { IsPermutation (map term_of words.items) result }
    {
        NamedWords {
            list: sorted(words),
        }
    }

    /// The words, in the order of their names.
    pub fn as_slice(&self) -> &[NamedWord]
        ensures { map term_of result.now ≡ self.now }
    {
        self.list.as_slice()
    }

    /// The word of this name, in lower case. The search is one of halves.
    pub fn find(&self, name: &[u8]) -> Option<&NamedWord>
        ensures { MatchOption result
            (All (λ row. bytes_eq row.name name.now ≡ false) self.now)
            (λ row. (row.now.name ≡ name.now) × Contains self.now (term_of row.now)) }
    {
        find_word(self.list.as_slice(), name)
    }
}

// The words in the order of their names.
fn sorted(words: Vec<NamedWord>) -> Vec<NamedWord>
    ensures moved { IsPermutation words.items result.items }
    ensures sorted { IsSortedBy stands_before result.items }
{
    let mut list = words;
    list.sort_unstable_by(|a, b| a.name.as_bytes().cmp(b.name.as_bytes()));
    list
}

// The word of this name among words in the order of their names.
fn find_word<'a>(words: &'a [NamedWord], name: &[u8]) -> Option<&'a NamedWord>
    requires { IsSortedBy stands_before words.now }
    ensures { MatchOption result
        (All (λ row. bytes_eq row.name name.now ≡ false) words.now)
        (λ row. (row.now.name ≡ name.now) × Contains words.now row.now) }
{
    match words.binary_search_by(|row| row.name.as_bytes().cmp(name)) {
        Ok(at) => Some(&words[at]),
        Err(_) => None,
    }
}
