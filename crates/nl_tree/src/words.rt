//! The row of a word in the whole word table of a model.
ghost use Rattle.std.specs.Prelude.{◌≡◌};
ghost use Rattle.std.specs.Option.{option_map};
ghost use Rattle.nl_words.specs.Row.{row_of};
ghost use Rattle.nl_tree.specs.Index.{named};
ghost use Rattle.nl_tree.specs.Names.{IsDeclared};
ghost use Rattle.nl_tree.specs.Vocabulary.{base_term, own_terms, terms, term_named};

use crate::declared::{Declared, What};
use crate::index::Word;
use nl_words::{Entry, base_words};

/// The row of the word of this name, in lower case: a built-in word, or one that the model's widgets or declarations make.
///
/// A built-in word has the inputs of its row, and a breed's word those of the word without a breed. A procedure has no `inputs`, and
/// `values` is how many it has, each of them a value. A variable has neither. The search is one of halves.
pub fn word(declared: &Declared, name: &[u8]) -> Option<Word>
    requires { IsDeclared declared.now }
    ensures { option_map (named name.now) result ≡ term_named (terms declared.now) name.now }
{
    let words = base_words();
    match words.find(name) {
        Some(entry) => Some(base_word(entry)),
        None => own_word(declared, name),
    }
}

fn base_word(entry: &Entry) -> Word
    ensures { named entry.now.name.now result ≡ base_term (row_of entry.now) }
{
    Word {
        role: entry.role,
        inputs: entry.inputs,
        values: 0,
        many: entry.many,
        turns: entry.turns,
        runs: entry.runs,
        gives: entry.gives,
        what: What::Base(entry.code),
    }
}

// The row of a word that the model makes.
fn own_word(declared: &Declared, name: &[u8]) -> Option<Word>
    requires { IsDeclared declared.now }
    ensures { option_map (named name.now) result ≡ term_named (own_terms declared.now) name.now }
{
    match declared.index.find(name) {
        Some(row) => Some(row.word),
        None => None,
    }
}
