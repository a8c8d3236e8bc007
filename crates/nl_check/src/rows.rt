//! The whole word table of a model, as rows of a program.
ghost use Rattle.std.specs.Prelude.{◌≡◌, ◌++◌, IfOk, OnOk, map};
ghost use Rattle.nl_words.specs.Rows.{rows};
ghost use Rattle.nl_tree.specs.Names.{IsDeclared};
ghost use Rattle.nl_tree.specs.Checked.{AreRows};
ghost use Rattle.nl_tree.specs.Vocabulary.{named_what};
ghost use Rattle.nl_check.specs.inner.Tables.{base_whats};

use nl_fixed::{NoMemory, Str};
use nl_tree::{Declared, NamedWhat, NamedWhats, NamedWords, What};
use nl_words::{ROWS, base_words};
use std::alloc::Global;

/// Each row of the table once: the built-in words, and those that the model makes.
pub(crate) fn rows_of(alloc: Global, declared: &Declared) -> Result<NamedWhats, NoMemory>
    requires { IsDeclared declared.now }
    ensures { IfOk result (λ list. AreRows declared.now list) }
{
    let mut list = base_rows(alloc)?;
    put_rows(alloc, &declared.index, &mut list)?;
    Ok(list)
}

// The built-in words.
fn base_rows(alloc: Global) -> Result<NamedWhats, NoMemory>
    ensures { IfOk result (λ list. list ≡ base_whats rows) }
{
    let words = base_words();
    let mut list = NamedWhats::empty(alloc);
    for place in 0..ROWS {
        let Some(entry) = words.row(place as u16) else {
            unreachable!()
        };
        let name = Str::of(alloc, entry.name.as_bytes())?;
        let what = What::Base(entry.code);
        list.push(alloc, NamedWhat { name, what })?;
    }
    Ok(list)
}

// Appends the words that a model makes.
fn put_rows(alloc: Global, words: &NamedWords, list: &mut NamedWhats) -> Result<(), NoMemory>
    ensures { OnOk result (list.new ≡ list.old ++ map named_what words.now) }
{
    for row in words.as_slice() {
        let name = row.name.copy(alloc)?;
        let what = row.word.what;
        list.push(alloc, NamedWhat { name, what })?;
    }
    Ok(())
}
