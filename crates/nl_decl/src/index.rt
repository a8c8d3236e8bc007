//! The rows of the words that a model's widgets and declarations make.
ghost use Rattle.std.specs.Prelude.{◌≡◌, ◌+◌, ◌<◌, ◌^◌, ◌++◌, ◌∷◌, [], ℕ, List, map, length, Some, IfOk, OnOk};
ghost use Rattle.std.specs.List.Sorted.{IsPermutation};
ghost use Rattle.nl_fixed.specs.Nouns.{Name};
ghost use Rattle.nl_words.specs.Row.{row_of, row_named};
ghost use Rattle.nl_words.specs.Rows.{rows};
ghost use Rattle.nl_tree.specs.declared.declared.Declared.{Declared};
ghost use Rattle.nl_tree.specs.Index.{term_of};
ghost use Rattle.nl_tree.specs.Names.{procedures_names};
ghost use Rattle.nl_tree.specs.Vocabulary.{breed_terms, counted, global_term, made_as, made_name, made_terms, own_terms, owned_term, procedure_term, variable_term};
ghost use Rattle.nl_decl.specs.Rooms.{AreFew};
ghost use Rattle.nl_decl.specs.inner.Index.{AddsRows, Owns};
ghost use Rattle.nl_decl.specs.inner.Making.{made_row};
ghost use Rattle.nl_decl.specs.Made.{pattern_of};
ghost use Rattle.nl_tree.specs.Index.{named};

use crate::made::{MadeWord, made_name, made_words};
use crate::variables::{Owned, global_names, owned_names};
use nl_fixed::{NoMemory, Str};
use nl_tree::{Breed, Declared, NamedWord, NamedWords, Procedure, What, Word};
use nl_words::{Entry, Kinds, Role, Turns, base_words};
use std::alloc::Global;

const EVERYONE: Kinds = Kinds {
    observer: true,
    turtle: true,
    patch: true,
    link: true,
};

// What is told of the value of a word of which nothing is known.
const UNKNOWN: Kinds = Kinds {
    observer: false,
    turtle: false,
    patch: false,
    link: false,
};

fn add(list: &mut Vec<NamedWord>, name: Str, word: Word) -> Result<(), NoMemory>
    ensures { OnOk result (AddsRows list.old (named name word ∷ []) list.new) }
{
    list.push(NamedWord { name, word })?;
    Ok(())
}

// A variable that these agents may use.
fn variable(runs: Kinds, what: What) -> Word
    ensures { (name : Name) → named name result ≡ variable_term name runs what }
{
    Word {
        role: Role::Variable,
        inputs: &[],
        values: 0,
        many: false,
        turns: Turns::NoTurn,
        runs,
        gives: UNKNOWN,
        what,
    }
}

// The word of a breed that has the row of a built-in word.
fn made_word(number: u32, entry: &Entry) -> Word
    ensures { (name : Name)
        → named name result ∷ [] ≡ made_as number name (Some (row_of entry.now)) }
{
    Word {
        role: entry.role,
        inputs: entry.inputs,
        values: 0,
        many: entry.many,
        turns: entry.turns,
        runs: entry.runs,
        gives: entry.gives,
        what: What::Made(number, entry.code),
    }
}

// A procedure, by its place. What it gives is not told.
fn procedure_word(place: u32, procedure: &Procedure) -> Word
    requires { length procedure.now.inputs < 2 ^ 31 }
    ensures { named procedure.now.name result ≡ procedure_term place procedure.now }
{
    let role = if procedure.reporter {
        Role::Reporter
    } else {
        Role::Command
    };
    Word {
        role,
        inputs: &[],
        values: procedure.inputs.as_slice().len() as u32,
        many: false,
        turns: Turns::NoTurn,
        runs: EVERYONE,
        gives: UNKNOWN,
        what: What::Procedure(place),
    }
}

fn add_globals(alloc: Global, list: &mut Vec<NamedWord>, names: &[Str]) -> Result<(), NoMemory>
    requires { length names.now < 2 ^ 31 }
    ensures { OnOk result (AddsRows list.old (counted global_term 0 names.now) list.new) }
{
    let mut place = 0;
    'names: for name in names {
        let name = name.copy(alloc)?;
        add(list, name, variable(EVERYONE, What::Global(place)))?;
        place += 1;
    }
    Ok(())
}

fn add_owned(
    alloc: Global,
    list: &mut Vec<NamedWord>,
    names: &[Str],
    owned: &Owned,
) -> Result<(), NoMemory>
    requires { length names.now < 2 ^ 31 }
    ensures { OnOk result ((d : Declared) → Owns d owned.now
        → AddsRows list.old (counted (owned_term d) 0 names.now) list.new) }
{
    let mut place = 0;
    'names: for name in names {
        let users = owned.users(name.as_bytes());
        let name = name.copy(alloc)?;
        add(list, name, variable(users, What::Own(place)))?;
        place += 1;
    }
    Ok(())
}

// The row of a word that a breed makes: that of the built-in word, under another name.
fn add_made_word(
    alloc: Global,
    list: &mut Vec<NamedWord>,
    number: u32,
    breed: &Breed,
    word: &MadeWord,
) -> Result<(), NoMemory>
    ensures { OnOk result (AddsRows list.old (made_row number breed.now word.now) list.new) }
{
    let words = base_words();
    match words.find(word.base.as_bytes()) {
        None => Ok(()),
        Some(entry) => {
            let name = made_name(
                alloc,
                word,
                breed.plural.as_bytes(),
                breed.singular.as_bytes(),
            )?;
            add(list, name, made_word(number, entry))
        }
    }
}

fn add_made(
    alloc: Global,
    list: &mut Vec<NamedWord>,
    number: u32,
    breed: &Breed,
    words: &[MadeWord],
) -> Result<(), NoMemory>
    ensures { OnOk result (AddsRows list.old
        (made_terms number breed.now (map pattern_of words.now)) list.new) }
{
    'words: for word in words {
        add_made_word(alloc, list, number, breed, word)?;
    }
    Ok(())
}

fn add_breeds(alloc: Global, list: &mut Vec<NamedWord>, breeds: &[Breed]) -> Result<(), NoMemory>
    requires { length breeds.now < 2 ^ 31 }
    ensures { OnOk result (AddsRows list.old (breed_terms 1 breeds.now) list.new) }
{
    let mut number = 1;
    'breeds: for breed in breeds {
        let words = made_words(breed.link, breed.directed);
        add_made(alloc, list, number, breed, words)?;
        number += 1;
    }
    Ok(())
}

fn add_procedures(
    alloc: Global,
    list: &mut Vec<NamedWord>,
    procedures: &[Procedure],
) -> Result<(), NoMemory>
    requires names { length (procedures_names procedures.now) < 2 ^ 31 }
    requires number { length procedures.now < 2 ^ 31 }
    ensures { OnOk result (AddsRows list.old (counted procedure_term 0 procedures.now) list.new) }
{
    let mut place = 0;
    'procedures: for procedure in procedures {
        let name = procedure.name.copy(alloc)?;
        add(list, name, procedure_word(place, procedure))?;
        place += 1;
    }
    Ok(())
}

// The row of each word that a model's widgets and declarations make: variables, then the words of breeds, then procedures.
fn rows_of(alloc: Global, declared: &Declared) -> Result<Vec<NamedWord>, NoMemory>
    requires { AreFew declared.now }
    ensures { IfOk result (λ rows. map term_of rows.items ≡ own_terms declared.now) }
{
    let globals = global_names(alloc, declared)?;
    let names = owned_names(alloc, declared)?;
    let owned = Owned::of(alloc, declared)?;
    let mut list = Vec::new(alloc);
    add_globals(alloc, &mut list, globals.as_slice())?;
    add_owned(alloc, &mut list, names.as_slice(), &owned)?;
    add_breeds(alloc, &mut list, declared.breeds.as_slice())?;
    add_procedures(alloc, &mut list, declared.procedures.as_slice())?;
    Ok(list)
}

/// The row of each word that a model's widgets and declarations make, kept for finding it.
pub fn index_of(alloc: Global, declared: &Declared) -> Result<NamedWords, NoMemory>
    requires { AreFew declared.now }
    ensures { IfOk result (λ index. IsPermutation (own_terms declared.now) index) }
{
    let rows = rows_of(alloc, declared)?;
    Ok(NamedWords::new(rows))
}
