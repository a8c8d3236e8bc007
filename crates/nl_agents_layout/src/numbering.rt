//! The numbering of a program's variables: the parts of its layout.
ghost use Rattle.std.specs.Prelude.{◌≡◌, ◌++◌, ◌||◌, length, map, filter, nat_lt, IfOk, OnOk, IsTrue, count_by};
ghost use Rattle.std.specs.List.{range_with_len, list_all};
ghost use Rattle.nl_tree.specs.Vocabulary.{global_names};
ghost use Rattle.nl_tree.specs.Index.{term_of};
ghost use Rattle.nl_agents_layout.specs.BuiltIn.{built_in_count};
ghost use Rattle.nl_agents_layout.specs.Layouts.{has_slot, slots_count, slots_where, is_slot_of, is_coded, owns_by_breed, breed_layout, slot_named};
ghost use Rattle.nl_agents_layout.specs.inner.Numbering.{is_own, slots_named, slots_of_breeds, coded_named};

use crate::built_in::{
    BUILT_IN, COLOR, HEADING, HIDDEN, LABEL, LABEL_COLOR, PCOLOR, PEN_MODE, PEN_SIZE, PLABEL,
    PLABEL_COLOR, SHAPE, SIZE, THICKNESS, TIE_MODE,
};
use crate::layout::{BreedLayout, BreedLayouts};
use crate::slots::Slots;
use nl_fixed::{Names, NoMemory};
use nl_tree::{NamedWord, Program, What};
use std::alloc::Global;

/// What turtles, patches and links have from the start.
pub(crate) const OF_TURTLES: [u32; 9] = [
    COLOR,
    HEADING,
    SHAPE,
    LABEL,
    LABEL_COLOR,
    HIDDEN,
    SIZE,
    PEN_SIZE,
    PEN_MODE,
];

pub(crate) const OF_PATCHES: [u32; 3] = [PCOLOR, PLABEL, PLABEL_COLOR];

pub(crate) const OF_LINKS: [u32; 7] = [
    COLOR,
    SHAPE,
    LABEL,
    LABEL_COLOR,
    HIDDEN,
    THICKNESS,
    TIE_MODE,
];

/// How many widgets and globals there are, which is the slot of the first global variable after them.
pub(crate) fn count_globals(program: &Program) -> u32
    ensures { result ≡ length (global_names program.now.declared) }
{
    program.global(b"behaviorspace-run-number").unwrap()
}

/// How many slots of variables of agents there are.
pub(crate) fn count_slots(program: &Program) -> u32
    ensures { result ≡ slots_count program.now.declared }
{
    let owned = count_owned(program.declared().index.as_slice());
    BUILT_IN + owned as u32
}

// How many of these rows are those of a variable of agents.
fn count_owned(rows: &[NamedWord]) -> usize
    ensures { result ≡ count_by (λ row. is_own (term_of row)) rows.now }
{
    rows.iter()
        .filter(|row| matches!(row.word.what, What::Own(_)))
        .count()
}

/// The slots of the global variables that the code declares.
pub(crate) fn coded_slots(alloc: Global, program: &Program, globals: u32) -> Result<Slots, NoMemory>
    requires { globals ≡ length (global_names program.now.declared) }
    ensures { IfOk result (λ slots. slots
        ≡ filter (is_coded program.now.declared) (range_with_len 0 globals)) }
{
    let mut list = Vec::new(alloc);
    let names = program.declared().globals.as_slice();
    for name in names {
        if let Some(slot) = coded_slot(program, name.as_bytes(), globals) {
            list.push(slot)?;
        }
    }
    Ok(Slots::of_vec(list))
}

// The slot of a global variable, where it is below the bound.
fn coded_slot(program: &Program, name: &[u8], globals: u32) -> Option<u32>
    ensures { result ≡ coded_named program.now.declared globals name.now }
{
    match program.global(name) {
        Some(slot) if slot < globals => Some(slot),
        _ => None,
    }
}

/// The slots of what all agents of a kind own: those that they have from the start, and those of the names.
pub(crate) fn kept_by_all(
    alloc: Global,
    program: &Program,
    start: &[u32],
    names: &Names,
) -> Result<Slots, NoMemory>
    requires { IsTrue (list_all (λ slot. nat_lt slot built_in_count) start.now) }
    ensures { IfOk result (λ slots. slots
        ≡ slots_where program.now.declared
        (λ slot. has_slot start.now slot || is_slot_of program.now.declared names.now slot)) }
{
    let mut list = start.to_vec(alloc)?;
    add_named(program, names, &mut list)?;
    Ok(Slots::of_vec(list))
}

/// The slots of what agents of a kind own, whichever their breed.
pub(crate) fn kept_by_some(
    alloc: Global,
    program: &Program,
    start: &[u32],
    names: &Names,
    link: bool,
) -> Result<Slots, NoMemory>
    requires { IsTrue (list_all (λ slot. nat_lt slot built_in_count) start.now) }
    ensures { IfOk result (λ slots. slots ≡ slots_where program.now.declared (λ slot. has_slot start.now slot
        || is_slot_of program.now.declared names.now slot || owns_by_breed program.now.declared link slot)) }
{
    let mut list = start.to_vec(alloc)?;
    add_named(program, names, &mut list)?;
    add_breeds(program, link, &mut list)?;
    Ok(Slots::of_vec(list))
}

/// The breeds with what each of them owns.
pub(crate) fn breeds_of(alloc: Global, program: &Program) -> Result<BreedLayouts, NoMemory>
    ensures { IfOk result (λ breeds. breeds
        ≡ map (breed_layout program.now.declared) program.now.declared.breeds) }
{
    let mut kept = BreedLayouts::empty(alloc);
    let breeds = program.declared().breeds.as_slice();
    for breed in breeds {
        let own = kept_by_all(alloc, program, &[], &breed.own)?;
        let plural = breed.plural.copy(alloc)?;
        let singular = breed.singular.copy(alloc)?;
        let again = BreedLayout {
            plural,
            singular,
            link: breed.link,
            directed: breed.directed,
            own,
        };
        kept.push(alloc, again)?;
    }
    Ok(kept)
}

// Appends the slots of the names that are variables of agents.
fn add_named(program: &Program, names: &Names, list: &mut Vec<u32>) -> Result<(), NoMemory>
    ensures { OnOk result (list.new.items ≡ list.old.items ++ slots_named program.now.declared names.now) }
{
    let names = names.as_slice();
    for name in names {
        if let Some(slot) = named_slot(program, name.as_bytes()) {
            list.push(slot)?;
        }
    }
    Ok(())
}

// The slot of a name that is a variable of agents.
fn named_slot(program: &Program, name: &[u8]) -> Option<u32>
    ensures { result ≡ slot_named program.now.declared name.now }
{
    // What the slot's range rests on: the declarations of a program are accepted.
    let _declared = program.declared();
    match program.what(name) {
        Some(What::Own(number)) => Some(BUILT_IN + number),
        _ => None,
    }
}

// Appends the slots of what agents of any breed of turtles, or of links, own.
fn add_breeds(program: &Program, link: bool, list: &mut Vec<u32>) -> Result<(), NoMemory>
    ensures { OnOk result (list.new.items
        ≡ list.old.items ++ slots_of_breeds program.now.declared link program.now.declared.breeds) }
{
    let breeds = program.declared().breeds.as_slice();
    for breed in breeds {
        if breed.link == link {
            add_named(program, &breed.own, list)?;
        }
    }
    Ok(())
}
