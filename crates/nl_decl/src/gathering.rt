//! What declarations declare in all.
ghost use Rattle.std.specs.Prelude.{◌≡◌, ◌+◌, ◌<◌, ◌^◌, ◌++◌, IfOk, OnOk};
ghost use Rattle.nl_decl_outline.specs.Lengths.{total_length};
ghost use Rattle.nl_decl_outline.specs.Lengths.{inputs_length, length_of};
ghost use Rattle.nl_decl_outline.specs.Named.{names_of_inputs};
ghost use Rattle.nl_decl.specs.Gathered.{globals_in, owned_in, breeds_in, procedures_in, procedure_at};
ghost use Rattle.nl_decl.specs.inner.Gathering.{bare_breeds, breed_at, with_names, with_owned, Gives};
ghost use Rattle.nl_decl_outline.specs.declared.declaration.Declaration.TheVariants as Declaration;

use crate::claims::{is_directed, is_of_links};
use nl_decl_outline::{Declaration, Owner};
use nl_fixed::{Names, NoMemory, Str};
use nl_tree::{Breed, Breeds, Procedure, Procedures};
use std::alloc::Global;

// Appends copies of names.
fn append(alloc: Global, list: &mut Names, names: &[Str]) -> Result<(), NoMemory>
    ensures { OnOk result (list.new ≡ list.old ++ names.now) }
{
    'names: for name in names {
        let name = name.copy(alloc)?;
        list.push(alloc, name)?;
    }
    Ok(())
}

/// The global variables.
pub(crate) fn globals_of(alloc: Global, declarations: &[Declaration]) -> Result<Names, NoMemory>
    ensures { IfOk result (λ names. names ≡ globals_in declarations.now) }
{
    let mut list = Names::empty(alloc);
    'declarations: for declaration in declarations {
        if let Declaration::Globals(names) = declaration {
            append(alloc, &mut list, names.as_slice())?;
        }
    }
    Ok(list)
}

/// The variables of an owner.
pub(crate) fn owned_by(
    alloc: Global,
    owner: Owner,
    declarations: &[Declaration],
) -> Result<Names, NoMemory>
    ensures { IfOk result (λ names. names ≡ owned_in owner declarations.now) }
{
    let mut list = Names::empty(alloc);
    'declarations: for declaration in declarations {
        if let Declaration::Own(other, names) = declaration {
            if *other == owner {
                append(alloc, &mut list, names.as_slice())?;
            }
        }
    }
    Ok(list)
}

fn breeds_without_variables(
    alloc: Global,
    declarations: &[Declaration],
) -> Result<Vec<Breed>, NoMemory>
    ensures { IfOk result (λ breeds. breeds.items ≡ bare_breeds declarations.now) }
{
    let mut breeds = Vec::new(alloc);
    'declarations: for declaration in declarations {
        if let Declaration::Breed(sort, plural, singular) = declaration {
            let plural = plural.copy(alloc)?;
            let singular = singular.copy(alloc)?;
            breeds.push(Breed {
                plural,
                singular,
                link: is_of_links(*sort),
                directed: is_directed(*sort),
                own: Names::empty(alloc),
            })?;
        }
    }
    Ok(breeds)
}

fn give(alloc: Global, breed: &mut Breed, names: &[Str]) -> Result<(), NoMemory>
    ensures { OnOk result (breed.new ≡ with_names breed.old names.now) }
{
    append(alloc, &mut breed.own, names)
}

// The place of a breed.
fn breed_at(owner: Owner) -> Option<usize>
    ensures { result ≡ breed_at owner }
{
    match owner {
        Owner::BreedAt(place) => Some(place),
        _ => None,
    }
}

// Gives variables to the breed that they are of.
fn give_to(
    alloc: Global,
    breeds: &mut Vec<Breed>,
    owner: Owner,
    names: &Names,
) -> Result<(), NoMemory>
    ensures { OnOk result
        (Gives (Declaration.Own owner names.now) breeds.old.items breeds.new.items) }
{
    let Some(place) = breed_at(owner) else {
        return Ok(());
    };
    if place < breeds.as_slice().len() {
        give(alloc, &mut breeds[place], names.as_slice())?;
    }
    Ok(())
}

// Gives the variables of one declaration to the breed that they are of.
fn give_declared(
    alloc: Global,
    breeds: &mut Vec<Breed>,
    declaration: &Declaration,
) -> Result<(), NoMemory>
    ensures { OnOk result (Gives declaration.now breeds.old.items breeds.new.items) }
{
    match declaration {
        Declaration::Own(owner, names) => give_to(alloc, breeds, *owner, names),
        Declaration::Globals(_) => Ok(()),
        Declaration::Breed(_, _, _) => Ok(()),
        Declaration::Procedure(_, _, _, _) => Ok(()),
    }
}

// Gives each breed the variables that are declared for it.
fn give_variables(
    alloc: Global,
    breeds: &mut Vec<Breed>,
    declarations: &[Declaration],
) -> Result<(), NoMemory>
    ensures { OnOk result (breeds.new.items ≡ with_owned 0 declarations.now breeds.old.items) }
{
    'declarations: for declaration in declarations {
        give_declared(alloc, breeds, declaration)?;
    }
    Ok(())
}

/// The breeds, each with its variables.
pub(crate) fn breeds_of(alloc: Global, declarations: &[Declaration]) -> Result<Breeds, NoMemory>
    ensures { IfOk result (λ breeds. breeds ≡ breeds_in declarations.now) }
{
    let mut breeds = breeds_without_variables(alloc, declarations)?;
    give_variables(alloc, &mut breeds, declarations)?;
    Ok(Breeds::of_vec(breeds))
}

/// The procedures, each with the tokens of its body.
pub(crate) fn procedures_of(
    alloc: Global,
    declarations: &[Declaration],
) -> Result<Procedures, NoMemory>
    requires { total_length declarations.now < 2 ^ 62 }
    ensures { IfOk result (λ list. list ≡ procedures_in declarations.now) }
{
    let mut list = Procedures::empty(alloc);
    let mut place = 0;
    'declarations: for declaration in declarations {
        if let Declaration::Procedure(reporter, name, inputs, tokens) = declaration {
            let procedure = procedure_at(alloc, place, *reporter, name, inputs, *tokens)?;
            list.push(alloc, procedure)?;
        }
        place += length_of(declaration);
    }
    Ok(list)
}

// A procedure whose declaration begins at a token.
fn procedure_at(
    alloc: Global,
    place: usize,
    reporter: bool,
    name: &Str,
    inputs: &Option<Names>,
    tokens: usize,
) -> Result<Procedure, NoMemory>
    requires { place + inputs_length inputs.now + tokens + 3 < 2 ^ 62 }
    ensures { IfOk result (λ p. p ≡ procedure_at place reporter name.now inputs.now tokens) }
{
    let first = place + 2 + inputs_length(inputs);
    let name = name.copy(alloc)?;
    let inputs = names_of_inputs(alloc, inputs)?;
    Ok(Procedure {
        name,
        reporter,
        inputs,
        first,
        after: first + tokens,
    })
}

fn names_of_inputs(alloc: Global, inputs: &Option<Names>) -> Result<Names, NoMemory>
    ensures { IfOk result (λ names. names ≡ names_of_inputs inputs.now) }
{
    let mut list = Names::empty(alloc);
    if let Some(names) = inputs {
        append(alloc, &mut list, names.as_slice())?;
    }
    Ok(list)
}

// How many tokens inputs have, with their brackets.
fn inputs_length(inputs: &Option<Names>) -> usize
    requires { inputs_length inputs.now < 2 ^ 62 }
    ensures { result ≡ inputs_length inputs.now }
{
    match inputs {
        None => 0,
        Some(names) => names.as_slice().len() + 2,
    }
}

// How many tokens a declaration has.
fn length_of(declaration: &Declaration) -> usize
    requires { length_of declaration.now < 2 ^ 62 }
    ensures { result ≡ length_of declaration.now }
{
    match declaration {
        Declaration::Globals(names) => names.as_slice().len() + 3,
        Declaration::Own(_, names) => names.as_slice().len() + 3,
        Declaration::Breed(_, _, _) => 5,
        Declaration::Procedure(_, _, inputs, tokens) => inputs_length(inputs) + tokens + 3,
    }
}
