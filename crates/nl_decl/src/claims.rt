//! What names are declared as, and at which tokens.
ghost use Rattle.std.specs.Prelude.{◌≡◌, ◌+◌, ◌<◌, ◌≤◌, ◌^◌, ◌++◌, length, map, false, IfOk, OnOk};
ghost use Rattle.nl_decl_outline.specs.declared.declaration.Declaration.TheVariants as Declaration;
ghost use Rattle.nl_decl_outline.specs.Lengths.{inputs_length, length_of};
ghost use Rattle.nl_decl.specs.Claims.{claimed_from, claim_of_owner, is_of_links, is_directed, claims};
ghost use Rattle.nl_decl_outline.specs.Lengths.{total_length};
ghost use Rattle.nl_decl.specs.inner.Claiming.{made_from, Adds, AddsNames, AddsInputs};
ghost use Rattle.nl_decl.specs.Made.{pattern_of};

use crate::{MadeWord, made_name, made_words};
use nl_decl_outline::{Declaration, Owner, Sort};
use nl_fixed::{Names, NoMemory, Str};
use std::alloc::Global;

/// What a name is declared as.
#[derive(Clone, Copy, Debug, PartialEq, Eq)]
pub enum Claim {
    /// A word of its own: a word that a breed makes, or a procedure.
    Word,
    Widget,
    Global,
    /// A variable of all turtles.
    Turtles,
    /// A variable of patches.
    Patches,
    /// A variable of all links.
    Links,
    /// A variable of a breed of turtles, by the breed's place among all breeds.
    TurtleBreed(usize),
    /// A variable of a breed of links, alike.
    LinkBreed(usize),
    /// An input of a procedure, by the procedure's place.
    Input(usize),
}

/// A name, what it is declared as, and the token that declares it.
#[derive(Drop)]
pub struct Claimed {
    pub name: Str,
    pub claim: Claim,
    pub place: usize,
}

// Names that stand one token after another.
fn claim_names(
    alloc: Global,
    list: &mut Vec<Claimed>,
    place: usize,
    claim: Claim,
    names: &[Str],
) -> Result<(), NoMemory>
    requires { place + length names.now < 2 ^ 62 }
    ensures { OnOk result (list.new.items ≡ list.old.items ++ claimed_from place claim names.now) }
{
    let mut at = place;
    'names: for name in names {
        let name = name.copy(alloc)?;
        list.push(Claimed {
            name,
            claim,
            place: at,
        })?;
        at += 1;
    }
    Ok(())
}

// The words that a breed makes: those of its plural stand at the one token, those of its singular at the next.
fn claim_made(
    alloc: Global,
    list: &mut Vec<Claimed>,
    place: usize,
    words: &[MadeWord],
    plural: &[u8],
    singular: &[u8],
) -> Result<(), NoMemory>
    requires { place < 2 ^ 62 }
    ensures { OnOk result (list.new.items ≡ list.old.items
        ++ made_from place plural.now singular.now (map pattern_of words.now)) }
{
    'words: for word in words {
        let name = made_name(alloc, word, plural, singular)?;
        list.push(Claimed {
            name,
            claim: Claim::Word,
            place: if word.plural { place } else { place + 1 },
        })?;
    }
    Ok(())
}

/// The names that declarations declare, in the order of the text.
#[derive(Drop)]
pub(crate) struct Claims {
    list: Vec<Claimed>,
    // of the declarations so far: the sorts of the breeds, and how many procedures and tokens there are
    sorts: Vec<Sort>,
    procedures: usize,
    tokens: usize,
}

impl Claims {
    // What a variable of this owner is declared as.
    fn claim_of(&self, owner: Owner) -> Claim
        ensures { result ≡ claim_of_owner self.now.sorts.items owner }
    {
        match owner {
            Owner::AllTurtles => Claim::Turtles,
            Owner::AllPatches => Claim::Patches,
            Owner::AllLinks => Claim::Links,
            Owner::BreedAt(breed) => match self.sorts.get(breed) {
                Some(Sort::Directed | Sort::Undirected) => Claim::LinkBreed(breed),
                Some(Sort::Turtles) | None => Claim::TurtleBreed(breed),
            },
        }
    }

    fn breed(
        &mut self,
        alloc: Global,
        sort: Sort,
        plural: &Str,
        singular: &Str,
    ) -> Result<(), NoMemory>
        requires { self.old.tokens + 5 < 2 ^ 62 }
        ensures { OnOk result
            (Adds self.old (Declaration.Breed sort plural.now singular.now) self.new) }
    {
        let words = made_words(is_of_links(sort), is_directed(sort));
        claim_made(
            alloc,
            &mut self.list,
            self.tokens + 2,
            words,
            plural.as_bytes(),
            singular.as_bytes(),
        )?;
        self.sorts.push(sort)?;
        self.tokens += 5;
        Ok(())
    }

    fn procedure(
        &mut self,
        alloc: Global,
        name: &Str,
        inputs: &Option<Names>,
        body: usize,
    ) -> Result<(), NoMemory>
        requires within { self.old.tokens
            + length_of (Declaration.Procedure false name.now inputs.now body) < 2 ^ 62 }
        requires fewer { self.old.procedures ≤ self.old.tokens }
        ensures { OnOk result (Adds self.old
            (Declaration.Procedure false name.now inputs.now body) self.new) }
    {
        let name = name.copy(alloc)?;
        self.list.push(Claimed {
            name,
            claim: Claim::Word,
            place: self.tokens + 1,
        })?;
        let head = self.inputs(alloc, inputs)?;
        self.procedures += 1;
        self.tokens += head + body + 3;
        Ok(())
    }

    // The inputs behind the name of the next procedure; how many tokens they have.
    fn inputs(&mut self, alloc: Global, inputs: &Option<Names>) -> Result<usize, NoMemory>
        requires { self.old.tokens + inputs_length inputs.now + 3 < 2 ^ 62 }
        ensures length { IfOk result (λ n. n ≡ inputs_length inputs.now) }
        ensures added { OnOk result (AddsInputs self.old inputs.now self.new) }
    {
        match inputs {
            None => Ok(0),
            Some(names) => {
                let names = names.as_slice();
                let claim = Claim::Input(self.procedures);
                claim_names(alloc, &mut self.list, self.tokens + 3, claim, names)?;
                Ok(names.len() + 2)
            }
        }
    }

    fn names(&mut self, alloc: Global, claim: Claim, names: &Names) -> Result<(), NoMemory>
        requires { self.old.tokens + length names.now + 3 < 2 ^ 62 }
        ensures { OnOk result (AddsNames self.old claim names.now self.new) }
    {
        let names = names.as_slice();
        claim_names(alloc, &mut self.list, self.tokens + 2, claim, names)?;
        self.tokens += names.len() + 3;
        Ok(())
    }

    fn add(&mut self, alloc: Global, declaration: &Declaration) -> Result<(), NoMemory>
        requires within { self.old.tokens + length_of declaration.now < 2 ^ 62 }
        requires fewer { self.old.procedures ≤ self.old.tokens }
        ensures { OnOk result (Adds self.old declaration.now self.new) }
    {
        match declaration {
            Declaration::Globals(names) => self.names(alloc, Claim::Global, names),
            Declaration::Own(owner, names) => {
                let claim = self.claim_of(*owner);
                self.names(alloc, claim, names)
            }
            Declaration::Breed(sort, plural, singular) => {
                self.breed(alloc, *sort, plural, singular)
            }
            Declaration::Procedure(_, name, inputs, body) => {
                self.procedure(alloc, name, inputs, *body)
            }
        }
    }
}

pub(crate) fn is_of_links(sort: Sort) -> bool
    ensures { result ≡ is_of_links sort }
{
    !matches!(sort, Sort::Turtles)
}

pub(crate) fn is_directed(sort: Sort) -> bool
    ensures { result ≡ is_directed sort }
{
    matches!(sort, Sort::Directed)
}

/// The names that these declarations declare, in the order of the text.
pub(crate) fn claims_of(
    alloc: Global,
    declarations: &[Declaration],
) -> Result<Vec<Claimed>, NoMemory>
    requires { total_length declarations.now < 2 ^ 62 }
    ensures { IfOk result (λ list. list.items ≡ claims declarations.now) }
{
    let mut claims = Claims {
        list: Vec::new(alloc),
        sorts: Vec::new(alloc),
        procedures: 0,
        tokens: 0,
    };
    'declarations: for declaration in declarations {
        claims.add(alloc, declaration)?;
    }
    Ok(claims.list)
}
