//! Whose variables a word declares.
ghost use Rattle.std.specs.Prelude.{◌≡◌, ◌<◌, [], ◌∷◌, OnOk};
ghost use Rattle.nl_fixed.specs.Nouns.{Names};
ghost use Rattle.nl_decl_outline.specs.Declarations.{breed_owning, owner_by, plural_of};
ghost use Rattle.nl_decl_outline.specs.inner.Owners.{Knows, KnowsMore};

use crate::declaration::{Declaration, Owner};
use nl_fixed::NoMemory;
use std::alloc::Global;
use std::collections::HashMap;

/// The breeds that are declared so far, found by the words that declare their variables.
#[derive(Drop)]
pub struct Owners {
    // The word of each breed, with the place of the first breed that has it.
    places: HashMap<Vec<u8>, usize>,
    count: usize,
}

impl Owners {
    /// Where no breed is declared.
    pub fn none(alloc: Global) -> Owners
        ensures { Knows [] result }
    {
        Owners {
            places: HashMap::new(alloc),
            count: 0,
        }
    }

    // The place of the first breed whose variables a word declares.
    fn breed(&self, word: &[u8]) -> Option<usize>
        ensures { (breeds : Names) → Knows breeds self.now → result ≡ breed_owning breeds word.now }
    {
        self.places.get(word).copied()
    }

    /// Whose variables a word in lower case declares.
    pub fn owner(&self, word: &[u8]) -> Option<Owner>
        ensures { (breeds : Names) → Knows breeds self.now → result ≡ owner_by breeds word.now }
    {
        if word == b"turtles-own".as_slice() {
            Some(Owner::AllTurtles)
        } else if word == b"patches-own".as_slice() {
            Some(Owner::AllPatches)
        } else if word == b"links-own".as_slice() {
            Some(Owner::AllLinks)
        } else {
            self.breed(word).map(Owner::BreedAt)
        }
    }

    /// Adds the breed that a declaration declares, where it declares one.
    pub fn note(&mut self, alloc: Global, declaration: &Declaration) -> Result<(), NoMemory>
        requires room { self.old.count < usize.MAX }
        ensures { OnOk result (KnowsMore self.old (plural_of declaration.now) self.new) }
    {
        match declaration {
            Declaration::Breed(_, plural, _) => self.add(alloc, plural.as_bytes()),
            _ => Ok(()),
        }
    }

    // Adds a breed behind the others.
    fn add(&mut self, alloc: Global, plural: &[u8]) -> Result<(), NoMemory>
        requires room { self.old.count < usize.MAX }
        ensures { OnOk result (KnowsMore self.old (plural.now ∷ []) self.new) }
    {
        let mut word = plural.to_vec(alloc)?;
        word.extend_from_slice(b"-own")?;
        if !self.places.contains_key(word.as_slice()) {
            self.places.insert(word, self.count)?;
        }
        self.count += 1;
        Ok(())
    }
}
