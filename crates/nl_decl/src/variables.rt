//! The variables that a model declares.
ghost use Rattle.std.specs.Prelude.{◌≡◌, ◌++◌, ◌∷◌, [], false, IfOk, OnOk};
ghost use Rattle.nl_fixed.specs.Nouns.{Name};
ghost use Rattle.nl_tree.specs.declared.declared.Declared.{Declared};
ghost use Rattle.nl_tree.specs.Vocabulary.{breed_names, global_names, owned_names};
ghost use Rattle.nl_decl.specs.inner.Index.{beyond, has, AddsOwn, Joins, Owns, users};

use crate::name_set::NameSet;
use nl_fixed::{Names, NoMemory, Str};
use nl_tree::{Breed, Declared};
use nl_words::Kinds;
use std::alloc::Global;

/// The names of several lists, each once, in the order in which they come first.
#[derive(Drop)]
pub(crate) struct Variables {
    names: Names,
    // the names of the lists that were joined
    seen: NameSet,
}

impl Variables {
    fn none(alloc: Global) -> Variables
        ensures names { result.names ≡ [] }
        ensures seen { (q : Name) → has result.seen q ≡ false }
    {
        Variables {
            names: Names::empty(alloc),
            seen: NameSet::none(alloc),
        }
    }

    // Appends those names of a further list that no list before it has.
    fn join(&mut self, alloc: Global, names: &[Str]) -> Result<(), NoMemory>
        ensures { OnOk result (Joins self.old names.now self.new) }
    {
        append_new(alloc, &mut self.names, &self.seen, names)?;
        self.seen.add_all(alloc, names)?;
        Ok(())
    }

    // Appends the variables of breeds that no list before them has.
    fn join_breeds(&mut self, alloc: Global, breeds: &[Breed]) -> Result<(), NoMemory>
        ensures { OnOk result (self.new.names
            ≡ self.old.names ++ beyond self.old.seen (breed_names breeds.now)) }
    {
        'breeds: for breed in breeds {
            self.join(alloc, breed.own.as_slice())?;
        }
        Ok(())
    }
}

fn push_new(alloc: Global, names: &mut Names, seen: &NameSet, name: &Str) -> Result<(), NoMemory>
    ensures { OnOk result (names.new ≡ names.old ++ beyond seen.now (name.now ∷ [])) }
{
    if seen.has(name.as_bytes()) {
        return Ok(());
    }
    let name = name.copy(alloc)?;
    names.push(alloc, name)?;
    Ok(())
}

// Appends those names that the set has not.
fn append_new(
    alloc: Global,
    names: &mut Names,
    seen: &NameSet,
    more: &[Str],
) -> Result<(), NoMemory>
    ensures { OnOk result (names.new ≡ names.old ++ beyond seen.now more.now) }
{
    'more: for name in more {
        push_new(alloc, names, seen, name)?;
    }
    Ok(())
}

/// The global variables, in order. A widget's name that is declared as a global variable too is one variable.
pub(crate) fn global_names(alloc: Global, declared: &Declared) -> Result<Names, NoMemory>
    ensures { IfOk result (λ names. names ≡ global_names declared.now) }
{
    let mut all = Variables::none(alloc);
    all.join(alloc, declared.widgets.as_slice())?;
    append_new(
        alloc,
        &mut all.names,
        &all.seen,
        declared.globals.as_slice(),
    )?;
    Ok(all.names)
}

/// The variables that agents own, in order, each name once.
pub(crate) fn owned_names(alloc: Global, declared: &Declared) -> Result<Names, NoMemory>
    ensures { IfOk result (λ names. names ≡ owned_names declared.now) }
{
    let mut all = Variables::none(alloc);
    all.join(alloc, declared.turtles_own.as_slice())?;
    all.join(alloc, declared.patches_own.as_slice())?;
    all.join(alloc, declared.links_own.as_slice())?;
    all.join_breeds(alloc, declared.breeds.as_slice())?;
    Ok(all.names)
}

/// The names of the variables of turtles, of patches and of links: of all of them, or of some breed.
#[derive(Drop)]
pub(crate) struct Owned {
    turtles: NameSet,
    patches: NameSet,
    links: NameSet,
}

impl Owned {
    // Adds the variables of one breed.
    fn add_breed(&mut self, alloc: Global, breed: &Breed) -> Result<(), NoMemory>
        ensures { OnOk result (AddsOwn self.old (breed.now ∷ []) self.new) }
    {
        let names = breed.own.as_slice();
        if breed.link {
            self.links.add_all(alloc, names)
        } else {
            self.turtles.add_all(alloc, names)
        }
    }

    // Adds the variables of breeds.
    fn add_breeds(&mut self, alloc: Global, breeds: &[Breed]) -> Result<(), NoMemory>
        ensures { OnOk result (AddsOwn self.old breeds.now self.new) }
    {
        'breeds: for breed in breeds {
            self.add_breed(alloc, breed)?;
        }
        Ok(())
    }

    /// The variables that a model declares.
    pub(crate) fn of(alloc: Global, declared: &Declared) -> Result<Owned, NoMemory>
        ensures { IfOk result (Owns declared.now) }
    {
        let mut owned = Owned {
            turtles: NameSet::none(alloc),
            patches: NameSet::none(alloc),
            links: NameSet::none(alloc),
        };
        owned
            .turtles
            .add_all(alloc, declared.turtles_own.as_slice())?;
        owned
            .patches
            .add_all(alloc, declared.patches_own.as_slice())?;
        owned.links.add_all(alloc, declared.links_own.as_slice())?;
        owned.add_breeds(alloc, declared.breeds.as_slice())?;
        Ok(owned)
    }

    /// The agents that may use the variable of this name. A turtle may use those of its patch too.
    pub(crate) fn users(&self, name: &[u8]) -> Kinds
        ensures { (d : Declared) → Owns d self.now → result ≡ users d name.now }
    {
        let on_patch = self.patches.has(name);
        Kinds {
            observer: false,
            turtle: on_patch || self.turtles.has(name),
            patch: on_patch,
            link: self.links.has(name),
        }
    }
}
