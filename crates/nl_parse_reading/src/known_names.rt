//! Names that are known, in order, with an index by which one is found without a walk.
ghost use Rattle.std.specs.Prelude.{◌≡◌, [], ◌∷◌, ◌++◌, IfOk, OnOk, IsOk};
ghost use Rattle.nl_tree.specs.Vocabulary.{among};

use nl_fixed::{Names, NoMemory, Str};
use std::alloc::Global;
use std::collections::HashSet;
use std::marker::Model;

/// Names, the newest last, seen by contracts as the list of them.
///
/// A name is looked for in a set, so that the time doesn't grow with how many there are.
#[derive(Drop)]
pub struct KnownNames {
    // what contracts see: a set has no order
    list: Vec<Str>,
    // the same names
    index: HashSet<Vec<u8>>,
}

impl Model for KnownNames {
    ghost use Rattle.std.specs.Prelude.{◌≡◌, bytes_eq};
    ghost use Rattle.nl_fixed.specs.Nouns.{Bytes, Names};
    ghost use Rattle.std.specs.HashSet.{contains_by};
    ghost use Rattle.nl_tree.specs.Vocabulary.{among};

    ghost Value = { Names };

    ghost view = { λ known. known.list.items };

    ghost invariant = { λ known. (q : Bytes) →
        contains_by (λ key. bytes_eq q key.items) known.index ≡ among q known.list.items };
}

impl KnownNames {
    /// No names.
    pub fn empty(alloc: Global) -> KnownNames
        ensures { result ≡ [] }
    {
        KnownNames {
            list: Vec::new(alloc),
            index: HashSet::new(alloc),
        }
    }

    /// These names, which are copied.
    pub fn of(alloc: Global, names: &[Str]) -> Result<KnownNames, NoMemory>
        ensures names { IfOk result (λ known. known ≡ names.now) }
        ensures empty { names.now ≡ [] → IsOk result }
    {
        let mut known = KnownNames::empty(alloc);
        'names: for name in names {
            known.push(alloc, name.copy(alloc)?)?;
        }
        Ok(known)
    }

    /// Adds a name, which may be there already.
    pub fn push(&mut self, alloc: Global, name: Str) -> Result<(), NoMemory>
        ensures { OnOk result (self.new ≡ self.old ++ name ∷ []) }
    {
        // The room comes first, so that the list and its index change together or not at all.
        self.list.reserve(1)?;
        let key = name.as_bytes().to_vec(alloc)?;
        self.index.insert(key)?;
        match self.list.push(name) {
            Ok(()) => Ok(()),
            Err(_) => unreachable!(),
        }
    }

    /// The names as a list, which are copied.
    pub fn copied(&self, alloc: Global) -> Result<Names, NoMemory>
        ensures { IfOk result (λ names. names ≡ self.now) }
    {
        let mut names = Names::empty(alloc);
        'names: for name in self.list.as_slice() {
            names.push(alloc, name.copy(alloc)?)?;
        }
        Ok(names)
    }

    /// Whether the name is one of these.
    pub fn has(&self, name: &[u8]) -> bool
        ensures { result ≡ among name.now self.now }
    {
        self.index.contains(name)
    }
}
