//! Sets of names.
ghost use Rattle.std.specs.Prelude.{◌≡◌, ◌||◌, false, bytes_eq, OnOk};
ghost use Rattle.nl_fixed.specs.Nouns.{Name};
ghost use Rattle.nl_tree.specs.Vocabulary.{among};
ghost use Rattle.nl_decl.specs.inner.Index.{has};

use nl_fixed::{NoMemory, Str};
use std::alloc::Global;
use std::collections::HashSet;

/// A set of names.
#[derive(Drop)]
pub(crate) struct NameSet {
    names: HashSet<Vec<u8>>,
}

impl NameSet {
    /// No names.
    pub(crate) fn none(alloc: Global) -> NameSet
        ensures { (q : Name) → has result q ≡ false }
    {
        NameSet {
            names: HashSet::new(alloc),
        }
    }

    /// Whether the name is in the set.
    pub(crate) fn has(&self, name: &[u8]) -> bool
        ensures { result ≡ has self.now name.now }
    {
        self.names.contains(name)
    }

    fn add(&mut self, alloc: Global, name: &[u8]) -> Result<(), NoMemory>
        ensures { OnOk result
            ((q : Name) → has self.new q ≡ (bytes_eq name.now q || has self.old q)) }
    {
        let name = name.to_vec(alloc)?;
        self.names.insert(name)?;
        Ok(())
    }

    /// Adds names, of which some may be in the set already.
    pub(crate) fn add_all(&mut self, alloc: Global, names: &[Str]) -> Result<(), NoMemory>
        ensures { OnOk result
            ((q : Name) → has self.new q ≡ (among q names.now || has self.old q)) }
    {
        'names: for name in names {
            self.add(alloc, name.as_bytes())?;
        }
        Ok(())
    }
}
