//! Numbers for the names of locals.
ghost use Rattle.std.specs.Prelude.{◌≡◌, ◌<◌, Some, [], IfOk, slice_get, slice_index};
ghost use Rattle.nl_exec_meaning.specs.inner.Arena.{AreNames, Grows, names_seen};

use indexmap::IndexSet;
use nl_fixed::{NoMemory, Str};
use std::alloc::Global;
use std::marker::Model;

/// Names of locals, each of which has its place as its number, for all texts alike.
#[derive(Drop)]
pub struct LocalNames<'a> {
    list: IndexSet<&'a [u8]>,
}

impl<'a> Model for LocalNames<'a> {
    ghost use Rattle.nl_fixed.specs.Nouns.{Names};

    ghost Value = { Names };

    ghost use Rattle.nl_exec_meaning.specs.inner.Arena.{AreNames, names_seen};

    ghost view = { λ names. names_seen names.list.keys };

    ghost invariant = { λ names. AreNames (names_seen names.list.keys) };
}

impl<'a> LocalNames<'a> {
    /// No names.
    pub fn empty(alloc: Global) -> Self
        ensures { result ≡ [] }
    {
        LocalNames {
            list: IndexSet::new(alloc),
        }
    }

    /// The number of a name, which gets the next one if it has none.
    pub fn number(&mut self, _alloc: Global, name: &'a Str) -> Result<u32, NoMemory>
        ensures number { IfOk result (λ id. slice_get self.new id ≡ Some name.now) }
        ensures grows { Grows self.old self.new }
        ensures apart { AreNames self.new }
    {
        let at = self.place(name.as_bytes())?;
        match u32::try_from(at) {
            Ok(id) => Ok(id),
            Err(_) => Err(NoMemory),
        }
    }

    // The place of a name, which goes last if it is new.
    fn place(&mut self, name: &'a [u8]) -> Result<usize, NoMemory>
        ensures place { IfOk result (λ at. slice_get self.new at ≡ Some name.now) }
        ensures grows { Grows self.old self.new }
        ensures apart { AreNames self.new }
    {
        let (at, _) = self.list.insert_full(bytes_of(name))?;
        Ok(at)
    }

    /// The same names again.
    pub fn copy(&self, _alloc: Global) -> Result<LocalNames<'a>, NoMemory>
        ensures { IfOk result (λ again. again ≡ self.now) }
    {
        let list = self.list.clone()?;
        Ok(LocalNames { list })
    }
}

// The bytes of a name: each is less than 256, which a number without a name isn't.
fn bytes_of(name: &[u8]) -> &[u8]
    ensures same { result.now ≡ name.now }
    ensures text { slice_index result.now 0 < 256 }
{
    name
}
