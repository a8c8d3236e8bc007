//! The lists of a literal that are open.

use nl_fixed::NoMemory;
use nl_value::{Items, Value};
use std::alloc::Global;
use std::marker::Model;

/// The lists that are open, seen by contracts from the innermost to the outermost.
#[derive(Drop)]
pub(crate) struct Nested {
    lists: Vec<Items>,
}

impl Model for Nested {
    ghost use Rattle.std.specs.Prelude.{List};
    ghost use Rattle.std.specs.Coded.{coded_list};
    ghost use Rattle.std.specs.Prelude.{reverse};
    ghost use Rattle.nl_value.specs.Plain.{Plain};
    ghost use Rattle.nl_value.specs.inner.Codes.{plain_code};

    ghost Value = { List (List Plain) };

    ghost coded = { coded_list (coded_list plain_code) };

    ghost view = { λ nested. reverse nested.lists.items };
}

impl Nested {
    ghost use Rattle.std.specs.Prelude.{◌≡◌, [], ◌∷◌, length, IfOk, OnOk, MatchOption};
    ghost use Rattle.nl_experiment_keys.specs.inner.Taking.{Lands};

    /// No list is open.
    pub(crate) fn none(alloc: Global) -> Nested
        ensures { result ≡ [] }
    {
        Nested {
            lists: Vec::new(alloc),
        }
    }

    /// How many lists are open.
    pub(crate) fn len(&self) -> usize
        ensures { result ≡ length self.now }
    {
        self.lists.len()
    }

    /// Opens a list inside of the innermost one.
    pub(crate) fn begin(&mut self, alloc: Global) -> Result<(), NoMemory>
        ensures { OnOk result (self.new ≡ [] ∷ self.old) }
    {
        self.lists.push(Items::empty(alloc))?;
        Ok(())
    }

    /// Closes the innermost list, if one is open.
    pub(crate) fn end(&mut self) -> Option<Items>
        ensures { MatchOption result (self.old ≡ []) (λ items. self.old ≡ items ∷ self.new) }
    {
        self.lists.pop()
    }

    /// Puts a value behind the others of the innermost list, or hands it back where none is open.
    pub(crate) fn put(&mut self, alloc: Global, value: Value) -> Result<Option<Value>, NoMemory>
        ensures { IfOk result (Lands value self.old self.new) }
    {
        let Some(mut items) = self.lists.pop() else {
            return Ok(Some(value));
        };
        items.push(alloc, value)?;
        self.lists.push(items)?;
        Ok(None)
    }
}
