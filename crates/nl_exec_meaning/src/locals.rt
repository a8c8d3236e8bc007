//! Local variables, by the numbers of their names.
ghost use Rattle.std.specs.Prelude.{◌≡◌, ◌==◌, ◌<◌, [], ◌∷◌, ◌++◌, Some, IfOk, OnOk, OnErr, IfSome, length, take, slice_get, slice_set, option_map};
ghost use Rattle.std.specs.Option.{option_copied};
ghost use Rattle.nl_value.specs.Views.{plain};
ghost use Rattle.nl_exec_meaning.specs.Variables.{last_index};
ghost use Rattle.nl_exec_meaning.specs.inner.Seen.{kept};

use nl_fixed::NoMemory;
use nl_value::Value;
use std::alloc::Global;
use std::marker::Model;

/// A local: the number of its name, and its value.
#[derive(Drop)]
pub struct Local {
    pub id: u32,
    pub value: Value,
}

/// Locals from the oldest to the newest, seen by contracts as a list.
#[derive(Drop)]
pub struct Locals {
    list: Vec<Local>,
}

impl Model for Locals {
    ghost use Rattle.std.specs.Prelude.{List, map};
    ghost use Rattle.std.specs.Coded.{coded_list};
    ghost use Rattle.nl_exec_meaning.specs.Kept.{Kept, kept_code};
    ghost use Rattle.nl_exec_meaning.specs.inner.Seen.{kept};

    ghost Value = { List Kept };

    ghost coded = { coded_list kept_code };

    ghost view = { λ locals. map kept locals.list.items };
}

impl Locals {
    /// No locals.
    pub fn empty(alloc: Global) -> Locals
        ensures { result ≡ [] }
    {
        Locals {
            list: Vec::new(alloc),
        }
    }

    /// No locals, and room for so many.
    pub fn with_room(alloc: Global, many: usize) -> Result<Locals, NoMemory>
        ensures { IfOk result (λ locals. locals ≡ []) }
    {
        Ok(Locals {
            list: Vec::with_capacity(alloc, many)?,
        })
    }

    /// Makes a local, which is the newest one, or leaves all as they were.
    pub fn push(&mut self, _alloc: Global, local: Local) -> Result<(), NoMemory>
        ensures ok { OnOk result (self.new ≡ self.old ++ kept local ∷ []) }
        ensures err { OnErr result (self.new ≡ self.old) }
    {
        self.list.push(local)?;
        Ok(())
    }

    /// How many locals there are.
    #[inline]
    pub fn len(&self) -> usize
        ensures { result ≡ length self.now }
    {
        self.list.len()
    }

    /// Forgets the locals behind the first so many.
    #[inline]
    pub fn truncate(&mut self, most: usize)
        ensures { self.new ≡ take most self.old }
    {
        self.list.truncate(most);
    }

    /// The place of the newest local whose name has this number.
    #[inline]
    pub fn find(&self, id: u32) -> Option<usize>
        ensures { result ≡ last_index (λ local. local.id == id) self.now }
    {
        newest(&self.list, id)
    }

    /// The value of the local at a place, counted from 0.
    #[inline]
    pub fn value(&self, at: usize) -> Option<&Value>
        ensures { option_map plain (option_copied result) ≡ option_map (λ local. local.value) (slice_get self.now at) }
    {
        match self.list.get(at) {
            Some(local) => Some(&local.value),
            None => None,
        }
    }

    /// The local at a place, counted from 0, becomes this one, and the old one is handed back.
    #[inline]
    pub fn replace(&mut self, at: usize, local: Local) -> Local
        requires { at < length self.old }
        ensures new { self.new ≡ slice_set self.old at (kept local) }
        ensures old { slice_get self.old at ≡ Some (kept result) }
    {
        let place = &mut self.list[at];
        std::mem::replace(place, local)
    }

    /// The same locals again.
    pub fn copy(&self, alloc: Global) -> Result<Locals, NoMemory>
        ensures { IfOk result (λ locals. locals ≡ self.now) }
    {
        let mut copied = Locals::with_room(alloc, self.list.len())?;
        for local in &self.list {
            let value = local.value.copy(alloc)?;
            let again = Local {
                id: local.id,
                value,
            };
            copied.push(alloc, again)?;
        }
        Ok(copied)
    }
}

// The place of the newest local of a number.
fn newest(locals: &[Local], id: u32) -> Option<usize>
    ensures { result ≡ last_index (λ local. local.id == id) locals.now }
{
    let mut left = locals.len();
    'places: while left > 0 {
        left -= 1;
        if locals[left].id == id {
            return Some(left);
        }
    }
    None
}
