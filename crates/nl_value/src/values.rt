//! Values that share texts, lists and sets.
//!
//! A value nests through its lists. What walks a value here recurses as deep as the value nests and no deeper: for values
//! that the language makes that is at most 200. A value that is built by hand may nest deeper; each call then still gives
//! the answer of its contract, and takes stack in proportion to the nesting.

use crate::measures::{depths, depths_without, sizes, sizes_without};
use crate::sets::AgentSet;
use nl_fixed::{NoMemory, Num, Str};
use std::alloc::Global;
use std::marker::Model;
use std::rc::Rc;

/// A value, of 16 bytes: a tag, and a number or a shared pointer to what owns its memory, so that a copy takes no time. A
/// turtle or a link is named by its serial, a patch by its number, and a value may name an agent that has died.
#[cycle(value)]
#[derive(Drop)]
pub enum Value {
    Number(Num),
    Truth(bool),
    Words(Rc<Str>),
    /// The empty text, as labels are at first: it takes no memory.
    Blank,
    Items(Rc<Items>),
    Turtle(u64),
    Patch(u32),
    Link(u64),
    Nobody,
    Set(Rc<AgentSet>),
}

const _: () = prove!(size_of::<Value>() == 16);

/// Values in order, seen by contracts as a list of plain values. Their sizes and depths are kept beside them, so that no
/// list is walked to tell whether it is within the limits on values: lists that are shared may be far larger than what they
/// take of memory.
#[cycle(value)]
#[derive(Drop)]
pub struct Items {
    pub(crate) list: Vec<Value>,
    // The sum of the items' sizes, and the greatest of their depths, as `measures` tells them.
    pub(crate) size: u64,
    pub(crate) depth: u32,
}

impl Model for Items {
    ghost use Rattle.std.specs.Prelude.{List};
    ghost use Rattle.std.specs.Coded.{coded_list};
    ghost use Rattle.nl_value.specs.Plain.{Plain};
    ghost use Rattle.nl_value.specs.inner.Codes.{plain_code};
    ghost use Rattle.nl_value.specs.inner.Weights.{list_weight};

    ghost Value = { List Plain };

    ghost coded = { coded_list plain_code };

    ghost use Rattle.std.specs.Prelude.{map};
    ghost use Rattle.nl_value.specs.Views.{plain};

    ghost view = { λ a. map plain a.list.items };

    ghost use Rattle.nl_value.specs.inner.Kept.{AreMeasures};

    ghost invariant = { λ a. AreMeasures (map plain a.list.items) a.size a.depth };

    ghost size = { list_weight };

    ghost use Rattle.std.proofs.Common.{arith};
    ghost use Rattle.nl_value.specs.inner.Falls.{falls};

    ghost size_decreases = { λ a h. omega (arith, falls a.list.items) };
}

impl Items {
    ghost use Rattle.std.specs.Prelude.{◌≡◌, ◌<◌, ◌-◌, ◌↔◌, List, [], ◌∷◌, ◌++◌, length, map, take, replicate, slice_get, slice_set, option_map, Some, IsTrue, IsOk, IfOk, OnOk, OnErr};
    ghost use Rattle.std.specs.Option.{option_copied};
    ghost use Rattle.nl_value.specs.Plain.{PlainNumber};
    ghost use Rattle.nl_value.specs.Views.{plain};

    /// No values.
    pub fn empty(alloc: Global) -> Items
        ensures { result ≡ [] }
    {
        Items {
            list: Vec::new(alloc),
            size: 0,
            depth: 0,
        }
    }

    /// The values of a vector, in order, without a copy.
    pub fn of_vec(list: Vec<Value>) -> Items
        ensures { result ≡ map plain list.items }
    {
        let (size, depth) = (sizes(&list), depths(&list));
        Items { list, size, depth }
    }

    /// One number, so many times.
    pub fn filled(alloc: Global, number: Num, count: usize) -> Result<Items, NoMemory>
        ensures items { IfOk result (λ items. items ≡ replicate count (PlainNumber number)) }
        ensures none { count ≡ 0 → IsOk result }
    {
        let mut items = Items::empty(alloc);
        for _ in 0..count {
            items.push(alloc, Value::Number(number))?;
        }
        Ok(items)
    }

    /// How many values there are.
    pub fn len(&self) -> usize
        ensures { result ≡ length self.now }
    {
        self.list.len()
    }

    /// Whether there are none.
    pub fn is_empty(&self) -> bool
        ensures { IsTrue result ↔ (self.now ≡ []) }
    {
        self.list.is_empty()
    }

    /// The value at a place, counted from 0.
    pub fn get(&self, at: usize) -> Option<&Value>
        ensures { option_map plain (option_copied result) ≡ slice_get self.now at }
    {
        self.list.get(at)
    }

    /// The values, in order.
    pub fn as_slice(&self) -> &[Value]
        ensures { map plain result.now ≡ self.now }
    {
        self.list.as_slice()
    }

    /// Appends a value, or leaves the list as it was.
    pub fn push(&mut self, _alloc: Global, value: Value) -> Result<(), NoMemory>
        ensures ok { OnOk result (self.new ≡ self.old ++ plain value ∷ []) }
        ensures err { OnErr result (self.new ≡ self.old) }
    {
        let size = self.size.saturating_add(value.size());
        let depth = self.depth.max(value.depth());
        self.list.push(value)?;
        self.size = size;
        self.depth = depth;
        Ok(())
    }

    /// Takes the last value away and hands it back, if there is one.
    pub fn pop(&mut self) -> Option<Value>
        ensures rest { self.new ≡ take (length self.old - 1) self.old }
        ensures last { option_map plain result ≡ slice_get self.old (length self.old - 1) }
    {
        let last = self.list.pop();
        if let Some(gone) = &last {
            self.size = sizes_without(&self.list, self.size, gone);
            self.depth = depths_without(&self.list, self.depth, gone);
        }
        last
    }

    /// Takes the values away that stand behind the first so many.
    pub fn truncate(&mut self, most: usize)
        ensures { self.new ≡ take most self.old }
    {
        self.list.truncate(most);
        self.size = sizes(&self.list);
        self.depth = depths(&self.list);
    }

    /// Puts the value at a place, counted from 0, and hands back the one that stood there.
    pub fn replace(&mut self, at: usize, value: Value) -> Value
        requires { at < length self.old }
        ensures new { self.new ≡ slice_set self.old at (plain value) }
        ensures old { slice_get self.old at ≡ Some (plain result) }
    {
        let size = self.size.saturating_add(value.size());
        let depth = self.depth.max(value.depth());
        let old = std::mem::replace(&mut self.list[at], value);
        self.size = sizes_without(&self.list, size, &old);
        self.depth = depths_without(&self.list, depth, &old);
        old
    }

    /// The same values again: a new list of values that are shared.
    pub fn copy(&self, alloc: Global) -> Result<Items, NoMemory>
        ensures { IfOk result (λ items. items ≡ self.now) }
    {
        let mut copied = Items::empty(alloc);
        for value in &self.list {
            let again = value.copy(alloc)?;
            copied.push(alloc, again)?;
        }
        Ok(copied)
    }

    /// The list that a value held: without a copy where no other value holds it.
    pub fn taken(alloc: Global, shared: Rc<Items>) -> Result<Items, NoMemory>
        ensures { IfOk result (λ items. items ≡ shared.value) }
    {
        match Rc::try_unwrap(shared) {
            Ok(items) => Ok(items),
            Err(shared) => shared.copy(alloc),
        }
    }
}

impl Value {
    ghost use Rattle.std.specs.Prelude.{◌≡◌, false, option_map, IfOk, IsOk};
    ghost use Rattle.nl_value.specs.Memory.{is_shared};
    ghost use Rattle.nl_value.specs.Plain.{PlainWords, PlainItems, PlainSet, plains, text_in};
    ghost use Rattle.nl_value.specs.Views.{plain};

    /// The bytes of the text that the value is.
    pub fn text(&self) -> Option<&[u8]>
        ensures { option_map (λ bytes. bytes.now) result ≡ text_in (plain self.now) }
    {
        match self {
            Value::Words(words) => Some(words.as_bytes()),
            Value::Blank => Some(&[]),
            _ => None,
        }
    }

    /// The value that is a text.
    pub fn words(alloc: Global, text: Str) -> Result<Value, NoMemory>
        ensures { IfOk result (λ value. plain value ≡ PlainWords text) }
    {
        let shared = Rc::new(alloc, text)?;
        Ok(Value::Words(shared))
    }

    /// The value that is a list.
    pub fn items(alloc: Global, items: Items) -> Result<Value, NoMemory>
        ensures { IfOk result (λ value. plain value ≡ PlainItems (plains items)) }
    {
        let shared = Rc::new(alloc, items)?;
        Ok(Value::Items(shared))
    }

    /// The value that is a set.
    pub fn set(alloc: Global, set: AgentSet) -> Result<Value, NoMemory>
        ensures { IfOk result (λ value. plain value ≡ PlainSet set) }
    {
        let shared = Rc::new(alloc, set)?;
        Ok(Value::Set(shared))
    }

    /// The same value again, in no time and without memory: texts, lists and sets are shared. An Err says that 2^64 values
    /// share one.
    #[inline(always)]
    pub fn copy(&self, _alloc: Global) -> Result<Value, NoMemory>
        ensures value { IfOk result (λ value. plain value ≡ plain self.now) }
        ensures without { is_shared (plain self.now) ≡ false → IsOk result }
    {
        match self {
            Value::Number(number) => Ok(Value::Number(*number)),
            Value::Truth(truth) => Ok(Value::Truth(*truth)),
            Value::Words(words) => Ok(Value::Words(words.clone()?)),
            Value::Blank => Ok(Value::Blank),
            Value::Items(items) => Ok(Value::Items(items.clone()?)),
            Value::Turtle(turtle) => Ok(Value::Turtle(*turtle)),
            Value::Patch(patch) => Ok(Value::Patch(*patch)),
            Value::Link(link) => Ok(Value::Link(*link)),
            Value::Nobody => Ok(Value::Nobody),
            Value::Set(set) => Ok(Value::Set(set.clone()?)),
        }
    }
}
