//! The chains of links by their ends.
ghost use Rattle.std.specs.Prelude.{◌≡◌, ◌==◌, ◌+◌, ℕ, Bool, true, false, [], Option, Some, None, IsSome, IsSomeAnd, OnOk, OnErr};
ghost use Rattle.std.specs.Option.{option_map};
ghost use Rattle.nl_store_lists.specs.Chained.{at_number};
ghost use Rattle.nl_store_records.specs.Packed.{IsSmall};
ghost use Rattle.nl_store_records.specs.Records.{record_at, fields_at};
ghost use Rattle.nl_store_records.specs.declared.fields.Fields.{Fields};
ghost use Rattle.nl_store_records.specs.declared.record.Record.{Record};
ghost use Rattle.nl_index.specs.Index.{chain_of, first_of};
ghost use Rattle.nl_links.specs.Sides.{held_count, sides_at, with_first, with_last, no_links, HoldsSame, SameSides, SetsSides};
ghost use Rattle.nl_links.specs.Hints.{FewHints};
ghost use Rattle.nl_links.specs.Ends.{by_first, by_second, lists_joined, lists_parted, no_link_lists, HasEnds, Holds, IsEnded, IsFree, IsHeldBy, IsJoined, LinkLists, MayJoin, SameUnjoined};

use crate::guesses::{Hints, guessed};
use crate::joining::{link_last, unlink};
use crate::sides::{Side, Sides};
use indexmap::IndexMap;
use nl_agents::Steps;
use nl_fixed::NoMemory;
use nl_store_records::{Body, Records};
use std::alloc::Global;
use std::marker::Brand;
use std::sync::ledger::{Blank, Ledger};

/// The chains of links of each turtle that is held: of those that have it as first end, and of those that have it as second end. They are in
/// the records; here are the first and the last key of each, found by the turtle's serial. No call reads a record but `add` and `remove`.
#[derive(Drop)]
pub struct Ends {
    map: IndexMap<u64, Sides>,
    hints: Hints,
}

/// The ends of a link.
#[derive(Clone, Copy, Debug)]
struct LinkEnds {
    first: u64,
    second: u64,
}

/// The ends of the link under a key, which is read with this counter.
fn ends_counted<L: Ledger>(blank: Blank, records: &Records, key: usize) -> LinkEnds
    requires name { blank.name ≡ L.name }
    requires parts { blank.parts ≡ L.parts }
    requires one { blank.parts ≡ 1 }
    requires held { IsSome (record_at records.now key) }
    requires link { IsSome (chain_of by_first (fields_at (record_at records.now) key)) }
    ensures first { chain_of by_first (fields_at (record_at records.now) key) ≡ Some result.first }
    ensures second { chain_of by_second (fields_at (record_at records.now) key) ≡ Some result.second }
{
    let mut steps = Steps::<L>::new(blank);
    match records.read(key, &mut steps).unwrap().fields().body {
        Body::Link { end1, end2, .. } => LinkEnds {
            first: end1,
            second: end2,
        },
        Body::Turtle(_) => LinkEnds {
            first: 0,
            second: 0,
        },
    }
}

/// The ends of the link under a key. It is one read, with a counter of its own.
fn ends_at(records: &Records, key: usize) -> LinkEnds
    requires held { IsSome (record_at records.now key) }
    requires link { IsSome (chain_of by_first (fields_at (record_at records.now) key)) }
    ensures first { chain_of by_first (fields_at (record_at records.now) key) ≡ Some result.first }
    ensures second { chain_of by_second (fields_at (record_at records.now) key) ≡ Some result.second }
{
    ends_counted::<Brand>(Blank::new(1), records, key)
}

impl Ends {
    /// No turtle is held.
    pub fn new(alloc: Global) -> Ends
        ensures none { (turtle : ℕ) → sides_at result turtle ≡ None }
        ensures empty { (at : ℕ → Option Record) → IsEnded result at (λ _. false) no_link_lists }
    {
        Ends {
            map: IndexMap::new(alloc),
            hints: Hints::new(alloc),
        }
    }

    /// Holds a turtle, with two empty chains. Refused for want of memory, it leaves all as it was.
    pub fn enter(&mut self, alloc: Global, turtle: u64) -> Result<(), NoMemory>
        requires { sides_at self.old turtle ≡ None }
        ensures held { OnOk result (Holds self.old self.new turtle true) }
        ensures ended { OnOk result ((at : ℕ → Option Record) (filed : ℕ → Bool) (lists : LinkLists) →
            IsEnded self.old at filed lists → IsEnded self.new at filed lists) }
        ensures kept { OnErr result (SameSides (sides_at self.old) (sides_at self.new)) }
        ensures few { FewHints self.new.hints self.old.hints (held_count self.old + 1) }
    {
        self.hold(alloc, turtle)
    }

    /// Holds a turtle no more, whose chains are empty. It takes no memory.
    pub fn leave(&mut self, turtle: u64)
        requires held { IsHeldBy self.old turtle }
        requires free { IsFree self.old turtle }
        ensures held { Holds self.old self.new turtle false }
        ensures ended { (at : ℕ → Option Record) (filed : ℕ → Bool) (lists : LinkLists) →
            IsEnded self.old at filed lists → lists.first turtle ≡ [] → lists.second turtle ≡ [] →
            IsEnded self.new at filed lists }
    {
        self.let_go(turtle);
    }

    /// The first keys of a turtle's two chains: of the links that have it as first end, and of those that have it as second end. None exactly
    /// where a chain is empty. It takes the same time however many links there are.
    pub fn firsts(&self, turtle: u64) -> (Option<usize>, Option<usize>)
        requires { IsHeldBy self.now turtle }
        ensures first { (at : ℕ → Option Record) (filed : ℕ → Bool) (lists : LinkLists) →
            IsEnded self.now at filed lists → result.0 ≡ first_of (lists.first turtle) }
        ensures second { (at : ℕ → Option Record) (filed : ℕ → Bool) (lists : LinkLists) →
            IsEnded self.now at filed lists → result.1 ≡ first_of (lists.second turtle) }
    {
        let sides = self.sides(turtle);
        (sides.first.first(), sides.second.first())
    }

    /// Makes a link the last of the chains of both of its ends, which are held. It takes no memory, and the same time however many links
    /// there are.
    pub fn add(&mut self, records: &mut Records, key: usize)
        requires held { IsSome (record_at records.old key) }
        requires away { MayJoin self.old (record_at records.old) key }
        requires ends { IsSomeAnd (fields_at (record_at records.old) key) (HasEnds self.old) }
        ensures joined { (filed : ℕ → Bool) (lists : LinkLists) (f : Fields) →
            IsEnded self.old (record_at records.old) filed lists → filed key ≡ false →
            fields_at (record_at records.old) key ≡ Some f →
            IsEnded self.new (record_at records.new) (at_number filed key true) (lists_joined f key lists) }
        ensures others { SameUnjoined (record_at records.old) (record_at records.new) }
        ensures turtles { HoldsSame self.old self.new }
    {
        let ends = ends_at(records, key);
        link_last(self, records, Side::First, ends.first, key);
        link_last(self, records, Side::Second, ends.second, key);
    }

    /// Takes a link out of the chains of both of its ends. It takes no memory, and the same time however many links there are.
    pub fn remove(&mut self, records: &mut Records, key: usize)
        requires held { IsSome (record_at records.old key) }
        requires joined { IsJoined self.old (record_at records.old) key }
        ensures parted { (filed : ℕ → Bool) (lists : LinkLists) (f : Fields) →
            IsEnded self.old (record_at records.old) filed lists → filed key ≡ true →
            fields_at (record_at records.old) key ≡ Some f →
            IsEnded self.new (record_at records.new) (at_number filed key false) (lists_parted f key lists) }
        ensures others { SameUnjoined (record_at records.old) (record_at records.new) }
        ensures turtles { HoldsSame self.old self.new }
    {
        let ends = ends_at(records, key);
        unlink(self, records, Side::First, ends.first, key);
        unlink(self, records, Side::Second, ends.second, key);
    }

    fn hold(&mut self, alloc: Global, turtle: u64) -> Result<(), NoMemory>
        ensures held { OnOk result (SetsSides (sides_at self.old) (sides_at self.new) turtle (Some no_links)) }
        ensures kept { OnErr result (SameSides (sides_at self.old) (sides_at self.new)) }
        ensures few { FewHints self.new.hints self.old.hints (held_count self.old + 1) }
    {
        let index = self.map.len();
        self.hints.room(alloc, index + 1)?;
        self.hints.put(turtle, index);
        self.map.insert(turtle, Sides::empty())?;
        Ok(())
    }

    fn let_go(&mut self, turtle: u64)
        ensures { SetsSides (sides_at self.old) (sides_at self.new) turtle None }
    {
        if let Some((index, _, _)) = self.map.swap_remove_full(&turtle)
            && let Some((moved, _)) = self.map.get_index(index)
        {
            self.hints.put(*moved, index);
        }
    }

    /// The borders of a turtle's chains.
    pub(crate) fn sides(&self, turtle: u64) -> Sides
        requires { IsSome (sides_at self.now turtle) }
        ensures { sides_at self.now turtle ≡ Some result }
    {
        match guessed(&self.map, self.hints.of(turtle), turtle) {
            Some(sides) => *sides,
            None => self.found(turtle),
        }
    }

    // The borders of a turtle's chains, by its hash. It stands apart, so that where a hint suffices nothing is kept for it.
    #[inline(never)]
    fn found(&self, turtle: u64) -> Sides
        requires { IsSome (sides_at self.now turtle) }
        ensures { sides_at self.now turtle ≡ Some result }
    {
        *self.map.get(&turtle).unwrap()
    }

    pub(crate) fn set_first(&mut self, side: Side, turtle: u64, to: Option<usize>)
        requires held { IsSome (sides_at self.old turtle) }
        requires small { IsSmall to }
        ensures { let changed = option_map (with_first side to) (sides_at self.old turtle) in
            SetsSides (sides_at self.old) (sides_at self.new) turtle changed }
    {
        if let Some(sides) = self.map.get_mut(&turtle) {
            sides.set_first(side, to);
        }
    }

    pub(crate) fn set_last(&mut self, side: Side, turtle: u64, to: Option<usize>)
        requires held { IsSome (sides_at self.old turtle) }
        requires small { IsSmall to }
        ensures { let changed = option_map (with_last side to) (sides_at self.old turtle) in
            SetsSides (sides_at self.old) (sides_at self.new) turtle changed }
    {
        if let Some(sides) = self.map.get_mut(&turtle) {
            sides.set_last(side, to);
        }
    }
}
