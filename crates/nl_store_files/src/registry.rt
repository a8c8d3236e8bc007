//! The records of turtles and links with their chains and keys.
ghost use Rattle.std.specs.Prelude.{◌≡◌, ◌==◌, ◌+◌, ◌<◌, ◌≤◌, ◌∷◌, ◌++◌, [], Bool, if◌then◌else◌, map, filter, find, length, not, true, false, Some, None, IsSome, IfOk, IfErr, IfSome, IfNone, OnOk, OnErr, is_some, option_map};
ghost use Rattle.std.specs.List.{list_any};
ghost use Rattle.nl_value.specs.Views.{plain};
ghost use Rattle.nl_grid.specs.Geometry.{IsPointOf, patch_at, patches_of};
ghost use Rattle.nl_agents.specs.Changes.{is_turtle, is_link, has_end, bred_vars, value_set};
ghost use Rattle.nl_agents.specs.Members.{is_of_breed};
ghost use Rattle.nl_agents.specs.declared.agents.Turtle as living;
ghost use Rattle.nl_agents.specs.declared.agents.Link as tie;
ghost use Rattle.nl_store_files.specs.Agents.{Agents, KeepAll, link_entry, links_filled, turtle_entry, turtles_filled, turtles_moved, turtles_of_other_breed, turtles_rebred};

use crate::changing::{rebreed_variables, set_variable};
use crate::filing::{make_room, put_new};
use crate::filling::{fill_both, fill_in_order, fill_sorted};
use crate::keys::Keys;
use crate::looking::{either, fields_of, key_of, link_parts, point_of};
use crate::walk::length;
use nl_agents::{Layout, Slots, Steps, Variables};
use nl_fixed::NoMemory;
use nl_grid::{Point, Shape};
use nl_index::{Chain, Chains};
use nl_links::Ends;
use nl_store_records::{Body, Fields, Records};
use nl_value::{Serials, Value};
use std::alloc::Global;
use std::marker::Model;
use std::sync::ledger::Ledger;

/// All turtles and links that live. Each is found by its serial; the turtles of a patch and of a breed, and the links of a turtle, are found
/// without a look at others. Serials are given from 0 on, those of turtles and those of links apart, and none is given twice.
#[derive(Drop)]
pub struct Registry {
    records: Records,
    chains: Chains,
    ends: Ends,
    turtle_keys: Keys,
    link_keys: Keys,
    turtles_given: u64,
    links_given: u64,
}

impl Model for Registry {
    ghost use Rattle.nl_store_records.specs.Records.{record_at};
    ghost use Rattle.nl_store_files.specs.Keys.{key_in};
    ghost use Rattle.nl_store_files.specs.Agents.{Agents};
    ghost use Rattle.nl_store_files.specs.Standing.{agents_of, AreCounted, IsFiles};
    ghost use Rattle.std.specs.Coded.{codes};
    ghost use Rattle.nl_value.specs.inner.Codes.{plain_code};

    ghost Value = { Agents };

    ghost coded = { Prim.hlevel (codes, plain_code) };

    ghost view = { λ f. agents_of f.chains (record_at f.records) f.turtle_keys f.link_keys
        f.turtles_given f.links_given };

    ghost invariant = { λ f. IsFiles f.chains f.ends (record_at f.records)
        (key_in f.turtle_keys) (key_in f.link_keys) f.turtles_given f.links_given
        × AreCounted (record_at f.records) f.turtle_keys f.link_keys f.turtles_given f.links_given };
}

impl Registry {
    /// No agents, in a world of this shape, with so many breeds, where breed 0 counts too.
    pub fn new(alloc: Global, shape: Shape, breeds: u32) -> Result<Registry, NoMemory>
        ensures { IfOk result (λ files. files ≡ record {
          shape = shape;
          breeds = breeds;
          turtles = [];
          links = [];
          turtles_given = 0;
          links_given = 0;
        }) }
    {
        let chains = Chains::new(alloc, shape, breeds)?;
        Ok(Registry {
            records: Records::new(alloc),
            chains,
            ends: Ends::new(alloc),
            turtle_keys: Keys::new(alloc),
            link_keys: Keys::new(alloc),
            turtles_given: 0,
            links_given: 0,
        })
    }

    /// How many serials of turtles were given.
    pub fn turtles_given(&self) -> u64
        ensures { result ≡ self.now.turtles_given }
    {
        self.turtles_given
    }

    /// How many serials of links were given.
    pub fn links_given(&self) -> u64
        ensures { result ≡ self.now.links_given }
    {
        self.links_given
    }

    /// How many turtles live.
    pub fn turtle_count(&self) -> usize
        ensures { result ≡ length self.now.turtles }
    {
        self.turtle_keys.len()
    }

    /// How many links live.
    pub fn link_count(&self) -> usize
        ensures { result ≡ length self.now.links }
    {
        self.link_keys.len()
    }

    /// Whether a turtle of the serial lives.
    pub fn has_turtle(&self, turtle: u64) -> bool
        ensures { result ≡ is_some (find (is_turtle turtle) self.now.turtles) }
    {
        self.turtle_keys.get(turtle).is_some()
    }

    /// Whether a link of the serial lives.
    pub fn has_link(&self, link: u64) -> bool
        ensures { result ≡ is_some (find (is_link link) self.now.links) }
    {
        self.link_keys.get(link).is_some()
    }

    /// A turtle under the next serial, which is given. Refused for want of memory, it leaves all as it was.
    pub fn add_turtle(
        &mut self,
        alloc: Global,
        breed: u32,
        at: Point,
        vars: Variables,
    ) -> Result<u64, NoMemory>
        requires given { self.old.turtles_given < 9_000_000_000_000 }
        requires at { IsPointOf self.old.shape at }
        requires breed { breed < self.old.breeds }
        ensures serial { IfOk result (λ serial. serial ≡ self.old.turtles_given) }
        ensures added { OnOk result (self.new ≡ record self.old {
          turtles = self.old.turtles ++ (record {
            serial = self.old.turtles_given;
            breed = breed;
            at = at;
            vars = vars;
          }) ∷ [];
          turtles_given = self.old.turtles_given + 1;
        }) }
        ensures kept { OnErr result (self.new ≡ self.old) }
    {
        let serial = self.turtles_given;
        make_room(alloc, &mut self.records, &mut self.turtle_keys)?;
        self.ends.enter(alloc, serial)?;
        let fields = Fields {
            serial,
            body: Body::Turtle(at),
            breed,
            vars,
        };
        let key = put_new(alloc, &mut self.records, fields);
        self.chains.add(&mut self.records, key);
        self.turtle_keys.put(serial, key);
        self.turtles_given = serial + 1;
        Ok(serial)
    }

    /// A link under the next serial, which is given. Refused for want of memory, it leaves all as it was.
    pub fn add_link(
        &mut self,
        alloc: Global,
        breed: u32,
        directed: bool,
        end1: u64,
        end2: u64,
        vars: Variables,
    ) -> Result<u64, NoMemory>
        requires given { self.old.links_given < 9_000_000_000_000 }
        requires first { IsSome (find (is_turtle end1) self.old.turtles) }
        requires second { IsSome (find (is_turtle end2) self.old.turtles) }
        requires apart { (end1 == end2) ≡ false }
        ensures serial { IfOk result (λ serial. serial ≡ self.old.links_given) }
        ensures added { OnOk result (self.new ≡ record self.old {
          links = self.old.links ++ (record {
            serial = self.old.links_given;
            breed = breed;
            directed = directed;
            end1 = end1;
            end2 = end2;
            vars = vars;
          }) ∷ [];
          links_given = self.old.links_given + 1;
        }) }
        ensures kept { OnErr result (self.new ≡ self.old) }
    {
        let serial = self.links_given;
        make_room(alloc, &mut self.records, &mut self.link_keys)?;
        let fields = Fields {
            serial,
            body: Body::Link {
                directed,
                end1,
                end2,
            },
            breed,
            vars,
        };
        let key = put_new(alloc, &mut self.records, fields);
        self.chains.add(&mut self.records, key);
        self.ends.add(&mut self.records, key);
        self.link_keys.put(serial, key);
        self.links_given = serial + 1;
        Ok(serial)
    }

    /// The link is gone. It takes no memory.
    pub fn remove_link(&mut self, link: u64)
        requires { IsSome (find (is_link link) self.old.links) }
        ensures left { self.new ≡ record self.old {
          links = filter (λ l. not (is_link link l)) self.old.links;
        } }
        ensures counts { (test : tie.Link → Bool) (l : tie.Link) →
            find (is_link link) self.old.links ≡ Some l →
            length (filter test self.new.links) + (if test l then 1 else 0)
            ≡ length (filter test self.old.links) }
    {
        let key = self.link_keys.take(link);
        self.ends.remove(&mut self.records, key);
        self.chains.remove(&mut self.records, key);
        let _ = self.records.take(key);
    }

    /// The turtle is gone, which no link has as an end. It takes no memory.
    pub fn remove_turtle(&mut self, turtle: u64)
        requires lives { IsSome (find (is_turtle turtle) self.old.turtles) }
        requires free { list_any (has_end turtle) self.old.links ≡ false }
        ensures left { self.new ≡ record self.old {
          turtles = filter (λ t. not (is_turtle turtle t)) self.old.turtles;
        } }
        ensures counts { (test : living.Turtle → Bool) (t : living.Turtle) →
            find (is_turtle turtle) self.old.turtles ≡ Some t →
            length (filter test self.new.turtles) + (if test t then 1 else 0)
            ≡ length (filter test self.old.turtles) }
    {
        let key = self.turtle_keys.take(turtle);
        self.ends.leave(turtle);
        self.chains.remove(&mut self.records, key);
        let _ = self.records.take(key);
    }

    /// Where a turtle stands.
    pub fn at(&self, turtle: u64) -> Point
        requires { IsSome (find (is_turtle turtle) self.now.turtles) }
        ensures { option_map (λ t. t.at) (find (is_turtle turtle) self.now.turtles) ≡ Some result }
    {
        let key = key_of(&self.turtle_keys, turtle);
        point_of(&self.records, key)
    }

    /// The breed of a turtle.
    pub fn breed_of(&self, turtle: u64) -> u32
        requires { IsSome (find (is_turtle turtle) self.now.turtles) }
        ensures { option_map (λ t. t.breed) (find (is_turtle turtle) self.now.turtles) ≡ Some result }
    {
        let key = key_of(&self.turtle_keys, turtle);
        fields_of(&self.records, key).breed
    }

    /// What a turtle keeps.
    pub fn turtle_vars(&self, turtle: u64) -> &Variables
        requires { IsSome (find (is_turtle turtle) self.now.turtles) }
        ensures { option_map (λ t. t.vars) (find (is_turtle turtle) self.now.turtles) ≡ Some result.now }
    {
        let key = key_of(&self.turtle_keys, turtle);
        &fields_of(&self.records, key).vars
    }

    /// The ends of a link.
    pub fn ends(&self, link: u64) -> (u64, u64)
        requires { IsSome (find (is_link link) self.now.links) }
        ensures first { option_map (λ l. l.end1) (find (is_link link) self.now.links) ≡ Some result.0 }
        ensures second { option_map (λ l. l.end2) (find (is_link link) self.now.links) ≡ Some result.1 }
    {
        let key = key_of(&self.link_keys, link);
        let parts = link_parts(&self.records, key);
        (parts.end1, parts.end2)
    }

    /// The breed of a link, and whether it has a direction.
    pub fn link_breed(&self, link: u64) -> (u32, bool)
        requires { IsSome (find (is_link link) self.now.links) }
        ensures breed { option_map (λ l. l.breed) (find (is_link link) self.now.links) ≡ Some result.0 }
        ensures directed { option_map (λ l. l.directed) (find (is_link link) self.now.links) ≡ Some result.1 }
    {
        let key = key_of(&self.link_keys, link);
        let breed = fields_of(&self.records, key).breed;
        (breed, link_parts(&self.records, key).directed)
    }

    /// What a link keeps.
    pub fn link_vars(&self, link: u64) -> &Variables
        requires { IsSome (find (is_link link) self.now.links) }
        ensures { option_map (λ l. l.vars) (find (is_link link) self.now.links) ≡ Some result.now }
    {
        let key = key_of(&self.link_keys, link);
        &fields_of(&self.records, key).vars
    }

    /// Fills the list with the serials of the turtles, ascending.
    pub fn turtles<L: Ledger>(
        &self,
        alloc: Global,
        into: &mut Serials,
        steps: &mut Steps<L>,
    ) -> Result<(), NoMemory>
        ensures list { OnOk result (into.new ≡ map (λ t. t.serial) self.now.turtles) }
        ensures reads { steps.new ≤ steps.old + length self.now.turtles }
    {
        let first = self.chains.first(Chain::Turtles);
        let most = self.turtle_keys.len();
        fill_in_order(alloc, &self.records, 0, first, most, into, steps)
    }

    /// Fills the list with the serials of the links, ascending.
    pub fn links<L: Ledger>(
        &self,
        alloc: Global,
        into: &mut Serials,
        steps: &mut Steps<L>,
    ) -> Result<(), NoMemory>
        ensures list { OnOk result (into.new ≡ map (λ l. l.serial) self.now.links) }
        ensures reads { steps.new ≤ steps.old + length self.now.links }
    {
        let first = self.chains.first(Chain::Links);
        let most = self.link_keys.len();
        fill_in_order(alloc, &self.records, 0, first, most, into, steps)
    }

    /// Fills the list with the serials of the turtles of a breed, ascending.
    pub fn of_breed<L: Ledger>(
        &self,
        alloc: Global,
        breed: u32,
        into: &mut Serials,
        steps: &mut Steps<L>,
    ) -> Result<(), NoMemory>
        requires { breed < self.now.breeds }
        ensures list { OnOk result (into.new
            ≡ map (λ t. t.serial) (filter (is_of_breed breed) self.now.turtles)) }
        ensures reads { steps.new ≤ steps.old + length (filter (is_of_breed breed) self.now.turtles) }
    {
        let first = self.chains.first(Chain::Breed(breed));
        let most = self.turtle_keys.len();
        fill_sorted(alloc, &self.records, 2, first, most, into, steps)
    }

    /// Fills the list with the serials of the turtles on a patch, ascending.
    pub fn members_on<L: Ledger>(
        &self,
        alloc: Global,
        patch: u32,
        into: &mut Serials,
        steps: &mut Steps<L>,
    ) -> Result<(), NoMemory>
        requires { patch < patches_of self.now.shape }
        ensures list { OnOk result (into.new
            ≡ map (λ t. t.serial) (filter (λ t. patch_at self.now.shape t.at == patch) self.now.turtles)) }
        ensures reads { steps.new
            ≤ steps.old + length (filter (λ t. patch_at self.now.shape t.at == patch) self.now.turtles) }
    {
        let first = self.chains.first(Chain::Patch(patch));
        let most = self.turtle_keys.len();
        fill_sorted(alloc, &self.records, 1, first, most, into, steps)
    }

    /// How many turtles stand on the patch.
    pub fn count_on<L: Ledger>(&self, patch: u32, steps: &mut Steps<L>) -> usize
        requires { patch < patches_of self.now.shape }
        ensures many { result ≡ length (filter (λ t. patch_at self.now.shape t.at == patch) self.now.turtles) }
        ensures reads { steps.new
            ≤ steps.old + length (filter (λ t. patch_at self.now.shape t.at == patch) self.now.turtles) }
    {
        let most = self.turtle_keys.len();
        length(
            &self.records,
            1,
            self.chains.first(Chain::Patch(patch)),
            most,
            steps,
        )
    }

    /// How many links have the turtle as an end.
    pub fn count_links_of<L: Ledger>(&self, turtle: u64, steps: &mut Steps<L>) -> usize
        requires { IsSome (find (is_turtle turtle) self.now.turtles) }
        ensures many { result ≡ length (filter (has_end turtle) self.now.links) }
        ensures reads { steps.new ≤ steps.old + length (filter (has_end turtle) self.now.links) }
    {
        let firsts = self.ends.firsts(turtle);
        let most = self.link_keys.len();
        let by_first = length(&self.records, 3, firsts.0, most, steps);
        by_first + length(&self.records, 4, firsts.1, most, steps)
    }

    /// Fills the list with the serials of the links that have the turtle as an end, ascending.
    pub fn links_of<L: Ledger>(
        &self,
        alloc: Global,
        turtle: u64,
        into: &mut Serials,
        steps: &mut Steps<L>,
    ) -> Result<(), NoMemory>
        requires { IsSome (find (is_turtle turtle) self.now.turtles) }
        ensures list { OnOk result (into.new ≡ map (λ l. l.serial) (filter (has_end turtle) self.now.links)) }
        ensures reads { steps.new ≤ steps.old + length (filter (has_end turtle) self.now.links) }
    {
        let firsts = self.ends.firsts(turtle);
        let most = self.link_keys.len();
        fill_both(alloc, &self.records, firsts, most, into, steps)
    }

    /// The turtle stands at the point. It takes no memory.
    pub fn move_turtle(&mut self, turtle: u64, to: Point)
        requires lives { IsSome (find (is_turtle turtle) self.old.turtles) }
        requires at { IsPointOf self.old.shape to }
        ensures { self.new ≡ record self.old { turtles = turtles_moved turtle to self.old.turtles } }
    {
        let key = key_of(&self.turtle_keys, turtle);
        let breed = fields_of(&self.records, key).breed;
        self.chains.refile(&mut self.records, key, to, breed);
    }

    /// The turtle is of the breed, and keeps what one of that breed does. It takes no memory.
    pub fn rebreed_turtle(&mut self, alloc: Global, layout: &Layout, turtle: u64, breed: u32)
        requires lives { IsSome (find (is_turtle turtle) self.old.turtles) }
        requires many { KeepAll layout.now self.old.turtles }
        requires breed { breed < self.old.breeds }
        ensures { self.new ≡ record self.old {
          turtles = turtles_rebred layout.now turtle breed self.old.turtles;
        } }
    {
        self.refill_turtle(alloc, layout, turtle, breed);
        self.refile_turtle(turtle, breed);
    }

    fn refill_turtle(&mut self, alloc: Global, layout: &Layout, turtle: u64, breed: u32)
        requires lives { IsSome (find (is_turtle turtle) self.old.turtles) }
        requires many { KeepAll layout.now self.old.turtles }
        ensures { self.new ≡ record self.old {
          turtles = turtles_filled (bred_vars layout.now breed) turtle self.old.turtles;
        } }
    {
        let key = key_of(&self.turtle_keys, turtle);
        rebreed_variables(alloc, &mut self.records, key, layout, breed);
    }

    fn refile_turtle(&mut self, turtle: u64, breed: u32)
        requires lives { IsSome (find (is_turtle turtle) self.old.turtles) }
        requires breed { breed < self.old.breeds }
        ensures { self.new ≡ record self.old {
          turtles = turtles_of_other_breed turtle breed self.old.turtles;
        } }
    {
        let key = key_of(&self.turtle_keys, turtle);
        let at = point_of(&self.records, key);
        self.chains.refile(&mut self.records, key, at, breed);
    }

    /// Sets a variable of a turtle, where its breed owns it, and hands back the old value; else the new one. It takes no memory.
    pub fn set_turtle(
        &mut self,
        alloc: Global,
        slots: &Slots,
        turtle: u64,
        slot: u32,
        value: Value,
    ) -> Result<Value, Value>
        requires { IsSome (find (is_turtle turtle) self.old.turtles) }
        ensures old { IfOk result (λ old.
            turtle_entry slots.now slot turtle self.old.turtles ≡ Some (plain old)) }
        ensures back { IfErr result (λ back. plain back ≡ plain value) }
        ensures not_owned { OnErr result (turtle_entry slots.now slot turtle self.old.turtles ≡ None) }
        ensures set { self.new ≡ record self.old {
          turtles = turtles_filled (λ vars. value_set slots.now vars slot (plain value)) turtle
              self.old.turtles;
        } }
    {
        let key = key_of(&self.turtle_keys, turtle);
        set_variable(alloc, &mut self.records, key, slots, slot, value)
    }

    /// Sets a variable of a link, where its breed owns it, and hands back the old value; else the new one. It takes no memory.
    pub fn set_link(
        &mut self,
        alloc: Global,
        slots: &Slots,
        link: u64,
        slot: u32,
        value: Value,
    ) -> Result<Value, Value>
        requires { IsSome (find (is_link link) self.old.links) }
        ensures old { IfOk result (λ old. link_entry slots.now slot link self.old.links ≡ Some (plain old)) }
        ensures back { IfErr result (λ back. plain back ≡ plain value) }
        ensures not_owned { OnErr result (link_entry slots.now slot link self.old.links ≡ None) }
        ensures set { self.new ≡ record self.old {
          links = links_filled (λ vars. value_set slots.now vars slot (plain value)) link self.old.links;
        } }
    {
        let key = key_of(&self.link_keys, link);
        set_variable(alloc, &mut self.records, key, slots, slot, value)
    }

    /// A link that has the turtle as an end. None exactly where there is none.
    pub fn some_link_of(&self, turtle: u64) -> Option<u64>
        requires { IsSome (find (is_turtle turtle) self.now.turtles) }
        ensures none { IfNone result (list_any (has_end turtle) self.now.links ≡ false) }
        ensures lives { IfSome result (λ link. IsSome (find (is_link link) self.now.links)) }
        ensures touches { IfSome result (λ link.
            IfSome (find (is_link link) self.now.links) (λ l. has_end turtle l ≡ true)) }
    {
        let firsts = self.ends.firsts(turtle);
        match either(firsts) {
            None => None,
            Some(key) => Some(fields_of(&self.records, key).serial),
        }
    }

    /// A link. None exactly where there is none.
    pub fn some_link(&self) -> Option<u64>
        ensures none { IfNone result (self.now.links ≡ []) }
        ensures lives { IfSome result (λ link. IsSome (find (is_link link) self.now.links)) }
    {
        match self.chains.first(Chain::Links) {
            None => None,
            Some(key) => Some(fields_of(&self.records, key).serial),
        }
    }

    /// A turtle. None exactly where there is none.
    pub fn some_turtle(&self) -> Option<u64>
        ensures none { IfNone result (self.now.turtles ≡ []) }
        ensures lives { IfSome result (λ turtle. IsSome (find (is_turtle turtle) self.now.turtles)) }
    {
        match self.chains.first(Chain::Turtles) {
            None => None,
            Some(key) => Some(fields_of(&self.records, key).serial),
        }
    }

    /// Gives serials of turtles up to this one away.
    pub fn skip_turtles(&mut self, to: u64)
        requires { self.old.turtles_given ≤ to }
        ensures { self.new ≡ record self.old { turtles_given = to } }
    {
        self.turtles_given = to;
    }

    /// Gives serials of links up to this one away.
    pub fn skip_links(&mut self, to: u64)
        requires { self.old.links_given ≤ to }
        ensures { self.new ≡ record self.old { links_given = to } }
    {
        self.links_given = to;
    }
}
