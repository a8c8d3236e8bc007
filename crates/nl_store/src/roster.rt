//! The agents of a store, with counts of them.
ghost use Rattle.std.specs.Prelude.{◌≡◌, ◌==◌, ◌+◌, ◌<◌, ◌≤◌, ◌∷◌, ◌++◌, [], filter, find, length, not, false, Some, None, IsSome, IfOk, IfErr, OnOk, OnErr};
ghost use Rattle.std.specs.List.{list_any};
ghost use Rattle.nl_value.specs.Views.{plain};
ghost use Rattle.nl_grid.specs.Geometry.{IsPointOf};
ghost use Rattle.nl_agents.specs.Changes.{is_turtle, is_link, has_end, value_set};
ghost use Rattle.nl_store_files.specs.Agents.{KeepAll, link_entry, links_filled, turtle_entry, turtles_filled, turtles_moved, turtles_rebred};
ghost use Rattle.nl_store.specs.Counts.{breed_many, unbreeded};
ghost use Rattle.nl_store.specs.Sound.{AreSound, LinksAscend, TurtlesAscend};

use crate::census::Census;
use crate::copying::{copy_links, copy_turtles};
use nl_agents::{Layout, Slots, Variables};
use nl_fixed::NoMemory;
use nl_grid::{Point, Shape};
use nl_store_files::Registry;
use nl_value::Value;
use std::alloc::Global;
use std::marker::Model;

/// The turtles and links of a store, with counts that are kept and not counted. Serials are given from 0 on, those of turtles and those of
/// links apart, and none is given twice.
#[derive(Drop)]
pub struct Roster {
    files: Registry,
    census: Census,
    shape: Shape,
    breeds: u32,
}

impl Model for Roster {
    ghost use Rattle.nl_store_files.specs.Agents.{Agents};
    ghost use Rattle.nl_store.specs.Sound.{IsRoster};
    ghost use Rattle.std.specs.Coded.{codes};
    ghost use Rattle.nl_value.specs.inner.Codes.{plain_code};

    ghost Value = { Agents };

    ghost coded = { Prim.hlevel (codes, plain_code) };

    ghost view = { λ r. r.files };

    ghost invariant = { λ r. IsRoster r.files r.census r.shape r.breeds };
}

impl Roster {
    /// No agents, in a world of this shape, with so many breeds, where breed 0 counts too.
    pub fn new(alloc: Global, shape: Shape, breeds: u32) -> Result<Roster, NoMemory>
        ensures { IfOk result (λ roster. roster ≡ record {
          shape = shape;
          breeds = breeds;
          turtles = [];
          links = [];
          turtles_given = 0;
          links_given = 0;
        }) }
    {
        Ok(Roster {
            files: Registry::new(alloc, shape, breeds)?,
            census: Census::none(alloc, breeds)?,
            shape,
            breeds,
        })
    }

    /// The agents.
    pub fn files(&self) -> &Registry
        ensures { result.now ≡ self.now }
    {
        &self.files
    }

    /// How many turtles are of a breed.
    pub fn breed_count(&self, breed: u32) -> usize
        ensures { result ≡ breed_many breed self.now.turtles }
    {
        self.census.of_breed(breed)
    }

    /// How many links of no breed have a direction, or have none.
    pub fn unbreeded_count(&self, directed: bool) -> usize
        ensures { result ≡ unbreeded directed self.now.links }
    {
        self.census.unbreeded(directed)
    }

    /// A turtle under the next serial, which is given. Refused for want of memory, it leaves all as it was.
    pub fn add_turtle(
        &mut self,
        alloc: Global,
        breed: u32,
        at: Point,
        vars: Variables,
    ) -> Result<u64, NoMemory>
        requires few { length self.old.turtles < 200_000 }
        requires given { self.old.turtles_given < 9_000_000_000_000 }
        requires at { IsPointOf self.old.shape at }
        requires breed { breed < self.old.breeds }
        ensures serial { IfOk result (λ serial. serial ≡ self.old.turtles_given) }
        ensures added { OnOk result (self.new ≡ record self.old {
          turtles = self.old.turtles ++ (record {
            serial = self.old.turtles_given;
            breed = breed;
            at = at;
            vars = vars;
          }) ∷ [];
          turtles_given = self.old.turtles_given + 1;
        }) }
        ensures kept { OnErr result (self.new ≡ self.old) }
    {
        let serial = self.files.add_turtle(alloc, breed, at, vars)?;
        self.census.turtle_more(breed);
        Ok(serial)
    }

    /// A link under the next serial, which is given. Refused for want of memory, it leaves all as it was.
    pub fn add_link(
        &mut self,
        alloc: Global,
        breed: u32,
        directed: bool,
        end1: u64,
        end2: u64,
        vars: Variables,
    ) -> Result<u64, NoMemory>
        requires few { length self.old.links < 400_000 }
        requires given { self.old.links_given < 9_000_000_000_000 }
        requires first { IsSome (find (is_turtle end1) self.old.turtles) }
        requires second { IsSome (find (is_turtle end2) self.old.turtles) }
        requires apart { (end1 == end2) ≡ false }
        ensures serial { IfOk result (λ serial. serial ≡ self.old.links_given) }
        ensures added { OnOk result (self.new ≡ record self.old {
          links = self.old.links ++ (record {
            serial = self.old.links_given;
            breed = breed;
            directed = directed;
            end1 = end1;
            end2 = end2;
            vars = vars;
          }) ∷ [];
          links_given = self.old.links_given + 1;
        }) }
        ensures kept { OnErr result (self.new ≡ self.old) }
    {
        let serial = self
            .files
            .add_link(alloc, breed, directed, end1, end2, vars)?;
        self.census.link_more(breed, directed);
        Ok(serial)
    }

    /// The link is gone. It takes no memory.
    pub fn cut(&mut self, link: u64)
        requires { IsSome (find (is_link link) self.old.links) }
        ensures { self.new ≡ record self.old {
          links = filter (λ l. not (is_link link l)) self.old.links;
        } }
    {
        let (breed, directed) = self.files.link_breed(link);
        self.files.remove_link(link);
        self.census.link_less(breed, directed);
    }

    /// The turtle is gone, and each link that has it as an end. It takes no memory, and a time that grows with the number of these
    /// links alone.
    pub fn kill(&mut self, turtle: u64)
        requires lives { IsSome (find (is_turtle turtle) self.old.turtles) }
        requires order { LinksAscend self.old.links }
        ensures { self.new ≡ record self.old {
          turtles = filter (λ t. not (is_turtle turtle t)) self.old.turtles;
          links = filter (λ l. not (has_end turtle l)) self.old.links;
        } }
    {
        self.cut_all_of(turtle);
        self.remove(turtle);
    }

    /// The links that have the turtle as an end are gone.
    fn cut_all_of(&mut self, turtle: u64)
        requires lives { IsSome (find (is_turtle turtle) self.old.turtles) }
        requires order { LinksAscend self.old.links }
        ensures { self.new ≡ record self.old {
          links = filter (λ l. not (has_end turtle l)) self.old.links;
        } }
    {
        while let Some(link) = self.files().some_link_of(turtle) {
            self.cut(link);
        }
    }

    /// The turtle is gone, which no link has as an end.
    fn remove(&mut self, turtle: u64)
        requires lives { IsSome (find (is_turtle turtle) self.old.turtles) }
        requires free { list_any (has_end turtle) self.old.links ≡ false }
        ensures { self.new ≡ record self.old {
          turtles = filter (λ t. not (is_turtle turtle t)) self.old.turtles;
        } }
    {
        let breed = self.files.breed_of(turtle);
        self.files.remove_turtle(turtle);
        self.census.turtle_less(breed);
    }

    /// The turtle stands at the point. It takes no memory.
    pub fn move_turtle(&mut self, turtle: u64, to: Point)
        requires lives { IsSome (find (is_turtle turtle) self.old.turtles) }
        requires at { IsPointOf self.old.shape to }
        ensures { self.new ≡ record self.old { turtles = turtles_moved turtle to self.old.turtles } }
    {
        self.files.move_turtle(turtle, to);
    }

    /// The turtle is of the breed, and keeps what one of that breed does. It takes no memory.
    pub fn rebreed(&mut self, alloc: Global, layout: &Layout, turtle: u64, breed: u32)
        requires few { length self.old.turtles ≤ 200_000 }
        requires order { TurtlesAscend self.old.turtles }
        requires lives { IsSome (find (is_turtle turtle) self.old.turtles) }
        requires many { KeepAll layout.now self.old.turtles }
        requires breed { breed < self.old.breeds }
        ensures { self.new ≡ record self.old {
          turtles = turtles_rebred layout.now turtle breed self.old.turtles;
        } }
    {
        let was = self.files.breed_of(turtle);
        self.files.rebreed_turtle(alloc, layout, turtle, breed);
        self.census.turtle_less(was);
        self.census.turtle_more(breed);
    }

    /// Sets a variable of a turtle, where its breed owns it, and hands back the old value; else the new one. It takes no memory.
    pub fn set_turtle(
        &mut self,
        alloc: Global,
        slots: &Slots,
        turtle: u64,
        slot: u32,
        value: Value,
    ) -> Result<Value, Value>
        requires { IsSome (find (is_turtle turtle) self.old.turtles) }
        ensures old { IfOk result (λ old.
            turtle_entry slots.now slot turtle self.old.turtles ≡ Some (plain old)) }
        ensures back { IfErr result (λ back. plain back ≡ plain value) }
        ensures not_owned { OnErr result (turtle_entry slots.now slot turtle self.old.turtles ≡ None) }
        ensures set { self.new ≡ record self.old {
          turtles = turtles_filled (λ vars. value_set slots.now vars slot (plain value)) turtle
              self.old.turtles;
        } }
    {
        self.files.set_turtle(alloc, slots, turtle, slot, value)
    }

    /// Sets a variable of a link, where its breed owns it, and hands back the old value; else the new one. It takes no memory.
    pub fn set_link(
        &mut self,
        alloc: Global,
        slots: &Slots,
        link: u64,
        slot: u32,
        value: Value,
    ) -> Result<Value, Value>
        requires { IsSome (find (is_link link) self.old.links) }
        ensures old { IfOk result (λ old.
            link_entry slots.now slot link self.old.links ≡ Some (plain old)) }
        ensures back { IfErr result (λ back. plain back ≡ plain value) }
        ensures not_owned { OnErr result (link_entry slots.now slot link self.old.links ≡ None) }
        ensures set { self.new ≡ record self.old {
          links = links_filled (λ vars. value_set slots.now vars slot (plain value)) link self.old.links;
        } }
    {
        self.files.set_link(alloc, slots, link, slot, value)
    }

    /// All links are gone. It takes no memory, and a time that grows with their number.
    pub fn clear_links(&mut self)
        ensures { self.new ≡ record self.old { links = [] } }
    {
        while let Some(link) = self.files().some_link() {
            self.cut(link);
        }
    }

    /// All turtles are gone, between which there are no links.
    fn remove_all(&mut self)
        requires { self.old.links ≡ [] }
        ensures { self.new ≡ record self.old { turtles = [] } }
    {
        while let Some(turtle) = self.files().some_turtle() {
            self.remove(turtle);
        }
    }

    /// All turtles and links are gone. It takes no memory, and a time that grows with their number.
    pub fn clear(&mut self)
        ensures { self.new ≡ record self.old { turtles = []; links = [] } }
    {
        self.clear_links();
        self.remove_all();
    }

    /// Gives serials of turtles up to this one away.
    pub(crate) fn skip_turtles(&mut self, to: u64)
        requires { self.old.turtles_given ≤ to }
        ensures { self.new ≡ record self.old { turtles_given = to } }
    {
        self.files.skip_turtles(to);
    }

    /// Gives serials of links up to this one away.
    pub(crate) fn skip_links(&mut self, to: u64)
        requires { self.old.links_given ≤ to }
        ensures { self.new ≡ record self.old { links_given = to } }
    {
        self.files.skip_links(to);
    }

    /// The same agents under the same serials, which live apart from these.
    pub fn copy(&self, alloc: Global) -> Result<Roster, NoMemory>
        requires { AreSound self.now }
        ensures { IfOk result (λ again. again ≡ self.now) }
    {
        let mut again = Roster::new(alloc, self.shape, self.breeds)?;
        copy_turtles(alloc, &self.files, &mut again)?;
        copy_links(alloc, &self.files, &mut again)?;
        Ok(again)
    }
}
