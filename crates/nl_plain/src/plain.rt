//! A store that keeps its agents in lists.
//!
//! A turtle or a link that is named is found by a search of halves. What asks for the turtles of a breed, on a patch, or for the links of a
//! turtle walks the whole list. It counts no reads of records, as it has none.
ghost use Rattle.std.specs.Prelude.{◌≡◌, option_map};
ghost use Rattle.std.specs.Option.{option_copied};
ghost use Rattle.nl_value.specs.Views.{plain};
ghost use Rattle.nl_agents.specs.Changes.{OwnerLives, value_of};
ghost use Rattle.nl_agents.specs.Standing.{IsWorld};
ghost use Rattle.std.proofs.Props.{props};
ghost use Rattle.nl_plain.specs.Lists.{world_of};

use crate::bearing::{birth_vars, zeros};
use crate::changing::{move_turtle, rebreed_turtle, remove_turtle, set_patch, set_turtle};
use crate::clearing::{clear_coded, first_patches, reset_patches};
use crate::copying::{copy_patches, copy_turtles};
use crate::filling::{
    count_breed, count_links_of, count_on, fill_breed, fill_links, fill_links_of, fill_on,
    fill_turtles,
};
use crate::finding::{link_in, link_place, patch_in, turtle_in, turtle_place};
use crate::globals::{global_in, set_global};
use crate::links::Links;
use nl_agents::{BearFail, Layout, Link, Owner, Steps, Store, TieFail, Turtle, Variables};
use nl_fixed::NoMemory;
use nl_grid::{Point, Shape};
use nl_value::{Items, Serials, Value};
use std::alloc::Global;
use std::sync::ledger::Ledger;

/// How many turtles, and how many links, may live at once.
const MOST_TURTLES: usize = 200_000;

const MOST_LINKS: usize = 400_000;

/// How many serials of turtles, and of links, are ever given.
const MOST_SERIALS: u64 = 9_000_000_000_000;

/// A store that keeps its turtles, its patches and its links each in one list.
#[derive(Drop)]
pub struct Plain {
    alloc: Global,
    shape: Shape,
    layout: Layout,
    globals: Items,
    // The number of the run and the name of the experiment.
    run: Items,
    turtles: Vec<Turtle>,
    patches: Vec<Variables>,
    links: Links,
    turtles_given: u64,
    links_given: u64,
    base: u64,
    ghost stands: { IsWorld (world_of shape layout globals run turtles.items patches.items links
        turtles_given links_given base) } by { Prim.hlevel props },
}

impl Plain {
    ghost use Rattle.nl_plain.specs.Held.{world_in};

    /// The value of a variable.
    fn value(&self, owner: Owner, slot: u32) -> Option<&Value>
        requires { OwnerLives owner (world_in self.now) }
        ensures { option_map plain (option_copied result) ≡ value_of owner slot (world_in self.now) }
    {
        match owner {
            Owner::Observer => global_in(&self.globals, &self.run, slot),
            Owner::Turtle(turtle) => turtle_in(&self.turtles, turtle)
                .vars
                .get(&self.layout.some_turtle, slot),
            Owner::Patch(patch) => {
                patch_in(&self.patches, patch).get(&self.layout.every_patch, slot)
            }
            Owner::Link(link) => link_in(self.links.as_slice(), link)
                .vars
                .get(&self.layout.some_link, slot),
        }
    }
}

impl Store for Plain {
    ghost use Rattle.nl_agents.specs.World.{World};

    ghost world = { λ s. world_of s.shape s.layout s.globals s.run s.turtles.items s.patches.items s.links
        s.turtles_given s.links_given s.base };

    fn new(alloc: Global, layout: &Layout, shape: Shape) -> Result<Self, NoMemory> {
        let layout = layout.copy(alloc)?;
        let globals = zeros(alloc, layout.globals as usize)?;
        let run = zeros(alloc, 2)?;
        let patches = first_patches(alloc, &layout, shape.patches())?;
        Ok(Plain {
            alloc,
            shape,
            layout,
            globals,
            run,
            turtles: Vec::new(alloc),
            patches,
            links: Links::empty(alloc),
            turtles_given: 0,
            links_given: 0,
            base: 0,
        })
    }

    fn shape(&self) -> Shape {
        self.shape
    }

    fn base(&self) -> u64 {
        self.base
    }

    fn turtle_lives(&self, turtle: u64) -> bool {
        turtle_place(&self.turtles, turtle).is_some()
    }

    fn link_lives(&self, link: u64) -> bool {
        link_place(self.links.as_slice(), link).is_some()
    }

    fn turtle_count(&self) -> usize {
        self.turtles.as_slice().len()
    }

    fn breed_count(&self, breed: u32) -> usize {
        count_breed(&self.turtles, breed)
    }

    fn link_count(&self) -> usize {
        self.links.as_slice().len()
    }

    fn unbreeded_count(&self, directed: bool) -> usize {
        self.links.unbreeded(directed)
    }

    fn bear(
        &mut self,
        alloc: Global,
        breed: u32,
        at: Point,
        parent: Option<u64>,
    ) -> Result<u64, BearFail> {
        if self.turtle_count() >= MOST_TURTLES || self.turtles_given >= MOST_SERIALS {
            return Err(BearFail::Full);
        }
        let vars = birth_vars(alloc, &self.layout, &self.turtles, breed, parent)?;
        let serial = self.turtles_given;
        self.turtles.push(Turtle {
            serial,
            breed,
            at,
            vars,
        })?;
        self.turtles_given = serial + 1;
        Ok(serial)
    }

    fn kill(&mut self, turtle: u64) {
        remove_turtle(&mut self.turtles, turtle);
        self.links.remove_of(turtle);
    }

    fn shift(&mut self, turtle: u64, to: Point) {
        move_turtle(&mut self.turtles, turtle, to);
    }

    fn rebreed(&mut self, turtle: u64, breed: u32) {
        rebreed_turtle(&mut self.turtles, &self.layout, turtle, breed);
    }

    fn tie(
        &mut self,
        alloc: Global,
        breed: u32,
        directed: bool,
        end1: u64,
        end2: u64,
    ) -> Result<u64, TieFail> {
        if self.link_count() >= MOST_LINKS || self.links_given >= MOST_SERIALS {
            return Err(TieFail::Full);
        }
        let vars = Variables::first_of_link(alloc, &self.layout, breed)?;
        let serial = self.links_given;
        self.links.push(Link {
            serial,
            breed,
            directed,
            end1,
            end2,
            vars,
        })?;
        self.links_given = serial + 1;
        Ok(serial)
    }

    fn cut(&mut self, link: u64) {
        self.links.remove(link);
    }

    fn at(&self, turtle: u64) -> Point {
        turtle_in(&self.turtles, turtle).at
    }

    fn breed_of(&self, turtle: u64) -> u32 {
        turtle_in(&self.turtles, turtle).breed
    }

    fn ends(&self, link: u64) -> (u64, u64) {
        let link = link_in(self.links.as_slice(), link);
        (link.end1, link.end2)
    }

    fn link_breed(&self, link: u64) -> (u32, bool) {
        let link = link_in(self.links.as_slice(), link);
        (link.breed, link.directed)
    }

    fn var(&self, owner: Owner, slot: u32) -> Option<&Value> {
        self.value(owner, slot)
    }

    fn set_var(&mut self, owner: Owner, slot: u32, value: Value) -> Result<Value, Value> {
        match owner {
            Owner::Observer => set_global(&mut self.globals, &mut self.run, slot, value),
            Owner::Turtle(turtle) => {
                let slots = &self.layout.some_turtle;
                set_turtle(&mut self.turtles, slots, turtle, slot, value)
            }
            Owner::Patch(patch) => {
                let slots = &self.layout.every_patch;
                set_patch(&mut self.patches, slots, patch, slot, value)
            }
            Owner::Link(link) => {
                let slots = &self.layout.some_link;
                self.links.set(slots, link, slot, value)
            }
        }
    }

    fn turtles<L: Ledger>(
        &self,
        alloc: Global,
        into: &mut Serials,
        _steps: &mut Steps<L>,
    ) -> Result<(), NoMemory> {
        fill_turtles(alloc, &self.turtles, into)
    }

    fn of_breed<L: Ledger>(
        &self,
        alloc: Global,
        breed: u32,
        into: &mut Serials,
        _steps: &mut Steps<L>,
    ) -> Result<(), NoMemory> {
        fill_breed(alloc, &self.turtles, breed, into)
    }

    fn members_on<L: Ledger>(
        &self,
        alloc: Global,
        patch: u32,
        into: &mut Serials,
        _steps: &mut Steps<L>,
    ) -> Result<(), NoMemory> {
        fill_on(alloc, &self.turtles, self.shape, patch, into)
    }

    fn count_on<L: Ledger>(&self, patch: u32, _steps: &mut Steps<L>) -> usize {
        count_on(&self.turtles, self.shape, patch)
    }

    fn links<L: Ledger>(
        &self,
        alloc: Global,
        into: &mut Serials,
        _steps: &mut Steps<L>,
    ) -> Result<(), NoMemory> {
        fill_links(alloc, self.links.as_slice(), into)
    }

    fn links_of<L: Ledger>(
        &self,
        alloc: Global,
        turtle: u64,
        into: &mut Serials,
        _steps: &mut Steps<L>,
    ) -> Result<(), NoMemory> {
        fill_links_of(alloc, self.links.as_slice(), turtle, into)
    }

    fn count_links_of<L: Ledger>(&self, turtle: u64, _steps: &mut Steps<L>) -> usize {
        count_links_of(self.links.as_slice(), turtle)
    }

    fn clear_turtles(&mut self) {
        self.turtles.clear();
        self.links.clear();
        self.base = self.turtles_given;
    }

    fn clear_links(&mut self) {
        self.links.clear();
    }

    fn clear_patches(&mut self) {
        reset_patches(self.alloc, &mut self.patches, &self.layout);
    }

    fn clear_globals(&mut self) {
        clear_coded(&mut self.globals, &self.layout);
    }

    fn copy(&self, alloc: Global) -> Result<Self, NoMemory> {
        let layout = self.layout.copy(alloc)?;
        let globals = self.globals.copy(alloc)?;
        let run = self.run.copy(alloc)?;
        let turtles = copy_turtles(alloc, &self.turtles)?;
        let patches = copy_patches(alloc, &self.patches)?;
        let links = self.links.copy(alloc)?;
        Ok(Plain {
            alloc,
            shape: self.shape,
            layout,
            globals,
            run,
            turtles,
            patches,
            links,
            turtles_given: self.turtles_given,
            links_given: self.links_given,
            base: self.base,
        })
    }
}
