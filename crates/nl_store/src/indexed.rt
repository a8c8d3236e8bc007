//! A store that keeps its agents in records with chains.
//!
//! A turtle or a link that is named is found by its serial. What asks for the turtles of a breed, on a patch, or for the links of a turtle
//! reads the records of these alone.
ghost use Rattle.std.specs.Prelude.{◌≡◌, option_map};
ghost use Rattle.std.specs.Option.{option_copied};
ghost use Rattle.std.specs.List.Sorted.{IsStrictlyIncreasing};
ghost use Rattle.nl_value.specs.Views.{plain};
ghost use Rattle.nl_grid.specs.Geometry.{IsWithinLimits};
ghost use Rattle.nl_agents.specs.Changes.{OwnerLives, value_of};
ghost use Rattle.nl_agents.specs.Standing.{IsWorld};
ghost use Rattle.std.proofs.Props.{props};
ghost use Rattle.nl_store.specs.Worlds.{world_with, AreOf};

use crate::Roster;
use crate::births::birth_vars;
use nl_agents::{BearFail, Layout, Owner, Slots, Steps, Store, TieFail, Variables};
use nl_agents_ground::Ground;
use nl_fixed::NoMemory;
use nl_grid::{Point, Shape};
use nl_value::{Serials, Value};
use std::alloc::Global;
use std::sync::ledger::Ledger;

/// How many turtles, and how many links, may live at once.
const MOST_TURTLES: usize = 200_000;

const MOST_LINKS: usize = 400_000;

/// How many serials of turtles, and of links, are ever given.
const MOST_SERIALS: u64 = 9_000_000_000_000;

/// A store that keeps its turtles and links in records, in chains by birth, by patch, by breed and by the ends of links.
#[derive(Drop)]
pub struct Indexed {
    land: Ground,
    roster: Roster,
    base: u64,
    ghost stands: { IsWorld (world_with land roster base) } by { Prim.hlevel props },
    ghost fits: { AreOf land roster } by { Prim.hlevel props },
}

impl Indexed {
    ghost use Rattle.nl_store.specs.Held.{world_in};

    /// The value of a variable.
    fn value(&self, owner: Owner, slot: u32) -> Option<&Value>
        requires { OwnerLives owner (world_in self.now) }
        ensures { option_map plain (option_copied result) ≡ value_of owner slot (world_in self.now) }
    {
        match owner {
            Owner::Observer => self.land.global(slot),
            Owner::Turtle(turtle) => self
                .roster
                .files()
                .turtle_vars(turtle)
                .get(&self.land.layout.some_turtle, slot),
            Owner::Patch(patch) => self.land.patch_value(patch, slot),
            Owner::Link(link) => self
                .roster
                .files()
                .link_vars(link)
                .get(&self.land.layout.some_link, slot),
        }
    }
}

/// The slots, which ascend.
fn ascending(slots: &Slots) -> &Slots
    ensures same { result.now ≡ slots.now }
    ensures ascend { IsStrictlyIncreasing slots.now }
{
    let _ = slots.as_slice();
    slots
}

/// A shape is within the limits of a world.
fn keeps_to_limits(shape: &Shape)
    ensures { IsWithinLimits shape.now }
{
    let _ = shape.patches();
}

impl Store for Indexed {
    ghost use Rattle.nl_agents.specs.World.{World};

    ghost world = { λ s. world_with s.land s.roster s.base };

    fn new(alloc: Global, layout: &Layout, shape: Shape) -> Result<Self, NoMemory> {
        let Ok(breeds) = u32::try_from(layout.breeds_count()) else {
            return Err(NoMemory);
        };
        keeps_to_limits(&shape);
        let land = Ground::first(alloc, layout, shape)?;
        let roster = Roster::new(alloc, shape, breeds)?;
        Ok(Indexed {
            land,
            roster,
            base: 0,
        })
    }

    fn shape(&self) -> Shape {
        self.land.shape
    }

    fn base(&self) -> u64 {
        self.base
    }

    fn turtle_lives(&self, turtle: u64) -> bool {
        self.roster.files().has_turtle(turtle)
    }

    fn link_lives(&self, link: u64) -> bool {
        self.roster.files().has_link(link)
    }

    fn turtle_count(&self) -> usize {
        self.roster.files().turtle_count()
    }

    fn breed_count(&self, breed: u32) -> usize {
        self.roster.breed_count(breed)
    }

    fn link_count(&self) -> usize {
        self.roster.files().link_count()
    }

    fn unbreeded_count(&self, directed: bool) -> usize {
        self.roster.unbreeded_count(directed)
    }

    fn bear(
        &mut self,
        alloc: Global,
        breed: u32,
        at: Point,
        parent: Option<u64>,
    ) -> Result<u64, BearFail> {
        if self.turtle_count() >= MOST_TURTLES
            || self.roster.files().turtles_given() >= MOST_SERIALS
        {
            return Err(BearFail::Full);
        }
        let vars = birth_vars(alloc, &self.land.layout, self.roster.files(), breed, parent)?;
        Ok(self.roster.add_turtle(alloc, breed, at, vars)?)
    }

    fn kill(&mut self, turtle: u64) {
        self.roster.kill(turtle);
    }

    fn shift(&mut self, turtle: u64, to: Point) {
        self.roster.move_turtle(turtle, to);
    }

    fn rebreed(&mut self, turtle: u64, breed: u32) {
        self.roster
            .rebreed(self.land.alloc, &self.land.layout, turtle, breed);
    }

    fn tie(
        &mut self,
        alloc: Global,
        breed: u32,
        directed: bool,
        end1: u64,
        end2: u64,
    ) -> Result<u64, TieFail> {
        if self.link_count() >= MOST_LINKS || self.roster.files().links_given() >= MOST_SERIALS {
            return Err(TieFail::Full);
        }
        let vars = Variables::first_of_link(alloc, &self.land.layout, breed)?;
        Ok(
            self.roster
                .add_link(alloc, breed, directed, end1, end2, vars)?,
        )
    }

    fn cut(&mut self, link: u64) {
        self.roster.cut(link);
    }

    fn at(&self, turtle: u64) -> Point {
        self.roster.files().at(turtle)
    }

    fn breed_of(&self, turtle: u64) -> u32 {
        self.roster.files().breed_of(turtle)
    }

    fn ends(&self, link: u64) -> (u64, u64) {
        self.roster.files().ends(link)
    }

    fn link_breed(&self, link: u64) -> (u32, bool) {
        self.roster.files().link_breed(link)
    }

    fn var(&self, owner: Owner, slot: u32) -> Option<&Value> {
        self.value(owner, slot)
    }

    fn set_var(&mut self, owner: Owner, slot: u32, value: Value) -> Result<Value, Value> {
        let alloc = self.land.alloc;
        match owner {
            Owner::Observer => self.land.set_global(slot, value),
            Owner::Turtle(turtle) => {
                let slots = ascending(&self.land.layout.some_turtle);
                self.roster.set_turtle(alloc, slots, turtle, slot, value)
            }
            Owner::Patch(patch) => self.land.set_patch(patch, slot, value),
            Owner::Link(link) => {
                let slots = ascending(&self.land.layout.some_link);
                self.roster.set_link(alloc, slots, link, slot, value)
            }
        }
    }

    fn turtles<L: Ledger>(
        &self,
        alloc: Global,
        into: &mut Serials,
        steps: &mut Steps<L>,
    ) -> Result<(), NoMemory> {
        self.roster.files().turtles(alloc, into, steps)
    }

    fn of_breed<L: Ledger>(
        &self,
        alloc: Global,
        breed: u32,
        into: &mut Serials,
        steps: &mut Steps<L>,
    ) -> Result<(), NoMemory> {
        self.roster.files().of_breed(alloc, breed, into, steps)
    }

    fn members_on<L: Ledger>(
        &self,
        alloc: Global,
        patch: u32,
        into: &mut Serials,
        steps: &mut Steps<L>,
    ) -> Result<(), NoMemory> {
        self.roster.files().members_on(alloc, patch, into, steps)
    }

    fn count_on<L: Ledger>(&self, patch: u32, steps: &mut Steps<L>) -> usize {
        self.roster.files().count_on(patch, steps)
    }

    fn links<L: Ledger>(
        &self,
        alloc: Global,
        into: &mut Serials,
        steps: &mut Steps<L>,
    ) -> Result<(), NoMemory> {
        self.roster.files().links(alloc, into, steps)
    }

    fn links_of<L: Ledger>(
        &self,
        alloc: Global,
        turtle: u64,
        into: &mut Serials,
        steps: &mut Steps<L>,
    ) -> Result<(), NoMemory> {
        self.roster.files().links_of(alloc, turtle, into, steps)
    }

    fn count_links_of<L: Ledger>(&self, turtle: u64, steps: &mut Steps<L>) -> usize {
        self.roster.files().count_links_of(turtle, steps)
    }

    fn clear_turtles(&mut self) {
        self.roster.clear();
        self.base = self.roster.files().turtles_given();
    }

    fn clear_links(&mut self) {
        self.roster.clear_links();
    }

    fn clear_patches(&mut self) {
        self.land.clear_patches();
    }

    fn clear_globals(&mut self) {
        self.land.clear_globals();
    }

    fn copy(&self, alloc: Global) -> Result<Self, NoMemory> {
        Ok(Indexed {
            land: self.land.copy(alloc)?,
            roster: self.roster.copy(alloc)?,
            base: self.base,
        })
    }
}
