//! What a store of agents is.
ghost use Rattle.std.specs.Prelude.{◌≡◌, ◌↔◌, ◌==◌, ◌+◌, ◌<◌, ◌≤◌, length, filter, option_map, Some, None, Ok, Err, IsTrue, IfSome, IfOk, IfErr, OnOk, OnErr, IsErr, false};
ghost use Rattle.std.specs.Option.{option_copied};
ghost use Rattle.std.specs.List.{list_any};
ghost use Rattle.nl_value.specs.Views.{plain};
ghost use Rattle.nl_grid.specs.Geometry.{IsPointOf, patches_of};
ghost use Rattle.nl_agents_layout.specs.BuiltIn.{heading_slot};
ghost use Rattle.nl_agents_layout.specs.Layouts.{is_turtle_breed, is_link_breed};
ghost use Rattle.nl_agents.specs.World.{World, first_world};
ghost use Rattle.nl_agents.specs.Changes.{turtle_of, link_of, turtle_lives, link_lives, TurtleLives, LinkLives, OwnerLives, value_of, moved, rebred, born, AreTurtlesFull, killed, cut, joins, tied, AreLinksFull, revalued, turtles_cleared, links_cleared, patches_cleared, globals_cleared};
ghost use Rattle.nl_agents.specs.Members.{all_turtles, all_links, turtles_of_breed, turtles_on, links_with_end, is_unbreeded};
ghost use Rattle.nl_agents.specs.Standing.{IsWorld, MayHold, fits_rest};

use crate::agents::Owner;
use crate::refusals::{BearFail, TieFail};
use crate::steps::Steps;
use nl_agents_layout::Layout;
use nl_fixed::NoMemory;
use nl_grid::{Point, Shape};
use nl_value::{Serials, Value};
use std::alloc::Global;
use std::sync::ledger::Ledger;

/// A store of turtles, patches, links and global variables.
///
/// A turtle or a link is named by its serial, a patch by its number, a breed by its number, a variable by its slot. A serial is never used
/// again, also after all turtles or links were cleared. At most 200,000 turtles and 400,000 links live, and of each at most
/// 9,000,000,000,000 are ever made; these limits, and the order of all lists, which is ascending, are this project's own choice. What is
/// said of births, deaths, breeds and clears is the NetLogo Dictionary's.
///
/// A call that is refused leaves the store as it was.
pub trait Store: Sized + Drop {
    /// The plain lists that it stands for.
    ghost world: { Self → World };

    /// The store of the first world of a layout and a shape: no turtles and links, patches with first values, global variables 0.
    fn new(alloc: Global, layout: &Layout, shape: Shape) -> Result<Self, NoMemory>
        ensures { IfOk result (λ store. world store ≡ first_world layout.now shape) };

    /// The shape of the world.
    fn shape(&self) -> Shape
        ensures value { result ≡ (world self.now).rest.shape }
        ensures stands { IsWorld (world self.now) };

    /// The serial of the turtle that is called 0: that of each other turtle, less this one, is what it is called by.
    fn base(&self) -> u64
        ensures { result ≡ (world self.now).rest.base };

    /// Whether a turtle of this serial lives.
    fn turtle_lives(&self, turtle: u64) -> bool
        ensures { result ≡ turtle_lives (world self.now).rest turtle };

    /// Whether a link of this serial lives.
    fn link_lives(&self, link: u64) -> bool
        ensures { result ≡ link_lives (world self.now).rest link };

    /// How many turtles live.
    fn turtle_count(&self) -> usize
        ensures { result ≡ length (world self.now).rest.turtles };

    /// How many turtles of a breed live.
    fn breed_count(&self, breed: u32) -> usize
        ensures { result ≡ length (turtles_of_breed breed (world self.now).rest) };

    /// How many links live.
    fn link_count(&self) -> usize
        ensures { result ≡ length (world self.now).rest.links };

    /// How many links of no breed live that have a direction, or that have none.
    fn unbreeded_count(&self, directed: bool) -> usize
        ensures { result ≡ length (filter (is_unbreeded directed) (world self.now).rest.links) };

    /// A turtle is born at a point, and its serial is given. Without a parent its variables have their first values, with the color and
    /// the heading 0; with one they are copies of the parent's, by the rule on a change of breed.
    fn bear(
        &mut self,
        alloc: Global,
        breed: u32,
        at: Point,
        parent: Option<u64>,
    ) -> Result<u64, BearFail>
        requires breed { IsTrue (is_turtle_breed (world self.old).rest.layout breed) }
        requires at { IsPointOf (world self.old).rest.shape at }
        requires parent { IfSome parent (λ serial. TurtleLives serial (world self.old)) }
        ensures serial { IfOk result (λ serial. serial ≡ (world self.old).rest.turtles_given) }
        ensures born { OnOk result (world self.new ≡ born breed at parent (world self.old)) }
        ensures kept { OnErr result (world self.new ≡ world self.old) }
        ensures full { (result ≡ Err BearFail.Full) ↔ AreTurtlesFull (world self.old) };

    /// The turtle dies, and each link with it as an end.
    fn kill(&mut self, turtle: u64)
        requires { TurtleLives turtle (world self.old) }
        ensures { world self.new ≡ killed turtle (world self.old) };

    /// The turtle stands at the point.
    fn shift(&mut self, turtle: u64, to: Point)
        requires lives { TurtleLives turtle (world self.old) }
        requires at { IsPointOf (world self.old).rest.shape to }
        ensures { world self.new ≡ moved turtle to (world self.old) };

    /// The turtle is of the breed. A variable that its old breed owned too keeps its value, one that only the new breed owns is 0, and
    /// others are gone.
    fn rebreed(&mut self, turtle: u64, breed: u32)
        requires lives { TurtleLives turtle (world self.old) }
        requires breed { IsTrue (is_turtle_breed (world self.old).rest.layout breed) }
        ensures { world self.new ≡ rebred turtle breed (world self.old) };

    /// A link joins two turtles, and its serial is given. Its variables have their first values.
    fn tie(
        &mut self,
        alloc: Global,
        breed: u32,
        directed: bool,
        end1: u64,
        end2: u64,
    ) -> Result<u64, TieFail>
        requires breed { IsTrue (is_link_breed (world self.old).rest.layout breed) }
        requires first { TurtleLives end1 (world self.old) }
        requires second { TurtleLives end2 (world self.old) }
        requires apart { (end1 == end2) ≡ false }
        requires none { list_any (joins breed directed end1 end2) (world self.old).rest.links ≡ false }
        ensures serial { IfOk result (λ serial. serial ≡ (world self.old).rest.links_given) }
        ensures tied { OnOk result (world self.new ≡ tied breed directed end1 end2 (world self.old)) }
        ensures kept { OnErr result (world self.new ≡ world self.old) }
        ensures full { (result ≡ Err TieFail.Full) ↔ AreLinksFull (world self.old) };

    /// The link dies.
    fn cut(&mut self, link: u64)
        requires { LinkLives link (world self.old) }
        ensures { world self.new ≡ cut link (world self.old) };

    /// Where a turtle stands.
    fn at(&self, turtle: u64) -> Point
        requires { TurtleLives turtle (world self.now) }
        ensures value { option_map (λ t. t.at) (turtle_of turtle (world self.now).rest) ≡ Some result }
        ensures inside { IsPointOf (world self.now).rest.shape result };

    /// The breed of a turtle, 0 where it is of none.
    fn breed_of(&self, turtle: u64) -> u32
        requires { TurtleLives turtle (world self.now) }
        ensures value { option_map (λ t. t.breed) (turtle_of turtle (world self.now).rest) ≡ Some result }
        ensures breed { IsTrue (is_turtle_breed (world self.now).rest.layout result) };

    /// The turtles that a link joins, its first end before its second.
    fn ends(&self, link: u64) -> (u64, u64)
        requires { LinkLives link (world self.now) }
        ensures first { option_map (λ l. l.end1) (link_of link (world self.now).rest) ≡ Some result.0 }
        ensures second { option_map (λ l. l.end2) (link_of link (world self.now).rest) ≡ Some result.1 }
        ensures first_lives { TurtleLives result.0 (world self.now) }
        ensures second_lives { TurtleLives result.1 (world self.now) };

    /// The breed of a link, 0 where it is of none, and whether it has a direction.
    fn link_breed(&self, link: u64) -> (u32, bool)
        requires { LinkLives link (world self.now) }
        ensures value { option_map (λ l. l.breed) (link_of link (world self.now).rest) ≡ Some result.0 }
        ensures directed { option_map (λ l. l.directed) (link_of link (world self.now).rest) ≡ Some result.1 }
        ensures breed { IsTrue (is_link_breed (world self.now).rest.layout result.0) };

    /// The value of a variable. None exactly where its owner doesn't own it.
    fn var(&self, owner: Owner, slot: u32) -> Option<&Value>
        requires { OwnerLives owner (world self.now) }
        ensures value { option_map plain (option_copied result) ≡ value_of owner slot (world self.now) }
        ensures holds { IfSome result (λ value. MayHold (world self.now).rest owner slot (plain value.now)) };

    /// A variable becomes the value, and the old one is handed back. Exactly where its owner doesn't own it the new value is handed
    /// back in an `Err`, and nothing is changed.
    fn set_var(&mut self, owner: Owner, slot: u32, value: Value) -> Result<Value, Value>
        requires lives { OwnerLives owner (world self.old) }
        requires holds { MayHold (world self.old).rest owner slot (plain value) }
        ensures old { IfOk result (λ old. value_of owner slot (world self.old) ≡ Some (plain old)) }
        ensures set { OnOk result (world self.new ≡ revalued owner slot (plain value) (world self.old)) }
        ensures back { IfErr result (λ back. plain back ≡ plain value) }
        ensures kept { OnErr result (world self.new ≡ world self.old) }
        ensures not_owned { IsErr result ↔ (value_of owner slot (world self.old) ≡ None) };

    /// Fills the list with the serials of the turtles that live, ascending.
    fn turtles<L: Ledger>(
        &self,
        alloc: Global,
        into: &mut Serials,
        steps: &mut Steps<L>,
    ) -> Result<(), NoMemory>
        ensures list { OnOk result (into.new ≡ all_turtles (world self.now).rest) }
        ensures reads { steps.new ≤ steps.old + length (all_turtles (world self.now).rest) + 1 };

    /// Fills the list with the serials of the living turtles of a breed, ascending.
    fn of_breed<L: Ledger>(
        &self,
        alloc: Global,
        breed: u32,
        into: &mut Serials,
        steps: &mut Steps<L>,
    ) -> Result<(), NoMemory>
        requires { IsTrue (is_turtle_breed (world self.now).rest.layout breed) }
        ensures list { OnOk result (into.new ≡ turtles_of_breed breed (world self.now).rest) }
        ensures reads { steps.new ≤ steps.old + length (turtles_of_breed breed (world self.now).rest) + 1 };

    /// Fills the list with the serials of the living turtles that stand on a patch, ascending.
    fn members_on<L: Ledger>(
        &self,
        alloc: Global,
        patch: u32,
        into: &mut Serials,
        steps: &mut Steps<L>,
    ) -> Result<(), NoMemory>
        requires { patch < patches_of (world self.now).rest.shape }
        ensures list { OnOk result (into.new ≡ turtles_on patch (world self.now).rest) }
        ensures reads { steps.new ≤ steps.old + length (turtles_on patch (world self.now).rest) + 1 };

    /// How many living turtles stand on a patch. It reads each of them.
    fn count_on<L: Ledger>(&self, patch: u32, steps: &mut Steps<L>) -> usize
        requires { patch < patches_of (world self.now).rest.shape }
        ensures many { result ≡ length (turtles_on patch (world self.now).rest) }
        ensures reads { steps.new ≤ steps.old + length (turtles_on patch (world self.now).rest) + 1 };

    /// Fills the list with the serials of the links that live, ascending.
    fn links<L: Ledger>(
        &self,
        alloc: Global,
        into: &mut Serials,
        steps: &mut Steps<L>,
    ) -> Result<(), NoMemory>
        ensures list { OnOk result (into.new ≡ all_links (world self.now).rest) }
        ensures reads { steps.new ≤ steps.old + length (all_links (world self.now).rest) + 1 };

    /// Fills the list with the serials of the living links that have the turtle as an end, ascending.
    fn links_of<L: Ledger>(
        &self,
        alloc: Global,
        turtle: u64,
        into: &mut Serials,
        steps: &mut Steps<L>,
    ) -> Result<(), NoMemory>
        requires { TurtleLives turtle (world self.now) }
        ensures list { OnOk result (into.new ≡ links_with_end turtle (world self.now).rest) }
        ensures reads { steps.new ≤ steps.old + length (links_with_end turtle (world self.now).rest) + 1 };

    /// How many living links have the turtle as an end. It reads each of them.
    fn count_links_of<L: Ledger>(&self, turtle: u64, steps: &mut Steps<L>) -> usize
        requires { TurtleLives turtle (world self.now) }
        ensures many { result ≡ length (links_with_end turtle (world self.now).rest) }
        ensures reads { steps.new ≤ steps.old + length (links_with_end turtle (world self.now).rest) + 1 };

    /// All turtles and links die, and the next turtle is called 0.
    fn clear_turtles(&mut self)
        ensures { world self.new ≡ turtles_cleared (world self.old) };

    /// All links die.
    fn clear_links(&mut self)
        ensures { world self.new ≡ links_cleared (world self.old) };

    /// The variables of patches have their first values.
    fn clear_patches(&mut self)
        ensures { world self.new ≡ patches_cleared (world self.old) };

    /// The global variables that the code declares are 0; those of widgets stay.
    fn clear_globals(&mut self)
        ensures { world self.new ≡ globals_cleared (world self.old) };

    /// A store of the same world, which lives apart from this one.
    fn copy(&self, alloc: Global) -> Result<Self, NoMemory>
        ensures { IfOk result (λ store. world store ≡ world self.now) };
}
