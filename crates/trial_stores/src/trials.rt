//! Stores under trial: calls and questions as plain data, and the conditions of the calls.
//!
//! Numbers and coordinates are in tenths.
ghost use Rattle.std.specs.Prelude.{◌≡◌, false, IfOk, IfSome, IsTrue};
ghost use Rattle.std.specs.List.{list_any};
ghost use Rattle.nl_grid.specs.Geometry.{IsPointOf};
ghost use Rattle.nl_agents.specs.Changes.{TurtleLives, OwnerLives, joins, link_of};
ghost use Rattle.nl_agents.specs.Members.{all_links};
ghost use Rattle.trial_stores.specs.Trials.{joined};

use nl_agents::{Layout, Owner, Steps, Store};
use nl_fixed::{NoMemory, Num};
use nl_grid::{Point, Shape};
use nl_tree::Program;
use nl_value::Serials;
use std::alloc::Global;
use std::marker::Brand;
use std::sync::ledger::{Blank, Ledger};

/// A point, each coordinate in tenths.
pub type Place = (i64, i64);

/// A call of a store.
#[derive(Clone, Copy, Debug)]
pub enum Step {
    /// A turtle of a breed is born at a place, of a parent or of none, and has the serial.
    Bear(u32, Place, Option<u64>, u64),
    /// None of the breed is born there, since the store is full.
    Full(u32, Place),
    Kill(u64),
    Shift(u64, Place),
    Rebreed(u64, u32),
    /// A link of a breed, with a direction or without, joins two turtles, and has the serial.
    Tie(u32, bool, u64, u64, u64),
    Cut(u64),
    /// A variable becomes a number, and the old one is handed back.
    Set(Owner, &'static str, i64, Wanted),
    /// The owner has no such variable, and the number is handed back.
    SetNothing(Owner, &'static str, i64),
    ClearTurtles,
    ClearLinks,
    ClearPatches,
    ClearGlobals,
    /// A copy is put aside.
    Copy,
    /// What is aside and what is at hand change places.
    Swap,
}

/// What a store is asked, with the answer.
#[derive(Clone, Copy, Debug)]
pub enum Look {
    Turtles(&'static [u64]),
    OfBreed(u32, &'static [u64]),
    /// The turtles on the patch of a place.
    On(Place, &'static [u64]),
    Links(&'static [u64]),
    LinksOf(u64, &'static [u64]),
    /// How many links of no breed have a direction, or have none.
    Unbreeded(bool, usize),
    /// The breed and the place of a turtle.
    Turtle(u64, u32, Place),
    /// The breed of a link, whether it has a direction, and its ends.
    Link(u64, u32, bool, u64, u64),
    DeadTurtle(u64),
    DeadLink(u64),
    Base(u64),
    Holds(Owner, &'static str, Wanted),
}

/// What a variable holds.
#[derive(Clone, Copy, Debug)]
pub enum Wanted {
    Number(i64),
    Truth(bool),
    Words(&'static str),
    /// The owner doesn't own it.
    Nothing,
}

// Lets go of a thing by one call: what ends inside of a function is walked there, once on each way out.
fn let_go<T: Drop>(_thing: T) {}

/// The number of so many tenths.
pub fn tenths(count: i64) -> Option<Num> {
    Num::new(count.checked_mul(100_000)?)
}

/// Two stores with the layout that they were made with, and the program of that. What is said of a store is said of the first.
#[derive(Drop)]
pub struct Tried<S: Store> {
    pub store: S,
    pub aside: S,
    pub layout: Layout,
    program: Program,
    ghost known: { layout ≡ (S.world store).rest.layout },
    ghost known_aside: { layout ≡ (S.world aside).rest.layout },
}

impl<S: Store> Tried<S> {
    /// Stores of five by five patches around the origin that go on in x behind their sides. None at want of memory.
    pub fn new(alloc: Global, program: Program) -> Option<Tried<S>> {
        Tried::of(alloc, program, Shape::new(-2, 2, -2, 2, true, false)?)
    }

    /// Stores of a shape. None at want of memory.
    pub fn of(alloc: Global, program: Program, shape: Shape) -> Option<Tried<S>> {
        let Ok(layout) = Layout::of(alloc, &program) else {
            let_go(program);
            return None;
        };
        match Tried::<S>::pair(alloc, &layout, shape) {
            Ok((store, aside)) => Some(Tried {
                store,
                aside,
                layout,
                program,
            }),
            Err(_) => {
                let_go(layout);
                let_go(program);
                None
            }
        }
    }

    // Two stores of a layout and a shape.
    fn pair(alloc: Global, layout: &Layout, shape: Shape) -> Result<(S, S), NoMemory>
        ensures first { IfOk result (λ made. layout.now ≡ (S.world made.0).rest.layout) }
        ensures second { IfOk result (λ made. layout.now ≡ (S.world made.1).rest.layout) }
    {
        let store = S::new(alloc, layout, shape)?;
        match S::new(alloc, layout, shape) {
            Ok(aside) => Ok((store, aside)),
            Err(want) => {
                let_go(store);
                Err(want)
            }
        }
    }

    // The slot of a variable.
    pub fn slot(&self, name: &str) -> Option<u32> {
        let what = self.program.what(name.as_bytes())?;
        self.layout.slot(what)
    }

    pub fn point(&self, place: Place) -> Option<Point>
        ensures { IfSome result (λ at. IsPointOf (S.world self.now.store).rest.shape at) }
    {
        let x = tenths(place.0)?;
        let y = tenths(place.1)?;
        self.store.shape().wrap(x, y)
    }

    pub fn parent_lives(&self, parent: Option<u64>) -> bool
        ensures { IsTrue result → IfSome parent (λ serial. TurtleLives serial (S.world self.now.store)) }
    {
        match parent {
            Some(serial) => self.store.turtle_lives(serial),
            None => true,
        }
    }

    pub fn owner_lives(&self, owner: Owner) -> bool
        ensures { IsTrue result → OwnerLives owner (S.world self.now.store) }
    {
        match owner {
            Owner::Observer => true,
            Owner::Turtle(turtle) => self.store.turtle_lives(turtle),
            Owner::Patch(patch) => patch < self.store.shape().patches(),
            Owner::Link(link) => self.store.link_lives(link),
        }
    }

    // The serials of all links.
    fn all_links<L: Ledger>(&self, alloc: Global, blank: Blank) -> Option<Serials>
        requires name { blank.name ≡ L.name }
        requires parts { blank.parts ≡ L.parts }
        requires one { blank.parts ≡ 1 }
        ensures { IfSome result (λ links. links ≡ all_links (S.world self.now.store).rest) }
    {
        let mut steps = Steps::<L>::new(blank);
        let mut into = Serials::empty(alloc);
        match self.store.links(alloc, &mut into, &mut steps) {
            Ok(()) => Some(into),
            Err(_) => None,
        }
    }

    // Whether a link lives, is of the breed, and joins the two the same way.
    fn joins(&self, link: u64, breed: u32, directed: bool, end1: u64, end2: u64) -> bool
        ensures { result ≡ joined breed directed end1 end2 (link_of link (S.world self.now.store).rest) }
    {
        if !self.store.link_lives(link) {
            return false;
        }
        let (own, way) = self.store.link_breed(link);
        let (first, second) = self.store.ends(link);
        let turned = !directed && first == end2 && second == end1;
        own == breed
            && (if way { directed } else { !directed })
            && ((first == end1 && second == end2) || turned)
    }

    // Whether a link of the breed joins the two the same way already; also where memory is wanted.
    pub fn is_tied(&self, alloc: Global, breed: u32, directed: bool, end1: u64, end2: u64) -> bool
        ensures { result ≡ false → list_any (joins breed directed end1 end2) (S.world self.now.store).rest.links ≡ false }
    {
        let Some(links) = self.all_links::<Brand>(alloc, Blank::new(1)) else {
            return true;
        };
        // What the links that are found rest on: the store stands for a world.
        let _stands = self.store.shape();
        let numbers = links.as_slice();
        for number in numbers {
            if self.joins(*number, breed, directed, end1, end2) {
                return true;
            }
        }
        false
    }
}

/// Where a store came out otherwise than it was told.
#[derive(Clone, Copy, Debug)]
pub enum Wrong {
    Step(Step),
    Look(Look),
    /// Memory was refused for the store.
    NoMemory,
}

// Makes the calls, one after the other, up to the first that comes out otherwise.
fn play<S: Store>(alloc: Global, tried: &mut Tried<S>, steps: &[Step]) -> Option<Wrong> {
    for step in steps {
        if !tried.play(alloc, *step) {
            return Some(Wrong::Step(*step));
        }
    }
    None
}

// Asks the store all of this, up to the first answer that is another one.
fn ask<S: Store>(alloc: Global, tried: &Tried<S>, looks: &[Look]) -> Option<Wrong> {
    for look in looks {
        if !tried.answers(alloc, *look) {
            return Some(Wrong::Look(*look));
        }
    }
    None
}

/// Calls, and what the store answers after them.
pub type Scene = (&'static [Step], &'static [Look]);

/// Plays the scenes on the store, up to the first call or answer that comes out otherwise than it is told.
pub fn proceed<S: Store>(alloc: Global, tried: &mut Tried<S>, scenes: &[Scene]) -> Option<Wrong> {
    for (steps, looks) in scenes {
        if let Some(wrong) = play(alloc, tried, steps) {
            return Some(wrong);
        }
        if let Some(wrong) = ask(alloc, tried, looks) {
            return Some(wrong);
        }
    }
    None
}

/// A new store on which the scenes are played.
pub fn played<S: Store>(
    alloc: Global,
    program: Program,
    scenes: &[Scene],
) -> Result<Tried<S>, Wrong> {
    let Some(mut tried) = Tried::<S>::new(alloc, program) else {
        return Err(Wrong::NoMemory);
    };
    match proceed(alloc, &mut tried, scenes) {
        None => Ok(tried),
        Some(wrong) => Err(wrong),
    }
}
