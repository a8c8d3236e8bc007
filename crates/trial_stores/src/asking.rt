//! What stores under trial are asked.
ghost use Rattle.std.specs.Prelude.{◌≡◌};

use crate::trials::{Look, Place, Tried, Wanted, tenths};
use nl_agents::{Owner, Steps, Store};
use nl_value::{Serials, Value};
use std::alloc::Global;
use std::marker::Brand;
use std::sync::ledger::{Blank, Ledger};

/// A list that a store gives.
#[derive(Clone, Copy)]
pub enum Listed {
    Turtles,
    OfBreed(u32),
    On(Place),
    Links,
    LinksOf(u64),
}

impl<S: Store> Tried<S> {
    // A list, which holds something before it is filled. None where the store may not be asked for it, and at want of memory.
    fn listed<L: Ledger>(&self, alloc: Global, blank: Blank, which: Listed) -> Option<Serials>
        requires name { blank.name ≡ L.name }
        requires parts { blank.parts ≡ L.parts }
        requires one { blank.parts ≡ 1 }
    {
        let mut steps = Steps::<L>::new(blank);
        let mut into = Serials::empty(alloc);
        into.push(alloc, 77).ok()?;
        if self.fill(alloc, which, &mut into, &mut steps) {
            Some(into)
        } else {
            None
        }
    }

    fn fill<L: Ledger>(
        &self,
        alloc: Global,
        which: Listed,
        into: &mut Serials,
        steps: &mut Steps<L>,
    ) -> bool {
        match which {
            Listed::Turtles => self.store.turtles(alloc, into, steps).is_ok(),
            Listed::OfBreed(breed) => {
                self.layout.is_turtle_breed(breed)
                    && self.store.of_breed(alloc, breed, into, steps).is_ok()
            }
            Listed::On(place) => match self.point(place) {
                Some(at) => {
                    let patch = self.store.shape().patch_of(at);
                    self.store.members_on(alloc, patch, into, steps).is_ok()
                }
                None => false,
            },
            Listed::Links => self.store.links(alloc, into, steps).is_ok(),
            Listed::LinksOf(turtle) => {
                self.store.turtle_lives(turtle)
                    && self.store.links_of(alloc, turtle, into, steps).is_ok()
            }
        }
    }

    fn lists(&self, alloc: Global, which: Listed, wanted: &[u64]) -> bool {
        match self.listed::<Brand>(alloc, Blank::new(1), which) {
            Some(serials) => serials.as_slice() == wanted,
            None => false,
        }
    }

    /// Whether a list has the serials from 0 on, so many.
    pub fn counts_up(&self, alloc: Global, which: Listed, count: u64) -> bool {
        match self.listed::<Brand>(alloc, Blank::new(1), which) {
            Some(serials) => is_count(serials.as_slice(), count),
            None => false,
        }
    }

    // Whether the store lists these serials, and counts as many.
    fn tells(&self, alloc: Global, which: Listed, wanted: &[u64]) -> bool {
        self.counts::<Brand>(Blank::new(1), which, wanted.len()) && self.lists(alloc, which, wanted)
    }

    // Whether the store counts as many. False where the store may not be asked for it.
    fn counts<L: Ledger>(&self, blank: Blank, which: Listed, wanted: usize) -> bool
        requires name { blank.name ≡ L.name }
        requires parts { blank.parts ≡ L.parts }
        requires one { blank.parts ≡ 1 }
    {
        let mut steps = Steps::<L>::new(blank);
        match which {
            Listed::Turtles => self.store.turtle_count() == wanted,
            Listed::OfBreed(breed) => self.store.breed_count(breed) == wanted,
            Listed::On(place) => match self.point(place) {
                Some(at) => {
                    let patch = self.store.shape().patch_of(at);
                    self.store.count_on(patch, &mut steps) == wanted
                }
                None => false,
            },
            Listed::Links => self.store.link_count() == wanted,
            Listed::LinksOf(turtle) => {
                self.store.turtle_lives(turtle)
                    && self.store.count_links_of(turtle, &mut steps) == wanted
            }
        }
    }

    fn is_turtle(&self, turtle: u64, breed: u32, place: Place) -> bool {
        if !self.store.turtle_lives(turtle) {
            return false;
        }
        let at = self.store.at(turtle);
        self.store.breed_of(turtle) == breed
            && Some(at.x) == tenths(place.0)
            && Some(at.y) == tenths(place.1)
    }

    fn is_link(&self, link: u64, breed: u32, directed: bool, end1: u64, end2: u64) -> bool {
        if !self.store.link_lives(link) {
            return false;
        }
        self.store.link_breed(link) == (breed, directed) && self.store.ends(link) == (end1, end2)
    }

    fn holds(&self, owner: Owner, name: &str, wanted: Wanted) -> bool {
        if !self.owner_lives(owner) {
            return false;
        }
        match self.slot(name) {
            Some(slot) => is_wanted(self.store.var(owner, slot), wanted),
            None => false,
        }
    }

    /// Whether the store gives the answer.
    pub fn answers(&self, alloc: Global, look: Look) -> bool {
        match look {
            Look::Turtles(wanted) => self.tells(alloc, Listed::Turtles, wanted),
            Look::OfBreed(breed, wanted) => self.tells(alloc, Listed::OfBreed(breed), wanted),
            Look::On(place, wanted) => self.tells(alloc, Listed::On(place), wanted),
            Look::Links(wanted) => self.tells(alloc, Listed::Links, wanted),
            Look::LinksOf(turtle, wanted) => self.tells(alloc, Listed::LinksOf(turtle), wanted),
            Look::Unbreeded(directed, count) => self.store.unbreeded_count(directed) == count,
            Look::Turtle(turtle, breed, place) => self.is_turtle(turtle, breed, place),
            Look::Link(link, breed, directed, end1, end2) => {
                self.is_link(link, breed, directed, end1, end2)
            }
            Look::DeadTurtle(turtle) => !self.store.turtle_lives(turtle),
            Look::DeadLink(link) => !self.store.link_lives(link),
            Look::Base(base) => self.store.base() == base,
            Look::Holds(owner, name, wanted) => self.holds(owner, name, wanted),
        }
    }
}

// Whether these are the numbers from 0 on, so many.
fn is_count(numbers: &[u64], count: u64) -> bool {
    for (at, number) in numbers.iter().enumerate() {
        if *number != at as u64 {
            return false;
        }
    }
    numbers.len() as u64 == count
}

/// Whether a variable holds this.
pub fn is_wanted(value: Option<&Value>, wanted: Wanted) -> bool {
    match (value, wanted) {
        (Some(Value::Number(number)), Wanted::Number(count)) => Some(*number) == tenths(count),
        (Some(Value::Truth(truth)), Wanted::Truth(other)) => *truth == other,
        (Some(Value::Words(text)), Wanted::Words(other)) => text.as_bytes() == other.as_bytes(),
        (Some(Value::Blank), Wanted::Words(other)) => other.is_empty(),
        (None, Wanted::Nothing) => true,
        _ => false,
    }
}
