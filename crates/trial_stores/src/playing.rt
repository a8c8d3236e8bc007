//! Calls of stores under trial, each made only where its conditions hold.

use crate::asking::is_wanted;
use crate::trials::{Place, Step, Tried, Wanted, tenths};
use nl_agents::{BearFail, Owner, Store};
use nl_value::Value;
use std::alloc::Global;

impl<S: Store> Tried<S> {
    fn born(
        &mut self,
        alloc: Global,
        breed: u32,
        place: Place,
        parent: Option<u64>,
    ) -> Option<Result<u64, BearFail>> {
        let at = self.point(place)?;
        if !self.layout.is_turtle_breed(breed) {
            return None;
        }
        if !self.parent_lives(parent) {
            return None;
        }
        Some(self.store.bear(alloc, breed, at, parent))
    }

    fn kill(&mut self, turtle: u64) -> bool {
        if !self.store.turtle_lives(turtle) {
            return false;
        }
        self.store.kill(turtle);
        true
    }

    fn shift(&mut self, turtle: u64, place: Place) -> bool {
        let Some(to) = self.point(place) else {
            return false;
        };
        if !self.store.turtle_lives(turtle) {
            return false;
        }
        self.store.shift(turtle, to);
        true
    }

    fn rebreed(&mut self, turtle: u64, breed: u32) -> bool {
        if !self.store.turtle_lives(turtle) || !self.layout.is_turtle_breed(breed) {
            return false;
        }
        self.store.rebreed(turtle, breed);
        true
    }

    fn tie(
        &mut self,
        alloc: Global,
        breed: u32,
        directed: bool,
        end1: u64,
        end2: u64,
    ) -> Option<u64> {
        if !self.layout.is_link_breed(breed) || end1 == end2 {
            return None;
        }
        if !self.store.turtle_lives(end1) || !self.store.turtle_lives(end2) {
            return None;
        }
        if self.is_tied(alloc, breed, directed, end1, end2) {
            return None;
        }
        self.store.tie(alloc, breed, directed, end1, end2).ok()
    }

    fn cut(&mut self, link: u64) -> bool {
        if !self.store.link_lives(link) {
            return false;
        }
        self.store.cut(link);
        true
    }

    // What is handed back where the variable is to become the number.
    fn set(&mut self, owner: Owner, name: &str, count: i64) -> Option<Result<Value, Value>> {
        if !self.owner_lives(owner) {
            return None;
        }
        let slot = self.slot(name)?;
        let number = tenths(count)?;
        Some(self.store.set_var(owner, slot, Value::Number(number)))
    }

    fn sets(&mut self, owner: Owner, name: &str, count: i64, old: Wanted) -> bool {
        match self.set(owner, name, count) {
            Some(Ok(value)) => is_wanted(Some(&value), old),
            _ => false,
        }
    }

    fn sets_nothing(&mut self, owner: Owner, name: &str, count: i64) -> bool {
        match self.set(owner, name, count) {
            Some(Err(value)) => is_wanted(Some(&value), Wanted::Number(count)),
            _ => false,
        }
    }

    fn put_a_copy_aside(&mut self, alloc: Global) -> bool {
        match self.store.copy(alloc) {
            Ok(store) => {
                self.aside = store;
                true
            }
            Err(_) => false,
        }
    }

    fn swap(&mut self) -> bool {
        std::mem::swap(&mut self.store, &mut self.aside);
        true
    }

    /// Makes the call where its conditions hold. False where they don't, and where the store answers otherwise than the step says.
    pub fn play(&mut self, alloc: Global, step: Step) -> bool {
        match step {
            Step::Bear(breed, place, parent, serial) => {
                self.born(alloc, breed, place, parent) == Some(Ok(serial))
            }
            Step::Full(breed, place) => {
                self.born(alloc, breed, place, None) == Some(Err(BearFail::Full))
            }
            Step::Kill(turtle) => self.kill(turtle),
            Step::Shift(turtle, place) => self.shift(turtle, place),
            Step::Rebreed(turtle, breed) => self.rebreed(turtle, breed),
            Step::Tie(breed, directed, end1, end2, serial) => {
                self.tie(alloc, breed, directed, end1, end2) == Some(serial)
            }
            Step::Cut(link) => self.cut(link),
            Step::Set(owner, name, count, old) => self.sets(owner, name, count, old),
            Step::SetNothing(owner, name, count) => self.sets_nothing(owner, name, count),
            Step::Copy => self.put_a_copy_aside(alloc),
            Step::Swap => self.swap(),
            clear => self.clear(clear),
        }
    }

    fn clear(&mut self, step: Step) -> bool {
        match step {
            Step::ClearTurtles => self.store.clear_turtles(),
            Step::ClearLinks => self.store.clear_links(),
            Step::ClearPatches => self.store.clear_patches(),
            Step::ClearGlobals => self.store.clear_globals(),
            _ => return false,
        }
        true
    }
}
