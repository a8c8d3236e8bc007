//! Which variables there are, and which agents own them.
ghost use Rattle.std.specs.Prelude.{◌≡◌, ◌+◌, [], ◌∷◌, ◌++◌, IfOk, OnOk, OnErr, if◌then◌else◌, nat_lt};
ghost use Rattle.nl_agents_layout.specs.BuiltIn.{built_in_count};
ghost use Rattle.std.specs.Option.{option_copied};
ghost use Rattle.nl_agents_layout.specs.Layouts.{has_slot, breed_of, breeds_count, is_turtle_breed, is_link_breed, turtle_owns, link_owns, own_in, owners_of, slot_by, layout_of};

use crate::built_in::{BUILT_IN, slot_of_code};
use crate::numbering::{
    OF_LINKS, OF_PATCHES, OF_TURTLES, breeds_of, coded_slots, count_globals, count_slots,
    kept_by_all, kept_by_some,
};
use crate::slots::Slots;
use nl_fixed::{NoMemory, Str};
use nl_tree::{Program, What};
use nl_words::Kinds;
use std::alloc::Global;
use std::marker::Model;

/// A breed as it is kept beside a model's agents.
#[derive(Drop)]
pub struct BreedLayout {
    pub plural: Str,
    pub singular: Str,
    /// Whether it is a breed of links.
    pub link: bool,
    /// Whether its links have a direction.
    pub directed: bool,
    /// The slots of the variables that its agents own beside those of all turtles or links.
    pub own: Slots,
}

impl BreedLayout {
    /// The same breed again.
    pub fn copy(&self, alloc: Global) -> Result<BreedLayout, NoMemory>
        ensures { IfOk result (λ again. again ≡ self.now) }
    {
        let plural = self.plural.copy(alloc)?;
        let singular = self.singular.copy(alloc)?;
        let own = self.own.copy(alloc)?;
        Ok(BreedLayout {
            plural,
            singular,
            link: self.link,
            directed: self.directed,
            own,
        })
    }
}

/// Breeds, in the order of the text.
#[derive(Drop)]
pub struct BreedLayouts {
    list: Vec<BreedLayout>,
}

impl Model for BreedLayouts {
    ghost use Rattle.std.specs.Prelude.{List};
    ghost use Rattle.nl_agents_layout.specs.declared.layout.BreedLayout.{BreedLayout};

    ghost Value = { List BreedLayout };

    ghost view = { λ breeds. breeds.list.items };
}

impl BreedLayouts {
    /// No breeds.
    pub fn empty(alloc: Global) -> BreedLayouts
        ensures { result ≡ [] }
    {
        BreedLayouts {
            list: Vec::new(alloc),
        }
    }

    /// The breeds, in order.
    pub fn as_slice(&self) -> &[BreedLayout]
        ensures { result.now ≡ self.now }
    {
        self.list.as_slice()
    }

    /// Appends a breed, or leaves the list as it was.
    pub fn push(&mut self, _alloc: Global, breed: BreedLayout) -> Result<(), NoMemory>
        ensures ok { OnOk result (self.new ≡ self.old ++ breed ∷ []) }
        ensures err { OnErr result (self.new ≡ self.old) }
    {
        self.list.push(breed)?;
        Ok(())
    }

    /// The same breeds again.
    pub fn copy(&self, alloc: Global) -> Result<BreedLayouts, NoMemory>
        ensures { IfOk result (λ again. again ≡ self.now) }
    {
        let mut copied = BreedLayouts::empty(alloc);
        for breed in &self.list {
            let again = breed.copy(alloc)?;
            copied.push(alloc, again)?;
        }
        Ok(copied)
    }
}

/// The variables of a model and who owns them.
///
/// A variable of agents has one slot, whoever owns it; the slots of global variables are counted apart from these. Breed 0 is that of
/// turtles, or of links, of no breed; breed i + 1 is the one at the place i of `breeds`.
#[derive(Drop)]
pub struct Layout {
    /// How many global variables there are: the widgets and those that the code declares.
    pub globals: u32,
    /// The slots of the global variables that the code declares.
    pub coded: Slots,
    /// How many slots of variables of agents there are: the built-in ones, and then one for each variable that the model declares.
    pub slots: u32,
    /// The slots of what every turtle owns, what every patch owns and what every link owns.
    pub every_turtle: Slots,
    pub every_patch: Slots,
    pub every_link: Slots,
    /// The slots of what turtles of any breed own, and of what links of any breed own.
    pub some_turtle: Slots,
    pub some_link: Slots,
    pub breeds: BreedLayouts,
}

impl Layout {
    /// The layout of a program. What it takes grows with the names that the program declares, and with the logarithm of their number.
    pub fn of(alloc: Global, program: &Program) -> Result<Layout, NoMemory>
        ensures { IfOk result (λ layout. layout ≡ layout_of program.now.declared) }
    {
        let declared = program.declared();
        let globals = count_globals(program);
        let coded = coded_slots(alloc, program, globals)?;
        let slots = count_slots(program);
        let every_turtle = kept_by_all(alloc, program, &OF_TURTLES, &declared.turtles_own)?;
        let every_patch = kept_by_all(alloc, program, &OF_PATCHES, &declared.patches_own)?;
        let every_link = kept_by_all(alloc, program, &OF_LINKS, &declared.links_own)?;
        let some_turtle = kept_by_some(alloc, program, &OF_TURTLES, &declared.turtles_own, false)?;
        let some_link = kept_by_some(alloc, program, &OF_LINKS, &declared.links_own, true)?;
        let breeds = breeds_of(alloc, program)?;
        Ok(Layout {
            globals,
            coded,
            slots,
            every_turtle,
            every_patch,
            every_link,
            some_turtle,
            some_link,
            breeds,
        })
    }

    /// The slot of a variable, one for all owners. None where it is no variable, or one that is kept apart: the place of a turtle or a
    /// patch, its number, its breed, the ends of a link.
    pub fn slot(&self, what: What) -> Option<u32>
        ensures { result ≡ slot_by self.now what }
    {
        match what {
            What::Base(code) => slot_of_code(code),
            What::Global(number) if number < self.globals => Some(number),
            What::Own(number) => slot_below(number, self.slots),
            _ => None,
        }
    }

    /// How many breeds there are, that of no breed among them.
    pub fn breeds_count(&self) -> usize
        ensures { result ≡ breeds_count self.now }
    {
        1 + self.breeds.as_slice().len()
    }

    /// The breed of a number. There is none under 0, which stands for no breed.
    pub fn breed(&self, number: u32) -> Option<&BreedLayout>
        ensures { option_copied result ≡ breed_of self.now number }
    {
        if number == 0 {
            return None;
        }
        self.breeds.as_slice().get(number as usize - 1)
    }

    /// Whether the number is that of a breed of turtles: 0 is.
    pub fn is_turtle_breed(&self, breed: u32) -> bool
        ensures { result ≡ is_turtle_breed self.now breed }
    {
        match self.breed(breed) {
            Some(kept) => !kept.link,
            None => breed == 0,
        }
    }

    /// Whether the number is that of a breed of links: 0 is.
    pub fn is_link_breed(&self, breed: u32) -> bool
        ensures { result ≡ is_link_breed self.now breed }
    {
        match self.breed(breed) {
            Some(kept) => kept.link,
            None => breed == 0,
        }
    }

    /// Whether turtles of a breed own the variable of a slot, by two searches.
    pub fn turtle_owns(&self, breed: u32, slot: u32) -> bool
        ensures { result ≡ turtle_owns self.now breed slot }
    {
        self.every_turtle.contains(slot) || self.breed_owns(breed, slot)
    }

    /// Whether links of a breed own the variable of a slot, by two searches.
    pub fn link_owns(&self, breed: u32, slot: u32) -> bool
        ensures { result ≡ link_owns self.now breed slot }
    {
        self.every_link.contains(slot) || self.breed_owns(breed, slot)
    }

    // Whether the variable is one of a breed's own.
    fn breed_owns(&self, breed: u32, slot: u32) -> bool
        ensures { result ≡ has_slot (own_in (breed_of self.now breed)) slot }
    {
        match self.breed(breed) {
            Some(kept) => kept.own.contains(slot),
            None => false,
        }
    }

    /// Which kinds of agents keep something under a slot: turtles of some breed, patches, links of some breed. The observer keeps
    /// nothing there, since the slots of global variables are counted apart.
    pub fn owners(&self, slot: u32) -> Kinds
        ensures { result ≡ owners_of self.now slot }
    {
        Kinds {
            observer: false,
            turtle: self.some_turtle.contains(slot),
            patch: self.every_patch.contains(slot),
            link: self.some_link.contains(slot),
        }
    }

    /// Whether the code declares the global variable of a slot.
    pub fn is_coded(&self, slot: u32) -> bool
        ensures { result ≡ has_slot self.now.coded slot }
    {
        self.coded.contains(slot)
    }

    /// The same layout again.
    pub fn copy(&self, alloc: Global) -> Result<Layout, NoMemory>
        ensures { IfOk result (λ again. again ≡ self.now) }
    {
        let coded = self.coded.copy(alloc)?;
        let every_turtle = self.every_turtle.copy(alloc)?;
        let every_patch = self.every_patch.copy(alloc)?;
        let every_link = self.every_link.copy(alloc)?;
        let some_turtle = self.some_turtle.copy(alloc)?;
        let some_link = self.some_link.copy(alloc)?;
        let breeds = self.breeds.copy(alloc)?;
        Ok(Layout {
            globals: self.globals,
            coded,
            slots: self.slots,
            every_turtle,
            every_patch,
            every_link,
            some_turtle,
            some_link,
            breeds,
        })
    }
}

// The slot of a variable that the model declares, by its number, where it is below the bound.
fn slot_below(number: u32, slots: u32) -> Option<u32>
    ensures { result
        ≡ (if nat_lt (built_in_count + number) slots then Some (built_in_count + number) else None) }
{
    let slot = BUILT_IN.checked_add(number)?;
    if slot < slots { Some(slot) } else { None }
}
