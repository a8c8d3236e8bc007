//! A store as values ask it.
ghost use Rattle.std.specs.Prelude.{◌≡◌, ◌++◌, ◌+◌, ◌≤◌, ◌<◌, ◌*ℤ◌, pos, codes, length, IfOk, IsTrue};
ghost use Rattle.nl_fixed.specs.Numbers.{one};
ghost use Rattle.nl_value.specs.Living.{link_key};
ghost use Rattle.nl_value.specs.Plain.{PlainTurtle, PlainLink};
ghost use Rattle.nl_grid.specs.Geometry.{patches_of, all_patches};
ghost use Rattle.nl_agents_layout.specs.Layouts.{breed_of};
ghost use Rattle.nl_agents.specs.Changes.{link_of, TurtleLives, LinkLives};
ghost use Rattle.nl_agents.specs.Members.{all_links, members_of, most_reads, links_where, is_link_of_breed};
ghost use Rattle.nl_agents.specs.Names.{living_of, set_fits, name_of, patch_text, set_text, members_word, singular_or, plural_or, who_of};
ghost use Rattle.nl_agents.specs.inner.Views.{counts_text, link_is_of};

use crate::steps::Steps;
use crate::store::Store;
use nl_agents_layout::Layout;
use nl_fixed::{NoMemory, Num, Str};
use nl_value::{AgentSet, Life, Serials, Value};
use std::alloc::Global;
use std::marker::Brand;
use std::sync::ledger::{Blank, Ledger};

/// A store and the layout that it was made with: all that values ask of a world. What fits it is what fits the store.
///
/// Its texts of agents and sets are those of the NetLogo Programming Guide; that a set which isn't all of a breed is called `turtles`,
/// `patches` or `links` is this project's own choice.
#[derive(Drop)]
pub struct View<'a, S: Store> {
    pub store: &'a S,
    pub layout: &'a Layout,
    pub ghost known: { layout.now ≡ (S.world store.now).rest.layout },
}

impl<'a, S: Store> View<'a, S> {
    /// The store with its layout.
    pub fn new(store: &'a S, layout: &'a Layout) -> View<'a, S>
        requires { layout.now ≡ (S.world store.now).rest.layout }
        ensures store { result.store.now ≡ store.now }
        ensures layout { result.layout.now ≡ layout.now }
    {
        View { store, layout }
    }

    // The living members of a set, ascending. What the store reads for them is counted by nobody.
    fn members(&self, alloc: Global, set: &AgentSet) -> Result<Serials, NoMemory>
        requires { IsTrue (set_fits (S.world self.now.store.now).rest set.now) }
        ensures { IfOk result (λ members. members ≡ members_of (S.world self.now.store.now).rest set.now) }
    {
        self.members_by::<Brand>(alloc, Blank::new(1), set)
    }

    fn members_by<L: Ledger>(
        &self,
        alloc: Global,
        blank: Blank,
        set: &AgentSet,
    ) -> Result<Serials, NoMemory>
        requires name { blank.name ≡ L.name }
        requires parts { blank.parts ≡ L.parts }
        requires one { blank.parts ≡ 1 }
        requires fit { IsTrue (set_fits (S.world self.now.store.now).rest set.now) }
        ensures { IfOk result (λ members. members ≡ members_of (S.world self.now.store.now).rest set.now) }
    {
        let mut steps = Steps::<L>::new(blank);
        members(alloc, set, self.store, &mut steps)
    }

    // What the order of links goes by: the ends, the breed and the serial.
    fn key(&self, link: u64) -> [u64; 4]
        requires { LinkLives link (S.world self.now.store.now) }
        ensures { result ≡ link_key (living_of (S.world self.now.store.now).rest) link }
    {
        let (end1, end2) = self.store.ends(link);
        let (breed, _) = self.store.link_breed(link);
        [end1, end2, u64::from(breed), link]
    }

    // How many living members a set has. No list is made where the store can count.
    fn count(&self, alloc: Global, set: &AgentSet) -> Result<usize, NoMemory>
        requires { IsTrue (set_fits (S.world self.now.store.now).rest set.now) }
        ensures { IfOk result (λ count. count
            ≡ length (members_of (S.world self.now.store.now).rest set.now)) }
    {
        match set {
            AgentSet::Turtles => Ok(self.store.turtle_count()),
            AgentSet::Breed(breed) => Ok(self.store.breed_count(*breed)),
            AgentSet::Patches => Ok(self.store.shape().patches() as usize),
            AgentSet::Links => Ok(self.store.link_count()),
            _ => Ok(self.members(alloc, set)?.len()),
        }
    }

    // What a living turtle is called by.
    fn who(&self, turtle: u64) -> Num
        requires { TurtleLives turtle (S.world self.now.store.now) }
        ensures { result ≡ (pos (who_of (S.world self.now.store.now).rest turtle) *ℤ pos one) }
    {
        // What the number's range rests on: the store stands for a world.
        let _stands = self.store.shape();
        whole(turtle - self.store.base())
    }

    fn turtle_name(&self, alloc: Global, turtle: u64) -> Result<Str, NoMemory>
        ensures { IfOk result (λ name. name
            ≡ name_of (S.world self.now.store.now).rest (PlainTurtle turtle)) }
    {
        if !self.store.turtle_lives(turtle) {
            return Str::of(alloc, b"nobody");
        }
        // What the turtle that is found rests on: the store stands for a world.
        let _stands = self.store.shape();
        let word = self.singular(self.store.breed_of(turtle), b"turtle");
        agent_name(alloc, word, &[self.who(turtle)])
    }

    fn link_name(&self, alloc: Global, link: u64) -> Result<Str, NoMemory>
        ensures { IfOk result (λ name. name
            ≡ name_of (S.world self.now.store.now).rest (PlainLink link)) }
    {
        if !self.store.link_lives(link) {
            return Str::of(alloc, b"nobody");
        }
        let (breed, _) = self.store.link_breed(link);
        let (end1, end2) = self.store.ends(link);
        let word = self.singular(breed, b"link");
        agent_name(alloc, word, &[self.who(end1), self.who(end2)])
    }

    fn patch_name(&self, alloc: Global, patch: u32) -> Result<Str, NoMemory>
        requires { patch < patches_of (S.world self.now.store.now).rest.shape }
        ensures { IfOk result (λ name. name ≡ patch_text (S.world self.now.store.now).rest patch) }
    {
        let center = self.store.shape().center(patch);
        agent_name(alloc, b"patch", &[center.x, center.y])
    }

    fn set_name(&self, alloc: Global, set: &AgentSet) -> Result<Str, NoMemory>
        requires { IsTrue (set_fits (S.world self.now.store.now).rest set.now) }
        ensures { IfOk result (λ name. name ≡ set_text (S.world self.now.store.now).rest set.now) }
    {
        // What the number's range rests on: the store stands for a world.
        let _stands = self.store.shape();
        let count = self.count(alloc, set)?;
        let number = whole(count as u64).text(alloc)?;
        let mut name = Str::of(alloc, b"(agentset, ")?;
        name.append(alloc, number.as_bytes())?;
        name.append(alloc, b" ")?;
        name.append(alloc, self.members_word(set))?;
        name.append(alloc, b")")?;
        Ok(name)
    }

    // How the members of a set are called.
    fn members_word<'b>(&'b self, set: &AgentSet) -> &'b [u8]
        ensures { result.now ≡ members_word (S.world self.now.store.now).rest.layout set.now }
    {
        match set {
            AgentSet::Turtles | AgentSet::SomeTurtles(_) => b"turtles",
            AgentSet::Breed(breed) => self.plural(*breed, b"turtles"),
            AgentSet::Patches | AgentSet::SomePatches(_) => b"patches",
            AgentSet::Links | AgentSet::SomeLinks(_) => b"links",
            AgentSet::LinkBreed(breed) => self.plural(*breed, b"links"),
        }
    }

    // The singular of a breed, or this word where it is none.
    fn singular<'b>(&'b self, breed: u32, word: &'b [u8]) -> &'b [u8]
        ensures { result.now
            ≡ singular_or word.now (breed_of (S.world self.now.store.now).rest.layout breed) }
    {
        match self.layout.breed(breed) {
            Some(kept) => kept.singular.as_bytes(),
            None => word,
        }
    }

    fn plural<'b>(&'b self, breed: u32, word: &'b [u8]) -> &'b [u8]
        ensures { result.now ≡ plural_or word.now (breed_of (S.world self.now.store.now).rest.layout breed) }
    {
        match self.layout.breed(breed) {
            Some(kept) => kept.plural.as_bytes(),
            None => word,
        }
    }
}

impl<'a, S: Store> Life for View<'a, S> {
    ghost living = { λ view. living_of (S.world view.store.now).rest };

    fn turtle_lives(&self, turtle: u64) -> bool {
        self.store.turtle_lives(turtle)
    }

    fn link_lives(&self, link: u64) -> bool {
        self.store.link_lives(link)
    }

    fn same_members(&self, alloc: Global, a: &AgentSet, b: &AgentSet) -> Result<bool, NoMemory> {
        // What the order of the members rests on: the store stands for a world.
        let _stands = self.store.shape();
        if a.kind() != b.kind() {
            return Ok(false);
        }
        let first = self.members(alloc, a)?;
        let second = self.members(alloc, b)?;
        Ok(first.as_slice() == second.as_slice())
    }

    fn link_before(&self, a: u64, b: u64) -> bool {
        self.key(a).as_slice().cmp(self.key(b).as_slice()).is_lt()
    }

    fn name(&self, alloc: Global, value: &Value) -> Result<Str, NoMemory> {
        match value {
            Value::Turtle(turtle) => self.turtle_name(alloc, *turtle),
            Value::Link(link) => self.link_name(alloc, *link),
            Value::Patch(patch) => self.patch_name(alloc, *patch),
            Value::Set(set) => self.set_name(alloc, set),
            // Nothing else has a name.
            _ => Str::of(alloc, &[]),
        }
    }
}

/// The living members of a set, ascending, and what the store reads for them. A set that lists its members reads nothing.
pub fn members<S: Store, L: Ledger>(
    alloc: Global,
    set: &AgentSet,
    store: &S,
    steps: &mut Steps<L>,
) -> Result<Serials, NoMemory>
    requires { IsTrue (set_fits (S.world store.now).rest set.now) }
    ensures list { IfOk result (λ members. members ≡ members_of (S.world store.now).rest set.now) }
    ensures reads { steps.new ≤ steps.old + most_reads (S.world store.now).rest set.now }
{
    let mut into = Serials::empty(alloc);
    match set {
        AgentSet::Turtles => store.turtles(alloc, &mut into, steps)?,
        AgentSet::Breed(breed) => store.of_breed(alloc, *breed, &mut into, steps)?,
        AgentSet::Patches => return all_patches(alloc, store),
        AgentSet::Links => store.links(alloc, &mut into, steps)?,
        AgentSet::LinkBreed(breed) => {
            store.links(alloc, &mut into, steps)?;
            return links_of_breed(alloc, &into, *breed, store);
        }
        AgentSet::SomeTurtles(numbers) => return living_turtles(alloc, numbers, store),
        AgentSet::SomePatches(numbers) => return listed_patches(alloc, numbers, store),
        AgentSet::SomeLinks(numbers) => return living_links(alloc, numbers, store),
    }
    Ok(into)
}

fn all_patches<S: Store>(alloc: Global, store: &S) -> Result<Serials, NoMemory>
    ensures { IfOk result (λ patches. patches ≡ all_patches (S.world store.now).rest.shape) }
{
    let mut numbers = Vec::new(alloc);
    let count = store.shape().patches();
    for patch in 0..count {
        numbers.push(u64::from(patch))?;
    }
    Ok(Serials::of_vec(numbers))
}

// The patches of a list, each of which is one of the world.
fn listed_patches<S: Store>(alloc: Global, list: &Serials, store: &S) -> Result<Serials, NoMemory>
    requires { IsTrue (set_fits (S.world store.now).rest (AgentSet.SomePatches list.now)) }
    ensures { IfOk result (λ members. members
        ≡ members_of (S.world store.now).rest (AgentSet.SomePatches list.now)) }
{
    let _store = store;
    let _ascending = list.as_slice();
    list.copy(alloc)
}

// The living turtles of a list.
fn living_turtles<S: Store>(alloc: Global, list: &Serials, store: &S) -> Result<Serials, NoMemory>
    ensures { IfOk result (λ members. members
        ≡ members_of (S.world store.now).rest (AgentSet.SomeTurtles list.now)) }
{
    // What the order of the members rests on: the store stands for a world.
    let _stands = store.shape();
    let mut living = Vec::new(alloc);
    let numbers = list.as_slice();
    for number in numbers {
        if store.turtle_lives(*number) {
            living.push(*number)?;
        }
    }
    Ok(Serials::of_vec(living))
}

// The living links of a list.
fn living_links<S: Store>(alloc: Global, list: &Serials, store: &S) -> Result<Serials, NoMemory>
    ensures { IfOk result (λ members. members
        ≡ members_of (S.world store.now).rest (AgentSet.SomeLinks list.now)) }
{
    // What the order of the members rests on: the store stands for a world.
    let _stands = store.shape();
    let mut living = Vec::new(alloc);
    let numbers = list.as_slice();
    for number in numbers {
        if store.link_lives(*number) {
            living.push(*number)?;
        }
    }
    Ok(Serials::of_vec(living))
}

// Those of all links that are of a breed.
fn links_of_breed<S: Store>(
    alloc: Global,
    all: &Serials,
    breed: u32,
    store: &S,
) -> Result<Serials, NoMemory>
    requires { all.now ≡ all_links (S.world store.now).rest }
    ensures { IfOk result (λ members. members
        ≡ links_where (is_link_of_breed breed) (S.world store.now).rest) }
{
    // What the order of the links rests on: the store stands for a world.
    let _stands = store.shape();
    let mut bred = Vec::new(alloc);
    let numbers = all.as_slice();
    for number in numbers {
        if is_link_of(*number, breed, store) {
            bred.push(*number)?;
        }
    }
    Ok(Serials::of_vec(bred))
}

// Whether the breed of a living link is this one.
fn is_link_of<S: Store>(link: u64, breed: u32, store: &S) -> bool
    requires { LinkLives link (S.world store.now) }
    ensures { result ≡ link_is_of breed (link_of link (S.world store.now).rest) }
{
    let (own, _) = store.link_breed(link);
    own == breed
}

// A whole number that is as small as serials are.
fn whole(n: u64) -> Num
    requires { n ≤ 9_000_000_000_000 }
    ensures { result ≡ (pos n *ℤ pos one) }
{
    Num::whole(n as i64).unwrap()
}

// A word and numbers in parentheses.
fn agent_name(alloc: Global, word: &[u8], numbers: &[Num]) -> Result<Str, NoMemory>
    ensures { IfOk result (λ name. name ≡ codes "(" ++ word.now ++ counts_text numbers.now ++ codes ")") }
{
    let mut name = Str::of(alloc, b"(")?;
    name.append(alloc, word)?;
    for number in numbers {
        let text = number.text(alloc)?;
        name.append(alloc, b" ")?;
        name.append(alloc, text.as_bytes())?;
    }
    name.append(alloc, b")")?;
    Ok(name)
}
