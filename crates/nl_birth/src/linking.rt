//! The making of links.
//!
//! Links are made to the targets in ascending order. Where one more would not fit, those that were made before it stay, and so they do
//! where memory is refused. Which links stand in the way is this project's own choice; what the words do is the NetLogo Dictionary's.
ghost use Rattle.std.specs.Prelude.{◌≡◌, ◌==◌, ◌&&◌, ◌<◌, ◌≤◌, ℕ, [], ◌∷◌, false, length, min, All, IsTrue, IfOk, OnOk, OnErr};
ghost use Rattle.std.specs.List.{list_any};
ghost use Rattle.std.specs.List.Sorted.{IsStrictlyIncreasing};
ghost use Rattle.std.specs.Option.{option_and_then};
ghost use Rattle.nl_agents_layout.specs.Layouts.{is_link_breed};
ghost use Rattle.nl_agents.specs.Changes.{link_of, TurtleLives, LinkLives};
ghost use Rattle.nl_agents.specs.Members.{is_listed};
ghost use Rattle.nl_birth.specs.Links.{AreFree, wanted, is_of_other_kind, first_ties, links_made, link_room, linkings, linked, most_links};
ghost use Rattle.nl_birth.specs.Outcomes.{IsOutcome, IsOutcomeOfOne};
ghost use Rattle.nl_birth.specs.Keeping.{Keeps};
ghost use Rattle.nl_birth.specs.inner.Partners.{other_end, partner, ArePartners};

use crate::failing::BirthFail;
use crate::way::Way;
use nl_agents::{Steps, Store};
use nl_fixed::NoMemory;
use nl_value::Serials;
use std::alloc::Global;
use std::marker::Brand;
use std::sync::ledger::{Blank, Ledger};

/// The end beside the caller, where a link between these ends leads this way.
fn other_end(way: Way, caller: u64, end1: u64, end2: u64) -> Option<u64>
    ensures { result ≡ other_end way caller end1 end2 }
{
    match way {
        Way::With if end1 == caller => Some(end2),
        Way::With if end2 == caller => Some(end1),
        Way::To if end1 == caller => Some(end2),
        Way::From if end2 == caller => Some(end1),
        _ => None,
    }
}

/// Whom a link joins with the caller, where it is of the breed and leads this way.
fn partner<S: Store>(store: &S, way: Way, breed: u32, caller: u64, link: u64) -> Option<u64>
    requires { LinkLives link (S.world store.now) }
    ensures { result ≡ option_and_then (partner way breed caller) (link_of link (S.world store.now).rest) }
{
    let (of, directed) = store.link_breed(link);
    if of != breed || directed != way.has_direction() {
        return None;
    }
    let (end1, end2) = store.ends(link);
    other_end(way, caller, end1, end2)
}

/// Numbers in ascending order, each once.
fn in_order(mut numbers: Vec<u64>) -> Serials
    ensures { (number : ℕ) → is_listed result number ≡ is_listed numbers.items number }
{
    numbers.sort_unstable();
    numbers.dedup();
    Serials::of_vec(numbers)
}

/// The turtles that are joined with the caller already.
fn partners<S: Store, L: Ledger>(
    alloc: Global,
    blank: Blank,
    store: &S,
    way: Way,
    breed: u32,
    caller: u64,
) -> Result<Serials, NoMemory>
    requires name { blank.name ≡ L.name }
    requires parts { blank.parts ≡ L.parts }
    requires some { 0 < blank.parts }
    requires caller { TurtleLives caller (S.world store.now) }
    ensures { IfOk result (ArePartners way breed caller (S.world store.now)) }
{
    let _shape = store.shape();
    let mut links = Serials::empty(alloc);
    store.links_of(alloc, caller, &mut links, &mut Steps::<L>::new(blank))?;
    let mut others = Vec::new(alloc);
    for link in links.as_slice() {
        if let Some(other) = partner(store, way, breed, caller, *link) {
            others.push(other)?;
        }
    }
    Ok(in_order(others))
}

/// The targets to which a link is to be made.
fn wanted<S: Store>(
    alloc: Global,
    store: &S,
    way: Way,
    breed: u32,
    caller: u64,
    targets: &Serials,
) -> Result<Vec<u64>, NoMemory>
    requires caller { TurtleLives caller (S.world store.now) }
    ensures list { let all = wanted way breed caller targets.now (S.world store.now) in
        IfOk result (λ list. list.items ≡ all) }
    ensures ascending { IfOk result (λ list. IsStrictlyIncreasing list.items) }
{
    let others = partners::<S, Brand>(alloc, Blank::new(1), store, way, breed, caller)?;
    let mut wanted = Vec::new(alloc);
    for target in targets.as_slice() {
        if !others.contains(*target) {
            wanted.push(*target)?;
        }
    }
    Ok(wanted)
}

/// Whether a link of no breed and of the other kind lives than those that have a direction, or have none.
fn other_kind_lives<S: Store>(store: &S, directed: bool) -> bool
    ensures { result ≡ list_any (is_of_other_kind directed) (S.world store.now).rest.links }
{
    store.unbreeded_count(!directed) > 0
}

/// A link of the caller is made to each of the targets, none of which is joined with it.
fn tie_all<S: Store>(
    alloc: Global,
    store: &mut S,
    breed: u32,
    way: Way,
    caller: u64,
    targets: &[u64],
) -> Result<Serials, BirthFail>
    requires breed { IsTrue (is_link_breed (S.world store.old).rest.layout breed) }
    requires caller { TurtleLives caller (S.world store.old) }
    requires ascending { IsStrictlyIncreasing targets.now }
    requires targets { All (λ target. TurtleLives target (S.world store.old)) targets.now }
    requires apart { is_listed targets.now caller ≡ false }
    requires free { AreFree way breed caller (S.world store.old) targets.now }
    ensures { let w = S.world store.old in
        let after = first_ties way breed caller targets.now w in
        let most = length targets.now in
        IsOutcome (links_made after w most) after (min most (link_room w)) result (S.world store.new) }
{
    let mut made = Serials::empty(alloc);
    for target in targets {
        let (end1, end2) = way.ends(caller, *target);
        let link = store.tie(alloc, breed, way.has_direction(), end1, end2)?;
        made.push(alloc, link)?;
    }
    Ok(made)
}

/// Links of a breed are made between the caller and each of the targets in ascending order, as the way says. A link of the breed that
/// joins the two already, and leads the same way, is left, and no other is made. The serials of those that were made are given. One
/// that has no direction has the turtle of the lower serial as its first end.
///
/// LinkFault, and nothing is made, where the caller is a target, or where a link of no breed is to be made and one lives that has a
/// direction where this one has none, or none where this one has one.
pub fn link<S: Store>(
    alloc: Global,
    store: &mut S,
    breed: u32,
    way: Way,
    caller: u64,
    targets: &Serials,
) -> Result<Serials, BirthFail>
    requires breed { IsTrue (is_link_breed (S.world store.old).rest.layout breed) }
    requires caller { TurtleLives caller (S.world store.old) }
    requires targets { All (λ target. TurtleLives target (S.world store.old)) targets.now }
    ensures outcome { let w = S.world store.old in
        IsOutcome (linked way breed caller targets.now w) (linkings way breed caller targets.now w)
        (most_links way breed caller targets.now w) result (S.world store.new) }
    ensures keeps { Keeps (S.world store.old) (S.world store.new) }
{
    if targets.contains(caller) {
        return Err(BirthFail::LinkFault);
    }
    let wanted = wanted(alloc, store, way, breed, caller, targets)?;
    if breed == 0 && !wanted.is_empty() && other_kind_lives(store, way.has_direction()) {
        return Err(BirthFail::LinkFault);
    }
    tie_all(alloc, store, breed, way, caller, &wanted)
}

/// Whether a link of the breed may not be made, since it is of no breed and one of the other kind lives.
fn is_barred<S: Store>(store: &S, breed: u32, directed: bool) -> bool
    ensures { let links = (S.world store.now).rest.links in
        result ≡ ((breed == 0) && list_any (is_of_other_kind directed) links) }
{
    breed == 0 && other_kind_lives(store, directed)
}

/// A link of a breed is made between the caller and the target, as `link` does it for one target. Where it is refused nothing is changed,
/// also where memory is.
pub fn link_one<S: Store>(
    alloc: Global,
    store: &mut S,
    breed: u32,
    way: Way,
    caller: u64,
    target: u64,
) -> Result<(), BirthFail>
    requires breed { IsTrue (is_link_breed (S.world store.old).rest.layout breed) }
    requires caller { TurtleLives caller (S.world store.old) }
    requires target { TurtleLives target (S.world store.old) }
    ensures outcome { let w = S.world store.old in
        IsOutcomeOfOne (linked way breed caller (target ∷ []) w) result (S.world store.new) }
    ensures kept { OnErr result (S.world store.new ≡ S.world store.old) }
    ensures keeps { Keeps (S.world store.old) (S.world store.new) }
{
    if target == caller {
        return Err(BirthFail::LinkFault);
    }
    let others = partners::<S, Brand>(alloc, Blank::new(1), store, way, breed, caller)?;
    if others.contains(target) {
        return Ok(());
    }
    let directed = way.has_direction();
    if is_barred(store, breed, directed) {
        return Err(BirthFail::LinkFault);
    }
    let (end1, end2) = way.ends(caller, target);
    let _link = store.tie(alloc, breed, directed, end1, end2)?;
    Ok(())
}
