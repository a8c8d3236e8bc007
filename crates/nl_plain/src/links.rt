//! The links of a store, and how many of them are of no breed.
ghost use Rattle.std.specs.Prelude.{◌≡◌, ◌+◌, ◌<◌, ◌≤◌, ◌^◌, cond, ◌∷◌, ◌++◌, [], filter, length, not, None, Some, IfOk, IfErr, OnOk, OnErr};
ghost use Rattle.nl_value.specs.Views.{plain};
ghost use Rattle.nl_agents.specs.Changes.{is_link, has_end};
ghost use Rattle.nl_agents.specs.Members.{is_unbreeded};
ghost use Rattle.nl_plain.specs.Lists.{LinksAscend, HasLink, link_entry, links_set, unbreeded};

use crate::changing::set_link;
use crate::copying::copy_links;
use crate::finding::link_place;
use nl_agents::{Link, Slots};
use nl_fixed::NoMemory;
use nl_value::Value;
use std::alloc::Global;
use std::marker::Model;

/// Links in a list, with counts of those of no breed.
#[derive(Drop)]
pub(crate) struct Links {
    list: Vec<Link>,
    // How many of no breed have a direction, and how many have none.
    directed: usize,
    undirected: usize,
}

impl Model for Links {
    ghost use Rattle.std.specs.Prelude.{◌≡◌, List, true, false};
    ghost use Rattle.nl_agents.specs.declared.agents.Link.{Link};
    ghost use Rattle.nl_plain.specs.Lists.{unbreeded};
    ghost use Rattle.std.specs.Coded.{codes};
    ghost use Rattle.nl_value.specs.inner.Codes.{plain_code};

    ghost Value = { List Link };

    ghost coded = { Prim.hlevel (codes, plain_code) };

    ghost view = { λ links. links.list.items };

    ghost invariant = { λ links. (links.directed ≡ unbreeded true links.list.items)
        × (links.undirected ≡ unbreeded false links.list.items) };
}

impl Links {
    /// No links.
    pub(crate) fn empty(alloc: Global) -> Links
        ensures { result ≡ [] }
    {
        Links {
            list: Vec::new(alloc),
            directed: 0,
            undirected: 0,
        }
    }

    /// The links, in order.
    pub(crate) fn as_slice(&self) -> &[Link]
        ensures { result.now ≡ self.now }
    {
        self.list.as_slice()
    }

    /// How many of no breed have a direction, or have none.
    pub(crate) fn unbreeded(&self, directed: bool) -> usize
        ensures { result ≡ unbreeded directed self.now }
    {
        if directed {
            self.directed
        } else {
            self.undirected
        }
    }

    /// Appends a link, or leaves the list as it was.
    pub(crate) fn push(&mut self, link: Link) -> Result<(), NoMemory>
        requires { length self.old < 400_000 }
        ensures ok { OnOk result (self.new ≡ self.old ++ link ∷ []) }
        ensures err { OnErr result (self.new ≡ self.old) }
    {
        let directed = is_unbreeded(&link, true);
        let undirected = is_unbreeded(&link, false);
        self.list.push(link)?;
        self.directed = more(self.directed, directed);
        self.undirected = more(self.undirected, undirected);
        Ok(())
    }

    /// Takes the link of a serial away.
    pub(crate) fn remove(&mut self, serial: u64)
        requires order { LinksAscend self.old }
        requires lives { HasLink serial self.old }
        ensures { self.new ≡ filter (λ l. not (is_link serial l)) self.old }
    {
        let at = link_place(&self.list, serial).unwrap();
        let gone = &self.list[at];
        let directed = is_unbreeded(gone, true);
        let undirected = is_unbreeded(gone, false);
        let _ = self.list.remove(at);
        self.directed = less(self.directed, directed);
        self.undirected = less(self.undirected, undirected);
    }

    /// Takes the links away that have the turtle as an end.
    pub(crate) fn remove_of(&mut self, turtle: u64)
        ensures { self.new ≡ filter (λ l. not (has_end turtle l)) self.old }
    {
        self.list
            .retain(|link| link.end1 != turtle && link.end2 != turtle);
        self.directed = count_unbreeded(&self.list, true);
        self.undirected = count_unbreeded(&self.list, false);
    }

    /// Sets a variable of the link of a serial, where its breed owns it.
    pub(crate) fn set(
        &mut self,
        slots: &Slots,
        serial: u64,
        slot: u32,
        value: Value,
    ) -> Result<Value, Value>
        requires order { LinksAscend self.old }
        requires lives { HasLink serial self.old }
        ensures old { IfOk result (λ old. link_entry slots.now slot serial self.old ≡ Some (plain old)) }
        ensures back { IfErr result (λ back. plain back ≡ plain value) }
        ensures not_owned { OnErr result (link_entry slots.now slot serial self.old ≡ None) }
        ensures new { self.new ≡ links_set slots.now slot (plain value) serial self.old }
        ensures kept { OnErr result (self.new ≡ self.old) }
    {
        set_link(&mut self.list, slots, serial, slot, value)
    }

    /// Takes all links away.
    pub(crate) fn clear(&mut self)
        ensures { self.new ≡ [] }
    {
        self.list.clear();
        self.directed = 0;
        self.undirected = 0;
    }

    /// The same links again.
    pub(crate) fn copy(&self, alloc: Global) -> Result<Links, NoMemory>
        ensures { IfOk result (λ again. again ≡ self.now) }
    {
        let list = copy_links(alloc, &self.list)?;
        Ok(Links {
            list,
            directed: self.directed,
            undirected: self.undirected,
        })
    }
}

/// Whether the link is of no breed, and has a direction or has none, as is asked.
fn is_unbreeded(link: &Link, directed: bool) -> bool
    ensures { result ≡ is_unbreeded directed link.now }
{
    link.breed == 0 && link.directed == directed
}

/// How many links of no breed have a direction, or have none.
fn count_unbreeded(links: &[Link], directed: bool) -> usize
    ensures { result ≡ unbreeded directed links.now }
{
    let mut count = 0;
    for link in links {
        if is_unbreeded(link, directed) {
            count += 1;
        }
    }
    count
}

// One more, where there is one.
fn more(count: usize, one: bool) -> usize
    requires { count < 2 ^ 63 }
    ensures { result ≡ count + cond one 1 0 }
{
    if one { count + 1 } else { count }
}

// One less, where there was one.
fn less(count: usize, one: bool) -> usize
    requires { cond one 1 0 ≤ count }
    ensures { result + cond one 1 0 ≡ count }
{
    if one { count - 1 } else { count }
}
