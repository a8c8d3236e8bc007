//! How many turtles are of each breed, and how many links of none.
ghost use Rattle.std.specs.Prelude.{◌≡◌, ◌==◌, ◌+◌, ◌<◌, ◌≤◌, ◌^◌, cond, length, true, false, IfOk};
ghost use Rattle.nl_store.specs.Counts.{count_at, is_plain, plain_count, CountsNone, LinkLess, LinkMore, TurtleLess, TurtleMore};

use nl_fixed::NoMemory;
use std::alloc::Global;

/// Counts of turtles and links, which go up by one that comes and down by one that goes.
#[derive(Drop)]
pub struct Census {
    pub breeds: Vec<usize>,
    /// How many links of no breed have a direction.
    pub directed: usize,
    /// How many links of no breed have none.
    pub undirected: usize,
}

impl Census {
    /// No turtles and links, with so many breeds, where breed 0 counts too.
    pub(crate) fn none(alloc: Global, breeds: u32) -> Result<Census, NoMemory>
        ensures { IfOk result (CountsNone breeds) }
    {
        let breeds = vec![in alloc; 0usize; breeds as usize]?;
        Ok(Census {
            breeds,
            directed: 0,
            undirected: 0,
        })
    }

    /// How many turtles are of a breed.
    pub(crate) fn of_breed(&self, breed: u32) -> usize
        ensures { result ≡ count_at self.now breed }
    {
        match self.breeds.get(breed as usize) {
            Some(count) => *count,
            None => 0,
        }
    }

    /// How many links of no breed have a direction, or have none.
    pub(crate) fn unbreeded(&self, directed: bool) -> usize
        ensures { result ≡ plain_count directed self.now }
    {
        if directed {
            self.directed
        } else {
            self.undirected
        }
    }

    /// A turtle of the breed comes.
    pub(crate) fn turtle_more(&mut self, breed: u32)
        requires inside { breed < length self.old.breeds.items }
        requires room { count_at self.old breed < 2 ^ 63 }
        ensures { TurtleMore breed self.old self.new }
    {
        self.breeds[breed as usize] += 1;
    }

    /// A turtle of the breed goes.
    pub(crate) fn turtle_less(&mut self, breed: u32)
        requires { 0 < count_at self.old breed }
        ensures { TurtleLess breed self.old self.new }
    {
        self.breeds[breed as usize] -= 1;
    }

    /// A link comes.
    pub(crate) fn link_more(&mut self, breed: u32, directed: bool)
        requires directed { plain_count true self.old < 2 ^ 63 }
        requires undirected { plain_count false self.old < 2 ^ 63 }
        ensures { LinkMore breed directed self.old self.new }
    {
        self.directed = more(self.directed, is_plain(breed, directed, true));
        self.undirected = more(self.undirected, is_plain(breed, directed, false));
    }

    /// A link goes.
    pub(crate) fn link_less(&mut self, breed: u32, directed: bool)
        requires directed { cond (is_plain breed directed true) 1 0 ≤ plain_count true self.old }
        requires undirected { cond (is_plain breed directed false) 1 0 ≤ plain_count false self.old }
        ensures { LinkLess breed directed self.old self.new }
    {
        self.directed = less(self.directed, is_plain(breed, directed, true));
        self.undirected = less(self.undirected, is_plain(breed, directed, false));
    }
}

/// Whether a link of the breed, with a direction or without, is of no breed and has a direction or has none, as is asked.
fn is_plain(breed: u32, directed: bool, asked: bool) -> bool
    ensures { result ≡ is_plain breed directed asked }
{
    breed == 0 && directed == asked
}

/// One more, where there is one.
fn more(count: usize, one: bool) -> usize
    requires { count < 2 ^ 63 }
    ensures { result ≡ count + cond one 1 0 }
{
    if one { count + 1 } else { count }
}

/// One less, where there was one.
fn less(count: usize, one: bool) -> usize
    requires { cond one 1 0 ≤ count }
    ensures { result + cond one 1 0 ≡ count }
{
    if one { count - 1 } else { count }
}
