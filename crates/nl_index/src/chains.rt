//! The chains by birth, by patch and by breed.
ghost use Rattle.std.specs.Prelude.{◌≡◌, ◌<◌, ◌==◌, ℕ, Bool, true, false, Option, Some, None, IsSome, IsSomeAnd, IfOk, length, slice_get, if◌then◌else◌};
ghost use Rattle.nl_grid.specs.Geometry.{IsPointOf, patch_at, patches_of};
ghost use Rattle.nl_store_lists.specs.Chained.{at_number};
ghost use Rattle.nl_store_records.specs.Records.{record_at, fields_at};
ghost use Rattle.nl_store_records.specs.Filed.{no_keys};
ghost use Rattle.nl_store_records.specs.declared.fields.Fields.{Fields};
ghost use Rattle.nl_store_records.specs.declared.record.Record.{Record};
ghost use Rattle.nl_index.specs.Rows.{borders_in};
ghost use Rattle.nl_index.specs.Index.{Fits, IsAbove, IsChain, IsIndex, IsListed, IsSized, IsTurtle, IsWhole, Lists, MayAdd, MovesBare, SameBare, breeds_in, first_of, keys_of, lists_added, lists_refiled, lists_removed, no_lists};

use crate::homes::homes_at;
use crate::row::{link_in, move_last, unlink_from};
use nl_fixed::NoMemory;
use nl_grid::{Point, Shape};
use nl_store_records::{Body, PackedBorder, Records};
use std::alloc::Global;

/// Which chain: of all turtles or all links, in order of birth; of the turtles on a patch or of a breed, in the order in which they came.
#[derive(Clone, Copy, PartialEq, Debug)]
pub enum Chain {
    Turtles,
    Links,
    Patch(u32),
    Breed(u32),
}

/// The chains of the turtles and links of a world. They are in the records; here are the first and the last key of each.
#[derive(Drop)]
pub struct Chains {
    shape: Shape,
    births: Vec<PackedBorder>,
    patches: Vec<PackedBorder>,
    breeds: Vec<PackedBorder>,
}

/// So many empty chains.
fn empty_row(alloc: Global, number: u32) -> Result<Vec<PackedBorder>, NoMemory>
    ensures len { IfOk result (λ row. length row.items ≡ number) }
    ensures empty { IfOk result (λ row. (n : ℕ) → borders_in row.items n ≡ no_keys) }
{
    Ok(vec![in alloc; PackedBorder::none(); number as usize]?)
}

/// The patch under a point.
fn patch_under(shape: Shape, at: &Point) -> u32
    requires { IsPointOf shape at.now }
    ensures patch { result ≡ patch_at shape at.now }
    ensures below { result < patches_of shape }
{
    shape.patch_of(*at)
}

impl Chains {
    /// The chains of a world of this shape, with so many breeds, where breed 0 counts too. They are empty. No other call takes memory.
    pub fn new(alloc: Global, shape: Shape, breeds: u32) -> Result<Chains, NoMemory>
        ensures empty { IfOk result (λ chains. (at : ℕ → Option Record) → IsIndex chains at (λ _. false) no_lists) }
        ensures size { IfOk result (IsSized shape breeds) }
    {
        let births = empty_row(alloc, 2)?;
        let patches = empty_row(alloc, shape.patches())?;
        let breeds = empty_row(alloc, breeds)?;
        Ok(Chains {
            shape,
            births,
            patches,
            breeds,
        })
    }

    /// The first key of a chain. None exactly where it is empty. It takes the same time however many keys there are.
    pub fn first(&self, chain: Chain) -> Option<usize>
        requires whole { IsWhole self.now }
        requires chain { IsChain chain self.now }
        ensures { (at : ℕ → Option Record) (filed : ℕ → Bool) (lists : Lists) →
            IsIndex self.now at filed lists → result ≡ first_of (keys_of chain lists) }
    {
        match chain {
            Chain::Turtles => self.births[0].first(),
            Chain::Links => self.births[1].first(),
            Chain::Patch(patch) => self.patches[patch as usize].first(),
            Chain::Breed(breed) => self.breeds[breed as usize].first(),
        }
    }

    /// Makes an agent the last of its chains. It takes no memory, and the same time however many agents there are.
    pub fn add(&mut self, records: &mut Records, key: usize)
        requires held { IsSome (record_at records.old key) }
        requires away { MayAdd self.old (record_at records.old) key }
        requires fits { IsSomeAnd (fields_at (record_at records.old) key) (Fits self.old) }
        ensures added { (filed : ℕ → Bool) (lists : Lists) (f : Fields) →
            IsIndex self.old (record_at records.old) filed lists → filed key ≡ false →
            IsAbove (record_at records.old) filed key → fields_at (record_at records.old) key ≡ Some f →
            IsIndex self.new (record_at records.new) (at_number filed key true) (lists_added self.old.shape f key lists) }
        ensures others { SameBare (record_at records.old) (record_at records.new) }
        ensures size { IsSized self.old.shape (breeds_in self.old) self.new }
    {
        let homes = homes_at(self.shape, records, key);
        link_in(&mut self.births, records, 0, Some(homes.births), key);
        link_in(&mut self.patches, records, 1, homes.patch, key);
        link_in(&mut self.breeds, records, 2, homes.breed, key);
    }

    /// Takes an agent out of its chains. It takes no memory, and the same time however many agents there are.
    pub fn remove(&mut self, records: &mut Records, key: usize)
        requires held { IsSome (record_at records.old key) }
        requires listed { IsListed self.old (record_at records.old) key }
        ensures removed { (filed : ℕ → Bool) (lists : Lists) (f : Fields) →
            IsIndex self.old (record_at records.old) filed lists → filed key ≡ true →
            fields_at (record_at records.old) key ≡ Some f →
            IsIndex self.new (record_at records.new) (at_number filed key false) (lists_removed self.old.shape f key lists) }
        ensures others { SameBare (record_at records.old) (record_at records.new) }
        ensures size { IsSized self.old.shape (breeds_in self.old) self.new }
    {
        let homes = homes_at(self.shape, records, key);
        unlink_from(&mut self.births, records, 0, Some(homes.births), key);
        unlink_from(&mut self.patches, records, 1, homes.patch, key);
        unlink_from(&mut self.breeds, records, 2, homes.breed, key);
    }

    /// Gives a turtle this point and breed, and makes it the last in the chains of the new patch and of the breed, also where they are those
    /// that it was in. Its place in order of birth stays. It takes no memory, and the same time however many agents there are.
    pub fn refile(&mut self, records: &mut Records, key: usize, to: Point, breed: u32)
        requires held { IsSome (record_at records.old key) }
        requires listed { IsListed self.old (record_at records.old) key }
        requires turtle { IsTurtle (fields_at (record_at records.old) key) }
        requires point { IsPointOf self.old.shape to }
        requires breed { breed < breeds_in self.old }
        ensures refiled { (filed : ℕ → Bool) (lists : Lists) (f : Fields) →
            IsIndex self.old (record_at records.old) filed lists → filed key ≡ true →
            fields_at (record_at records.old) key ≡ Some f →
            IsIndex self.new (record_at records.new) filed (lists_refiled self.old.shape f to breed key lists) }
        ensures others { MovesBare key to breed (record_at records.old) (record_at records.new) }
        ensures size { IsSized self.old.shape (breeds_in self.old) self.new }
    {
        let from = homes_at(self.shape, records, key);
        let patch = patch_under(self.shape, &to);
        move_last(
            &mut self.patches,
            records,
            1,
            from.patch,
            patch as usize,
            key,
        );
        move_last(
            &mut self.breeds,
            records,
            2,
            from.breed,
            breed as usize,
            key,
        );
        records.settle(key, Body::Turtle(to), breed);
    }
}
