//! Turtles and links with their chains.
ghost use Rattle.std.specs.Prelude.{◌≡◌, ◌<◌, IsTrue, IsSome, IfSome, true};
ghost use Rattle.nl_grid.specs.Geometry.{IsPointOf};
ghost use Rattle.nl_store_records.specs.Records.{record_at, fields_at};
ghost use Rattle.nl_index.specs.Index.{HasBreedChain, IsTurtle, StandsOn};

use nl_agents::{Steps, Variables};
use nl_fixed::NoMemory;
use nl_grid::{Point, Shape};
use nl_index::{Chain, Chains};
use nl_store_records::{Body, Fields, Record, Records};
use std::alloc::Global;
use std::marker::{Brand, Model};
use std::sync::ledger::{Blank, Ledger};

/// Turtles and links, all of which are in their chains. Serials are given from 0 on.
#[derive(Drop)]
pub struct Filing {
    records: Records,
    chains: Chains,
    shape: Shape,
    breeds: u32,
    next: u64,
}

impl Model for Filing {
    ghost use Rattle.std.specs.Prelude.{ℕ};
    ghost use Rattle.nl_store_records.specs.Records.{record_at};
    ghost use Rattle.trial_index.specs.Filings.{IsFiling};

    ghost Value = { ℕ };

    ghost view = { λ filing. filing.next };

    ghost invariant = { λ filing. IsFiling filing.chains (record_at filing.records) filing.shape filing.breeds filing.next };
}

/// What a test asks of a record.
#[derive(Clone, Copy, Debug)]
struct Known {
    is_turtle: bool,
}

/// Whether there are chains for such an agent.
fn may_stand(shape: Shape, breeds: u32, body: &Body, breed: u32) -> bool
    ensures stands { IsTrue result → StandsOn shape body.now }
    ensures breed { IsTrue result → HasBreedChain breeds breed body.now }
{
    match body {
        Body::Turtle(at) => shape.is_inside(*at) && breed < breeds,
        Body::Link { .. } => true,
    }
}

/// Whether the point is one of the world.
fn lies_in(shape: Shape, at: &Point) -> bool
    ensures { IsTrue result → IsPointOf shape at.now }
{
    shape.is_inside(*at)
}

/// What is known under a key, which is read with this counter. None where it isn't held.
fn told_counted<L: Ledger>(blank: Blank, records: &Records, key: usize) -> Option<Known>
    requires name { blank.name ≡ L.name }
    requires parts { blank.parts ≡ L.parts }
    requires one { blank.parts ≡ 1 }
    ensures held { IsSome result → IsSome (record_at records.now key) }
    ensures turtle { IfSome result (λ known. IsTrue known.is_turtle → IsTurtle (fields_at (record_at records.now) key)) }
{
    let mut steps = Steps::<L>::new(blank);
    let record = records.read(key, &mut steps)?;
    let is_turtle = match record.fields().body {
        Body::Turtle(_) => true,
        Body::Link { .. } => false,
    };
    Some(Known { is_turtle })
}

fn told_at(records: &Records, key: usize) -> Option<Known>
    ensures held { IsSome result → IsSome (record_at records.now key) }
    ensures turtle { IfSome result (λ known. IsTrue known.is_turtle → IsTurtle (fields_at (record_at records.now) key)) }
{
    told_counted::<Brand>(Blank::new(1), records, key)
}

/// The serials of a chain from its first key on, by this counter. None where memory is wanted, or where a key isn't held or doesn't lead back
/// to the one before it.
fn walked<L: Ledger>(
    blank: Blank,
    alloc: Global,
    records: &Records,
    first: Option<usize>,
    kind: u8,
    most: u64,
) -> Option<Vec<u64>>
    requires name { blank.name ≡ L.name }
    requires parts { blank.parts ≡ L.parts }
    requires one { blank.parts ≡ 1 }
    requires kind { kind < 5 }
{
    let mut steps = Steps::<L>::new(blank);
    let mut serials = Vec::new(alloc);
    let mut before = None;
    let mut here = first;
    for _ in 0..most {
        let Some(key) = here else {
            break;
        };
        let record = records.read(key, &mut steps)?;
        if record.previous(kind) != before {
            return None;
        }
        serials.push(record.fields().serial).ok()?;
        before = here;
        here = record.next(kind);
    }
    Some(serials)
}

impl Filing {
    /// Nothing is filed.
    pub fn new(alloc: Global, shape: Shape, breeds: u32) -> Result<Filing, NoMemory> {
        let chains = Chains::new(alloc, shape, breeds)?;
        Ok(Filing {
            records: Records::new(alloc),
            chains,
            shape,
            breeds,
            next: 0,
        })
    }

    /// The key of a new agent. None where there are no chains for it, or where memory is wanted.
    pub fn bear(&mut self, alloc: Global, body: Body, breed: u32) -> Option<usize> {
        if self.next == u64::MAX || !may_stand(self.shape, self.breeds, &body, breed) {
            return None;
        }
        let fields = Fields {
            serial: self.next,
            body,
            breed,
            vars: Variables::empty(alloc),
        };
        let Ok(key) = self.records.put(alloc, Record::new(fields)) else {
            return None;
        };
        self.chains.add(&mut self.records, key);
        self.next += 1;
        Some(key)
    }

    /// Takes an agent out, where its key is held.
    pub fn remove(&mut self, key: usize) -> bool {
        if told_at(&self.records, key).is_none() {
            return false;
        }
        self.chains.remove(&mut self.records, key);
        let _ = self.records.take(key);
        true
    }

    /// Moves a turtle, where its key is held and there are chains for it.
    pub fn refile(&mut self, key: usize, to: Point, breed: u32) -> bool {
        let Some(known) = told_at(&self.records, key) else {
            return false;
        };
        if !known.is_turtle || !lies_in(self.shape, &to) || breed >= self.breeds {
            return false;
        }
        self.chains.refile(&mut self.records, key, to, breed);
        true
    }

    /// The first key of a chain, and the kind of the chain. None where there is no such chain.
    fn first(&self, chain: Chain) -> Option<(Option<usize>, u8)>
        ensures { IfSome result (λ it. it.1 < 5) }
    {
        match chain {
            Chain::Turtles => Some((self.chains.first(Chain::Turtles), 0)),
            Chain::Links => Some((self.chains.first(Chain::Links), 0)),
            Chain::Patch(patch) if patch < self.shape.patches() => {
                Some((self.chains.first(Chain::Patch(patch)), 1))
            }
            Chain::Breed(breed) if breed < self.breeds => {
                Some((self.chains.first(Chain::Breed(breed)), 2))
            }
            _ => None,
        }
    }

    /// The serials of a chain, from its first key on. None where there is no such chain, where memory is wanted, or where a key isn't held or
    /// doesn't lead back to the one before it.
    pub fn serials(&self, alloc: Global, chain: Chain) -> Option<Vec<u64>> {
        let (first, kind) = self.first(chain)?;
        walked::<Brand>(Blank::new(1), alloc, &self.records, first, kind, self.next)
    }
}
