//! Records under keys.
ghost use Rattle.std.specs.Prelude.{◌≡◌, ◌+◌, ◌<◌, ℕ, Some, None, IsSome, IsOk, IfOk, IfErr, OnOk, OnErr, option_map};
ghost use Rattle.std.specs.Option.{option_copied};
ghost use Rattle.nl_store_records.specs.Packed.{AreSmall, IsSmall};
ghost use Rattle.nl_store_records.specs.Records.{record_at, fields_at, HasRoom, SameRecords, Sets, linked, settled, with_fields};

use crate::fields::{Body, Fields};
use crate::record::{Place, Record};
use nl_agents::Steps;
use nl_fixed::NoMemory;
use slab::Slab;
use std::alloc::Global;
use std::marker::Model;
use std::sync::ledger::Ledger;

/// The records of agents, each under a key. A key is given to one record at a time, and again when its record was taken out. Every call
/// takes the same time however many records there are, but those that make room may move them all. A key is less than 2^32 - 1, so that it
/// may be kept in few bytes; where no such key is left, a new record is refused as if memory were wanted.
#[derive(Drop)]
pub struct Records {
    slab: Slab<Record>,
}

impl Model for Records {
    ghost use Rattle.slab.specs.Slab.{get, slab_code, Slab as Slots};
    ghost use Rattle.nl_store_records.specs.declared.record.Record.{Record};
    ghost use Rattle.nl_store_records.specs.contracts.record.Record.{the_row};
    ghost use Rattle.nl_store_records.specs.Packed.{AreSmall};

    ghost Value = { Slots Record };

    ghost coded = { slab_code the_row.coded };

    ghost view = { λ r. r.slab };

    ghost invariant = { λ r. AreSmall (get r.slab) };
}

/// So many keys may be given: one more than each fits in 32 bits.
const KEYS: usize = u32::MAX as usize;

impl Records {
    /// No record is held.
    pub fn new(alloc: Global) -> Records
        ensures { (key : ℕ) → record_at result key ≡ None }
    {
        Records {
            slab: Slab::new(alloc),
        }
    }

    /// A law: a key that is held may be kept in a place.
    #[inline(always)]
    pub fn keys_are_small(&self)
        ensures { AreSmall (record_at self.now) }
    {
        let _ = &self.slab;
    }

    /// Makes room, so that the next `put` can't be refused.
    pub fn room(&mut self, _alloc: Global) -> Result<(), NoMemory>
        ensures room { OnOk result (HasRoom self.new) }
        ensures kept { SameRecords (record_at self.old) (record_at self.new) }
    {
        self.slab.reserve(1)?;
        if self.slab.vacant_key() < KEYS {
            Ok(())
        } else {
            Err(NoMemory)
        }
    }

    /// Holds a record under the key that it gives. Refused for want of memory, it hands the record back and leaves all as it was.
    pub fn put(&mut self, _alloc: Global, entry: Record) -> Result<usize, Record>
        ensures vacant { IfOk result (λ key. record_at self.old key ≡ None) }
        ensures put { IfOk result (λ key. Sets (record_at self.old) (record_at self.new) key (Some entry)) }
        ensures room { HasRoom self.old → IsOk result }
        ensures back { IfErr result (λ back. back ≡ entry) }
        ensures kept { OnErr result (SameRecords (record_at self.old) (record_at self.new)) }
    {
        if self.slab.vacant_key() >= KEYS {
            return Err(entry);
        }
        match self.slab.insert(entry) {
            Ok(key) => Ok(key),
            Err(failed) => Err(failed.value),
        }
    }

    /// The record under a key, which is counted as one read. None where no record is held under it.
    pub fn read<L: Ledger>(&self, key: usize, steps: &mut Steps<L>) -> Option<&Record>
        ensures record { option_copied result ≡ record_at self.now key }
        ensures reads { steps.new ≡ steps.old + 1 }
    {
        steps.tick();
        self.slab.get(key)
    }

    /// Takes a record out. Its key may be given again. It takes no memory.
    pub fn take(&mut self, key: usize) -> Record
        requires { IsSome (record_at self.old key) }
        ensures record { record_at self.old key ≡ Some result }
        ensures taken { Sets (record_at self.old) (record_at self.new) key None }
    {
        self.slab.remove(key)
    }

    /// Sets the keys before and after a record in its chain of that kind, counted as in `Record::next`. A key that is held is small enough.
    /// It takes no memory.
    pub fn relink(&mut self, key: usize, chain: u8, previous: Option<usize>, next: Option<usize>)
        requires held { IsSome (record_at self.old key) }
        requires chain { chain < 5 }
        requires previous { IsSmall previous }
        requires next { IsSmall next }
        ensures { let changed = option_map (linked chain previous next) (record_at self.old key) in
            Sets (record_at self.old) (record_at self.new) key changed }
    {
        if let Some(record) = self.slab.get_mut(key) {
            record.set_place(chain, Place { previous, next });
        }
    }

    /// Sets what is known of an agent, and hands back what was known. Its places in chains stay. It takes no memory.
    pub fn set_fields(&mut self, key: usize, fields: Fields) -> Fields
        requires { IsSome (record_at self.old key) }
        ensures old { fields_at (record_at self.old) key ≡ Some result }
        ensures new { let changed = option_map (with_fields fields) (record_at self.old key) in
            Sets (record_at self.old) (record_at self.new) key changed }
    {
        self.slab.get_mut(key).unwrap().set_fields(fields)
    }

    /// Sets what an agent is and its breed. Its serial, its variables and its places in chains stay. It takes no memory.
    pub fn settle(&mut self, key: usize, body: Body, breed: u32)
        requires { IsSome (record_at self.old key) }
        ensures { let changed = option_map (settled body breed) (record_at self.old key) in
            Sets (record_at self.old) (record_at self.new) key changed }
    {
        if let Some(record) = self.slab.get_mut(key) {
            record.settle(body, breed);
        }
    }
}
