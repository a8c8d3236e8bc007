//! Walks along chains.
ghost use Rattle.std.specs.Prelude.{◌≡◌, ◌+◌, ◌<◌, ◌≤◌, ◌++◌, ℕ, List, length, OnOk};
ghost use Rattle.nl_store_records.specs.Records.{record_at};
ghost use Rattle.nl_store_files.specs.Walks.{HasPath, IsPath, serials_of};

use nl_agents::Steps;
use nl_fixed::NoMemory;
use nl_store_records::Records;
use std::sync::ledger::Ledger;

/// How many keys a chain of the kind has, from its first key on. Each is one read.
pub(crate) fn length<L: Ledger>(
    records: &Records,
    chain: u8,
    first: Option<usize>,
    most: usize,
    steps: &mut Steps<L>,
) -> usize
    requires chain { chain < 5 }
    requires path { HasPath chain (record_at records.now) first most }
    ensures many { (keys : List ℕ) → IsPath chain (record_at records.now) first keys → length keys ≤ most →
        result ≡ length keys }
    ensures reads { (keys : List ℕ) → IsPath chain (record_at records.now) first keys → length keys ≤ most →
        steps.new ≤ steps.old + length keys }
{
    let mut here = first;
    for passed in 0..most {
        let Some(key) = here else {
            return passed;
        };
        here = records.read(key, steps).unwrap().next(chain);
    }
    most
}

/// Appends the serials of a chain of the kind, from its first key on. Each is one read.
pub(crate) fn walk<L: Ledger>(
    records: &Records,
    chain: u8,
    first: Option<usize>,
    most: usize,
    into: &mut Vec<u64>,
    steps: &mut Steps<L>,
) -> Result<(), NoMemory>
    requires chain { chain < 5 }
    requires path { HasPath chain (record_at records.now) first most }
    ensures serials { (keys : List ℕ) → IsPath chain (record_at records.now) first keys → length keys ≤ most →
        OnOk result (into.new.items ≡ into.old.items ++ serials_of (record_at records.now) keys) }
    ensures reads { (keys : List ℕ) → IsPath chain (record_at records.now) first keys → length keys ≤ most →
        steps.new ≤ steps.old + length keys }
{
    let mut here = first;
    for passed in 0..most {
        let Some(key) = here else {
            return Ok(());
        };
        let record = records.read(key, steps).unwrap();
        into.push(record.fields().serial)?;
        here = record.next(chain);
    }
    Ok(())
}
