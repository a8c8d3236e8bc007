//! Lists of serials of whole chains.
ghost use Rattle.std.specs.Prelude.{◌≡◌, ◌+◌, ◌<◌, ◌≤◌, ◌++◌, [], ℕ, List, length, OnOk};
ghost use Rattle.nl_store_lists.specs.Chained.{IsOnce};
ghost use Rattle.nl_store_lists.specs.Rising.{IsRisingBy};
ghost use Rattle.nl_store_lists.specs.Laws.{IsInOrder};
ghost use Rattle.nl_store_records.specs.Records.{record_at};
ghost use Rattle.nl_index.specs.Index.{serial_at};
ghost use Rattle.nl_store_files.specs.Walks.{HasMixedPath, HasRisingPath, HaveMixedPaths, IsPath, serials_of};

use crate::walk::walk;
use nl_agents::Steps;
use nl_fixed::NoMemory;
use nl_store_records::Records;
use nl_value::Serials;
use std::alloc::Global;
use std::sync::ledger::Ledger;

/// The list's own vector, emptied, so that filling it again needs no other.
fn emptied(alloc: Global, into: &mut Serials) -> Vec<u64>
    ensures { result.items ≡ [] }
{
    let mut list = std::mem::replace(into, Serials::empty(alloc)).into_vec();
    list.clear();
    list
}

/// Fills the list with the serials of a chain that is in their order.
pub(crate) fn fill_in_order<L: Ledger>(
    alloc: Global,
    records: &Records,
    chain: u8,
    first: Option<usize>,
    most: usize,
    into: &mut Serials,
    steps: &mut Steps<L>,
) -> Result<(), NoMemory>
    requires chain { chain < 5 }
    requires path { HasRisingPath chain (record_at records.now) first most }
    ensures list { (keys : List ℕ) → IsPath chain (record_at records.now) first keys → length keys ≤ most →
        OnOk result (into.new ≡ serials_of (record_at records.now) keys) }
    ensures reads { (keys : List ℕ) → IsPath chain (record_at records.now) first keys → length keys ≤ most →
        steps.new ≤ steps.old + length keys }
{
    let mut list = emptied(alloc, into);
    walk(records, chain, first, most, &mut list, steps)?;
    *into = Serials::of_vec(list);
    Ok(())
}

/// Fills the list with the serials of a chain, sorted.
pub(crate) fn fill_sorted<L: Ledger>(
    alloc: Global,
    records: &Records,
    chain: u8,
    first: Option<usize>,
    most: usize,
    into: &mut Serials,
    steps: &mut Steps<L>,
) -> Result<(), NoMemory>
    requires chain { chain < 5 }
    requires path { HasMixedPath chain (record_at records.now) first most }
    ensures list { (keys : List ℕ) → IsPath chain (record_at records.now) first keys → length keys ≤ most →
        IsOnce (serials_of (record_at records.now) keys) →
        OnOk result (IsInOrder (serials_of (record_at records.now) keys) into.new) }
    ensures reads { (keys : List ℕ) → IsPath chain (record_at records.now) first keys → length keys ≤ most →
        steps.new ≤ steps.old + length keys }
{
    let mut list = emptied(alloc, into);
    walk(records, chain, first, most, &mut list, steps)?;
    list.sort()?;
    *into = Serials::of_vec(list);
    Ok(())
}

/// Fills the list with the serials of two chains of links, by first and by second ends, sorted.
pub(crate) fn fill_both<L: Ledger>(
    alloc: Global,
    records: &Records,
    firsts: (Option<usize>, Option<usize>),
    most: usize,
    into: &mut Serials,
    steps: &mut Steps<L>,
) -> Result<(), NoMemory>
    requires { HaveMixedPaths (record_at records.now) firsts.0 firsts.1 most }
    ensures list { (ones others : List ℕ) → IsPath 3 (record_at records.now) firsts.0 ones →
        IsPath 4 (record_at records.now) firsts.1 others → length ones ≤ most → length others ≤ most →
        IsOnce (serials_of (record_at records.now) (ones ++ others)) →
        OnOk result (IsInOrder (serials_of (record_at records.now) (ones ++ others)) into.new) }
    ensures reads { (ones others : List ℕ) → IsPath 3 (record_at records.now) firsts.0 ones →
        IsPath 4 (record_at records.now) firsts.1 others → length ones ≤ most → length others ≤ most →
        steps.new ≤ steps.old + length (ones ++ others) }
{
    let mut list = emptied(alloc, into);
    walk(records, 3, firsts.0, most, &mut list, steps)?;
    walk(records, 4, firsts.1, most, &mut list, steps)?;
    list.sort()?;
    *into = Serials::of_vec(list);
    Ok(())
}
