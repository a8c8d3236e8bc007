//! Single places in chains.
ghost use Rattle.std.specs.Prelude.{◌≡◌, ◌<◌, ℕ, Some, IsSome};
ghost use Rattle.nl_store_records.specs.Packed.{IsPackable};
ghost use Rattle.nl_store_records.specs.Records.{record_at};
ghost use Rattle.nl_store_records.specs.Filed.{after, before, next_of, previous_of, IsHeld, KeepsOthers, Redirects, Stays};
ghost use Rattle.nl_store_records.specs.declared.places.Border.{Border};

use crate::record::Place;
use crate::records::Records;
use nl_agents::Steps;
use std::marker::Brand;
use std::sync::ledger::{Blank, Ledger};

/// The first and the last key of a chain. None where it is empty.
#[derive(Clone, Copy, Debug)]
pub struct Border {
    pub first: Option<usize>,
    pub last: Option<usize>,
}

/// The place of a record, which is read with this counter.
fn place_counted<L: Ledger>(blank: Blank, records: &Records, chain: u8, key: usize) -> Place
    requires name { blank.name ≡ L.name }
    requires parts { blank.parts ≡ L.parts }
    requires one { blank.parts ≡ 1 }
    requires held { IsSome (record_at records.now key) }
    requires chain { chain < 5 }
    ensures next { result.next ≡ next_of chain (record_at records.now key) }
    ensures previous { result.previous ≡ previous_of chain (record_at records.now key) }
    ensures small { IsPackable result }
{
    let mut steps = Steps::<L>::new(blank);
    records.read(key, &mut steps).unwrap().place(chain)
}

/// The place of a record in its chain of that kind, counted as in `Record::next`. It is one read, with a counter of its own.
pub fn place_at(records: &Records, chain: u8, key: usize) -> Place
    requires held { IsSome (record_at records.now key) }
    requires chain { chain < 5 }
    ensures next { result.next ≡ next_of chain (record_at records.now key) }
    ensures previous { result.previous ≡ previous_of chain (record_at records.now key) }
    ensures small { IsPackable result }
{
    place_counted::<Brand>(Blank::new(1), records, chain, key)
}

/// Sets the key after a record in its chain of that kind. The key before it stays.
pub fn set_next(records: &mut Records, chain: u8, key: usize, to: Option<usize>)
    requires held { IsSome (record_at records.old key) }
    requires chain { chain < 5 }
    requires to { IsHeld (record_at records.old) to }
    ensures after { (borders : ℕ → Border) (number : ℕ) →
        Redirects number (Some key) to (after chain borders (record_at records.old)) (after chain borders (record_at records.new)) }
    ensures before { (borders : ℕ → Border) →
        Stays (before chain borders (record_at records.old)) (before chain borders (record_at records.new)) }
    ensures others { KeepsOthers chain (record_at records.old) (record_at records.new) }
{
    let place = place_at(records, chain, key);
    records.keys_are_small();
    records.relink(key, chain, place.previous, to);
}

/// Sets the key before a record in its chain of that kind. The key after it stays.
pub fn set_previous(records: &mut Records, chain: u8, key: usize, to: Option<usize>)
    requires held { IsSome (record_at records.old key) }
    requires chain { chain < 5 }
    requires to { IsHeld (record_at records.old) to }
    ensures before { (borders : ℕ → Border) (number : ℕ) →
        Redirects number (Some key) to (before chain borders (record_at records.old)) (before chain borders (record_at records.new)) }
    ensures after { (borders : ℕ → Border) →
        Stays (after chain borders (record_at records.old)) (after chain borders (record_at records.new)) }
    ensures others { KeepsOthers chain (record_at records.old) (record_at records.new) }
{
    let place = place_at(records, chain, key);
    records.keys_are_small();
    records.relink(key, chain, to, place.next);
}

/// Sets the keys before and after a record in its chain of that kind.
pub fn set_place(
    records: &mut Records,
    chain: u8,
    key: usize,
    previous: Option<usize>,
    next: Option<usize>,
)
    requires held { IsSome (record_at records.old key) }
    requires chain { chain < 5 }
    requires previous { IsHeld (record_at records.old) previous }
    requires next { IsHeld (record_at records.old) next }
    ensures after { (borders : ℕ → Border) (number : ℕ) →
        Redirects number (Some key) next (after chain borders (record_at records.old)) (after chain borders (record_at records.new)) }
    ensures before { (borders : ℕ → Border) (number : ℕ) →
        Redirects number (Some key) previous (before chain borders (record_at records.old)) (before chain borders (record_at records.new)) }
    ensures others { KeepsOthers chain (record_at records.old) (record_at records.new) }
{
    records.keys_are_small();
    records.relink(key, chain, previous, next);
}
