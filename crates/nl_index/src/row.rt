//! Rows of chains of one kind.
ghost use Rattle.std.specs.Prelude.{◌≡◌, ◌<◌, ◌==◌, ℕ, List, Option, length, if◌then◌else◌, Some, None, IsSome, IfSome};
ghost use Rattle.nl_store_lists.specs.Chained.{at_number};
ghost use Rattle.nl_store_records.specs.Packed.{IsSmall};
ghost use Rattle.nl_store_records.specs.Records.{record_at};
ghost use Rattle.nl_store_records.specs.Filed.{after, before, IsFiled, IsHeld, KeepsOthers, Redirects, Stays};
ghost use Rattle.nl_index.specs.Rows.{borders_in, put_in, take_from, IsIn};

use nl_store_records::{PackedBorder, Records, place_at, set_next, set_place, set_previous};

fn last_of(row: &Vec<PackedBorder>, number: usize) -> Option<usize>
    requires { number < length row.now.items }
    ensures { result ≡ (borders_in row.now.items number).last }
{
    row[number].last()
}

fn set_first(row: &mut Vec<PackedBorder>, number: usize, to: Option<usize>)
    requires number { number < length row.old.items }
    requires small { IsSmall to }
    ensures first { (n : ℕ) → borders_in row.new.items n
        ≡ (if n == number then record { first = to; last = (borders_in row.old.items n).last } else borders_in row.old.items n) }
    ensures length { length row.new.items ≡ length row.old.items }
{
    row[number].set_first(to);
}

fn set_last(row: &mut Vec<PackedBorder>, number: usize, to: Option<usize>)
    requires number { number < length row.old.items }
    requires small { IsSmall to }
    ensures last { (n : ℕ) → borders_in row.new.items n
        ≡ (if n == number then record { first = (borders_in row.old.items n).first; last = to } else borders_in row.old.items n) }
    ensures length { length row.new.items ≡ length row.old.items }
{
    row[number].set_last(to);
}

/// What stands after a place of a chain is this.
fn set_after(
    row: &mut Vec<PackedBorder>,
    records: &mut Records,
    chain: u8,
    number: usize,
    place: Option<usize>,
    to: Option<usize>,
)
    requires number { number < length row.old.items }
    requires chain { chain < 5 }
    requires held { IsHeld (record_at records.old) place }
    requires to { IsHeld (record_at records.old) to }
    ensures after { let old = after chain (borders_in row.old.items) (record_at records.old) in
        let new = after chain (borders_in row.new.items) (record_at records.new) in
        Redirects number place to old new }
    ensures before { let old = before chain (borders_in row.old.items) (record_at records.old) in
        let new = before chain (borders_in row.new.items) (record_at records.new) in
        Stays old new }
    ensures others { KeepsOthers chain (record_at records.old) (record_at records.new) }
    ensures length { length row.new.items ≡ length row.old.items }
{
    // Every key that is held is small.
    records.keys_are_small();
    match place {
        None => set_first(row, number, to),
        Some(key) => set_next(records, chain, key, to),
    }
}

/// What stands before a place of a chain is this.
fn set_before(
    row: &mut Vec<PackedBorder>,
    records: &mut Records,
    chain: u8,
    number: usize,
    place: Option<usize>,
    to: Option<usize>,
)
    requires number { number < length row.old.items }
    requires chain { chain < 5 }
    requires held { IsHeld (record_at records.old) place }
    requires to { IsHeld (record_at records.old) to }
    ensures before { let old = before chain (borders_in row.old.items) (record_at records.old) in
        let new = before chain (borders_in row.new.items) (record_at records.new) in
        Redirects number place to old new }
    ensures after { let old = after chain (borders_in row.old.items) (record_at records.old) in
        let new = after chain (borders_in row.new.items) (record_at records.new) in
        Stays old new }
    ensures others { KeepsOthers chain (record_at records.old) (record_at records.new) }
    ensures length { length row.new.items ≡ length row.old.items }
{
    // Every key that is held is small.
    records.keys_are_small();
    match place {
        None => set_last(row, number, to),
        Some(key) => set_previous(records, chain, key, to),
    }
}

/// Makes the key the last of a chain.
fn link_last(
    row: &mut Vec<PackedBorder>,
    records: &mut Records,
    chain: u8,
    number: usize,
    key: usize,
)
    requires number { number < length row.old.items }
    requires chain { chain < 5 }
    requires held { IsSome (record_at records.old key) }
    requires away { IsIn chain row.old.items (record_at records.old) None key }
    ensures filed { (home : ℕ → Option ℕ) (lists : ℕ → List ℕ) →
        IsFiled chain (borders_in row.old.items) (record_at records.old) home lists → home key ≡ None →
        IsFiled chain (borders_in row.new.items) (record_at records.new)
        (at_number home key (Some number)) (put_in (Some number) key lists) }
    ensures others { KeepsOthers chain (record_at records.old) (record_at records.new) }
    ensures length { length row.new.items ≡ length row.old.items }
{
    let last = last_of(row, number);
    // Every key that is held is small.
    records.keys_are_small();
    set_place(records, chain, key, last, None);
    set_after(row, records, chain, number, last, Some(key));
    set_last(row, number, Some(key));
}

/// Takes the key out of its chain.
fn unlink(row: &mut Vec<PackedBorder>, records: &mut Records, chain: u8, number: usize, key: usize)
    requires number { number < length row.old.items }
    requires chain { chain < 5 }
    requires listed { IsIn chain row.old.items (record_at records.old) (Some number) key }
    ensures filed { (home : ℕ → Option ℕ) (lists : ℕ → List ℕ) →
        IsFiled chain (borders_in row.old.items) (record_at records.old) home lists → home key ≡ Some number →
        IsFiled chain (borders_in row.new.items) (record_at records.new)
        (at_number home key None) (take_from (Some number) key lists) }
    ensures others { KeepsOthers chain (record_at records.old) (record_at records.new) }
    ensures length { length row.new.items ≡ length row.old.items }
{
    let place = place_at(records, chain, key);
    set_after(row, records, chain, number, place.previous, place.next);
    set_before(row, records, chain, number, place.next, place.previous);
}

/// Makes the key the last of a chain, where it has one.
pub(crate) fn link_in(
    row: &mut Vec<PackedBorder>,
    records: &mut Records,
    chain: u8,
    number: Option<usize>,
    key: usize,
)
    requires number { IfSome number (λ n. n < length row.old.items) }
    requires chain { chain < 5 }
    requires held { IsSome (record_at records.old key) }
    requires away { IsIn chain row.old.items (record_at records.old) None key }
    ensures filed { (home : ℕ → Option ℕ) (lists : ℕ → List ℕ) →
        IsFiled chain (borders_in row.old.items) (record_at records.old) home lists → home key ≡ None →
        IsFiled chain (borders_in row.new.items) (record_at records.new)
        (at_number home key number) (put_in number key lists) }
    ensures others { KeepsOthers chain (record_at records.old) (record_at records.new) }
    ensures length { length row.new.items ≡ length row.old.items }
{
    match number {
        None => {}
        Some(number) => link_last(row, records, chain, number, key),
    }
}

/// Takes the key out of its chain, where it has one.
pub(crate) fn unlink_from(
    row: &mut Vec<PackedBorder>,
    records: &mut Records,
    chain: u8,
    number: Option<usize>,
    key: usize,
)
    requires number { IfSome number (λ n. n < length row.old.items) }
    requires chain { chain < 5 }
    requires listed { IsIn chain row.old.items (record_at records.old) number key }
    ensures filed { (home : ℕ → Option ℕ) (lists : ℕ → List ℕ) →
        IsFiled chain (borders_in row.old.items) (record_at records.old) home lists → home key ≡ number →
        IsFiled chain (borders_in row.new.items) (record_at records.new)
        (at_number home key None) (take_from number key lists) }
    ensures others { KeepsOthers chain (record_at records.old) (record_at records.new) }
    ensures length { length row.new.items ≡ length row.old.items }
{
    match number {
        None => {}
        Some(number) => unlink(row, records, chain, number, key),
    }
}

/// Takes the key out of its chain, where it has one, and makes it the last of another one, or of the same.
pub(crate) fn move_last(
    row: &mut Vec<PackedBorder>,
    records: &mut Records,
    chain: u8,
    from: Option<usize>,
    to: usize,
    key: usize,
)
    requires from { IfSome from (λ n. n < length row.old.items) }
    requires to { to < length row.old.items }
    requires chain { chain < 5 }
    requires held { IsSome (record_at records.old key) }
    requires listed { IsIn chain row.old.items (record_at records.old) from key }
    ensures filed { (home : ℕ → Option ℕ) (lists : ℕ → List ℕ) →
        IsFiled chain (borders_in row.old.items) (record_at records.old) home lists → home key ≡ from →
        IsFiled chain (borders_in row.new.items) (record_at records.new)
        (at_number home key (Some to)) (put_in (Some to) key (take_from from key lists)) }
    ensures others { KeepsOthers chain (record_at records.old) (record_at records.new) }
    ensures length { length row.new.items ≡ length row.old.items }
{
    unlink_from(row, records, chain, from, key);
    link_last(row, records, chain, to, key);
}
