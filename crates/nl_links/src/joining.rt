//! One chain of a turtle's links.
ghost use Rattle.std.specs.Prelude.{◌≡◌, ◌<◌, ℕ, List, Option, Some, None, IsSome};
ghost use Rattle.std.specs.Option.{option_map};
ghost use Rattle.nl_store_lists.specs.Chained.{at_number};
ghost use Rattle.nl_store_records.specs.Records.{record_at};
ghost use Rattle.nl_store_records.specs.Filed.{after, before, IsFiled, IsHeld, KeepsOthers, Redirects, Stays};
ghost use Rattle.nl_index.specs.Rows.{put_in, take_from};
ghost use Rattle.nl_links.specs.Sides.{borders_of, kind_of, sides_at, with_first, with_last, IsAmong, KeepsBeside, SetsSides};

use crate::ends::Ends;
use crate::sides::Side;
use nl_store_records::{Records, place_at, set_next, set_place, set_previous};

fn last_of(ends: &Ends, side: Side, turtle: u64) -> Option<usize>
    requires { IsSome (sides_at ends.now turtle) }
    ensures { result ≡ (borders_of side ends.now turtle).last }
{
    ends.sides(turtle).border(side).last
}

/// What stands after a place of a turtle's chain is this.
fn set_after(
    ends: &mut Ends,
    records: &mut Records,
    side: Side,
    turtle: u64,
    place: Option<usize>,
    to: Option<usize>,
)
    requires turtle { IsSome (sides_at ends.old turtle) }
    requires held { IsHeld (record_at records.old) place }
    requires to { IsHeld (record_at records.old) to }
    ensures after { let old = after (kind_of side) (borders_of side ends.old) (record_at records.old) in
        let new = after (kind_of side) (borders_of side ends.new) (record_at records.new) in
        Redirects turtle place to old new }
    ensures before { let old = before (kind_of side) (borders_of side ends.old) (record_at records.old) in
        let new = before (kind_of side) (borders_of side ends.new) (record_at records.new) in
        Stays old new }
    ensures others { KeepsOthers (kind_of side) (record_at records.old) (record_at records.new) }
    ensures beside { KeepsBeside side ends.old ends.new }
{
    // Every key that is held is small.
    records.keys_are_small();
    match place {
        None => ends.set_first(side, turtle, to),
        Some(key) => set_next(records, side.kind(), key, to),
    }
}

/// What stands before a place of a turtle's chain is this.
fn set_before(
    ends: &mut Ends,
    records: &mut Records,
    side: Side,
    turtle: u64,
    place: Option<usize>,
    to: Option<usize>,
)
    requires turtle { IsSome (sides_at ends.old turtle) }
    requires held { IsHeld (record_at records.old) place }
    requires to { IsHeld (record_at records.old) to }
    ensures before { let old = before (kind_of side) (borders_of side ends.old) (record_at records.old) in
        let new = before (kind_of side) (borders_of side ends.new) (record_at records.new) in
        Redirects turtle place to old new }
    ensures after { let old = after (kind_of side) (borders_of side ends.old) (record_at records.old) in
        let new = after (kind_of side) (borders_of side ends.new) (record_at records.new) in
        Stays old new }
    ensures others { KeepsOthers (kind_of side) (record_at records.old) (record_at records.new) }
    ensures beside { KeepsBeside side ends.old ends.new }
{
    // Every key that is held is small.
    records.keys_are_small();
    match place {
        None => ends.set_last(side, turtle, to),
        Some(key) => set_previous(records, side.kind(), key, to),
    }
}

/// Makes the key the last of a turtle's chain.
pub(crate) fn link_last(ends: &mut Ends, records: &mut Records, side: Side, turtle: u64, key: usize)
    requires turtle { IsSome (sides_at ends.old turtle) }
    requires held { IsSome (record_at records.old key) }
    requires away { IsAmong side ends.old (record_at records.old) None key }
    ensures filed { (home : ℕ → Option ℕ) (lists : ℕ → List ℕ) →
        IsFiled (kind_of side) (borders_of side ends.old) (record_at records.old) home lists → home key ≡ None →
        IsFiled (kind_of side) (borders_of side ends.new) (record_at records.new)
        (at_number home key (Some turtle)) (put_in (Some turtle) key lists) }
    ensures others { KeepsOthers (kind_of side) (record_at records.old) (record_at records.new) }
    ensures beside { KeepsBeside side ends.old ends.new }
{
    let last = last_of(ends, side, turtle);
    // Every key that is held is small.
    records.keys_are_small();
    set_place(records, side.kind(), key, last, None);
    set_after(ends, records, side, turtle, last, Some(key));
    ends.set_last(side, turtle, Some(key));
}

/// Takes the key out of a turtle's chain.
pub(crate) fn unlink(ends: &mut Ends, records: &mut Records, side: Side, turtle: u64, key: usize)
    requires turtle { IsSome (sides_at ends.old turtle) }
    requires listed { IsAmong side ends.old (record_at records.old) (Some turtle) key }
    ensures filed { (home : ℕ → Option ℕ) (lists : ℕ → List ℕ) →
        IsFiled (kind_of side) (borders_of side ends.old) (record_at records.old) home lists → home key ≡ Some turtle →
        IsFiled (kind_of side) (borders_of side ends.new) (record_at records.new)
        (at_number home key None) (take_from (Some turtle) key lists) }
    ensures others { KeepsOthers (kind_of side) (record_at records.old) (record_at records.new) }
    ensures beside { KeepsBeside side ends.old ends.new }
{
    let place = place_at(records, side.kind(), key);
    set_after(ends, records, side, turtle, place.previous, place.next);
    set_before(ends, records, side, turtle, place.next, place.previous);
}
