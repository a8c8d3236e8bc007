//! Records under keys, their places and their fields.
ghost use Rattle.std.specs.Prelude.{◌≡◌, ◌<◌, IsSome, IsTrue};
ghost use Rattle.nl_store_records.specs.Packed.{IsSmall};
ghost use Rattle.nl_store_records.specs.Records.{record_at};

use nl_agents::{Steps, Variables};
use nl_fixed::Num;
use nl_grid::Point;
use nl_store_records::PackedBorder;
use nl_store_records::fields::{Body, Fields};
use nl_store_records::record::Record;
use nl_store_records::records::Records;
use std::alloc::Global;
use std::marker::Brand;
use std::sync::ledger::{Blank, Ledger};
use std::test::Fail;

/// A turtle with this serial and breed, at a point on the diagonal.
fn turtle(alloc: Global, serial: u64, at: i64) -> Result<Fields, &'static str> {
    let x = Num::whole(at).ok_or("out of range")?;
    Ok(Fields {
        serial,
        body: Body::Turtle(Point { x, y: x }),
        breed: 1,
        vars: Variables::empty(alloc),
    })
}

/// A link with this serial.
fn link(alloc: Global, serial: u64) -> Fields {
    let body = Body::Link {
        directed: true,
        end1: 10,
        end2: 11,
    };
    Fields {
        serial,
        body,
        breed: 2,
        vars: Variables::empty(alloc),
    }
}

/// What a record tells.
#[derive(Clone, Copy, PartialEq, Debug)]
struct Told {
    serial: u64,
    body: Body,
    breed: u32,
    /// The keys before and after it in its five chains.
    places: [(Option<usize>, Option<usize>); 5],
}

const NOWHERE: [(Option<usize>, Option<usize>); 5] = [(None, None); 5];

fn told_of(record: &Record) -> Told {
    let fields = record.fields();
    Told {
        serial: fields.serial,
        body: fields.body,
        breed: fields.breed,
        places: [
            (record.previous(0), record.next(0)),
            (record.previous(1), record.next(1)),
            (record.previous(2), record.next(2)),
            (record.previous(3), record.next(3)),
            (record.previous(4), record.next(4)),
        ],
    }
}

/// What a read tells, by this counter.
fn told_counted<L: Ledger>(blank: Blank, records: &Records, key: usize) -> Option<Told>
    requires name { blank.name ≡ L.name }
    requires parts { blank.parts ≡ L.parts }
    requires one { blank.parts ≡ 1 }
{
    let mut steps = Steps::<L>::new(blank);
    let record = records.read(key, &mut steps)?;
    Some(told_of(record))
}

/// What a read tells.
fn told_at(records: &Records, key: usize) -> Option<Told> {
    told_counted::<Brand>(Blank::new(1), records, key)
}

/// The serial that a read tells, by this counter.
fn serial_counted<L: Ledger>(blank: Blank, records: &Records, key: usize) -> Option<u64>
    requires name { blank.name ≡ L.name }
    requires parts { blank.parts ≡ L.parts }
    requires one { blank.parts ≡ 1 }
{
    let mut steps = Steps::<L>::new(blank);
    let record = records.read(key, &mut steps)?;
    Some(record.fields().serial)
}

/// The serial under a key.
fn serial_at(records: &Records, key: usize) -> Option<u64> {
    serial_counted::<Brand>(Blank::new(1), records, key)
}

/// Whether a record is held under a key, by this counter.
fn held_counted<L: Ledger>(blank: Blank, records: &Records, key: usize) -> bool
    requires name { blank.name ≡ L.name }
    requires parts { blank.parts ≡ L.parts }
    requires one { blank.parts ≡ 1 }
    ensures { IsTrue result → IsSome (record_at records.now key) }
{
    let mut steps = Steps::<L>::new(blank);
    records.read(key, &mut steps).is_some()
}

/// Whether a record is held under a key.
fn is_held(records: &Records, key: usize) -> bool
    ensures { IsTrue result → IsSome (record_at records.now key) }
{
    held_counted::<Brand>(Blank::new(1), records, key)
}

/// Sets the keys beside a record that is held.
fn relink(
    records: &mut Records,
    key: usize,
    chain: u8,
    previous: Option<usize>,
    next: Option<usize>,
) -> Result<(), &'static str>
    requires chain { chain < 5 }
    requires previous { IsSmall previous }
    requires next { IsSmall next }
{
    if !is_held(records, key) {
        return Err("not held");
    }
    records.relink(key, chain, previous, next);
    Ok(())
}

/// The key of a new record with these fields.
fn put(alloc: Global, records: &mut Records, fields: Fields) -> Result<usize, &'static str> {
    records
        .put(alloc, Record::new(fields))
        .map_err(|_| "no memory")
}

#[test]
fn records_stand_under_their_keys(rt: HostRuntime) -> Result<(), Fail> {
    let alloc = rt.alloc();
    let mut records = Records::new(alloc);
    assert_eq!(rt; serial_at(&records, 0), None);
    let mut keys = Vec::new(alloc);
    for serial in 50..53 {
        keys.push(put(alloc, &mut records, turtle(alloc, serial, 0)?)?)?;
    }
    for (at, key) in keys.iter().enumerate() {
        assert_eq!(rt; serial_at(&records, *key), Some(50 + at as u64));
    }
    records.room(alloc)?;
    let fourth = put(alloc, &mut records, link(alloc, 7))?;
    assert_eq!(rt; keys.contains(&fourth), false);
    assert_eq!(rt; serial_at(&records, fourth), Some(7));
    Ok(())
}

/// A key whose record was taken out, with the serial that it had, and what stands under it then and after another `put`.
fn taken_and_put(alloc: Global) -> Result<(u64, bool, Option<u64>, Option<u64>), &'static str> {
    let mut records = Records::new(alloc);
    let first = put(alloc, &mut records, turtle(alloc, 50, 0)?)?;
    let second = put(alloc, &mut records, turtle(alloc, 51, 0)?)?;
    if !is_held(&records, second) {
        return Err("not held");
    }
    let serial = records.take(second).fields().serial;
    let is_gone = !is_held(&records, second);
    let third = put(alloc, &mut records, turtle(alloc, 52, 0)?)?;
    Ok((
        serial,
        is_gone,
        serial_at(&records, first),
        serial_at(&records, third),
    ))
}

#[test]
fn records_that_are_taken_out_are_gone_and_the_others_stay(rt: HostRuntime) -> Result<(), Fail> {
    let (serial, is_gone, first, third) = taken_and_put(rt.alloc())?;
    assert_eq!(rt; serial, 51);
    assert!(rt; is_gone);
    assert_eq!(rt; first, Some(50));
    assert_eq!(rt; third, Some(52));
    Ok(())
}

/// What a link tells whose places in all five chains were set one after the other.
fn linked(alloc: Global) -> Result<Option<Told>, &'static str> {
    let mut records = Records::new(alloc);
    let key = put(alloc, &mut records, link(alloc, 7))?;
    relink(&mut records, key, 0, Some(1), Some(2))?;
    relink(&mut records, key, 1, Some(3), None)?;
    relink(&mut records, key, 2, None, Some(4))?;
    relink(&mut records, key, 3, Some(5), Some(6))?;
    relink(&mut records, key, 4, Some(7), Some(8))?;
    relink(&mut records, key, 3, None, Some(9))?;
    Ok(told_at(&records, key))
}

#[test]
fn five_places_of_a_record_are_set_each_by_itself(rt: HostRuntime) -> Result<(), Fail> {
    let told = linked(rt.alloc())?.ok_or("not held")?;
    assert_eq!(rt; told.serial, 7);
    let pairs = [
        (Some(1), Some(2)),
        (Some(3), None),
        (None, Some(4)),
        (None, Some(9)),
        (Some(7), Some(8)),
    ];
    assert_eq!(rt; told.places, pairs);
    Ok(())
}

/// What a turtle tells that stands between the least and the greatest key that a place may have, in its first chain and, the other way round,
/// in its last.
fn between_extremes(alloc: Global) -> Result<Option<Told>, &'static str> {
    let mut records = Records::new(alloc);
    let key = put(alloc, &mut records, turtle(alloc, 50, 0)?)?;
    relink(&mut records, key, 0, Some(0), Some(4_294_967_294))?;
    relink(&mut records, key, 4, Some(4_294_967_294), Some(0))?;
    Ok(told_at(&records, key))
}

#[test]
fn the_least_and_the_greatest_key_are_told_as_they_were_set(rt: HostRuntime) -> Result<(), Fail> {
    let told = between_extremes(rt.alloc())?.ok_or("not held")?;
    let mut places = NOWHERE;
    places[0] = (Some(0), Some(4_294_967_294));
    places[4] = (Some(4_294_967_294), Some(0));
    assert_eq!(rt; told.places, places);
    Ok(())
}

#[test]
fn a_border_keeps_the_least_and_the_greatest_key(rt: HostRuntime) {
    let mut border = PackedBorder::none();
    assert_eq!(rt; (border.first(), border.last()), (None, None));
    border.set_first(Some(4_294_967_294));
    border.set_last(Some(0));
    assert_eq!(rt;
        (border.first(), border.last()),
        (Some(4_294_967_294), Some(0))
    );
    border.set_first(None);
    let keys = border.border();
    assert_eq!(rt; (keys.first, keys.last), (None, Some(0)));
}

/// The serial of the fields that were handed back, and what the record tells after they were set, and after it was settled.
fn changed(alloc: Global) -> Result<(u64, Option<Told>, Option<Told>), &'static str> {
    let mut records = Records::new(alloc);
    let key = put(alloc, &mut records, turtle(alloc, 50, 3)?)?;
    relink(&mut records, key, 2, Some(1), None)?;
    if !is_held(&records, key) {
        return Err("not held");
    }
    let old = records.set_fields(key, link(alloc, 8));
    let set = told_at(&records, key);
    let there = turtle(alloc, 0, -4)?;
    if !is_held(&records, key) {
        return Err("not held");
    }
    records.settle(key, there.body, 6);
    Ok((old.serial, set, told_at(&records, key)))
}

#[test]
fn fields_are_set_and_places_stay(rt: HostRuntime) -> Result<(), Fail> {
    let alloc = rt.alloc();
    let (old, set, settled) = changed(alloc)?;
    assert_eq!(rt; old, 50);
    let mut places = NOWHERE;
    places[2] = (Some(1), None);
    let link = link(alloc, 8);
    let told = Told {
        serial: 8,
        body: link.body,
        breed: 2,
        places,
    };
    assert_eq!(rt; set, Some(told));
    let moved = Told {
        body: turtle(alloc, 0, -4)?.body,
        breed: 6,
        ..told
    };
    assert_eq!(rt; settled, Some(moved));
    Ok(())
}

#[test]
fn records_as_many_as_turtles_may_live_are_held(rt: HostRuntime) -> Result<(), Fail> {
    let alloc = rt.alloc();
    let mut records = Records::new(alloc);
    let mut last = 0;
    for serial in 0..200_000 {
        records.room(alloc)?;
        last = put(alloc, &mut records, turtle(alloc, serial, 1)?)?;
    }
    assert_eq!(rt; serial_at(&records, last), Some(199_999));
    Ok(())
}
