//! What records know of one agent, each look being one read with a counter of its own.
ghost use Rattle.std.specs.Prelude.{◌≡◌, ◌<◌, Some, IsSome, option_map};
ghost use Rattle.std.specs.Option.{option_or};
ghost use Rattle.nl_store_records.specs.Records.{record_at, fields_at};
ghost use Rattle.nl_store_files.specs.Keys.{key_in};
ghost use Rattle.nl_store_files.specs.Agents.{turtle_at, link_at};

use crate::keys::Keys;
use nl_agents::Steps;
use nl_grid::Point;
use nl_store_records::{Body, Fields, Records};
use std::marker::Brand;
use std::sync::ledger::{Blank, Ledger};

/// What is known under a key, which is read with this counter.
fn fields_counted<L: Ledger>(blank: Blank, records: &Records, key: usize) -> &Fields
    requires name { blank.name ≡ L.name }
    requires parts { blank.parts ≡ L.parts }
    requires one { blank.parts ≡ 1 }
    requires held { IsSome (record_at records.now key) }
    ensures { fields_at (record_at records.now) key ≡ Some result.now }
{
    let mut steps = Steps::<L>::new(blank);
    records.read(key, &mut steps).unwrap().fields()
}

/// What is known under a key.
pub(crate) fn fields_of(records: &Records, key: usize) -> &Fields
    requires { IsSome (record_at records.now key) }
    ensures { fields_at (record_at records.now) key ≡ Some result.now }
{
    fields_counted::<Brand>(Blank::new(1), records, key)
}

/// The key of a serial that has one.
pub(crate) fn key_of(keys: &Keys, serial: u64) -> usize
    requires { IsSome (key_in keys.now serial) }
    ensures { key_in keys.now serial ≡ Some result }
{
    keys.get(serial).unwrap()
}

/// Where the turtle under a key stands.
pub(crate) fn point_of(records: &Records, key: usize) -> Point
    requires { IsSome (turtle_at (record_at records.now) key) }
    ensures { option_map (λ t. t.at) (turtle_at (record_at records.now) key) ≡ Some result }
{
    match fields_of(records, key).body {
        Body::Turtle(at) => at,
        Body::Link { .. } => unreachable!(),
    }
}

/// What a link is, beside its breed.
#[derive(Clone, Copy, Debug)]
pub(crate) struct LinkParts {
    pub directed: bool,
    pub end1: u64,
    pub end2: u64,
}

/// What the link under a key is.
pub(crate) fn link_parts(records: &Records, key: usize) -> LinkParts
    requires { IsSome (link_at (record_at records.now) key) }
    ensures directed { option_map (λ l. l.directed) (link_at (record_at records.now) key)
        ≡ Some result.directed }
    ensures first { option_map (λ l. l.end1) (link_at (record_at records.now) key) ≡ Some result.end1 }
    ensures second { option_map (λ l. l.end2) (link_at (record_at records.now) key) ≡ Some result.end2 }
{
    match fields_of(records, key).body {
        Body::Link {
            directed,
            end1,
            end2,
        } => LinkParts {
            directed,
            end1,
            end2,
        },
        Body::Turtle(_) => unreachable!(),
    }
}

/// The first of two keys, where there is one.
pub(crate) fn either(keys: (Option<usize>, Option<usize>)) -> Option<usize>
    ensures { result ≡ option_or keys.0 keys.1 }
{
    match keys.0 {
        Some(key) => Some(key),
        None => keys.1,
    }
}
