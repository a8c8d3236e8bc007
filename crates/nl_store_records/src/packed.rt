//! Places in few bytes.
ghost use Rattle.std.specs.Prelude.{◌≡◌};
ghost use Rattle.nl_store_records.specs.Packed.{key_in, number_of, IsPackable, IsSmall};
ghost use Rattle.nl_store_records.specs.Filed.{no_keys};
ghost use Rattle.nl_store_records.specs.Records.{no_place};

use crate::places::Border;
use crate::record::Place;
use std::marker::Model;

/// The number that a key is kept as: one more than it, or 0 for none.
fn pack(key: Option<usize>) -> u32
    requires { IsSmall key }
    ensures { result ≡ number_of key }
{
    match key {
        None => 0,
        Some(key) => key as u32 + 1,
    }
}

/// The key that is kept as a number.
fn unpack(number: u32) -> Option<usize>
    ensures key { result ≡ key_in number }
    ensures small { IsSmall result }
{
    if number == 0 {
        None
    } else {
        Some(number as usize - 1)
    }
}

/// A place in 8 bytes, so that a record takes little memory: each of its two keys is kept as one more than the key, and 0 stands for none.
#[derive(Drop)]
pub(crate) struct Packed {
    previous: u32,
    next: u32,
}

impl Model for Packed {
    ghost use Rattle.nl_store_records.specs.declared.record.Place.{Place};
    ghost use Rattle.nl_store_records.specs.Packed.{key_in};

    ghost Value = { Place };

    ghost view = { λ p. record { previous = key_in p.previous; next = key_in p.next } };
}

impl Packed {
    /// The place of a record that is alone in its chain, or in none.
    pub fn none() -> Packed
        ensures { result ≡ no_place }
    {
        Packed {
            previous: 0,
            next: 0,
        }
    }

    /// A place whose keys are small.
    pub fn new(place: Place) -> Packed
        requires { IsPackable place }
        ensures { result ≡ place }
    {
        Packed {
            previous: pack(place.previous),
            next: pack(place.next),
        }
    }

    /// The place.
    pub fn place(&self) -> Place
        ensures place { result ≡ self.now }
        ensures small { IsPackable result }
    {
        Place {
            previous: unpack(self.previous),
            next: unpack(self.next),
        }
    }
}

/// The border of a chain in 8 bytes, with its keys kept as in a place. It is what stands beside each patch, and twice beside each turtle.
#[derive(Clone, Copy)]
pub struct PackedBorder {
    first: u32,
    last: u32,
}

impl Model for PackedBorder {
    ghost use Rattle.nl_store_records.specs.declared.places.Border.{Border};
    ghost use Rattle.nl_store_records.specs.Packed.{key_in};

    ghost Value = { Border };

    ghost view = { λ b. record { first = key_in b.first; last = key_in b.last } };

    ghost use Rattle.nl_store_records.specs.Packed.{number_of};
    ghost use Rattle.nl_store_records.specs.inner.Packing.{border_back};

    ghost inverse = { λ b. record { first = number_of b.first; last = number_of b.last } };

    ghost inverse_ok = { λ b _. border_back b };
}

impl PackedBorder {
    /// The border of an empty chain.
    pub fn none() -> PackedBorder
        ensures { result ≡ no_keys }
    {
        PackedBorder { first: 0, last: 0 }
    }

    /// The first and the last key.
    pub fn border(&self) -> Border
        ensures { result ≡ self.now }
    {
        Border {
            first: unpack(self.first),
            last: unpack(self.last),
        }
    }

    /// The first key. None where the chain is empty.
    pub fn first(&self) -> Option<usize>
        ensures { result ≡ self.now.first }
    {
        unpack(self.first)
    }

    /// The last key. None where the chain is empty.
    pub fn last(&self) -> Option<usize>
        ensures { result ≡ self.now.last }
    {
        unpack(self.last)
    }

    /// Sets the first key, which is small, as every key is that is held.
    pub fn set_first(&mut self, to: Option<usize>)
        requires { IsSmall to }
        ensures { self.new ≡ record self.old { first = to } }
    {
        self.first = pack(to);
    }

    /// Sets the last key, which is small, as every key is that is held.
    pub fn set_last(&mut self, to: Option<usize>)
        requires { IsSmall to }
        ensures { self.new ≡ record self.old { last = to } }
    {
        self.last = pack(to);
    }
}
