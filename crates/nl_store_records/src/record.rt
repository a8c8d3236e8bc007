//! An agent with its places in chains.
ghost use Rattle.std.specs.Prelude.{◌≡◌, ◌<◌, ℕ};
ghost use Rattle.nl_store_records.specs.Packed.{IsPackable};
ghost use Rattle.nl_store_records.specs.Records.{no_place, record_place, settled, with_place};

use crate::fields::{Body, Fields};
use crate::packed::Packed;

/// The keys of the records before and after a record in one chain. None where it is the first, or the last, or in no such chain.
#[derive(Clone, Copy, Debug)]
pub struct Place {
    pub previous: Option<usize>,
    pub next: Option<usize>,
}

/// An agent with its five places in chains, in this order: that of births, of its patch, of its breed, and for a link those of its first and
/// of its second end.
#[derive(Drop)]
pub struct Record {
    fields: Fields,
    births: Packed,
    patch: Packed,
    breed: Packed,
    end1: Packed,
    end2: Packed,
}

impl Record {
    /// An agent that is in no chain.
    pub fn new(fields: Fields) -> Record
        ensures fields { result.fields ≡ fields }
        ensures places { (chain : ℕ) → record_place chain result ≡ no_place }
    {
        Record {
            fields,
            births: Packed::none(),
            patch: Packed::none(),
            breed: Packed::none(),
            end1: Packed::none(),
            end2: Packed::none(),
        }
    }

    /// What is known of the agent.
    pub fn fields(&self) -> &Fields
        ensures { result.now ≡ self.now.fields }
    {
        &self.fields
    }

    /// The key after this record in its chain of that kind: 0 births, 1 patch, 2 breed, 3 first end, 4 second end.
    pub fn next(&self, chain: u8) -> Option<usize>
        requires { chain < 5 }
        ensures { result ≡ (record_place chain self.now).next }
    {
        self.place(chain).next
    }

    /// The key before this record in its chain of that kind, counted as in `next`.
    pub fn previous(&self, chain: u8) -> Option<usize>
        requires { chain < 5 }
        ensures { result ≡ (record_place chain self.now).previous }
    {
        self.place(chain).previous
    }

    /// The place in a chain of that kind.
    pub(crate) fn place(&self, chain: u8) -> Place
        requires { chain < 5 }
        ensures place { result ≡ record_place chain self.now }
        ensures small { IsPackable result }
    {
        let packed = match chain {
            0 => &self.births,
            1 => &self.patch,
            2 => &self.breed,
            3 => &self.end1,
            _ => &self.end2,
        };
        packed.place()
    }

    /// Sets the place in a chain of that kind.
    pub(crate) fn set_place(&mut self, chain: u8, place: Place)
        requires chain { chain < 5 }
        requires small { IsPackable place }
        ensures { self.new ≡ with_place chain place self.old }
    {
        let packed = Packed::new(place);
        match chain {
            0 => self.births = packed,
            1 => self.patch = packed,
            2 => self.breed = packed,
            3 => self.end1 = packed,
            _ => self.end2 = packed,
        }
    }

    /// Sets what is known of the agent, and hands back what was known.
    pub(crate) fn set_fields(&mut self, fields: Fields) -> Fields
        ensures old { result ≡ self.old.fields }
        ensures new { self.new ≡ record self.old { fields = fields } }
    {
        std::mem::replace(&mut self.fields, fields)
    }

    /// Sets what the agent is and its breed.
    pub(crate) fn settle(&mut self, body: Body, breed: u32)
        ensures { self.new ≡ settled body breed self.old }
    {
        self.fields.body = body;
        self.fields.breed = breed;
    }
}
