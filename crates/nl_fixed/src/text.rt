//! Texts as lists of bytes.
ghost use Rattle.std.specs.Prelude.{◌≡◌, ◌++◌, [], IfOk, IsOk, OnOk, OnErr};

use crate::memory::NoMemory;
use std::alloc::Global;
use std::marker::Model;

/// A text, seen by contracts as the list of its bytes. Nothing is said of their encoding.
#[derive(Drop)]
pub struct Str {
    bytes: Vec<u8>,
}

impl Model for Str {
    ghost use Rattle.nl_fixed.specs.Nouns.{Bytes};

    ghost Value = { Bytes };

    ghost view = { λ s. s.bytes.items };
}

impl Str {
    /// The text of these bytes, which are copied. The empty text takes no memory.
    pub fn of(alloc: Global, bytes: &[u8]) -> Result<Str, NoMemory>
        ensures ok { IfOk result (λ text. text ≡ bytes.now) }
        ensures empty { bytes.now ≡ [] → IsOk result }
    {
        if bytes.is_empty() {
            return Ok(Str::of_vec(Vec::new(alloc)));
        }
        let bytes = bytes.to_vec(alloc)?;
        Ok(Str { bytes })
    }

    /// The text that a vector holds, without a copy.
    pub fn of_vec(bytes: Vec<u8>) -> Str
        ensures { result ≡ bytes.items }
    {
        Str { bytes }
    }

    /// The bytes, in order.
    pub fn as_bytes(&self) -> &[u8]
        ensures { result.now ≡ self.now }
    {
        self.bytes.as_slice()
    }

    /// The same text again. The empty text takes no memory.
    pub fn copy(&self, alloc: Global) -> Result<Str, NoMemory>
        ensures ok { IfOk result (λ text. text ≡ self.now) }
        ensures empty { self.now ≡ [] → IsOk result }
    {
        Str::of(alloc, self.as_bytes())
    }

    /// Appends bytes, or leaves the text as it was. To append none takes no memory.
    pub fn append(&mut self, _alloc: Global, more: &[u8]) -> Result<(), NoMemory>
        ensures ok { OnOk result (self.new ≡ self.old ++ more.now) }
        ensures err { OnErr result (self.new ≡ self.old) }
        ensures empty { more.now ≡ [] → IsOk result }
    {
        if more.is_empty() {
            return Ok(());
        }
        self.bytes.extend_from_slice(more)?;
        Ok(())
    }
}
