//! Standard streams of the host. What becomes of their bytes no contract can tell: this is the
//! trusted edge.
ghost use Rattle.std.specs.Prelude.{◌≡◌, ◌≤◌, IsTrue, None, OnOk, OnErr};
ghost use Rattle.std.specs.Io.KnownBytes.{Appends};
ghost use Rattle.nl_outer.specs.Bytes.{AppendsFront};
ghost use Rattle.nl_outer.specs.Faults.{counted};

use crate::sinks::{Sink, WriteFail};
use std::io::{ErrorKind, Write};
use std::marker::Model;

// A writer with a count of its faults.
#[derive(Drop)]
struct Stream<W: Write + Drop> {
    to: W,
    faults: u64,
}

impl<W: Write + Drop> Stream<W> {
    fn new(to: W) -> Stream<W>
        ensures writer { result.to ≡ to }
        ensures faults { result.faults ≡ 0 }
    {
        Stream { to, faults: 0 }
    }

    fn put(&mut self, bytes: &[u8]) -> Result<(), WriteFail>
        ensures whole { OnOk result
            (Appends (W.contents self.old.to) (W.contents self.new.to) bytes.now) }
        ensures part { AppendsFront (W.contents self.old.to) (W.contents self.new.to) bytes.now }
        ensures ok { OnOk result (self.new.faults ≡ self.old.faults) }
        ensures err { OnErr result (self.new.faults ≡ counted self.old.faults) }
        ensures later { self.old.faults ≤ self.new.faults }
    {
        if write_whole(&mut self.to, bytes) {
            return Ok(());
        }
        self.faults = self.faults.saturating_add(1);
        Err(WriteFail)
    }
}

// Writes all bytes and flushes, and tells whether that was done.
fn write_whole<W: Write>(to: &mut W, bytes: &[u8]) -> bool
    // Where the writer tells its bytes: all of the piece is there, or where it failed a prefix.
    ensures whole { IsTrue result → Appends (W.contents to.old) (W.contents to.new) bytes.now }
    ensures part { AppendsFront (W.contents to.old) (W.contents to.new) bytes.now }
{
    let mut done = 0;
    'pieces: for _ in 0..u64::MAX {
        if done == bytes.len() {
            return to.flush().is_ok();
        }
        match to.write(&bytes[done..]) {
            Ok(0) => return false,
            Ok(count) => done += count,
            Err(error) if error.kind() == ErrorKind::Interrupted => {}
            Err(_) => return false,
        }
    }
    false
}

/// Standard output. It tells no bytes.
#[derive(Drop)]
pub struct HostOut<W: Write + Drop> {
    stream: Stream<W>,
}

impl<W: Write + Drop> Model for HostOut<W> {
    ghost use Rattle.nl_outer.specs.Host.{StreamState};

    ghost Value = { StreamState };

    ghost view = { λ s. record { contents = W.contents s.stream.to; faults = s.stream.faults } };
}

impl<W: Write + Drop> HostOut<W> {
    /// Standard output over this writer, with no faults so far.
    pub fn new(to: W) -> HostOut<W>
        ensures contents { result.contents ≡ W.contents to }
        ensures faults { result.faults ≡ 0 }
    {
        HostOut {
            stream: Stream::new(to),
        }
    }
}

impl<W: Write + Drop> Sink for HostOut<W> {
    ghost faults = { λ s. s.faults };

    ghost written = { λ _. None };

    fn put(&mut self, bytes: &[u8]) -> Result<(), WriteFail>
        ensures ok { OnOk result (self.new.faults ≡ self.old.faults) }
        ensures err { OnErr result (self.new.faults ≡ counted self.old.faults) }
        ensures later { self.old.faults ≤ self.new.faults }

        // Where the writer tells its bytes: all of the piece went there, or where that failed a
        // prefix.
        ensures whole { OnOk result (Appends self.old.contents self.new.contents bytes.now) }
        ensures part { AppendsFront self.old.contents self.new.contents bytes.now }
    {
        self.stream.put(bytes)
    }
}

/// Standard error. It tells no bytes.
#[derive(Drop)]
pub struct HostErr<W: Write + Drop> {
    stream: Stream<W>,
}

impl<W: Write + Drop> Model for HostErr<W> {
    ghost use Rattle.nl_outer.specs.Host.{StreamState};

    ghost Value = { StreamState };

    ghost view = { λ s. record { contents = W.contents s.stream.to; faults = s.stream.faults } };
}

impl<W: Write + Drop> HostErr<W> {
    /// Standard error over this writer, with no faults so far.
    pub fn new(to: W) -> HostErr<W>
        ensures contents { result.contents ≡ W.contents to }
        ensures faults { result.faults ≡ 0 }
    {
        HostErr {
            stream: Stream::new(to),
        }
    }
}

impl<W: Write + Drop> Sink for HostErr<W> {
    ghost faults = { λ s. s.faults };

    ghost written = { λ _. None };

    fn put(&mut self, bytes: &[u8]) -> Result<(), WriteFail>
        ensures ok { OnOk result (self.new.faults ≡ self.old.faults) }
        ensures err { OnErr result (self.new.faults ≡ counted self.old.faults) }
        ensures later { self.old.faults ≤ self.new.faults }

        // Where the writer tells its bytes: all of the piece went there, or where that failed a
        // prefix.
        ensures whole { OnOk result (Appends self.old.contents self.new.contents bytes.now) }
        ensures part { AppendsFront self.old.contents self.new.contents bytes.now }
    {
        self.stream.put(bytes)
    }
}

#[cfg(test)]
mod tests;
