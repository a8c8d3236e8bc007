//! A sink in memory, with faults where they are asked for.
ghost use Rattle.std.specs.Prelude.{◌≡◌, ◌≤◌, ◌↔◌, Some, IfOk, OnOk, OnErr, IsErr, IsTrue};
ghost use Rattle.nl_outer.specs.Bytes.{Appended, PartAppended};
ghost use Rattle.nl_outer.specs.Faults.{Rose};
ghost use Rattle.nl_outer.specs.Memory.{listed_kept};

use crate::sinks::{Sink, WriteFail};
use nl_fixed::NoMemory;
use std::alloc::Global;
use std::marker::Model;

// A put that is to fail: its number, and how many bytes of its piece it keeps at most.
#[derive(Clone, Copy)]
pub(crate) struct FailingPut {
    call: u64,
    kept: u64,
}

/// A sink in memory with bounded room.
#[derive(Drop)]
pub struct MemSink {
    bytes: Vec<u8>,
    room: usize,
    failing: Vec<FailingPut>,
    calls: u64,
    faults: u64,
}

impl Model for MemSink {
    ghost use Rattle.std.specs.Prelude.{◌≤◌, vec_len, vec_capacity};
    ghost use Rattle.nl_outer.specs.Memory.{SinkState};

    ghost Value = { SinkState };

    ghost view = { λ s. record {
      bytes = s.bytes.items;
      room = s.room;
      failing = s.failing.items;
      calls = s.calls;
      faults = s.faults;
    } };

    ghost invariant = { λ s. (vec_len s.bytes ≤ s.room) × (s.room ≤ vec_capacity s.bytes) };
}

impl MemSink {
    ghost use Rattle.nl_outer.specs.Memory.{empty_sink, with_failing_put};

    /// An empty sink with room for so many bytes, which are set aside.
    pub fn with_room(alloc: Global, room: usize) -> Result<MemSink, NoMemory>
        ensures { IfOk result (λ sink. sink ≡ empty_sink room) }
    {
        let bytes = Vec::with_capacity(alloc, room)?;
        Ok(MemSink {
            bytes,
            room,
            failing: Vec::new(alloc),
            calls: 0,
            faults: 0,
        })
    }

    /// Makes the put of this number fail, counted from 1, after it appended at most `kept` bytes of
    /// its piece. Where a number is listed twice, the first listing counts.
    pub fn fail_call(&mut self, _alloc: Global, call: u64, kept: u64) -> Result<(), NoMemory>
        ensures ok { OnOk result (self.new ≡ with_failing_put self.old call kept) }
        ensures err { OnErr result (self.new ≡ self.old) }
    {
        self.failing.push(FailingPut { call, kept })?;
        Ok(())
    }

    /// The bytes that were appended so far.
    pub fn bytes(&self) -> &[u8]
        ensures { result.now ≡ self.now.bytes }
    {
        self.bytes.as_slice()
    }
}

impl Sink for MemSink {
    ghost use Rattle.nl_outer.specs.Memory.{put_fails, after_put};

    ghost faults = { λ s. s.faults };

    ghost written = { λ s. Some s.bytes };

    fn put(&mut self, bytes: &[u8]) -> Result<(), WriteFail>
        ensures whole { OnOk result
            (Appended (Some self.old.bytes) (Some self.new.bytes) bytes.now) }
        ensures part { OnErr result
            (PartAppended (Some self.old.bytes) (Some self.new.bytes) bytes.now) }
        ensures ok { OnOk result (self.new.faults ≡ self.old.faults) }
        ensures cause { OnErr result (Rose self.old.faults self.new.faults) }
        ensures later { self.old.faults ≤ self.new.faults }

        // It fails exactly where it is listed or passes the room. What fits is appended, and of a
        // listed put at most what it is to keep.
        ensures fails { IsErr result ↔ IsTrue (put_fails self.old bytes.now) }
        ensures after { self.new ≡ after_put self.old bytes.now }
    {
        self.calls = self.calls.saturating_add(1);
        let fit = bytes.len().min(self.room - self.bytes.len());
        let listed = kept_at(&self.failing, self.calls);
        let kept = match listed {
            Some(kept) => fit.min(usize::try_from(kept).unwrap_or(fit)),
            None => fit,
        };
        // The room was set aside, so this is never refused.
        let _ = self.bytes.extend_from_slice(&bytes[..kept]);
        if listed.is_none() && fit == bytes.len() {
            return Ok(());
        }
        self.faults = self.faults.saturating_add(1);
        Err(WriteFail)
    }
}

// How many bytes a put of this number keeps at most, where it is to fail.
fn kept_at(failing: &[FailingPut], call: u64) -> Option<u64>
    ensures { result ≡ listed_kept failing.now call }
{
    failing
        .iter()
        .find(|put| put.call == call)
        .map(|put| put.kept)
}
