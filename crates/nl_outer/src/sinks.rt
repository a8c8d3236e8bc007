//! Sinks that take bytes.
ghost use Rattle.std.specs.Prelude.{◌≡◌, ℕ, ◌≤◌, Option, OnOk, OnErr};
ghost use Rattle.nl_fixed.specs.Nouns.{Bytes};
ghost use Rattle.nl_outer.specs.Bytes.{Appended, PartAppended};
ghost use Rattle.nl_outer.specs.Faults.{Rose};

/// A put wasn't done whole.
#[derive(Clone, Copy, Debug, PartialEq, Eq)]
pub struct WriteFail;

/// Where bytes are put.
///
/// `faults` counts its faults, and `written` are the bytes that it holds, where it tells them.
pub trait Sink {
    ghost faults: { Self → ℕ };

    ghost written: { Self → Option Bytes };

    /// Appends all bytes, or where that is a fault a prefix of them.
    fn put(&mut self, bytes: &[u8]) -> Result<(), WriteFail>
        ensures whole { OnOk result (Appended (written self.old) (written self.new) bytes.now) }
        ensures part { OnErr result (PartAppended (written self.old) (written self.new) bytes.now) }
        ensures ok { OnOk result (faults self.new ≡ faults self.old) }
        ensures cause { OnErr result (Rose (faults self.old) (faults self.new)) }
        ensures later { faults self.old ≤ faults self.new };
}
