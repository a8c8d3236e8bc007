//! Files of the host. What they hold no contract can tell: this is the trusted edge.
ghost use Rattle.std.specs.Prelude.{◌≡◌, ◌+◌, ◌≤◌, length, true, None, IfOk, OnOk, IsErrOf};
ghost use Rattle.nl_outer.specs.Faults.{Rose};
ghost use Rattle.std.specs.Io.KnownBytes.{Consumes, IsAtEnd};

use crate::files::{Files, ReadFail};
use nl_fixed::Str;
use std::alloc::Global;
use std::io::{ErrorKind, Read};
use std::marker::Model;
use std::{fs, rt};

// How many bytes one read asks for at most.
const PIECE: usize = 8192;

/// The files of the host. It serves every path, and tells no folder.
#[derive(Drop)]
pub struct HostFiles<'a, R: rt::Files> {
    rt: &'a R,
    faults: u64,
    last_fault: Option<Str>,
}

impl<'a, R: rt::Files> Model for HostFiles<'a, R> {
    ghost use Rattle.std.specs.Prelude.{unwrap_or, []};
    ghost use Rattle.nl_outer.specs.Host.{HostFaults};

    ghost Value = { HostFaults };

    ghost view = { λ s. record { faults = s.faults; last_fault = unwrap_or s.last_fault [] } };
}

impl<'a, R: rt::Files> HostFiles<'a, R> {
    ghost use Rattle.nl_outer.specs.Host.{no_faults};

    /// The files that this runtime reaches.
    pub fn new(rt: &'a R) -> HostFiles<'a, R>
        ensures { result ≡ no_faults }
    {
        HostFiles {
            rt,
            faults: 0,
            last_fault: None,
        }
    }
}

impl<'a, R: rt::Files> Files for HostFiles<'a, R> {
    ghost use Rattle.nl_outer.specs.Host.{failed_at};

    ghost faults = { λ s. s.faults };

    ghost last_fault = { λ s. s.last_fault };

    ghost serves = { λ _ _. true };

    ghost folder = { λ _. None };

    fn read_file(&mut self, alloc: Global, path: &str, most: u64) -> Result<Vec<u8>, ReadFail>
        ensures bound { IfOk result (λ bytes. length bytes.items ≤ most + 1) }
        ensures cause { IsErrOf result ReadFail.Failed → Rose self.old.faults self.new.faults }
        ensures place { IsErrOf result ReadFail.Failed → self.new.last_fault ≡ path.now }
        ensures ok { OnOk result (self.new.faults ≡ self.old.faults) }
        ensures same_place { OnOk result (self.new.last_fault ≡ self.old.last_fault) }
        ensures want { IsErrOf result ReadFail.NoMemory → self.new.faults ≡ self.old.faults }
        ensures want_place { IsErrOf result ReadFail.NoMemory → self.new.last_fault ≡ self.old.last_fault }
        ensures later { self.old.faults ≤ self.new.faults }

        // A fault counts once, and without one nothing changes.
        ensures after { OnOk result (self.new ≡ self.old) }
        ensures after_fault { IsErrOf result ReadFail.Failed
            → self.new ≡ failed_at self.old path.now }
        ensures after_want { IsErrOf result ReadFail.NoMemory → self.new ≡ self.old }
    {
        // The copy comes first, so that a fault always has its path.
        let place = Str::of(alloc, path.as_bytes())?;
        let result = match fs::open(self.rt, path) {
            Ok(mut file) => read_on(alloc, &mut file, most),
            Err(_) => Err(ReadFail::Failed),
        };
        if let Err(ReadFail::Failed) = result {
            self.faults = self.faults.saturating_add(1);
            self.last_fault = Some(place);
        }
        result
    }
}

// Reads on to the end, or until there are `most + 1` bytes.
fn read_on<F: Read>(alloc: Global, file: &mut F, most: u64) -> Result<Vec<u8>, ReadFail>
    ensures bound { IfOk result (λ bytes. length bytes.items ≤ most + 1) }

    // Where the file tells its bytes: just those were read, and if they aren't too many it has
    // ended.
    ensures given { IfOk result (λ bytes.
        Consumes (F.remaining file.old) (F.remaining file.new) bytes.items) }
    ensures ended { IfOk result (λ bytes.
        length bytes.items ≤ most → IsAtEnd (F.remaining file.new)) }
{
    let mut bytes = Vec::new(alloc);
    let mut buffer = [0u8; PIECE];
    'pieces: for _ in 0..u64::MAX {
        let missing = most - bytes.len() as u64;
        let want = missing.min(PIECE as u64 - 1) as usize + 1;
        let count = match file.read(&mut buffer[..want]) {
            Ok(count) => count,
            Err(error) if error.kind() == ErrorKind::Interrupted => continue,
            Err(_) => return Err(ReadFail::Failed),
        };
        bytes.extend_from_slice(&buffer[..count])?;
        if count == 0 || count as u64 > missing {
            return Ok(bytes);
        }
    }
    Err(ReadFail::Failed)
}

#[cfg(test)]
mod tests;
