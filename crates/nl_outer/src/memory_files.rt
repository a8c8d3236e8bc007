//! Files in memory, with faults where they are asked for.
ghost use Rattle.std.specs.Prelude.{◌≡◌, ◌+◌, ◌≤◌, true, length, Some, IfOk, OnOk, OnErr, IsErrOf, IsTrue, IsFalse};
ghost use Rattle.nl_outer.specs.Faults.{Rose};

use crate::files::{Files, ReadFail, StoredFile};
use crate::folder;
use nl_fixed::{NoMemory, Str};
use std::alloc::Global;
use std::marker::Model;

/// Files in memory. It serves every path.
#[derive(Drop)]
pub struct MemFiles {
    files: Vec<StoredFile>,
    failing: Vec<u64>,
    calls: u64,
    faults: u64,
    last_fault: Str,
}

impl Model for MemFiles {
    ghost use Rattle.nl_outer.specs.Memory.{FilesState};

    ghost Value = { FilesState };

    ghost view = { λ s. record {
      files = s.files.items;
      failing = s.failing.items;
      calls = s.calls;
      faults = s.faults;
      last_fault = s.last_fault;
    } };
}

impl MemFiles {
    ghost use Rattle.nl_outer.specs.Memory.{no_files, with_file, with_failing_read};

    /// No files, and no faults to come.
    pub fn new(alloc: Global) -> MemFiles
        ensures { result ≡ no_files }
    {
        MemFiles {
            files: Vec::new(alloc),
            failing: Vec::new(alloc),
            calls: 0,
            faults: 0,
            last_fault: Str::of_vec(Vec::new(alloc)),
        }
    }

    /// Adds a file behind the others, or leaves them as they were. Of two files at one path the
    /// first counts.
    pub fn add(&mut self, alloc: Global, path: &str, bytes: &[u8]) -> Result<(), NoMemory>
        ensures ok { OnOk result (self.new ≡ with_file self.old path.now bytes.now) }
        ensures err { OnErr result (self.new ≡ self.old) }
    {
        let path = Str::of(alloc, path.as_bytes())?;
        let bytes = Str::of(alloc, bytes)?;
        self.files.push(StoredFile { path, bytes })?;
        Ok(())
    }

    /// Makes the read of this number fail, counted from 1.
    pub fn fail_call(&mut self, _alloc: Global, call: u64) -> Result<(), NoMemory>
        ensures ok { OnOk result (self.new ≡ with_failing_read self.old call) }
        ensures err { OnErr result (self.new ≡ self.old) }
    {
        self.failing.push(call)?;
        Ok(())
    }
}

impl Files for MemFiles {
    ghost use Rattle.nl_outer.specs.Folder.{read_of};
    ghost use Rattle.nl_outer.specs.Memory.{read_fails, after_read, after_failed_read};

    ghost faults = { λ s. s.faults };

    ghost last_fault = { λ s. s.last_fault };

    ghost serves = { λ _ _. true };

    ghost folder = { λ s. Some s.files };

    #[tactic(auto, unfolding(crate::specs::Folder::read_of))]
    fn read_file(&mut self, alloc: Global, path: &str, most: u64) -> Result<Vec<u8>, ReadFail>
        ensures bytes { IfOk result (λ bytes.
            read_of path.now most self.old.files ≡ Some bytes.items) }
        ensures bound { IfOk result (λ bytes. length bytes.items ≤ most + 1) }
        ensures cause { IsErrOf result ReadFail.Failed → Rose self.old.faults self.new.faults }
        ensures place { IsErrOf result ReadFail.Failed → self.new.last_fault ≡ path.now }
        ensures ok { OnOk result (self.new.faults ≡ self.old.faults) }
        ensures same_place { OnOk result (self.new.last_fault ≡ self.old.last_fault) }
        ensures want { IsErrOf result ReadFail.NoMemory → self.new.faults ≡ self.old.faults }
        ensures want_place { IsErrOf result ReadFail.NoMemory → self.new.last_fault ≡ self.old.last_fault }
        ensures later { self.old.faults ≤ self.new.faults }

        // A fault comes exactly where this read is listed or no file has the path, unless memory is
        // wanting.
        ensures only_where { IsErrOf result ReadFail.Failed
            → IsTrue (read_fails self.old path.now) }
        ensures exactly { OnOk result (IsFalse (read_fails self.old path.now)) }

        // What is left: the files as they were, one more call, and where it failed one more fault.
        ensures after { OnOk result (self.new ≡ after_read self.old) }
        ensures after_fault { IsErrOf result ReadFail.Failed
            → self.new ≡ after_failed_read self.old path.now }
        ensures after_want { IsErrOf result ReadFail.NoMemory → self.new ≡ after_read self.old }
    {
        self.calls = self.calls.saturating_add(1);
        let place = Str::of(alloc, path.as_bytes())?;
        let is_listed = self.failing.contains(&self.calls);
        match folder::content(&self.files, path) {
            Some(bytes) if !is_listed => folder::first_bytes(alloc, bytes, most),
            _ => {
                self.faults = self.faults.saturating_add(1);
                self.last_fault = place;
                Err(ReadFail::Failed)
            }
        }
    }
}
