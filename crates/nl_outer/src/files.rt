//! Files that are read whole.
ghost use Rattle.nl_outer.specs.declared.files.ReadFail.TheVariants as ReadFail;
ghost use Rattle.std.specs.Prelude.{◌≡◌, ℕ, ◌+◌, ◌≤◌, Bool, true, length, Option, Some, IfOk, IfSome, IsErrOf, OnOk};
ghost use Rattle.nl_outer.specs.Faults.{Rose};

use nl_fixed::{NoMemory, Str};
use std::alloc::{AllocError, Global};

/// A file with its path.
#[derive(Drop)]
pub struct StoredFile {
    pub path: Str,
    pub bytes: Str,
}

/// Why a read gave nothing: a fault, or want of memory.
#[derive(Clone, Copy, Debug, PartialEq, Eq)]
pub enum ReadFail {
    Failed,
    NoMemory,
}

impl From<NoMemory> for ReadFail {
    ghost from_gives = { λ _ fail. fail ≡ ReadFail.NoMemory };

    fn from(_refused: NoMemory) -> ReadFail {
        ReadFail::NoMemory
    }
}

impl From<AllocError> for ReadFail {
    ghost from_gives = { λ _ fail. fail ≡ ReadFail.NoMemory };

    fn from(_refused: AllocError) -> ReadFail {
        ReadFail::NoMemory
    }
}

/// Where files are read from.
///
/// `faults` counts its faults; `last_fault` is the path of the last one, empty before any; `serves`
/// tells which paths may be asked for; `folder` is what is there, where it tells that.
pub trait Files {
    ghost use Rattle.nl_outer.specs.Folder.{Folder, read_of};
    ghost use Rattle.nl_outer.specs.Nouns.{Path};

    ghost faults: { Self → ℕ };

    ghost last_fault: { Self → Path };

    ghost serves: { Self → Path → Bool };

    ghost folder: { Self → Option Folder };

    /// All bytes of a file, or its first `most + 1` where it is longer. A file that isn't there is a
    /// fault; a read that is done and want of memory are none.
    fn read_file(&mut self, alloc: Global, path: &str, most: u64) -> Result<Vec<u8>, ReadFail>
        requires { serves self.old path.now ≡ true }
        ensures bytes { IfOk result (λ bytes. IfSome (folder self.old) (λ files.
            read_of path.now most files ≡ Some bytes.items)) }
        ensures bound { IfOk result (λ bytes. length bytes.items ≤ most + 1) }
        ensures cause { IsErrOf result ReadFail.Failed → Rose (faults self.old) (faults self.new) }
        ensures place { IsErrOf result ReadFail.Failed → last_fault self.new ≡ path.now }
        ensures ok { OnOk result (faults self.new ≡ faults self.old) }
        ensures same_place { OnOk result (last_fault self.new ≡ last_fault self.old) }
        ensures want { IsErrOf result ReadFail.NoMemory → faults self.new ≡ faults self.old }
        ensures want_place { IsErrOf result ReadFail.NoMemory → last_fault self.new ≡ last_fault self.old }
        ensures later { faults self.old ≤ faults self.new }
        ensures same_folder { folder self.new ≡ folder self.old }
        ensures same_paths { serves self.new ≡ serves self.old };
}
