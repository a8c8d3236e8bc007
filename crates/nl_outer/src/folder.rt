//! Look-ups in a folder of stored files.
ghost use Rattle.std.specs.Prelude.{◌≡◌, ◌+◌, take, Err, IfOk, OnErr};
ghost use Rattle.std.specs.Option.{option_map};
ghost use Rattle.nl_outer.specs.Folder.{content_of, same_bytes};

use crate::files::{ReadFail, StoredFile};
use std::alloc::Global;

// The bytes of the first file at a path.
pub(crate) fn content<'a>(files: &'a [StoredFile], path: &str) -> Option<&'a [u8]>
    ensures { option_map (λ bytes. bytes.now) result ≡ content_of path.now files.now }
{
    'search: for file in files {
        if is_same(path.as_bytes(), file.path.as_bytes()) {
            return Some(file.bytes.as_bytes());
        }
    }
    None
}

fn is_same(a: &[u8], b: &[u8]) -> bool
    ensures { result ≡ same_bytes a.now b.now }
{
    a == b
}

// All bytes, or the first `most + 1`.
pub(crate) fn first_bytes(alloc: Global, bytes: &[u8], most: u64) -> Result<Vec<u8>, ReadFail>
    ensures bytes { IfOk result (λ first. first.items ≡ take (most + 1) bytes.now) }
    ensures error { OnErr result (result ≡ Err ReadFail.NoMemory) }
{
    let len = bytes.len();
    let end = match usize::try_from(most) {
        Ok(most) => if most < len { most + 1 } else { len },
        Err(_) => len,
    };
    Ok(bytes[..end].to_vec(alloc)?)
}
