//! The stack of a machine.
ghost use Rattle.std.specs.Prelude.{◌≡◌, IfOk, length, vec_len};

use nl_exec_meaning::Frame;
use nl_fixed::NoMemory;
use std::alloc::Global;

/// A level of nesting: the node that is under way there, and the rest of its case. The node is kept beside the frame since its value is
/// tested against the limits on values, whatever the case was.
#[derive(Drop)]
pub struct Level {
    pub node: u32,
    pub frame: Frame,
}

impl Level {
    /// The same level again.
    pub fn copy(&self, alloc: Global) -> Result<Level, NoMemory>
        ensures { IfOk result (λ level. level ≡ self.now) }
    {
        let frame = self.frame.copy(alloc)?;
        Ok(Level {
            node: self.node,
            frame,
        })
    }
}

/// The same levels again.
pub fn copy_levels(alloc: Global, levels: &[Level]) -> Result<Vec<Level>, NoMemory>
    ensures items { IfOk result (λ copied. copied.items ≡ levels.now) }
    ensures len { IfOk result (λ copied. vec_len copied ≡ length levels.now) }
{
    let mut copied = Vec::new(alloc);
    for level in levels {
        copied.push(level.copy(alloc)?)?;
    }
    Ok(copied)
}
