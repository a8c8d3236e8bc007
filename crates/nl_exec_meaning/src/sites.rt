//! Who runs a text.

use nl_agents::Owner;

/// Who runs, who asked it to (the observer, where nobody did), and in which body: 0 is the lone text, and i + 1 that of procedure i.
#[derive(Clone, Copy, PartialEq, Eq, Debug)]
pub struct Site {
    pub agent: Owner,
    pub asker: Owner,
    pub body: u64,
}
