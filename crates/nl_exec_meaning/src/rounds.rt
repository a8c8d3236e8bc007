//! Turns of an arrow block, which the same agent runs one after another.
ghost use Rattle.std.specs.Prelude.{◌≡◌, IfOk};

use crate::numbers::Numbers;
use nl_fixed::NoMemory;
use nl_value::Items;
use std::alloc::Global;

/// What the turns of a word go over from here on, and what they made so far.
#[derive(Drop)]
pub struct Rounds {
    /// The lists that turns go through, as values: those of `foreach` and `map` side by side, and the one list of the others.
    pub over: Items,
    /// The place of the next turn's item; of `sort-by` that of the item that may come before the other one.
    pub at: usize,
    /// Of `sort-by` the place of the other one.
    pub place: usize,
    /// How many places there are.
    pub many: usize,
    /// The values that are kept, or the one that `reduce` hands on.
    pub made: Items,
    /// Whether the values passed the limits on a list, so that none is kept any more.
    pub past: bool,
    /// Of `sort-by` how many others come before each item.
    pub ranks: Numbers,
}

impl Rounds {
    /// The same turns again.
    pub fn copy(&self, alloc: Global) -> Result<Rounds, NoMemory>
        ensures { IfOk result (λ rounds. rounds ≡ self.now) }
    {
        let over = self.over.copy(alloc)?;
        let made = self.made.copy(alloc)?;
        let ranks = self.ranks.copy(alloc)?;
        Ok(Rounds {
            over,
            at: self.at,
            place: self.place,
            many: self.many,
            made,
            past: self.past,
            ranks,
        })
    }
}
