//! A run in a lane.

use crate::lane::{Lane, LaneTurn};
use nl_fixed::{NoMemory, Str};
use std::alloc::Global;

/// A run that hasn't ended, with its number.
#[derive(Drop)]
pub struct OpenRun<R: Lane> {
    pub number: u64,
    pub run: R,
}

/// What a run is after a turn: open, or the text that it gave in the end.
#[derive(Drop)]
pub enum Advanced<R: Lane> {
    Open(OpenRun<R>),
    Ended(Str),
}

impl<R: Lane> OpenRun<R> {
    ghost use Rattle.std.specs.Prelude.{◌≡◌, false, IfOk};
    ghost use Rattle.nl_lanes.specs.inner.Lanes.{IsAdvanced};

    /// Gives the run units. Where it ends it is let go, and its text is left.
    pub fn advanced(self, alloc: Global, units: u64) -> Result<Advanced<R>, NoMemory>
        requires { R.has_ended self.run ≡ false }
        ensures { IfOk result (IsAdvanced R.Lane units self) }
    {
        let OpenRun { number, mut run } = self;
        match run.advance(alloc, units)? {
            LaneTurn::More => Ok(Advanced::Open(OpenRun { number, run })),
            LaneTurn::Ended => Ok(Advanced::Ended(run.text(alloc)?)),
        }
    }
}
