//! What is worked on in lanes, and what makes it.
ghost use Rattle.std.specs.Prelude.{◌≡◌, ℕ, ◌-◌, ◌≤◌, ◌<◌, ◌↔◌, length, Bool, true, false, Ok, IfOk};
ghost use Rattle.nl_lanes.specs.declared.lane.LaneTurn.TheVariants.{More, Ended};

use nl_fixed::{NoMemory, Str};
use std::alloc::Global;

/// How a turn of a lane ends.
#[derive(Clone, Copy, PartialEq, Eq, Debug)]
pub enum LaneTurn {
    /// The units are spent, and a further one is wanted.
    More,
    /// What was worked on has ended.
    Ended,
}

/// One run, in turns of units.
///
/// `lone_text` is the text that it gives in the end where it runs alone, `wants` how many units it still wants for that, and `has_ended` tells
/// whether it has ended. A run that wants no unit ends all the same only in a turn.
pub trait Lane: Sized + Drop {
    ghost use Rattle.nl_fixed.specs.Nouns.{Bytes};

    ghost lone_text: { Self → Bytes };

    ghost wants: { Self → ℕ };

    ghost has_ended: { Self → Bool };

    /// Works until the run ends, or until a unit is wanted and these units were spent. Of what is left where memory was wanting nothing is
    /// said.
    fn advance(&mut self, alloc: Global, units: u64) -> Result<LaneTurn, NoMemory>
        requires { has_ended self.old ≡ false }
        ensures ended { result ≡ Ok Ended → wants self.old ≤ units }
        ensures over { result ≡ Ok Ended → has_ended self.new ≡ true }
        ensures more { result ≡ Ok More → units < wants self.old }
        ensures going { result ≡ Ok More → has_ended self.new ≡ false }
        ensures left { result ≡ Ok More → wants self.new ≡ wants self.old - units }
        ensures text { lone_text self.new ≡ lone_text self.old };

    /// The text of a run that has ended.
    fn text(&self, alloc: Global) -> Result<Str, NoMemory>
        requires { has_ended self.now ≡ true }
        ensures { IfOk result (λ text. text ≡ lone_text self.now) };
}

/// What makes runs, by their numbers from 1 on.
///
/// `lone_runs` tells of each run in order, from number 1 on, what it comes to where it runs alone.
pub trait Maker: Drop {
    ghost use Rattle.nl_lanes.specs.Runs.{LoneRuns, run_of};

    type Run: Lane;

    ghost lone_runs: { Self → LoneRuns };

    /// The run of a number, before its first unit.
    fn begin(&mut self, alloc: Global, number: u64) -> Result<Self::Run, NoMemory>
        requires from { 1 ≤ number }
        requires to { number ≤ length (lone_runs self.old) }
        ensures text { IfOk result (λ run. Self.Run.lone_text run ≡ (run_of (lone_runs self.old) number).text) }
        ensures wants { IfOk result (λ run. Self.Run.wants run ≡ (run_of (lone_runs self.old) number).units) }
        ensures going { IfOk result (λ run. Self.Run.has_ended run ≡ false) }
        ensures same { lone_runs self.new ≡ lone_runs self.old };
}
