//! A pool of lanes.

use crate::held::{Advanced, OpenRun};
use crate::lane::Maker;
use nl_fixed::{NoMemory, Str};
use std::alloc::Global;
use std::marker::Model;

/// Runs 1 to some number of a maker, worked on in lanes, each of which has one run at a time or none. A run is made when a lane takes it, and is
/// let go when it ends, so that there are never more runs at once than lanes.
///
/// Once memory was wanting in `turn`, each further turn answers so.
#[derive(Drop)]
pub struct Pool<M: Maker> {
    maker: M,
    runs: u64,
    lanes: Vec<Option<OpenRun<M::Run>>>,
    begun: u64,
    ended: u64,
    failed: bool,
}

impl<M: Maker> Model for Pool<M> {
    ghost use Rattle.nl_lanes.specs.Pools.{Shown};

    ghost Value = { Shown };

    ghost use Rattle.std.specs.Prelude.{take};
    ghost use Rattle.nl_lanes.specs.inner.Lanes.{IsWhole, held_all};

    ghost view = { λ p. record {
      list = take p.runs (M.lone_runs p.maker);
      standing = record { lanes = held_all M.Run.Lane p.lanes.items; begun = p.begun; ended = p.ended };
      failed = p.failed;
    } };

    ghost invariant = { λ p. IsWhole M.Run.Lane p.runs (M.lone_runs p.maker) p.lanes.items p.begun p.ended p.failed };
}

impl<M: Maker> Pool<M> {
    ghost use Rattle.std.specs.Prelude.{◌≡◌, ◌≤◌, ◌==◌, ◌<◌, ◌+◌, length, take, true, false, Some, None, IfOk, OnOk, OnErr, IsErr};
    ghost use Rattle.std.specs.Option.{option_map};
    ghost use Rattle.nl_lanes.specs.Runs.{run_of};
    ghost use Rattle.nl_lanes.specs.Turns.{taken, turned, worked};
    ghost use Rattle.nl_lanes.specs.Rounds.{all_ended};
    ghost use Rattle.nl_lanes.specs.Pools.{HasFailed, IsSound, first_shown, text_given};

    /// A pool for runs 1 to `runs`, none of which has begun, with so many lanes.
    pub fn new(alloc: Global, maker: M, runs: u64, lanes: u64) -> Result<Pool<M>, NoMemory>
        requires runs { runs ≤ length (M.lone_runs maker) }
        requires lanes { 1 ≤ lanes }
        ensures { IfOk result (λ pool. pool ≡ first_shown (take runs (M.lone_runs maker)) lanes) }
    {
        let mut free = Vec::new(alloc);
        for _ in 0..lanes {
            free.push(None)?;
        }
        Ok(Pool {
            maker,
            runs,
            lanes: free,
            begun: 0,
            ended: 0,
            failed: false,
        })
    }

    /// A turn of a lane, counted from 1. A lane without a run takes the least one that hasn't begun, which costs no unit, and its run works
    /// for these units. Where the run ends, its text is given, and the lane is without a run.
    pub fn turn(&mut self, alloc: Global, lane: u64, units: u64) -> Result<Option<Str>, NoMemory>
        requires from { 1 ≤ lane }
        requires to { lane ≤ length self.old.standing.lanes }
        requires units { 1 ≤ units }
        // What it leaves and gives is said of the list of runs and of where the pool stood.
        ensures standing { OnOk result (self.new.standing
            ≡ (turned self.old.list lane units self.old.standing).standing) }
        ensures text { IfOk result (λ text. text
            ≡ text_given self.old.list (turned self.old.list lane units self.old.standing).gives) }
        ensures list { self.new.list ≡ self.old.list }
        // After a want of memory it stays so.
        ensures going { OnOk result (HasFailed self.old → ⊥) }
        ensures goes_on { OnOk result (HasFailed self.new → ⊥) }
        ensures failed { OnErr result (HasFailed self.new) }
        ensures ended { OnErr result (self.new.standing.ended ≡ self.old.standing.ended) }
        ensures lanes { length self.new.standing.lanes ≡ length self.old.standing.lanes }
    {
        let failed = std::mem::replace(&mut self.failed, true);
        if failed {
            return Err(NoMemory);
        }
        let index = lane as usize - 1;
        self.take(alloc, index)?;
        let text = self.work(alloc, index, units)?;
        self.failed = false;
        Ok(text)
    }

    /// How many runs have ended.
    pub fn ended(&self) -> u64
        ensures { result ≡ self.now.standing.ended }
    {
        self.ended
    }

    /// How many lanes there are.
    pub(crate) fn lanes(&self) -> usize
        ensures count { result ≡ length self.now.standing.lanes }
        ensures some { 1 ≤ result }
    {
        self.lanes.len()
    }

    /// Whether all runs have ended.
    pub(crate) fn is_done(&self) -> bool
        ensures done { result ≡ all_ended self.now.list self.now.standing }
        ensures sound { (HasFailed self.now → ⊥) → IsSound self.now.list self.now.standing }
    {
        self.ended == self.runs
    }

    // A lane without a run takes the least one that hasn't begun, if there is one.
    fn take(&mut self, alloc: Global, index: usize) -> Result<(), NoMemory>
        requires within { index < length self.old.standing.lanes }
        requires failed { HasFailed self.old }
        ensures standing { OnOk result (self.new.standing ≡ taken self.old.list (index + 1) self.old.standing) }
        ensures err { OnErr result (self.new.standing ≡ self.old.standing) }
        ensures list { self.new.list ≡ self.old.list }
        ensures failed { HasFailed self.new }
    {
        if self.begun == self.runs {
            return Ok(());
        }
        if self.lanes[index].is_some() {
            return Ok(());
        }
        let number = self.begun + 1;
        let run = self.maker.begin(alloc, number)?;
        self.lanes[index] = Some(OpenRun { number, run });
        self.begun = number;
        Ok(())
    }

    // The run in a lane gets units, if there is one. It is taken out of its lane meanwhile.
    fn work(&mut self, alloc: Global, index: usize, units: u64) -> Result<Option<Str>, NoMemory>
        requires within { index < length self.old.standing.lanes }
        requires failed { HasFailed self.old }
        ensures standing { OnOk result (self.new.standing ≡ (worked (index + 1) units self.old.standing).standing) }
        ensures text { IfOk result (λ text. text
            ≡ text_given self.old.list (worked (index + 1) units self.old.standing).gives) }
        ensures err { OnErr result (self.new.standing.ended ≡ self.old.standing.ended) }
        ensures lanes { length self.new.standing.lanes ≡ length self.old.standing.lanes }
        ensures list { self.new.list ≡ self.old.list }
        ensures failed { HasFailed self.new }
    {
        // No more runs end than have begun, so that the count stays in its range.
        let _begun = self.begun;
        let open = std::mem::replace(&mut self.lanes[index], None);
        match open {
            None => Ok(None),
            Some(open) => match open.advanced(alloc, units)? {
                Advanced::Open(open) => {
                    self.lanes[index] = Some(open);
                    Ok(None)
                }
                Advanced::Ended(text) => {
                    self.ended += 1;
                    Ok(Some(text))
                }
            },
        }
    }
}
