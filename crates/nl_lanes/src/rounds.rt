//! Rounds of a pool, with the texts of its runs put into a sink.
ghost use Rattle.std.specs.Prelude.{◌≡◌, ◌≤◌, [], length, true, OnOk, OnErr, IsErrOf};
ghost use Rattle.nl_outer.specs.Bytes.{Appended, PartAppended};
ghost use Rattle.nl_outer.specs.Faults.{Rose};
ghost use Rattle.nl_lanes.specs.Turns.{turned};
ghost use Rattle.nl_lanes.specs.Rounds.{all_ended, before, round, rounds};
ghost use Rattle.nl_lanes.specs.Pools.{HasFailed, IsSound, bytes_of, rounds_bytes};
ghost use Rattle.nl_lanes.specs.declared.rounds.LanesFail.TheVariants as fail;

use crate::lane::Maker;
use crate::pool::Pool;
use nl_fixed::NoMemory;
use nl_outer::{Sink, WriteFail};
use std::alloc::Global;

/// Why not all texts were put: a fault of the sink, or want of memory.
#[derive(Clone, Copy, Debug, PartialEq, Eq)]
pub enum LanesFail {
    Write,
    NoMemory,
}

impl From<NoMemory> for LanesFail {
    ghost from_gives = { λ _ answer. answer ≡ fail.NoMemory };

    fn from(_refused: NoMemory) -> LanesFail {
        LanesFail::NoMemory
    }
}

impl From<WriteFail> for LanesFail {
    ghost from_gives = { λ _ answer. answer ≡ fail.Write };

    fn from(_failed: WriteFail) -> LanesFail {
        LanesFail::Write
    }
}

/// Goes round by round until all runs have ended. In a round each lane gets so many units, in order, and each text is put as one piece when its
/// run ends. Behind a put that failed nothing is put.
pub fn drive<M: Maker, O: Sink>(
    alloc: Global,
    pool: &mut Pool<M>,
    units: u64,
    out: &mut O,
) -> Result<(), LanesFail>
    requires { 1 ≤ units }
    ensures whole { OnOk result (Appended (O.written out.old) (O.written out.new) (rounds_bytes pool.old units)) }
    ensures part { OnErr result (PartAppended (O.written out.old) (O.written out.new) (rounds_bytes pool.old units)) }
    ensures standing { OnOk result (pool.new.standing ≡ (rounds pool.old.list units pool.old.standing).standing) }
    ensures ended { OnOk result (all_ended pool.old.list pool.new.standing ≡ true) }
    ensures list { pool.new.list ≡ pool.old.list }
    ensures ok { OnOk result (O.faults out.new ≡ O.faults out.old) }
    ensures cause { IsErrOf result fail.Write → Rose (O.faults out.old) (O.faults out.new) }
    ensures want { IsErrOf result fail.NoMemory → O.faults out.new ≡ O.faults out.old }
    ensures failed { IsErrOf result fail.NoMemory → HasFailed pool.new }
    ensures later { O.faults out.old ≤ O.faults out.new }
{
    'rounds: while !pool.is_done() {
        round(alloc, pool, units, out)?;
    }
    Ok(())
}

// One round.
fn round<M: Maker, O: Sink>(
    alloc: Global,
    pool: &mut Pool<M>,
    units: u64,
    out: &mut O,
) -> Result<(), LanesFail>
    requires { 1 ≤ units }
    ensures standing { OnOk result (pool.new.standing ≡ (round pool.old.list units pool.old.standing).standing) }
    ensures whole { OnOk result (Appended (O.written out.old) (O.written out.new)
        (bytes_of pool.old.list (round pool.old.list units pool.old.standing).given)) }
    ensures part { OnErr result (PartAppended (O.written out.old) (O.written out.new)
        (bytes_of pool.old.list (round pool.old.list units pool.old.standing).given)) }
    ensures going { OnOk result (HasFailed pool.old → ⊥) }
    ensures goes_on { OnOk result (HasFailed pool.new → ⊥) }
    ensures list { pool.new.list ≡ pool.old.list }
    ensures ok { OnOk result (O.faults out.new ≡ O.faults out.old) }
    ensures cause { IsErrOf result fail.Write → Rose (O.faults out.old) (O.faults out.new) }
    ensures want { IsErrOf result fail.NoMemory → O.faults out.new ≡ O.faults out.old }
    ensures failed { IsErrOf result fail.NoMemory → HasFailed pool.new }
    ensures later { O.faults out.old ≤ O.faults out.new }
    ensures none { HasFailed pool.old → O.written out.new ≡ O.written out.old }
{
    for index in 0..pool.lanes() {
        turn_of(alloc, pool, index as u64 + 1, units, out)?;
    }
    Ok(())
}

// A turn of a lane, with the text of a run that ended put as one piece.
fn turn_of<M: Maker, O: Sink>(
    alloc: Global,
    pool: &mut Pool<M>,
    lane: u64,
    units: u64,
    out: &mut O,
) -> Result<(), LanesFail>
    requires from { 1 ≤ lane }
    requires to { lane ≤ length pool.old.standing.lanes }
    requires units { 1 ≤ units }
    ensures standing { OnOk result (pool.new.standing
        ≡ (turned pool.old.list lane units pool.old.standing).standing) }
    ensures whole { OnOk result (Appended (O.written out.old) (O.written out.new)
        (bytes_of pool.old.list (before (turned pool.old.list lane units pool.old.standing).gives []))) }
    ensures part { OnErr result (PartAppended (O.written out.old) (O.written out.new)
        (bytes_of pool.old.list (before (turned pool.old.list lane units pool.old.standing).gives []))) }
    ensures going { OnOk result (HasFailed pool.old → ⊥) }
    ensures goes_on { OnOk result (HasFailed pool.new → ⊥) }
    ensures list { pool.new.list ≡ pool.old.list }
    ensures ok { OnOk result (O.faults out.new ≡ O.faults out.old) }
    ensures cause { IsErrOf result fail.Write → Rose (O.faults out.old) (O.faults out.new) }
    ensures want { IsErrOf result fail.NoMemory → O.faults out.new ≡ O.faults out.old }
    ensures failed { IsErrOf result fail.NoMemory → HasFailed pool.new }
    ensures later { O.faults out.old ≤ O.faults out.new }
    ensures none { HasFailed pool.old → O.written out.new ≡ O.written out.old }
{
    match pool.turn(alloc, lane, units)? {
        None => Ok(()),
        Some(text) => {
            out.put(text.as_bytes())?;
            Ok(())
        }
    }
}
