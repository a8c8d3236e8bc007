//! `forward` and `back` of at most one step.
ghost use Rattle.std.specs.Prelude.{◌≡◌, ◌+◌, ◌<◌, ◌≤◌, ℕ, true, false, unsigned_abs};
ghost use Rattle.nl_fixed.specs.Numbers.{one};
ghost use Rattle.nl_fixed.specs.declared.span.Span.{Span as Place};
ghost use Rattle.nl_agents.specs.Changes.{TurtleLives};
ghost use Rattle.nl_exec_meaning.specs.Code.{Code as Nodes, node_at};
ghost use Rattle.nl_exec_meaning.specs.Meaning.{evaluator};
ghost use Rattle.nl_exec_meaning.specs.State.{goes_on};
ghost use Rattle.nl_exec_meaning.specs.Steps.{step, walk_case};
ghost use Rattle.nl_exec_meaning.specs.Frames.{way_of};
ghost use Rattle.nl_exec_meaning.specs.Means.{Stands};
ghost use Rattle.nl_exec_meaning.specs.Seen.{state_of};
ghost use Rattle.nl_exec_meaning.specs.Standing.{HandsFit};
ghost use Rattle.nl_exec_at_once.specs.AtOnce.{IsAsBefore};

use nl_agents::{Owner, Store};
use nl_exec_meaning::{Code, Hands};
use nl_exec_short::numbers::number;
use nl_exec_short::running::lives_and_may_run;
use nl_fixed::Num;
use nl_motion::step;
use nl_words::Kinds;

// A step is made for a unit, and nothing comes behind it. Where there is no unit, or the world's numbers don't hold the step, nothing is
// changed.
#[inline(always)]
fn step_once<S: Store>(hands: &mut Hands<S>, turtle: u64, by: Num, units: &mut u64) -> bool
    requires lives { TurtleLives turtle (S.world hands.old.stage.store) }
    requires fit { HandsFit hands.old }
    ensures done { result ≡ true → (c : Nodes) (place : Place) (n : ℕ) →
        step turtle by place (state_of c.names hands.old (units.old + n)) goes_on
        ≡ goes_on (state_of c.names hands.new (units.new + n)) }
    ensures not { result ≡ false → IsAsBefore hands.new hands.old × (units.new ≡ units.old) }
    ensures left { units.new ≤ units.old }
    ensures stands { Stands hands.new hands.old }
{
    if *units == 0 {
        return false;
    }
    match step(&mut hands.stage.store, turtle, by) {
        Ok(_) => {
            *units -= 1;
            true
        }
        Err(_) => false,
    }
}

// A distance ahead.
#[inline(always)]
fn ahead(number: Num, back: bool) -> Num
    ensures { result ≡ way_of back number }
{
    if back { number.negate() } else { number }
}

// Whether a distance is that of one step or of a part of it, and not of none.
#[inline(always)]
fn is_within_one_step(by: Num) -> bool
    ensures some { result ≡ true → 0 < unsigned_abs by }
    ensures most { result ≡ true → unsigned_abs by ≤ one }
{
    let size = by.millionths().unsigned_abs();
    0 < size && size <= 1_000_000
}

/// A turtle goes at most one step, where that is done at once; else nothing is changed.
#[inline(never)]
pub fn walk<S: Store>(
    code: &Code,
    hands: &mut Hands<S>,
    node: u32,
    runs: Kinds,
    back: bool,
    units: &mut u64,
) -> bool
    requires fit { HandsFit hands.old }
    ensures done { result ≡ true → (room n : ℕ) → 5 < room →
        walk_case (way_of back) runs (evaluator code.now.program room) (node_at code.now node)
        (state_of code.now.names hands.old (units.old + n))
        ≡ goes_on (state_of code.now.names hands.new (units.new + n)) }
    ensures not { result ≡ false → IsAsBefore hands.new hands.old × (units.new ≡ units.old) }
    ensures left { units.new ≤ units.old }
    ensures stands { Stands hands.new hands.old }
{
    let Some(part) = code.part(node, 0) else {
        return false;
    };
    let Some(number) = number(code, hands, part) else {
        return false;
    };
    let Owner::Turtle(turtle) = hands.site.agent else {
        return false;
    };
    let by = ahead(number, back);
    if !is_within_one_step(by) || !lives_and_may_run(hands, runs) {
        return false;
    }
    step_once(hands, turtle, by, units)
}
