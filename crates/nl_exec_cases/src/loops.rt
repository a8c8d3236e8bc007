//! `repeat`, `while` and `loop`. Each turn costs a unit, and each test of `while` another one.
ghost use Rattle.std.specs.Prelude.{◌≡◌, ◌+◌, ◌<◌};
ghost use Rattle.nl_tree.specs.Tree.{parts};
ghost use Rattle.nl_birth.specs.Births.{count_of};
ghost use Rattle.nl_exec_meaning.specs.Code.{node_at};
ghost use Rattle.nl_exec_meaning.specs.Blocks.{repeat_case, turns, while_case, loop_case};
ghost use Rattle.nl_exec_meaning.specs.Frames.{resumed};
ghost use Rattle.nl_exec_meaning.specs.Means.{Means};
ghost use Rattle.nl_exec_meaning.specs.Seen.{ended, ground};
ghost use Rattle.nl_exec_meaning.specs.Standing.{ExitFits, NextFits};
ghost use Rattle.nl_exec_meaning.specs.Weight.{weights};
ghost use Rattle.nl_exec_meaning.specs.Work.{frame_work, next_work};
ghost use Rattle.nl_exec_meaning.specs.declared.frames.Frame.TheVariants as frame;

use nl_agents::Store;
use nl_exec_acts::ErrorKind;
use nl_exec_meaning::children::{go, want};
use nl_exec_meaning::ends::{fault, number_of, truth_of};
use nl_exec_meaning::{Code, Exit, Frame, Hands, Next};
use nl_fixed::Num;
use nl_value::Value;

// ---- `repeat`

// How many turns a number makes: as many as its whole part says.
fn turns_of(number: Num) -> u64
    ensures { result ≡ count_of number }
{
    let whole = number.whole_part();
    if whole < 0 { 0 } else { whole as u64 }
}

/// The number comes first.
#[inline]
pub fn enter_repeat<S: Store>(code: &Code, hands: &Hands<S>, node: u32) -> Next
    ensures meaning { Means code.now result hands.now hands.now
        (λ prev s. repeat_case prev (node_at code.now node) s) }
    ensures falls { next_work code.now result < 6 + weights (parts (node_at code.now node)) }
    ensures fits { NextFits (ground hands.now) result }
{
    go(code, hands, node, 0, Frame::RepeatCount { node })
}

// So many turns are left.
#[inline(always)]
fn next_turn<S: Store>(code: &Code, hands: &Hands<S>, node: u32, left: u64) -> Next
    ensures meaning { Means code.now result hands.now hands.now
        (λ prev s. turns left prev (node_at code.now node) s) }
    ensures falls { next_work code.now result ≡ 0 }
    ensures fits { NextFits (ground hands.now) result }
{
    if left == 0 {
        return Next::Answer(Exit::Gives(Value::Nobody));
    }
    let frame = Frame::RepeatTurn {
        node,
        left: left - 1,
    };
    want(code, hands, node, 1, frame)
}

/// There are as many turns as the whole part of the number says.
#[inline]
pub fn resume_repeat<S: Store>(code: &Code, hands: &Hands<S>, node: u32, exit: Exit) -> Next
    ensures meaning { Means code.now result hands.now hands.now
        (λ prev s. resumed code.now prev (frame.RepeatCount node) (ended exit s)) }
    ensures falls { next_work code.now result < frame_work code.now (frame.RepeatCount node) }
    ensures fits { ExitFits (ground hands.now) exit → NextFits (ground hands.now) result }
{
    let value = match exit {
        Exit::Gives(value) => value,
        exit => return Next::Answer(exit),
    };
    match number_of(value) {
        Some(number) => next_turn(code, hands, node, turns_of(number)),
        None => Next::Answer(fault(ErrorKind::WrongType, code.span(node), hands.site)),
    }
}

/// A turn is over.
#[inline(always)]
pub fn resume_turn<S: Store>(
    code: &Code,
    hands: &Hands<S>,
    node: u32,
    left: u64,
    exit: Exit,
) -> Next
    ensures meaning { Means code.now result hands.now hands.now
        (λ prev s. resumed code.now prev (frame.RepeatTurn node left) (ended exit s)) }
    ensures falls { next_work code.now result < frame_work code.now (frame.RepeatTurn node left) }
    ensures fits { ExitFits (ground hands.now) exit → NextFits (ground hands.now) result }
{
    match exit {
        Exit::Gives(_) => next_turn(code, hands, node, left),
        exit => Next::Answer(exit),
    }
}

// ---- `while` and `loop`

/// The test costs a unit.
#[inline]
pub fn enter_while<S: Store>(code: &Code, hands: &Hands<S>, node: u32) -> Next
    ensures meaning { Means code.now result hands.now hands.now
        (λ prev s. while_case prev (node_at code.now node) s) }
    ensures falls { next_work code.now result ≡ 0 }
    ensures fits { NextFits (ground hands.now) result }
{
    want(code, hands, node, 0, Frame::WhileTest { node })
}

/// There is a turn where the test is true.
#[inline]
pub fn resume_test<S: Store>(code: &Code, hands: &Hands<S>, node: u32, exit: Exit) -> Next
    ensures meaning { Means code.now result hands.now hands.now
        (λ prev s. resumed code.now prev (frame.WhileTest node) (ended exit s)) }
    ensures falls { next_work code.now result < frame_work code.now (frame.WhileTest node) }
    ensures fits { ExitFits (ground hands.now) exit → NextFits (ground hands.now) result }
{
    let value = match exit {
        Exit::Gives(value) => value,
        exit => return Next::Answer(exit),
    };
    match truth_of(value) {
        Some(true) => want(code, hands, node, 1, Frame::WhileTurn { node }),
        Some(false) => Next::Answer(Exit::Gives(Value::Nobody)),
        None => Next::Answer(fault(ErrorKind::WrongType, code.span(node), hands.site)),
    }
}

/// The next test comes.
#[inline]
pub fn resume_while<S: Store>(code: &Code, hands: &Hands<S>, node: u32, exit: Exit) -> Next
    ensures meaning { Means code.now result hands.now hands.now
        (λ prev s. resumed code.now prev (frame.WhileTurn node) (ended exit s)) }
    ensures falls { next_work code.now result < frame_work code.now (frame.WhileTurn node) }
    ensures fits { ExitFits (ground hands.now) exit → NextFits (ground hands.now) result }
{
    match exit {
        Exit::Gives(_) => enter_while(code, hands, node),
        exit => Next::Answer(exit),
    }
}

/// A turn costs a unit.
#[inline]
pub fn enter_loop<S: Store>(code: &Code, hands: &Hands<S>, node: u32) -> Next
    ensures meaning { Means code.now result hands.now hands.now
        (λ prev s. loop_case prev (node_at code.now node) s) }
    ensures falls { next_work code.now result ≡ 0 }
    ensures fits { NextFits (ground hands.now) result }
{
    want(code, hands, node, 0, Frame::LoopTurn { node })
}

/// The next turn comes.
#[inline]
pub fn resume_loop<S: Store>(code: &Code, hands: &Hands<S>, node: u32, exit: Exit) -> Next
    ensures meaning { Means code.now result hands.now hands.now
        (λ prev s. resumed code.now prev (frame.LoopTurn node) (ended exit s)) }
    ensures falls { next_work code.now result < frame_work code.now (frame.LoopTurn node) }
    ensures fits { ExitFits (ground hands.now) exit → NextFits (ground hands.now) result }
{
    match exit {
        Exit::Gives(_) => enter_loop(code, hands, node),
        exit => Next::Answer(exit),
    }
}
