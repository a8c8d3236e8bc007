//! `and` and `or`, and the words that choose a block.
ghost use Rattle.std.specs.Prelude.{◌≡◌, ◌+◌, ◌<◌, ◌≤◌, drop};
ghost use Rattle.nl_tree.specs.Tree.{parts, span};
ghost use Rattle.nl_exec_meaning.specs.Code.{node_at};
ghost use Rattle.nl_exec_meaning.specs.Blocks.{and_case, or_case, if_case, ifelse_case, ifelse_value_case};
ghost use Rattle.nl_exec_meaning.specs.Frames.{choices_left, none_chosen, resumed};
ghost use Rattle.nl_exec_meaning.specs.Means.{EndsAs, Means};
ghost use Rattle.nl_exec_meaning.specs.Seen.{ended, ground};
ghost use Rattle.nl_exec_meaning.specs.Standing.{ExitFits, NextFits};
ghost use Rattle.nl_exec_meaning.specs.Weight.{weights};
ghost use Rattle.nl_exec_meaning.specs.Work.{frame_work, next_work};
ghost use Rattle.nl_exec_meaning.specs.declared.frames.Frame.TheVariants as frame;

use nl_agents::Store;
use nl_exec_acts::ErrorKind;
use nl_exec_meaning::children::go;
use nl_exec_meaning::ends::{fault, truth_of};
use nl_exec_meaning::{Code, Exit, Frame, Hands, Next};
use nl_value::Value;

// ---- `and` and `or`

/// The left side comes first.
#[inline]
pub fn enter_and<S: Store>(code: &Code, hands: &Hands<S>, node: u32) -> Next
    ensures meaning { Means code.now result hands.now hands.now
        (λ prev s. and_case prev (node_at code.now node) s) }
    ensures falls { next_work code.now result < 6 + weights (parts (node_at code.now node)) }
    ensures fits { NextFits (ground hands.now) result }
{
    go(code, hands, node, 0, Frame::AndLeft { node })
}

/// The right side isn't looked at where the left one is false.
#[inline]
pub fn resume_and<S: Store>(code: &Code, hands: &Hands<S>, node: u32, exit: Exit) -> Next
    ensures meaning { Means code.now result hands.now hands.now
        (λ prev s. resumed code.now prev (frame.AndLeft node) (ended exit s)) }
    ensures falls { next_work code.now result < frame_work code.now (frame.AndLeft node) }
    ensures fits { ExitFits (ground hands.now) exit → NextFits (ground hands.now) result }
{
    let value = match exit {
        Exit::Gives(value) => value,
        exit => return Next::Answer(exit),
    };
    match truth_of(value) {
        Some(true) => go(code, hands, node, 1, Frame::RightSide { node }),
        Some(false) => Next::Answer(Exit::Gives(Value::Truth(false))),
        None => Next::Answer(fault(ErrorKind::WrongType, code.span(node), hands.site)),
    }
}

/// The left side comes first.
#[inline]
pub fn enter_or<S: Store>(code: &Code, hands: &Hands<S>, node: u32) -> Next
    ensures meaning { Means code.now result hands.now hands.now
        (λ prev s. or_case prev (node_at code.now node) s) }
    ensures falls { next_work code.now result < 6 + weights (parts (node_at code.now node)) }
    ensures fits { NextFits (ground hands.now) result }
{
    go(code, hands, node, 0, Frame::OrLeft { node })
}

/// The right side isn't looked at where the left one is true.
#[inline]
pub fn resume_or<S: Store>(code: &Code, hands: &Hands<S>, node: u32, exit: Exit) -> Next
    ensures meaning { Means code.now result hands.now hands.now
        (λ prev s. resumed code.now prev (frame.OrLeft node) (ended exit s)) }
    ensures falls { next_work code.now result < frame_work code.now (frame.OrLeft node) }
    ensures fits { ExitFits (ground hands.now) exit → NextFits (ground hands.now) result }
{
    let value = match exit {
        Exit::Gives(value) => value,
        exit => return Next::Answer(exit),
    };
    match truth_of(value) {
        Some(true) => Next::Answer(Exit::Gives(Value::Truth(true))),
        Some(false) => go(code, hands, node, 1, Frame::RightSide { node }),
        None => Next::Answer(fault(ErrorKind::WrongType, code.span(node), hands.site)),
    }
}

/// The right side decides.
#[inline]
pub fn resume_right<S: Store>(code: &Code, hands: &Hands<S>, node: u32, exit: Exit) -> Next
    ensures meaning { Means code.now result hands.now hands.now
        (λ prev s. resumed code.now prev (frame.RightSide node) (ended exit s)) }
    ensures falls { next_work code.now result < frame_work code.now (frame.RightSide node) }
    ensures fits { ExitFits (ground hands.now) exit → NextFits (ground hands.now) result }
{
    let value = match exit {
        Exit::Gives(value) => value,
        exit => return Next::Answer(exit),
    };
    match truth_of(value) {
        Some(truth) => Next::Answer(Exit::Gives(Value::Truth(truth))),
        None => Next::Answer(fault(ErrorKind::WrongType, code.span(node), hands.site)),
    }
}

// ---- blocks that are chosen

/// The test comes first.
#[inline(always)]
pub fn enter_if<S: Store>(code: &Code, hands: &Hands<S>, node: u32) -> Next
    ensures meaning { Means code.now result hands.now hands.now
        (λ prev s. if_case prev (node_at code.now node) s) }
    ensures falls { next_work code.now result < 6 + weights (parts (node_at code.now node)) }
    ensures fits { NextFits (ground hands.now) result }
{
    go(code, hands, node, 0, Frame::IfTest { node })
}

/// The block runs where the test is true.
#[inline(always)]
pub fn resume_if<S: Store>(code: &Code, hands: &Hands<S>, node: u32, exit: Exit) -> Next
    ensures meaning { Means code.now result hands.now hands.now
        (λ prev s. resumed code.now prev (frame.IfTest node) (ended exit s)) }
    ensures falls { next_work code.now result < frame_work code.now (frame.IfTest node) }
    ensures fits { ExitFits (ground hands.now) exit → NextFits (ground hands.now) result }
{
    let value = match exit {
        Exit::Gives(value) => value,
        exit => return Next::Answer(exit),
    };
    match truth_of(value) {
        Some(true) => go(code, hands, node, 1, Frame::Inside { node }),
        Some(false) => Next::Answer(Exit::Gives(Value::Nobody)),
        None => Next::Answer(fault(ErrorKind::WrongType, code.span(node), hands.site)),
    }
}

// How a word ends where no block is chosen: one that has a value has none then.
fn none_chosen<S: Store>(code: &Code, hands: &Hands<S>, node: u32, valued: bool) -> Exit
    ensures meaning { EndsAs code.now result hands.now hands.now
        (λ s. none_chosen valued (span (node_at code.now node)) s) }
    ensures fits { ExitFits (ground hands.now) result }
{
    if valued {
        fault(ErrorKind::NoReport, code.span(node), hands.site)
    } else {
        Exit::Gives(Value::Nobody)
    }
}

// The next condition comes, or the last block.
#[inline]
fn next_choice<S: Store>(code: &Code, hands: &Hands<S>, node: u32, at: u32, valued: bool) -> Next
    ensures meaning { let t = node_at code.now node in
        Means code.now result hands.now hands.now
        (λ prev s. choices_left prev t valued (drop at (parts t)) s) }
    ensures falls { next_work code.now result ≤ weights (drop at (parts (node_at code.now node))) }
    ensures fits { NextFits (ground hands.now) result }
{
    let Some(first) = code.part(node, at) else {
        return Next::Answer(none_chosen(code, hands, node, valued));
    };
    match code.part(node, at + 1) {
        Some(_) => {
            let frame = Frame::EitherTest {
                node,
                at: at + 1,
                valued,
            };
            Next::Go(frame, first)
        }
        None => Next::Go(Frame::Inside { node }, first),
    }
}

// What comes behind the block at an index, which wasn't chosen.
#[inline]
fn choice_after<S: Store>(code: &Code, hands: &Hands<S>, node: u32, at: u32, valued: bool) -> Next
    ensures meaning { let t = node_at code.now node in
        Means code.now result hands.now hands.now
        (λ prev s. choices_left prev t valued (drop 1 (drop at (parts t))) s) }
    ensures falls { next_work code.now result ≤ weights (drop at (parts (node_at code.now node))) }
    ensures fits { NextFits (ground hands.now) result }
{
    match code.part(node, at) {
        Some(_) => next_choice(code, hands, node, at + 1, valued),
        None => Next::Answer(none_chosen(code, hands, node, valued)),
    }
}

/// The first condition of `ifelse` comes, if there is one.
#[inline]
pub fn enter_ifelse<S: Store>(code: &Code, hands: &Hands<S>, node: u32) -> Next
    ensures meaning { Means code.now result hands.now hands.now
        (λ prev s. ifelse_case prev (node_at code.now node) s) }
    ensures falls { next_work code.now result < 6 + weights (parts (node_at code.now node)) }
    ensures fits { NextFits (ground hands.now) result }
{
    next_choice(code, hands, node, 0, false)
}

/// The first condition of `ifelse-value` comes, if there is one.
#[inline]
pub fn enter_ifelse_value<S: Store>(code: &Code, hands: &Hands<S>, node: u32) -> Next
    ensures meaning { Means code.now result hands.now hands.now
        (λ prev s. ifelse_value_case prev (node_at code.now node) s) }
    ensures falls { next_work code.now result < 6 + weights (parts (node_at code.now node)) }
    ensures fits { NextFits (ground hands.now) result }
{
    next_choice(code, hands, node, 0, true)
}

/// The block runs where its condition is true, and else the next condition comes.
#[inline]
pub fn resume_either<S: Store>(
    code: &Code,
    hands: &Hands<S>,
    node: u32,
    at: u32,
    valued: bool,
    exit: Exit,
) -> Next
    ensures meaning { Means code.now result hands.now hands.now
        (λ prev s. resumed code.now prev (frame.EitherTest node at valued) (ended exit s)) }
    ensures falls { next_work code.now result < frame_work code.now (frame.EitherTest node at valued) }
    ensures fits { ExitFits (ground hands.now) exit → NextFits (ground hands.now) result }
{
    let value = match exit {
        Exit::Gives(value) => value,
        exit => return Next::Answer(exit),
    };
    match truth_of(value) {
        Some(true) => go(code, hands, node, at, Frame::Inside { node }),
        Some(false) => choice_after(code, hands, node, at, valued),
        None => Next::Answer(fault(ErrorKind::WrongType, code.span(node), hands.site)),
    }
}
