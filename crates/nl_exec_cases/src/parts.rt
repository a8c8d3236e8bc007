//! Literal lists, acts and calls: the values of all parts come first, from left to right.
ghost use Rattle.std.specs.Prelude.{◌≡◌, ◌≤◌, ◌<◌, ◌+◌, [], ◌∷◌, ◌++◌, ℕ, drop, length, map, Some, IsTrue, IfOk, slice_get};
ghost use Rattle.nl_value.specs.Views.{plain};
ghost use Rattle.nl_tree.specs.Tree.{label, parts, span};
ghost use Rattle.nl_exec_meaning.specs.Cases.{case_of};
ghost use Rattle.nl_exec_meaning.specs.Code.{node_at};
ghost use Rattle.nl_exec_meaning.specs.Calls.{called};
ghost use Rattle.nl_exec_meaning.specs.Frames.{parts_done, parts_from, resumed};
ghost use Rattle.nl_exec_meaning.specs.Ground.{all_fit, fits};
ghost use Rattle.nl_exec_meaning.specs.Kept.{Kept};
ghost use Rattle.nl_exec_meaning.specs.Means.{Means, Stands};
ghost use Rattle.nl_exec_meaning.specs.Seen.{ended, ground};
ghost use Rattle.nl_exec_meaning.specs.Sound.{IsSound};
ghost use Rattle.nl_exec_meaning.specs.Standing.{ExitFits, HandsFit, LocalsFit, NextFits};
ghost use Rattle.nl_exec_meaning.specs.Weight.{weights};
ghost use Rattle.nl_exec_meaning.specs.Work.{frame_work, next_work};
ghost use Rattle.nl_exec_meaning.specs.declared.frames.Frame.TheVariants as frame;

use crate::acting::finish_act;
use crate::calls::call;
use nl_agents::Store;
use nl_exec_acts::ErrorKind;
use nl_exec_meaning::ends::fault;
use nl_exec_meaning::{Built, Code, Exit, Frame, Hands, Next, Op};
use nl_fixed::NoMemory;
use nl_value::{Items, Value};
use std::alloc::Global;

// What a node makes of the values of all its parts.
#[inline(always)]
#[tactic(auto, using(nl_exec_meaning::proofs::Grounds::items_fit))]
fn finish<S: Store>(
    alloc: Global,
    code: &Code,
    hands: &mut Hands<S>,
    node: u32,
    made: Items,
) -> Result<Next, NoMemory>
    requires sound { IsSound code.now.program (ground hands.old).layout }
    requires fit { HandsFit hands.old }
    requires made { IsTrue (all_fit (ground hands.old) made) }
    ensures meaning { let t = node_at code.now node in
        IfOk result (λ next. Means code.now next hands.new hands.old
        (λ prev s. parts_done code.now.program (case_of code.now.program.declared (label t)) prev t made s)) }
    ensures falls { IfOk result (λ next. next_work code.now next ≤ 3) }
    ensures fits { IfOk result (λ next. NextFits (ground hands.new) next) }
    ensures stands { IfOk result (λ next. Stands hands.new hands.old) }
{
    match code.op(node) {
        Op::Items => Ok(Next::Answer(Exit::Gives(Value::items(alloc, made)?))),
        Op::Procedure(index) => call(alloc, code, hands, node, index, made),
        Op::Word {
            runs,
            breed,
            word: Built::Act(act),
        } => {
            let exit = finish_act(alloc, code, hands, node, act, breed, runs, made)?;
            Ok(Next::Answer(exit))
        }
        _ => Ok(Next::Answer(fault(ErrorKind::WrongType, code.span(node), hands.site))),
    }
}

// The parts from an index on.
#[inline(always)]
fn next_part<S: Store>(
    alloc: Global,
    code: &Code,
    hands: &mut Hands<S>,
    node: u32,
    at: u32,
    made: Items,
) -> Result<Next, NoMemory>
    requires sound { IsSound code.now.program (ground hands.old).layout }
    requires fit { HandsFit hands.old }
    requires made { IsTrue (all_fit (ground hands.old) made) }
    ensures meaning { IfOk result (λ next. Means code.now next hands.new hands.old
        (λ prev s. parts_from code.now prev (node_at code.now node) at made s)) }
    ensures falls { IfOk result (λ next.
        next_work code.now next ≤ 3 + weights (drop at (parts (node_at code.now node)))) }
    ensures fits { IfOk result (λ next. NextFits (ground hands.new) next) }
    ensures stands { IfOk result (λ next. Stands hands.new hands.old) }
{
    match code.part(node, at) {
        Some(child) => {
            let frame = Frame::Part {
                node,
                at: at + 1,
                made,
            };
            Ok(Next::Go(frame, child))
        }
        None => finish(alloc, code, hands, node, made),
    }
}

/// The first part comes, if there is one.
#[inline(always)]
pub fn enter_parts<S: Store>(
    alloc: Global,
    code: &Code,
    hands: &mut Hands<S>,
    node: u32,
) -> Result<Next, NoMemory>
    requires sound { IsSound code.now.program (ground hands.old).layout }
    requires fit { HandsFit hands.old }
    ensures meaning { IfOk result (λ next. Means code.now next hands.new hands.old
        (λ prev s. parts_from code.now prev (node_at code.now node) 0 [] s)) }
    ensures falls { IfOk result (λ next.
        next_work code.now next < 6 + weights (parts (node_at code.now node))) }
    ensures fits { IfOk result (λ next. NextFits (ground hands.new) next) }
    ensures stands { IfOk result (λ next. Stands hands.new hands.old) }
{
    next_part(alloc, code, hands, node, 0, Items::empty(alloc))
}

/// A part has its value.
#[inline(always)]
#[tactic(auto, using(nl_exec_meaning::proofs::Grounds::pass_push))]
pub fn resume_part<S: Store>(
    alloc: Global,
    code: &Code,
    hands: &mut Hands<S>,
    node: u32,
    at: u32,
    mut made: Items,
    exit: Exit,
) -> Result<Next, NoMemory>
    requires sound { IsSound code.now.program (ground hands.old).layout }
    requires fit { HandsFit hands.old }
    requires made { IsTrue (all_fit (ground hands.old) made) }
    requires value { ExitFits (ground hands.old) exit }
    ensures meaning { IfOk result (λ next. Means code.now next hands.new hands.old
        (λ prev s. resumed code.now prev (frame.Part node at made) (ended exit s))) }
    ensures falls { IfOk result (λ next.
        next_work code.now next < frame_work code.now (frame.Part node at made)) }
    ensures fits { IfOk result (λ next. NextFits (ground hands.new) next) }
    ensures stands { IfOk result (λ next. Stands hands.new hands.old) }
{
    match exit {
        Exit::Gives(value) => {
            made.push(alloc, value)?;
            next_part(alloc, code, hands, node, at, made)
        }
        exit => Ok(Next::Answer(exit)),
    }
}
