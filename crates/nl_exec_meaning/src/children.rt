//! Children of a node that come next.
ghost use Rattle.std.specs.Prelude.{◌≡◌, ◌+◌, ◌-◌, ◌≤◌, ℕ, drop};
ghost use Rattle.nl_tree.specs.Tree.{span, parts};
ghost use Rattle.nl_exec_meaning.specs.Code.{node_at};
ghost use Rattle.nl_exec_meaning.specs.State.{with_part, spend};
ghost use Rattle.nl_exec_meaning.specs.Frames.{resumed};
ghost use Rattle.nl_exec_meaning.specs.Means.{Means};
ghost use Rattle.nl_exec_meaning.specs.Seen.{ground};
ghost use Rattle.nl_exec_meaning.specs.Standing.{HoldsNothing, NextFits};
ghost use Rattle.nl_exec_meaning.specs.Weight.{weights};
ghost use Rattle.nl_exec_meaning.specs.Work.{frame_work, next_work};

use crate::Code;
use crate::ends::fault;
use crate::frames::{Frame, Next};
use crate::hands::Hands;
use nl_agents::Store;
use nl_exec_acts::ErrorKind;

/// The part of a node at an index comes next, and then the frame.
#[inline(always)]
#[tactic(auto, using(crate::proofs::Grounds::plain_fits))]
pub fn go<S: Store>(code: &Code, hands: &Hands<S>, node: u32, at: u32, frame: Frame) -> Next
    requires { HoldsNothing frame }
    ensures meaning { let t = node_at code.now node in
        Means code.now result hands.now hands.now
        (λ prev s. with_part t at (span t) s (λ part. resumed code.now prev frame (prev part s))) }
    ensures falls { let ts = parts (node_at code.now node) in
        next_work code.now result ≤ frame_work code.now frame + weights (drop at ts) - (1 + weights (drop (at + 1) ts)) }
    ensures fits { NextFits (ground hands.now) result }
{
    match code.part(node, at) {
        Some(child) => Next::Go(frame, child),
        None => Next::Answer(fault(ErrorKind::WrongType, code.span(node), hands.site)),
    }
}

/// The part of a node at an index comes once a unit is spent, and then the frame.
#[inline(always)]
#[tactic(auto, using(crate::proofs::Grounds::plain_fits))]
pub fn want<S: Store>(code: &Code, hands: &Hands<S>, node: u32, at: u32, frame: Frame) -> Next
    requires { HoldsNothing frame }
    ensures meaning { let t = node_at code.now node in
        Means code.now result hands.now hands.now
        (λ prev s. with_part t at (span t) s (λ part. spend s (λ s1. resumed code.now prev frame (prev part s1)))) }
    ensures falls { next_work code.now result ≡ 0 }
    ensures fits { NextFits (ground hands.now) result }
{
    match code.part(node, at) {
        Some(child) => Next::Want(frame, child),
        None => Next::Answer(fault(ErrorKind::WrongType, code.span(node), hands.site)),
    }
}
