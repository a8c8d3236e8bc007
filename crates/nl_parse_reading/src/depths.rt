//! The least depth that the whole tree can still have.
ghost use Rattle.std.specs.Prelude.{◌≡◌, ℕ, suc, max, false, List, [], ◌∷◌, if◌then◌else◌};
ghost use Rattle.nl_fixed.specs.Nouns.{Name, Names};
ghost use Rattle.nl_fixed.specs.declared.span.Span.{Span};
ghost use Rattle.nl_tree.specs.Tree.{depth};
ghost use Rattle.nl_parse_grammar.specs.Depth.{least_block, least_input, least_inputs, least_values, is_literal, frame_depth, stays_literal, whole_depth, begin_depth, optional_depth, statement_depth, least_depth};
ghost use Rattle.nl_parse_reading.specs.inner.Limit.{capped};
ghost use Rattle.nl_parse_reading.specs.inner.View.{need_by, needs_of};
ghost use Rattle.nl_parse_grammar.specs.Machine as M;
ghost use Rattle.nl_parse_grammar.specs.Machine.{InBracket, InMany, st};
ghost use Rattle.nl_parse_reading.specs.inner.Asked.{is_in_paren};
ghost use Rattle.nl_parse_reading.specs.inner.Reading.{mode_of, frame_of, frames_onto, names_onto};
ghost use Rattle.nl_parse_reading.specs.inner.Depths.{IsFrameDepth, IsDepth, IsDepthOn};

use crate::frames::{Frame, Mode};
use crate::marks::Inputs;
use crate::parts::{Grouped, Grown, TOO_DEEP};
use nl_parse_grammar::{Last, Shape};
use nl_tree::Block;
use nl_words::Input;

// One level more.
fn deeper(depth: u32) -> u32
    ensures { result ≡ capped (suc depth) }
{
    depth.saturating_add(1).min(TOO_DEEP)
}

fn least_block(block: Block) -> u32
    ensures { result ≡ least_block block }
{
    match block {
        Block::Commands => 1,
        Block::Reporter => 2,
        Block::Arrow(_, _) => 2,
    }
}

fn least_input(whole: bool, input: Input) -> u32
    ensures { (names : ℕ) → result ≡ least_input (need_by whole names input) }
{
    match input {
        Input::Reporter => 2,
        Input::ArrowCommands => 2,
        Input::ArrowReporter => 2,
        Input::MaybeCommands => 0,
        _ => 1,
    }
}

fn least_last(last: Last) -> u32
    ensures { result ≡ least_inputs [] last }
{
    match last {
        Last::Item => 1,
        Last::Block(block) => least_block(block),
        Last::Nothing => 0,
    }
}

// The least depth of inputs and what follows them.
#[tactic(auto, using(crate::proofs::Capped::least_of_values, crate::proofs::Capped::least_behind))]
fn least_inputs(inputs: Inputs, last: Last) -> u32
    ensures { result ≡ least_inputs (needs_of inputs) last }
{
    let mut least = least_last(last).max(least_values(u64::from(inputs.values)));
    let whole = inputs.whole;
    let mut rest = inputs.listed;
    'listed: while let [input, behind @ ..] = rest {
        least = least.max(least_input(whole, *input));
        rest = behind;
    }
    least
}

// The least depth of so many values.
fn least_values(others: u64) -> u32
    ensures { result ≡ least_values others }
{
    if others == 0 { 0 } else { 1 }
}

// What the frame is deep with a part of this depth; a literal may be one of a bracket's list.
fn frame_depth(frame: &Frame, literal: bool, depth: u32) -> u32
    ensures { IsFrameDepth result (λ f. frame_depth f literal depth) frame.now }
{
    match frame {
        Frame::Binary(_, _, left) => deeper(left.depth().max(depth)),
        Frame::With(_, left) => deeper(left.depth().max(depth)),
        Frame::Near(_, sides, others) => {
            deeper(sides.depth().max(depth).max(least_values(*others)))
        }
        Frame::Of(_, block) => deeper(block.depth().max(depth)),
        Frame::Call(_, inputs, _, rest, last) => {
            deeper(inputs.depth().max(depth).max(least_inputs(*rest, *last)))
        }
        Frame::LastItem(_, inputs) => deeper(inputs.depth().max(depth)),
        Frame::LastBlock(_, inputs, _) => deeper(inputs.depth().max(depth)),
        Frame::Many(_, items, others) => {
            deeper(items.depth().max(depth).max(least_values(*others)))
        }
        Frame::Items(_, _, _, items) => deeper(deeper(items.depth().max(depth))),
        Frame::Paren(_) => deeper(depth),
        Frame::Minus(_, _) => deeper(deeper(depth)),
        Frame::Reporter(_) => deeper(depth),
        Frame::NoHead(_, _) => deeper(depth),
        Frame::ArrowReporter(_, _) => deeper(depth),
        Frame::ArrowCommands(_, _, _, statements) => {
            deeper(deeper(statements.depth().max(depth)))
        }
        Frame::Bracket(_) => bracket_depth(literal, depth),
        Frame::List(_, items) => deeper(items.depth().max(depth)),
        Frame::Let(_, _) => deeper(depth.max(1)),
        Frame::StatementParen(_) => deeper(depth),
        Frame::Statements(_, _, _, statements) => deeper(statements.depth().max(depth)),
    }
}

// A bracket is a list of a literal, or else the block of an `of`.
fn bracket_depth(literal: bool, depth: u32) -> u32
    ensures { (s : Span) → result ≡ capped (frame_depth (InBracket s) literal depth) }
{
    if literal {
        deeper(depth)
    } else {
        deeper(deeper(depth))
    }
}

// Whether the frame becomes a literal, with a part that may be one.
fn stays_literal(frame: &Frame, literal: bool) -> bool
    ensures { (e : Names) → result ≡ stays_literal (frame_of e frame.now) literal }
{
    match frame {
        Frame::Bracket(_) => literal,
        Frame::List(_, _) => true,
        _ => false,
    }
}

// What the whole is deep with a part of this depth inside these frames.
fn whole_depth(literal: bool, depth: u32, frames: &[Frame]) -> u32
    ensures { IsDepth result (whole_depth literal depth) frames.now }
{
    let mut literal = literal;
    let mut depth = depth;
    let mut left = frames.len();
    'frames: while left > 0 {
        left -= 1;
        let frame = &frames[left];
        depth = frame_depth(frame, literal, depth);
        literal = stays_literal(frame, literal);
    }
    depth.min(TOO_DEEP)
}

// The same where an expression begins.
fn begin_depth(frames: &[Frame]) -> u32
    ensures { IsDepth result begin_depth frames.now }
{
    match frames {
        [below @ .., newest] => begin_within(newest, below),
        [] => 1,
    }
}

// The same inside this frame: a bracket may be closed as an empty list, and a call in parentheses with the items that it has.
#[tactic(auto, using(crate::proofs::Capped::capped_whole))]
fn begin_within(newest: &Frame, below: &[Frame]) -> u32
    ensures { IsDepthOn result begin_depth newest.now below.now }
{
    match newest {
        Frame::Bracket(_) => whole_depth(true, 1, below),
        Frame::Items(_, _, _, items) => { whole_depth(false, deeper(deeper(items.depth())), below) }
        Frame::Many(_, items, others) => many_depth(items, *others, below),
        _ => {
            let depth = frame_depth(newest, true, 1);
            whole_depth(stays_literal(newest, true), depth, below)
        }
    }
}

// The same where an item of a call of any number begins.
fn many_depth(items: &Grouped, others: u64, below: &[Frame]) -> u32
    ensures { (w : Name) (s : Span) →
        IsDepth result (λ K. begin_depth (InMany w s items.now others ∷ K)) below.now }
{
    if is_in_paren(below) {
        return whole_depth(false, deeper(items.depth()), below);
    }
    let depth = deeper(items.depth().max(1).max(least_values(others)));
    whole_depth(false, depth, below)
}

// Whether the newest frame is a pair of parentheses.
fn is_in_paren(frames: &[Frame]) -> bool
    ensures { (e : Names) → result ≡ is_in_paren (frames_onto frames.now e []) }
{
    match frames {
        [_below @ .., newest] => is_paren(newest),
        [] => false,
    }
}

fn is_paren(frame: &Frame) -> bool
    ensures { (e : Names) (below : List M.Frame) → result ≡ is_in_paren (frame_of e frame.now ∷ below) }
{
    match frame {
        Frame::Paren(_) => true,
        _ => false,
    }
}

// The same where a block of commands may be missing.
fn optional_depth(frames: &[Frame]) -> u32
    ensures { IsDepth result optional_depth frames.now }
{
    match frames {
        [below @ .., newest] => optional_within(newest, below),
        [] => 0,
    }
}

#[tactic(auto, using(crate::proofs::Capped::capped_whole))]
fn optional_within(newest: &Frame, below: &[Frame]) -> u32
    ensures { IsDepthOn result optional_depth newest.now below.now }
{
    match newest {
        Frame::Call(_, inputs, _, rest, last) => {
            let depth = deeper(inputs.depth().max(least_inputs(*rest, *last)));
            whole_depth(false, depth, below)
        }
        _ => 0,
    }
}

// The same where a statement begins, which there must be in parentheses.
fn statement_depth(frames: &[Frame]) -> u32
    ensures { IsDepth result statement_depth frames.now }
{
    match frames {
        [below @ .., newest] => statement_within(newest, below),
        [] => 0,
    }
}

#[tactic(auto, using(crate::proofs::Capped::capped_whole))]
fn statement_within(newest: &Frame, below: &[Frame]) -> u32
    ensures { IsDepthOn result statement_depth newest.now below.now }
{
    let least = if is_statement_paren(newest) { 1 } else { 0 };
    let depth = frame_depth(newest, false, least);
    whole_depth(stays_literal(newest, false), depth, below)
}

fn is_statement_paren(frame: &Frame) -> bool
    ensures { (e : Names) (below : List M.Frame) → let K = frame_of e frame.now ∷ below in
        statement_depth K ≡ whole_depth false (if result then 1 else 0) K }
{
    match frame {
        Frame::StatementParen(_) => true,
        _ => false,
    }
}

// The same behind a block, where `of` and a value must follow.
fn blocked_depth(block: &Grown, frames: &[Frame]) -> u32
    ensures { IsDepth result (whole_depth false (suc (max (depth block.now) 1))) frames.now }
{
    whole_depth(false, deeper(block.depth().max(1)), frames)
}

fn is_literal(shape: Shape) -> bool
    ensures { result ≡ is_literal shape }
{
    match shape {
        Shape::Literal => true,
        _ => false,
    }
}

/// The least depth that the whole tree can still have in this mode inside these frames, up to `TOO_DEEP`.
#[tactic(auto, using(crate::proofs::Capped::capped_whole))]
pub fn least_depth(mode: &Mode, frames: &[Frame]) -> u32
    ensures { (names : Names) →
        (e : Names) → IsDepth result (λ K. least_depth (st (mode_of e mode.now) names K)) frames.now }
{
    match mode {
        Mode::Begin => begin_depth(frames),
        Mode::Opening(block) => whole_depth(false, least_block(*block), frames),
        Mode::Heading(_, _, _) => whole_depth(false, 2, frames),
        Mode::InHead(_, _, _, _) => whole_depth(false, 2, frames),
        Mode::Behind(_, _, _) => whole_depth(false, 2, frames),
        Mode::Optional => optional_depth(frames),
        Mode::Choosing => whole_depth(false, 1, frames),
        Mode::Have(shape, tree) => whole_depth(is_literal(*shape), tree.depth(), frames),
        Mode::Blocked(block) => blocked_depth(block, frames),
        Mode::Shut(shape, tree) => whole_depth(is_literal(*shape), tree.depth(), frames),
        Mode::Listing => whole_depth(true, 0, frames),
        Mode::Stating => statement_depth(frames),
        Mode::Naming(_) => whole_depth(false, 2, frames),
        Mode::Ended(tree, _) => whole_depth(false, tree.depth(), frames),
        Mode::Over(tree) => tree.depth(),
        Mode::Dead(_, _) => 0,
    }
}
