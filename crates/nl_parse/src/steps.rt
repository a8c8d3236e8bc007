//! The next token, in each mode.
ghost use Rattle.std.specs.Prelude.{◌≡◌, suc, nat_lt, true, OnOk};
ghost use Rattle.std.specs.Result.{IsErrOf};
ghost use Rattle.nl_tree.specs.Grammar.{top};
ghost use Rattle.nl_parse_grammar.specs.Machine.{next, without_maybes, st, go, stop, settle, feed_plain, feed_optional, feed_ready, feed_broken, feed_binary, feed_of, feed_have, feed};
ghost use Rattle.nl_parse_stack.specs.declared.reader.Refusal.TheVariants.{Unexpected};
ghost use Rattle.nl_parse_reading.specs.inner.View.{class_of, mark_of};
ghost use Rattle.nl_tree.specs.Tokens.{word, open_bracket};
ghost use Rattle.nl_parse_reading.specs.inner.Reading.{mode_of, mode_names};
ghost use Rattle.nl_parse_stack.specs.inner.State.{stack_of, names_of, state_of};
ghost use Rattle.nl_parse_stack.specs.inner.Steps.{Follows, FollowsLate, sees_first};
ghost use Rattle.nl_parse.specs.inner.Apart.{feed_missing};

use crate::beginning::feed_begin;
use crate::closing::{feed_blocked, feed_ended, feed_listing, feed_shut};
use crate::heads::{feed_behind, feed_heading, feed_in_head};
use crate::stating::{feed_choosing, feed_naming, feed_opening, feed_stating, open_statements};
use nl_fixed::Span;
use nl_parse_grammar::Shape;
use nl_parse_reading::frames::{Frame, Mode, TOP};
use nl_parse_reading::marks::{Class, Head, Mark};
use nl_parse_reading::parts::{Grouped, Grown};
use nl_parse_stack::reader::{Reader, Refusal, refuse};
use nl_tree::{Block, Label};

/// The next token.
pub(crate) fn feed(reader: &mut Reader, mark: Mark) -> Result<(), Refusal>
    ensures ok { OnOk result (feed (state_of reader.old) (mark_of mark) ≡ go (state_of reader.new)) }
    ensures fault { IsErrOf result Unexpected → feed (state_of reader.old) (mark_of mark) ≡ stop }
    ensures told { sees_first (mode_of (names_of reader.old) reader.old.mode) ≡ true →
        feed (state_of reader.old) (mark_of mark) ≡ stop →
        IsErrOf result Unexpected }
{
    match reader.take_mode() {
        Mode::Have(shape, tree) => feed_have(reader, shape, tree, mark),
        mode => feed_ready(reader, mode, mark),
    }
}

// A token in this mode, where no chain is at hand.
fn feed_ready(reader: &mut Reader, mode: Mode, mark: Mark) -> Result<(), Refusal>
    ensures steps { FollowsLate result reader.old reader.new
        (λ e K. feed_ready (st (mode_of e mode) (mode_names mode e) K) (mark_of mark)) }
    ensures told { sees_first (mode_of (names_of reader.old) mode) ≡ true →
        feed_ready
        (st (mode_of (names_of reader.old) mode) (mode_names mode (names_of reader.old))
        (stack_of reader.old))
        (mark_of mark)
        ≡ stop →
        IsErrOf result Unexpected }
{
    match mode {
        Mode::Optional => feed_optional(reader, mark),
        mode => feed_plain(reader, mode, mark),
    }
}

// A token where a block of commands may be missing.
#[tactic(auto, using(crate::proofs::Stacked::missing))]
fn feed_optional(reader: &mut Reader, mark: Mark) -> Result<(), Refusal>
    ensures { FollowsLate result reader.old reader.new (λ e K. feed_optional e K (mark_of mark)) }
{
    match mark {
        Mark::OpenBracket(place) => open_optional(reader, place),
        mark => feed_missing(reader, mark),
    }
}

// A bracket there, inside of a call.
#[tactic(auto, using(crate::proofs::Stacked::in_no_call, crate::proofs::Stacked::a_missing))]
fn open_optional(reader: &mut Reader, place: Span) -> Result<(), Refusal>
    ensures { Follows result reader.old reader.new (λ e K. feed_optional e K (open_bracket place)) }
{
    if !reader.is_in_call() {
        return Err(Refusal::Unexpected);
    }
    open_statements(reader, place)
}

// Any other token, since the block is missing.
fn feed_missing(reader: &mut Reader, mark: Mark) -> Result<(), Refusal>
    ensures { FollowsLate result reader.old reader.new (λ e K. feed_missing e K (mark_of mark)) }
{
    match reader.take() {
        Some(Frame::Call(head, inputs, _, rest, last)) => {
            reader.next(head, inputs, rest.without_maybes(), last)?;
            let mode = reader.take_mode();
            feed_plain(reader, mode, mark)
        }
        other => refuse(other),
    }
}

// A token in this mode, where no chain is at hand and no block may be missing.
fn feed_plain(reader: &mut Reader, mode: Mode, mark: Mark) -> Result<(), Refusal>
    ensures { Follows result reader.old reader.new
        (λ e K. feed_plain (st (mode_of e mode) (mode_names mode e) K) (mark_of mark)) }
{
    match mode {
        Mode::Begin => feed_begin(reader, mark),
        Mode::Opening(block) => feed_opening(reader, block, mark),
        Mode::Heading(content, limit, bracket) => {
            feed_heading(reader, content, limit, bracket, mark)
        }
        Mode::InHead(content, limit, bracket, names) => {
            feed_in_head(reader, content, limit, bracket, names, mark)
        }
        Mode::Behind(content, bracket, names) => {
            feed_behind(reader, content, bracket, names, mark)
        }
        Mode::Choosing => feed_choosing(reader, mark),
        Mode::Blocked(block) => feed_blocked(reader, block, mark),
        Mode::Shut(shape, tree) => feed_shut(reader, shape, tree, mark),
        Mode::Listing => feed_listing(reader, mark),
        Mode::Stating => feed_stating(reader, mark),
        Mode::Naming(head) => feed_naming(reader, head, mark),
        Mode::Ended(tree, made) => feed_ended(reader, tree, made, mark),
        other => refuse(other),
    }
}

// A token where a chain is at hand.
fn feed_have(reader: &mut Reader, shape: Shape, tree: Grown, mark: Mark) -> Result<(), Refusal>
    ensures { FollowsLate result reader.old reader.new
        (λ e K. feed_have shape tree e K (mark_of mark)) }
{
    match mark {
        Mark::Word(head, class) => have_word(reader, shape, tree, head, class),
        mark => feed_broken(reader, shape, tree, mark),
    }
}

// A word where a chain is at hand.
fn have_word(
    reader: &mut Reader,
    shape: Shape,
    tree: Grown,
    head: Head,
    class: Class,
) -> Result<(), Refusal>
    ensures { FollowsLate result reader.old reader.new
        (λ e K. feed_have shape tree e K (word head.name (class_of class) head.place)) }
{
    match class {
        Class::With => reader.enter(Mode::Opening(Block::Reporter), Frame::With(head, tree)),
        Class::Near(others) => {
            let sides = Grouped::of(reader.alloc, tree)?;
            reader.enter(Mode::Begin, Frame::Near(head, sides, others))
        }
        Class::Of => feed_of(reader, head, tree),
        Class::Binary(level, _) => feed_binary(reader, level, head, shape, tree),
        class => feed_broken(reader, shape, tree, Mark::Word(head, class)),
    }
}

// A token that ends the chain at hand, and all that is open with it.
fn feed_broken(reader: &mut Reader, shape: Shape, tree: Grown, mark: Mark) -> Result<(), Refusal>
    ensures { FollowsLate result reader.old reader.new
        (λ e K. feed_broken e (settle top shape tree K) (mark_of mark)) }
{
    let (shape, tree) = reader.settle(TOP, shape, tree)?;
    reader.accept(shape, tree)?;
    let mode = reader.take_mode();
    feed_ready(reader, mode, mark)
}

// An operator of a level, behind its left side.
fn feed_binary(
    reader: &mut Reader,
    level: u8,
    head: Head,
    shape: Shape,
    tree: Grown,
) -> Result<(), Refusal>
    ensures { FollowsLate result reader.old reader.new
        (λ e K.
        feed_binary (nat_lt level top) level head.name head.place e
        (settle (suc level) shape tree K)) }
{
    if level >= TOP {
        return Err(Refusal::Unexpected);
    }
    let (_, left) = reader.settle(level + 1, shape, tree)?;
    if !reader.may_operate() {
        return Err(Refusal::Unexpected);
    }
    reader.enter(Mode::Begin, Frame::Binary(level + 1, head, left))
}

// `of` behind a list, which is a block if it has one literal.
#[tactic(auto, using(crate::proofs::Stacked::a_block, crate::proofs::Stacked::no_block))]
fn feed_of(reader: &mut Reader, head: Head, tree: Grown) -> Result<(), Refusal>
    ensures { Follows result reader.old reader.new (feed_of head.name head.place tree) }
{
    let (label, place, parts) = tree.taken_apart();
    let Label::List = label else {
        return Err(Refusal::Unexpected);
    };
    if !parts.is_one() {
        return Err(Refusal::Unexpected);
    }
    reader.enter(
        Mode::Begin,
        Frame::Of(head, parts.under(Label::Reporter, place)),
    )
}
