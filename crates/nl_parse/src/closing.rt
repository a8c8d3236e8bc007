//! Tokens behind what is at hand, and those of lists.
ghost use Rattle.std.specs.Prelude.{◌≡◌, [], ◌∷◌};
ghost use Rattle.nl_tree.specs.Grammar.{leaf, and_last, one};
ghost use Rattle.nl_tree.specs.Tokens.{close_paren, word};
ghost use Rattle.nl_parse_grammar.specs.Machine.{feed_blocked, feed_items, feed_listing, feed_bracket, feed_paren, feed_minus, feed_reporter, feed_whole, feed_shut, feed_ended, st, Listing, InList};
ghost use Rattle.nl_parse.specs.inner.Apart.{feed_more, may_follow_item};
ghost use Rattle.nl_parse_reading.specs.inner.View.{class_of, mark_of};
ghost use Rattle.nl_parse_reading.specs.inner.Reading.{maybe_over};
ghost use Rattle.nl_parse_stack.specs.inner.State.{stack_of, HasRoom};
ghost use Rattle.nl_parse_stack.specs.inner.Steps.{Follows, Reaches};

use crate::beginning::feed_begin;
use crate::heads::{feed_arrow_reporter, feed_no_head};
use nl_fixed::{Span, Str};
use nl_parse_grammar::Shape;
use nl_parse_reading::frames::{Frame, Mode};
use nl_parse_reading::marks::{Class, Head, Mark};
use nl_parse_reading::parts::{Grouped, Grown};
use nl_parse_stack::around::Around;
use nl_parse_stack::reader::{Reader, Refusal, let_go, refuse};
use nl_tree::Label;

// Whether the token may stand behind an item of a literal list.
fn may_follow_item(mark: &Mark) -> bool
    ensures { result ≡ may_follow_item (mark_of mark.now) }
{
    match mark {
        Mark::Number(_, _) => true,
        Mark::Text(_, _) => true,
        Mark::Word(_, Class::Constant) => true,
        Mark::OpenBracket(_) => true,
        Mark::CloseBracket(_) => true,
        _ => false,
    }
}

/// A token behind a block, which is `of`.
pub(crate) fn feed_blocked(reader: &mut Reader, block: Grown, mark: Mark) -> Result<(), Refusal>
    ensures { Follows result reader.old reader.new (λ e K. feed_blocked block e K (mark_of mark)) }
{
    match mark {
        Mark::Word(head, class) => begin_of(reader, block, head, class),
        other => refuse(other),
    }
}

// A word behind a block.
fn begin_of(reader: &mut Reader, block: Grown, head: Head, class: Class) -> Result<(), Refusal>
    ensures { Follows result reader.old reader.new
        (λ e K. feed_blocked block e K (word head.name (class_of class) head.place)) }
{
    match class {
        Class::Of => reader.enter(Mode::Begin, Frame::Of(head, block)),
        _ => Err(Refusal::Unexpected),
    }
}

/// A token behind the items of a literal list.
fn feed_items(reader: &mut Reader, bracket: Span, items: Grouped, mark: Mark) -> Result<(), Refusal>
    ensures { Follows result reader.old reader.new
        (λ e K. feed_items bracket items e K (mark_of mark)) }
{
    match mark {
        Mark::Number(number, place) => add_item(
            reader,
            bracket,
            items,
            Label::Number(number),
            place,
        ),
        Mark::Text(text, place) => add_item(reader, bracket, items, Label::Text(text), place),
        Mark::Word(head, class) => add_word(reader, bracket, items, head, class),
        Mark::OpenBracket(place) => {
            let none = Grouped::new(reader.alloc);
            reader.put(Frame::List(bracket, items))?;
            reader.enter(Mode::Listing, Frame::List(place, none))
        }
        Mark::CloseBracket(_) => reader.end_list(items.under(Label::List, bracket)),
        other => refuse(other),
    }
}

// A word in a list.
fn add_word(
    reader: &mut Reader,
    bracket: Span,
    items: Grouped,
    head: Head,
    class: Class,
) -> Result<(), Refusal>
    ensures { Follows result reader.old reader.new
        (λ e K. feed_items bracket items e K (word head.name (class_of class) head.place)) }
{
    match class {
        Class::Constant => add_item(reader, bracket, items, Label::Named(head.name), head.place),
        _ => Err(Refusal::Unexpected),
    }
}

// A literal of a list.
fn add_item(
    reader: &mut Reader,
    bracket: Span,
    items: Grouped,
    label: Label,
    place: Span,
) -> Result<(), Refusal>
    ensures { Reaches result reader.old reader.new
        (λ e K. st Listing e (InList bracket (and_last items (leaf label place)) ∷ K)) }
{
    let mut items = items;
    items.add(reader.alloc, Grown::leaf(reader.alloc, label, place))?;
    reader.enter(Mode::Listing, Frame::List(bracket, items))
}

/// A token in a literal list.
pub(crate) fn feed_listing(reader: &mut Reader, mark: Mark) -> Result<(), Refusal>
    ensures { Follows result reader.old reader.new (λ e K. feed_listing e K (mark_of mark)) }
{
    match reader.take() {
        Some(Frame::List(bracket, items)) => feed_items(reader, bracket, items, mark),
        other => refuse(other),
    }
}

/// A token behind an expression, which closes it.
pub(crate) fn feed_shut(
    reader: &mut Reader,
    shape: Shape,
    tree: Grown,
    mark: Mark,
) -> Result<(), Refusal>
    ensures { Follows result reader.old reader.new
        (λ e K. feed_shut shape tree e K (mark_of mark)) }
{
    match reader.take_around() {
        Around::Paren(bracket) => feed_paren(reader, shape, tree, bracket, mark),
        Around::Minus(bracket, place) => feed_minus(reader, tree, bracket, place, mark),
        Around::Reporter(bracket) => feed_reporter(reader, tree, bracket, mark),
        Around::NoHead(bracket) => feed_no_head(reader, tree, bracket, mark),
        Around::ArrowReporter(bracket, names) => {
            feed_arrow_reporter(reader, tree, bracket, names, mark)
        }
        Around::Bracket(bracket) => feed_bracket(reader, shape, tree, bracket, mark),
        Around::Nothing => feed_whole(reader, tree, mark),
        Around::Else => Err(Refusal::Unexpected),
    }
}

// A token behind an expression in a bracket: a literal is an item of a list, and anything else makes it a block.
fn feed_bracket(
    reader: &mut Reader,
    shape: Shape,
    tree: Grown,
    bracket: Span,
    mark: Mark,
) -> Result<(), Refusal>
    ensures { Follows result reader.old reader.new
        (λ e K. feed_bracket shape tree bracket e K (mark_of mark)) }
{
    if let Shape::Literal = shape {
        return feed_literal(reader, tree, bracket, mark);
    }
    match mark {
        Mark::CloseBracket(_) => {
            let block = Grown::over(reader.alloc, Label::Reporter, bracket, tree)?;
            reader.turn(Mode::Blocked(block));
            Ok(())
        }
        other => refuse(other),
    }
}

// A token behind a literal in a bracket.
#[tactic(auto, using(crate::proofs::Stacked::no_item, crate::proofs::Stacked::an_item))]
fn feed_literal(reader: &mut Reader, tree: Grown, bracket: Span, mark: Mark) -> Result<(), Refusal>
    ensures { Follows result reader.old reader.new
        (λ e K. feed_items bracket (one tree) e K (mark_of mark)) }
{
    if !may_follow_item(&mark) {
        return refuse(mark);
    }
    let items = Grouped::of(reader.alloc, tree)?;
    feed_items(reader, bracket, items, mark)
}

// A token behind an expression in parentheses: a call may have more items than its usual number.
fn feed_paren(
    reader: &mut Reader,
    shape: Shape,
    tree: Grown,
    bracket: Span,
    mark: Mark,
) -> Result<(), Refusal>
    requires { HasRoom reader.old }
    ensures { Follows result reader.old reader.new
        (λ e K. feed_paren shape tree bracket e K (mark_of mark)) }
{
    match mark {
        Mark::CloseParen(_) => {
            let tree = Grown::over(reader.alloc, Label::Paren, bracket, tree)?;
            reader.closed(Shape::Fixed, tree)
        }
        mark => feed_grown(reader, shape, tree, bracket, mark),
    }
}

// A token that closes no parentheses, behind an expression in them.
fn feed_grown(
    reader: &mut Reader,
    shape: Shape,
    tree: Grown,
    bracket: Span,
    mark: Mark,
) -> Result<(), Refusal>
    requires { HasRoom reader.old }
    ensures { Follows result reader.old reader.new
        (λ e K. feed_more shape tree bracket e K (mark_of mark)) }
{
    if let Shape::Growing = shape {
        let (label, place, items) = tree.taken_apart();
        reader.put_back(Frame::Items(bracket, label, place, items));
        return feed_begin(reader, mark);
    }
    Err(Refusal::Unexpected)
}

// A token behind the item of a negation.
fn feed_minus(
    reader: &mut Reader,
    tree: Grown,
    bracket: Span,
    place: Span,
    mark: Mark,
) -> Result<(), Refusal>
    ensures { Follows result reader.old reader.new
        (λ e K. feed_minus tree bracket place e K (mark_of mark)) }
{
    match mark {
        Mark::CloseParen(_) => {
            let negated = Grown::over(reader.alloc, Label::Negate, place, tree)?;
            let tree = Grown::over(reader.alloc, Label::Paren, bracket, negated)?;
            reader.closed(Shape::Fixed, tree)
        }
        other => refuse(other),
    }
}

// A token behind the expression of a block.
fn feed_reporter(reader: &mut Reader, tree: Grown, bracket: Span, mark: Mark) -> Result<(), Refusal>
    ensures { Follows result reader.old reader.new
        (λ e K. feed_reporter tree bracket e K (mark_of mark)) }
{
    match mark {
        Mark::CloseBracket(_) => {
            let block = Grown::over(reader.alloc, Label::Reporter, bracket, tree)?;
            reader.supply(block)
        }
        other => refuse(other),
    }
}

// A token behind the expression of a whole text, where nothing is open.
fn feed_whole(reader: &mut Reader, tree: Grown, mark: Mark) -> Result<(), Refusal>
    requires { stack_of reader.old ≡ [] }
    ensures { Follows result reader.old reader.new (λ e K. feed_whole tree e (mark_of mark)) }
{
    match mark {
        Mark::End(_) => {
            reader.turn(Mode::Over(tree));
            Ok(())
        }
        other => refuse(other),
    }
}

/// A token behind a statement in parentheses, which makes this name.
pub(crate) fn feed_ended(
    reader: &mut Reader,
    tree: Grown,
    made: Option<Str>,
    mark: Mark,
) -> Result<(), Refusal>
    ensures { Follows result reader.old reader.new
        (λ e K. feed_ended tree (maybe_over made e) K (mark_of mark)) }
{
    match mark {
        Mark::CloseParen(place) => close_statement(reader, tree, made, place),
        other => refuse(other),
    }
}

// A closing parenthesis behind a statement.
fn close_statement(
    reader: &mut Reader,
    tree: Grown,
    made: Option<Str>,
    place: Span,
) -> Result<(), Refusal>
    ensures { Follows result reader.old reader.new
        (λ e K. feed_ended tree (maybe_over made e) K (close_paren place)) }
{
    let frame = reader.take();
    let Some(Frame::StatementParen(bracket)) = frame else {
        return refuse(frame);
    };
    let_go(frame);
    let tree = Grown::over(reader.alloc, Label::Paren, bracket, tree)?;
    reader.end_statement(tree, made)
}
