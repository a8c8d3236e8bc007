//! Tokens where an expression begins.
ghost use Rattle.std.specs.Prelude.{◌∷◌, ℕ, false, true};
ghost use Rattle.nl_fixed.specs.declared.span.Span.{Span};
ghost use Rattle.nl_tree.specs.Vocabulary.{among};
ghost use Rattle.nl_parse_grammar.specs.Machine.{feed_begin, feed_head_name, feed_local, begin_call, begin_many, begin_minus, begin_bracket, end_bracket, end_many, closed, InBracket, InMany};
ghost use Rattle.nl_parse_reading.specs.inner.Reading.{made_over};
ghost use Rattle.nl_parse_reading.specs.inner.View.{class_of, mark_of, needs_of};
ghost use Rattle.nl_parse_stack.specs.inner.Steps.{Follows, Reaches};
ghost use Rattle.nl_tree.specs.Tokens.{word};
ghost use Rattle.nl_tree.specs.Grammar.{leaf};
ghost use Rattle.nl_tree.specs.declared.tree.Label.TheVariants as label;

use nl_fixed::{Span, Str};
use nl_parse_grammar::{Last, Shape};
use nl_parse_reading::frames::{Frame, Mode};
use nl_parse_reading::known_names::KnownNames;
use nl_parse_reading::marks::{Class, Head, Inputs, Mark};
use nl_parse_reading::parts::{Grouped, Grown};
use nl_parse_stack::reader::{Reader, Refusal, let_go, refuse};
use nl_tree::{Content, Label};

/// A token where an expression begins.
pub(crate) fn feed_begin(reader: &mut Reader, mark: Mark) -> Result<(), Refusal>
    ensures { Follows result reader.old reader.new (λ e K. feed_begin e K (mark_of mark)) }
{
    match mark {
        Mark::Number(number, place) => {
            let tree = Grown::leaf(reader.alloc, Label::Number(number), place);
            reader.closed(Shape::Literal, tree)
        }
        Mark::Text(text, place) => {
            let tree = Grown::leaf(reader.alloc, Label::Text(text), place);
            reader.closed(Shape::Literal, tree)
        }
        Mark::Word(head, class) => begin_word(reader, head, class),
        Mark::OpenBracket(place) => begin_bracket(reader, place),
        Mark::CloseBracket(_) => end_bracket(reader),
        Mark::OpenParen(place) => reader.enter(Mode::Begin, Frame::Paren(place)),
        Mark::CloseParen(_) => end_many(reader),
        Mark::End(_) => Err(Refusal::Unexpected),
    }
}

// A word where an expression begins.
fn begin_word(reader: &mut Reader, head: Head, class: Class) -> Result<(), Refusal>
    ensures { Follows result reader.old reader.new
        (λ e K. feed_begin e K (word head.name (class_of class) head.place)) }
{
    match class {
        Class::Unknown => begin_local(reader, head),
        Class::Constant => begin_leaf(reader, head, Shape::Literal),
        Class::Plain => begin_leaf(reader, head, Shape::Fixed),
        Class::Named => begin_leaf(reader, head, Shape::Fixed),
        Class::Prefix(inputs) => begin_call(reader, head, inputs),
        Class::Many(others) => begin_many(reader, head, others),
        Class::Closing(inputs, block) => {
            let none = Grouped::new(reader.alloc);
            reader.next(head, none, inputs, Last::Block(block))
        }
        Class::Binary(_, minus) => begin_minus(reader, head.place, minus),
        _ => Err(Refusal::Unexpected),
    }
}

// A word that is an expression by itself.
fn begin_leaf(reader: &mut Reader, head: Head, shape: Shape) -> Result<(), Refusal>
    ensures { Reaches result reader.old reader.new
        (closed shape (leaf (label.Named head.name) head.place)) }
{
    let tree = Grown::leaf(reader.alloc, Label::Named(head.name), head.place);
    reader.closed(shape, tree)
}

// A word that has no row.
fn begin_local(reader: &mut Reader, head: Head) -> Result<(), Refusal>
    ensures { Follows result reader.old reader.new
        (λ e K. feed_local (among head.name e) head.name head.place e K) }
{
    if !reader.knows(head.name.as_bytes()) {
        return begin_names(reader, head);
    }
    begin_leaf(reader, head, Shape::Fixed)
}

// One that nobody knows: the first name of a head where two brackets open an arrow block.
fn begin_names(reader: &mut Reader, head: Head) -> Result<(), Refusal>
    ensures { Follows result reader.old reader.new
        (λ e K. feed_local false head.name head.place e K) }
{
    match reader.take() {
        Some(Frame::Bracket(_)) => first_name(reader, head),
        other => refuse(other),
    }
}

// The first name in brackets, if those begin an arrow block.
fn first_name(reader: &mut Reader, head: Head) -> Result<(), Refusal>
    ensures { (r : Span) → Follows result reader.old reader.new
        (λ e K. feed_local false head.name head.place e (InBracket r ∷ K)) }
{
    match reader.take() {
        Some(Frame::NoHead(bracket, limit)) => {
            let names = KnownNames::empty(reader.alloc);
            add_name(reader, Content::Reporter, limit, bracket, names, head.name)
        }
        other => refuse(other),
    }
}

/// A new name of a head in brackets, of which at most so many may still come, behind these names.
#[tactic(auto, using(crate::proofs::Stacked::no_room, crate::proofs::Stacked::some_room, nl_parse_reading::proofs::Framed::made_push))]
pub(crate) fn add_name(
    reader: &mut Reader,
    content: Content,
    limit: u64,
    bracket: Span,
    names: KnownNames,
    name: Str,
) -> Result<(), Refusal>
    ensures { Follows result reader.old reader.new
        (λ e K.
        feed_head_name true content limit bracket e names name (made_over names e) K) }
{
    if limit == 0 {
        return refuse(name);
    }
    let mut names = names;
    names.push(reader.alloc, name)?;
    reader.turn(Mode::InHead(content, limit - 1, bracket, names));
    Ok(())
}

// A call whose last input is an item.
#[tactic(auto, using(crate::proofs::Stacked::no_call, crate::proofs::Stacked::a_call))]
fn begin_call(reader: &mut Reader, head: Head, inputs: Inputs) -> Result<(), Refusal>
    ensures { Follows result reader.old reader.new
        (begin_call head.name head.place (needs_of inputs)) }
{
    if reader.has_more_sides() {
        return Err(Refusal::Unexpected);
    }
    let none = Grouped::new(reader.alloc);
    reader.next(head, none, inputs, Last::Item)
}

// A call of any number of items.
#[tactic(auto, using(crate::proofs::Stacked::no_many, crate::proofs::Stacked::a_many))]
fn begin_many(reader: &mut Reader, head: Head, others: u64) -> Result<(), Refusal>
    ensures { Follows result reader.old reader.new (begin_many head.name head.place others) }
{
    if reader.has_more_sides() {
        return Err(Refusal::Unexpected);
    }
    let none = Grouped::new(reader.alloc);
    reader.enter(Mode::Begin, Frame::Many(head, none, others))
}

// An operator, which is a negation where it is the minus sign and opens parentheses.
fn begin_minus(reader: &mut Reader, place: Span, minus: bool) -> Result<(), Refusal>
    ensures { Follows result reader.old reader.new (begin_minus minus place) }
{
    if !minus {
        return Err(Refusal::Unexpected);
    }
    let frame = reader.take();
    let Some(Frame::Paren(bracket)) = frame else {
        return refuse(frame);
    };
    let_go(frame);
    reader.enter(Mode::Begin, Frame::Minus(bracket, place))
}

// A bracket: a literal list where a right side begins, since that has no block.
#[tactic(auto, using(crate::proofs::Stacked::a_list, crate::proofs::Stacked::a_bracket))]
fn begin_bracket(reader: &mut Reader, place: Span) -> Result<(), Refusal>
    ensures { Follows result reader.old reader.new (begin_bracket place) }
{
    if reader.is_at_side() {
        let none = Grouped::new(reader.alloc);
        return reader.enter(Mode::Listing, Frame::List(place, none));
    }
    reader.enter(Mode::Begin, Frame::Bracket(place))
}

// A closing bracket, which ends a list in which nothing is.
fn end_bracket(reader: &mut Reader) -> Result<(), Refusal>
    ensures { Follows result reader.old reader.new end_bracket }
{
    let frame = reader.take();
    let Some(Frame::Bracket(place)) = frame else {
        return refuse(frame);
    };
    let_go(frame);
    reader.closed(
        Shape::Literal,
        Grown::leaf(reader.alloc, Label::List, place),
    )
}

// A closing parenthesis, which ends a call of any number of items.
fn end_many(reader: &mut Reader) -> Result<(), Refusal>
    ensures { Follows result reader.old reader.new end_many }
{
    match reader.take() {
        Some(Frame::Items(bracket, label, place, items)) => {
            let call = items.under(label, place);
            let tree = Grown::over(reader.alloc, Label::Paren, bracket, call)?;
            reader.closed(Shape::Fixed, tree)
        }
        Some(Frame::Many(head, items, _)) => end_usual(reader, head, items),
        other => refuse(other),
    }
}

// A closing parenthesis behind less than a call's usual number of items.
fn end_usual(reader: &mut Reader, head: Head, items: Grouped) -> Result<(), Refusal>
    ensures { (n : ℕ) → Follows result reader.old reader.new
        (λ e K. end_many e (InMany head.name head.place items n ∷ K)) }
{
    let frame = reader.take();
    let Some(Frame::Paren(bracket)) = frame else {
        return refuse(frame);
    };
    let_go(frame);
    let call = items.under(Label::Named(head.name), head.place);
    let tree = Grown::over(reader.alloc, Label::Paren, bracket, call)?;
    reader.closed(Shape::Fixed, tree)
}
