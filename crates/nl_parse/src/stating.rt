//! Tokens of statements, of blocks and of names.
ghost use Rattle.std.specs.Prelude.{◌∷◌};
ghost use Rattle.nl_parse_grammar.specs.Machine.{supply, feed_opening, feed_choosing, feed_ending, feed_arrow_ending, feed_statement, feed_stating, feed_naming, st, Stating, InStatements};
ghost use Rattle.nl_tree.specs.Tree.{none};
ghost use Rattle.nl_tree.specs.Grammar.{leaf};
ghost use Rattle.nl_tree.specs.declared.needs.Ending.TheVariants.{AtBracket};
ghost use Rattle.nl_tree.specs.declared.tree.Label.TheVariants as label;
ghost use Rattle.nl_parse_reading.specs.inner.View.{class_of, mark_of};
ghost use Rattle.nl_tree.specs.Tokens.{word};
ghost use Rattle.nl_parse_stack.specs.inner.Steps.{Follows, Reaches};

use nl_fixed::{Names, Span};
use nl_parse_grammar::Last;
use nl_parse_reading::frames::{Frame, Mode};
use nl_parse_reading::known_names::KnownNames;
use nl_parse_reading::marks::{Class, Head, Mark, begins_statement};
use nl_parse_reading::parts::{Grouped, Grown};
use nl_parse_stack::reader::{Reader, Refusal, refuse};
use nl_tree::{Block, Ending, Label};

/// A token where a block begins.
pub(crate) fn feed_opening(reader: &mut Reader, block: Block, mark: Mark) -> Result<(), Refusal>
    ensures { Follows result reader.old reader.new (λ e K. feed_opening block e K (mark_of mark)) }
{
    let Mark::OpenBracket(place) = mark else {
        return Err(Refusal::Unexpected);
    };
    match block {
        Block::Commands => open_statements(reader, place)?,
        Block::Reporter => reader.enter(Mode::Begin, Frame::Reporter(place))?,
        Block::Arrow(content, limit) => reader.turn(Mode::Heading(content, limit, place)),
    }
    Ok(())
}

/// Begins a block of commands.
pub(crate) fn open_statements(reader: &mut Reader, bracket: Span) -> Result<(), Refusal>
    ensures { Reaches result reader.old reader.new
        (λ e K. st Stating e (InStatements bracket AtBracket e none ∷ K)) }
{
    let names = KnownNames::empty(reader.alloc);
    let statements = Grouped::new(reader.alloc);
    reader.enter(
        Mode::Stating,
        Frame::Statements(bracket, Ending::AtBracket, names, statements),
    )
}

/// A token where a variable's name is wanted.
pub(crate) fn feed_choosing(reader: &mut Reader, mark: Mark) -> Result<(), Refusal>
    ensures { Follows result reader.old reader.new (λ e K. feed_choosing e K (mark_of mark)) }
{
    match mark {
        Mark::Word(head, class) => choose_word(reader, head, class),
        other => refuse(other),
    }
}

// A word where a variable's name is wanted.
fn choose_word(reader: &mut Reader, head: Head, class: Class) -> Result<(), Refusal>
    ensures { Follows result reader.old reader.new
        (λ e K. feed_choosing e K (word head.name (class_of class) head.place)) }
{
    match class {
        Class::Named => choose(reader, head),
        Class::Unknown => {
            if !reader.knows(head.name.as_bytes()) {
                return Err(Refusal::Unexpected);
            }
            choose(reader, head)
        }
        _ => Err(Refusal::Unexpected),
    }
}

// A variable's name.
fn choose(reader: &mut Reader, head: Head) -> Result<(), Refusal>
    ensures { Reaches result reader.old reader.new
        (supply (leaf (label.Named head.name) head.place)) }
{
    let tree = Grown::leaf(reader.alloc, Label::Named(head.name), head.place);
    reader.supply(tree)
}

/// A token where a statement begins, or what ends statements.
#[tactic(auto, using(crate::proofs::Stacked::not_stating, crate::proofs::Stacked::a_statement, crate::proofs::Stacked::no_statement))]
pub(crate) fn feed_stating(reader: &mut Reader, mark: Mark) -> Result<(), Refusal>
    ensures { Follows result reader.old reader.new (λ e K. feed_stating e K (mark_of mark)) }
{
    if !reader.is_stating() {
        return refuse(mark);
    }
    if begins_statement(&mark) {
        return feed_statement(reader, mark);
    }
    match reader.take() {
        Some(Frame::Statements(bracket, ending, _names, statements)) => feed_ending(
            reader, ending, bracket, statements, mark,
        ),
        Some(Frame::ArrowCommands(bracket, names, _known, statements)) => feed_arrow_ending(
            reader, bracket, names, statements, mark,
        ),
        other => refuse(other),
    }
}

// A token that ends statements, outside of which the stack is.
fn feed_ending(
    reader: &mut Reader,
    ending: Ending,
    bracket: Span,
    statements: Grouped,
    mark: Mark,
) -> Result<(), Refusal>
    ensures { Follows result reader.old reader.new
        (λ e K. feed_ending ending bracket statements e K (mark_of mark)) }
{
    match (ending, &mark) {
        (Ending::AtBracket, Mark::CloseBracket(_)) => reader.supply(statements.under(
            Label::Commands,
            bracket,
        )),
        (Ending::AtEnd, Mark::End(_)) => {
            reader.turn(Mode::Over(statements.under(Label::Commands, bracket)));
            Ok(())
        }
        _ => Err(Refusal::Unexpected),
    }
}

// A token that ends the statements of an arrow block with a head of these names, outside of which the stack is.
fn feed_arrow_ending(
    reader: &mut Reader,
    bracket: Span,
    names: Names,
    statements: Grouped,
    mark: Mark,
) -> Result<(), Refusal>
    ensures { Follows result reader.old reader.new
        (λ e K. feed_arrow_ending bracket e names statements K (mark_of mark)) }
{
    match mark {
        Mark::CloseBracket(_) => {
            let commands = statements.under(Label::Commands, bracket);
            let block = Grown::over(reader.alloc, Label::Arrow(names), bracket, commands)?;
            reader.supply(block)
        }
        other => refuse(other),
    }
}

// A token that begins a statement.
fn feed_statement(reader: &mut Reader, mark: Mark) -> Result<(), Refusal>
    ensures { Follows result reader.old reader.new (λ e K. feed_statement e K (mark_of mark)) }
{
    match mark {
        Mark::Word(head, class) => begin_statement(reader, head, class),
        Mark::OpenParen(place) => reader.enter(Mode::Stating, Frame::StatementParen(place)),
        other => refuse(other),
    }
}

// A word that begins a statement.
fn begin_statement(reader: &mut Reader, head: Head, class: Class) -> Result<(), Refusal>
    ensures { Follows result reader.old reader.new
        (λ e K. feed_statement e K (word head.name (class_of class) head.place)) }
{
    match class {
        Class::Command(inputs) => {
            let none = Grouped::new(reader.alloc);
            reader.next(head, none, inputs, Last::Nothing)
        }
        Class::Let => {
            reader.turn(Mode::Naming(head));
            Ok(())
        }
        _ => Err(Refusal::Unexpected),
    }
}

/// A token behind `let`, which is a new name.
pub(crate) fn feed_naming(reader: &mut Reader, head: Head, mark: Mark) -> Result<(), Refusal>
    ensures { Follows result reader.old reader.new
        (λ e K. feed_naming head.name head.place e K (mark_of mark)) }
{
    match mark {
        Mark::Word(name, class) => begin_let(reader, head, name, class),
        other => refuse(other),
    }
}

// A word where a new name is wanted.
fn begin_let(reader: &mut Reader, head: Head, name: Head, class: Class) -> Result<(), Refusal>
    ensures { Follows result reader.old reader.new
        (λ e K.
        feed_naming head.name head.place e K
        (word name.name (class_of class) name.place)) }
{
    match class {
        Class::Unknown => {
            if reader.knows(name.name.as_bytes()) {
                return Err(Refusal::Unexpected);
            }
            reader.enter(Mode::Begin, Frame::Let(head, name))
        }
        _ => Err(Refusal::Unexpected),
    }
}
