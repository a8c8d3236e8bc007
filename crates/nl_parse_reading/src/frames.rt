//! What is open while a text is read, and what may come next.
ghost use Rattle.std.specs.Prelude.{◌≡◌, ◌∷◌, IfOk, List, ℕ, ◌||◌};
ghost use Rattle.nl_fixed.specs.Nouns.{Names};
ghost use Rattle.nl_parse_grammar.specs.Machine.{takes_operator, closes, build, built_shape, begin_mode};
ghost use Rattle.nl_parse_grammar.specs.Machine as M;
ghost use Rattle.nl_parse_reading.specs.inner.Reading.{frame_of, mode_of, mode_names, names_with, names_onto};
ghost use Rattle.nl_parse_reading.specs.inner.Known.{Makes};

use crate::known_names::KnownNames;
use crate::marks::{Head, Inputs};
use crate::parts::{Grouped, Grown};
use nl_fixed::{Names, NoMemory, Span, Str};
use nl_parse_grammar::{Last, Shape};
use nl_tree::{Block, Content, Ending, Label, Need};
use std::alloc::Global;

/// How many levels of operators stand over items: 4 to 9.
pub const TOP: u8 = 6;

/// Something that is open, with what is read of it.
#[derive(Drop)]
pub enum Frame {
    /// An operator of so many levels past 3, and its left side.
    Binary(u8, Head, Grown),
    With(Head, Grown),
    /// An operator of level 1, its sides, and how many follow the one that is being read.
    Near(Head, Grouped, u64),
    /// `of` and its block.
    Of(Head, Grown),
    /// A call, its inputs, the one that is being read, and those behind it.
    Call(Head, Grouped, Need, Inputs, Last),
    LastItem(Head, Grouped),
    LastBlock(Head, Grouped, Block),
    /// A call of any number of items, and how many of the usual number follow the one that is being read.
    Many(Head, Grouped, u64),
    /// Parentheses round a call that has its usual number of items: the bracket, the call's label and place, and the items.
    Items(Span, Label, Span, Grouped),
    Paren(Span),
    /// Parentheses, and the place of the minus sign behind the bracket.
    Minus(Span, Span),
    Reporter(Span),
    /// An arrow block without a head so far: an expression that may still become a head of so many names.
    NoHead(Span, u64),
    /// An expression in an arrow block behind its head, and the names of the head.
    ArrowReporter(Span, KnownNames),
    /// Statements in an arrow block behind its head, the names of the head, and those with the names that they made, newest last.
    ArrowCommands(Span, Names, KnownNames, Grouped),
    /// A literal list or the block of an `of`.
    Bracket(Span),
    List(Span, Grouped),
    /// `let` and the name that it makes.
    Let(Head, Head),
    StatementParen(Span),
    /// Statements, what ends them, and the names that they made, newest last.
    Statements(Span, Ending, KnownNames, Grouped),
}

/// What may come next.
#[derive(Drop)]
pub enum Mode {
    /// An expression.
    Begin,
    /// A block.
    Opening(Block),
    /// A head of at most so many names, or the content of an arrow block without one, right behind the bracket that opens the block.
    Heading(Content, u64, Span),
    /// A name of a head in brackets, of which at most so many follow, or what closes those. With the block's bracket and the names so far.
    InHead(Content, u64, Span, KnownNames),
    /// The arrow, behind these names of a head. With the block's bracket.
    Behind(Content, Span, KnownNames),
    /// A block of commands, or what follows where it is missing.
    Optional,
    /// The name of a variable.
    Choosing,
    /// What goes on with the chain at hand, or follows it.
    Have(Shape, Grown),
    /// `of`, behind its block.
    Blocked(Grown),
    /// What closes the expression at hand.
    Shut(Shape, Grown),
    /// An item of a literal list.
    Listing,
    /// A statement.
    Stating,
    /// A new name, behind `let`.
    Naming(Head),
    /// What closes the statement at hand, which makes this name.
    Ended(Grown, Option<Str>),
    /// Nothing: there is the whole text.
    Over(Grown),
    /// Nothing: what is at hand has no place here, which never comes about. With the frame in its way, and the name that it makes.
    Dead(Option<Frame>, Option<Str>),
}

/// How an input begins.
pub fn begin_mode(need: Need) -> Mode
    ensures mode { (e : Names) → mode_of e result ≡ begin_mode need }
    ensures names { (e : Names) → mode_names result e ≡ e }
{
    match need {
        Need::Item => Mode::Begin,
        Need::Whole => Mode::Begin,
        Need::Within(block) => Mode::Opening(block),
        Need::Maybe => Mode::Optional,
        Need::Variable => Mode::Choosing,
    }
}

/// Whether an operator of this level ends what the frame has open.
pub fn closes(level: u8, frame: &Frame) -> bool
    ensures { (e : Names) → result ≡ closes level (frame_of e frame.now) }
{
    match frame {
        Frame::Binary(own, _, _) => *own <= level,
        Frame::Of(_, _) => true,
        Frame::LastItem(_, _) => true,
        Frame::Many(_, _, 0) => true,
        Frame::Near(_, _, 0) => true,
        _ => false,
    }
}

/// Whether an operator may follow an expression right in this frame.
pub fn takes_operator(frame: &Frame) -> bool
    ensures { (e : Names) (below : List M.Frame) → result ≡ takes_operator (frame_of e frame.now ∷ below) }
{
    match frame {
        Frame::Binary(_, _, _) => true,
        Frame::Call(_, _, Need::Whole, _, _) => true,
        Frame::Paren(_) => true,
        Frame::Reporter(_) => true,
        Frame::NoHead(_, _) => true,
        Frame::ArrowReporter(_, _) => true,
        Frame::Bracket(_) => true,
        Frame::Let(_, _) => true,
        _ => false,
    }
}

/// The frame's tree, with its last part, and what that may also be.
pub fn build(alloc: Global, frame: Frame, tree: Grown) -> Result<(Shape, Grown), NoMemory>
    ensures tree { IfOk result (λ built. (e : Names) → built.1 ≡ build (frame_of e frame) tree) }
    ensures shape { IfOk result (λ built. (e : Names) → built.0 ≡ built_shape (frame_of e frame)) }
{
    let (shape, head, parts) = match frame {
        Frame::Binary(_, head, left) => (Shape::Fixed, head, Grouped::of(alloc, left)?),
        Frame::Of(head, block) => (Shape::Fixed, head, Grouped::of(alloc, block)?),
        Frame::LastItem(head, inputs) => (Shape::Fixed, head, inputs),
        Frame::Many(head, items, _) => (Shape::Growing, head, items),
        Frame::Near(head, sides, _) => (Shape::Fixed, head, sides),
        _ => return Ok((Shape::Fixed, tree)),
    };
    let mut parts = parts;
    parts.add(alloc, tree)?;
    Ok((shape, parts.under(Label::Named(head.name), head.place)))
}

/// Whether the frame makes this name.
#[tactic(auto, using(crate::proofs::Framed::among_made))]
pub fn makes_name(frame: &Frame, name: &[u8]) -> bool
    ensures { Makes name.now result (names_with frame.now) }
{
    match frame {
        Frame::Statements(_, _, made, _) => made.has(name),
        Frame::ArrowReporter(_, names) => names.has(name),
        Frame::ArrowCommands(_, _, made, _) => made.has(name),
        _ => false,
    }
}

/// Whether some frame makes this name.
pub fn make_name(frames: &[Frame], name: &[u8]) -> bool
    ensures { Makes name.now result (names_onto frames.now) }
{
    'frames: for frame in frames {
        if makes_name(frame, name) {
            return true;
        }
    }
    false
}
