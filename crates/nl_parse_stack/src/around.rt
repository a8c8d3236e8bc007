//! What stands around an expression that is over.
ghost use Rattle.std.specs.Prelude.{◌≡◌, List, [], ◌∷◌};
ghost use Rattle.nl_fixed.specs.Nouns.{Names};
ghost use Rattle.nl_tree.specs.Tokens.{Tok};
ghost use Rattle.nl_tree.specs.Tree.{Node};
ghost use Rattle.nl_parse_grammar.specs.declared.pending.Shape.{Shape};
ghost use Rattle.nl_parse_grammar.specs.Machine as M;
ghost use Rattle.nl_parse_grammar.specs.Machine.{feed_shut};
ghost use Rattle.nl_parse_reading.specs.inner.Reading.{frame_of, names_with};
ghost use Rattle.nl_parse_stack.specs.declared.around.Around.TheVariants as Around;
ghost use Rattle.nl_parse_stack.specs.inner.Around.{shut_in};
ghost use Rattle.nl_parse_stack.specs.inner.State.{stack_of, names_of, HasRoom};

use crate::reader::{Reader, let_go};
use nl_fixed::Span;
use nl_parse_reading::frames::Frame;
use nl_parse_reading::known_names::KnownNames;

/// What stands around an expression that is over.
#[derive(Drop)]
pub enum Around {
    Paren(Span),
    Minus(Span, Span),
    Reporter(Span),
    NoHead(Span),
    ArrowReporter(Span, KnownNames),
    Bracket(Span),
    /// Nothing: it is the whole text.
    Nothing,
    /// What takes no such expression.
    Else,
}

// What a frame is around an expression.
fn what_is(frame: Frame) -> Around
    ensures shut { (x : Shape) (t : Node) (tok : Tok) (e : Names) (below : List M.Frame) →
        feed_shut x t (names_with frame e) (frame_of e frame ∷ below) tok
        ≡ shut_in result x t e below tok }
    ensures something { result ≡ Around.Nothing → ⊥ }
{
    match frame {
        Frame::Paren(bracket) => Around::Paren(bracket),
        Frame::Minus(bracket, place) => Around::Minus(bracket, place),
        Frame::Reporter(bracket) => Around::Reporter(bracket),
        Frame::NoHead(bracket, _) => Around::NoHead(bracket),
        Frame::ArrowReporter(bracket, names) => Around::ArrowReporter(bracket, names),
        Frame::Bracket(bracket) => Around::Bracket(bracket),
        other => {
            let_go(other);
            Around::Else
        }
    }
}

impl<'a> Reader<'a> {
    /// Takes what stands around an expression.
    pub fn take_around(&mut self) -> Around
        ensures shut { (x : Shape) (t : Node) (tok : Tok) →
            feed_shut x t (names_of self.old) (stack_of self.old) tok
            ≡ shut_in result x t (names_of self.new) (stack_of self.new) tok }
        ensures nothing { result ≡ Around.Nothing → stack_of self.new ≡ [] }
        ensures room { (result ≡ Around.Nothing → ⊥) → HasRoom self.new }
    {
        match self.take() {
            Some(frame) => what_is(frame),
            None => Around::Nothing,
        }
    }
}
