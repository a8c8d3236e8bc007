//! What the reader asks of its stack and of what it knows.
ghost use Rattle.std.specs.Prelude.{◌≡◌, ◌∷◌, List};
ghost use Rattle.nl_fixed.specs.Nouns.{Names};
ghost use Rattle.nl_tree.specs.Vocabulary.{among};
ghost use Rattle.nl_parse_grammar.specs.Depth.{least_depth};
ghost use Rattle.nl_parse_grammar.specs.Machine as M;
ghost use Rattle.nl_parse_grammar.specs.Machine.{takes_operator};
ghost use Rattle.nl_parse_reading.specs.inner.Limit.{capped};
ghost use Rattle.nl_parse_reading.specs.inner.Reading.{frame_of};
ghost use Rattle.nl_parse_stack.specs.inner.Asked.{is_at_side, is_in_call, is_in_list, is_stating, more_sides};
ghost use Rattle.nl_parse_stack.specs.inner.State.{stack_of, names_of, state_of};

use crate::reader::Reader;
use nl_parse_reading::depths::least_depth;
use nl_parse_reading::frames::{Frame, make_name, takes_operator};

impl<'a> Reader<'a> {
    /// Whether a right side of an operator of level 1 is read, with no other frame between.
    pub fn is_at_side(&self) -> bool
        ensures { result ≡ is_at_side (stack_of self.now) }
    {
        match self.newest() {
            Some(Frame::Near(_, _, _)) => true,
            _ => false,
        }
    }

    /// Whether a right side is read that others follow.
    pub fn has_more_sides(&self) -> bool
        ensures { result ≡ more_sides (stack_of self.now) }
    {
        match self.newest() {
            Some(frame) => is_more_sides(frame),
            None => false,
        }
    }

    /// Whether a literal list is read, with no other frame between.
    pub fn is_in_list(&self) -> bool
        ensures { result ≡ is_in_list (stack_of self.now) }
    {
        match self.newest() {
            Some(Frame::List(_, _)) => true,
            _ => false,
        }
    }

    /// Whether an input of a call is read.
    pub fn is_in_call(&self) -> bool
        ensures { result ≡ is_in_call (stack_of self.now) }
    {
        match self.newest() {
            Some(Frame::Call(_, _, _, _, _)) => true,
            _ => false,
        }
    }

    /// Whether a statement may stand here.
    pub fn is_stating(&self) -> bool
        ensures { result ≡ is_stating (stack_of self.now) }
    {
        match self.newest() {
            Some(Frame::Statements(_, _, _, _)) => true,
            Some(Frame::ArrowCommands(_, _, _, _)) => true,
            Some(Frame::StatementParen(_)) => true,
            _ => false,
        }
    }

    /// Whether an operator may follow an expression here.
    pub fn may_operate(&self) -> bool
        ensures { result ≡ takes_operator (stack_of self.now) }
    {
        match self.newest() {
            Some(frame) => takes_operator(frame),
            None => true,
        }
    }

    /// Whether the name is that of a local or an input that is known.
    pub fn knows(&self, name: &[u8]) -> bool
        ensures { result ≡ among name.now (names_of self.now) }
    {
        make_name(self.stack.as_slice(), name) || self.inputs.has(name)
    }

    /// The least depth that the whole tree can still have, up to `TOO_DEEP`.
    pub fn least_depth(&self) -> u32
        ensures { result ≡ capped (least_depth (state_of self.now)) }
    {
        least_depth(&self.mode, self.stack.as_slice())
    }
}

// Whether the frame is that of a right side that others follow.
fn is_more_sides(frame: &Frame) -> bool
    ensures { (e : Names) (below : List M.Frame) → result ≡ more_sides (frame_of e frame.now ∷ below) }
{
    match frame {
        Frame::Near(_, _, others) => *others > 0,
        _ => false,
    }
}
