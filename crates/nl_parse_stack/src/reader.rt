//! The reader between two tokens, and the ways to its stack.
ghost use Rattle.std.specs.Prelude.{◌≡◌, ◌∷◌, [], ◌+◌, length, IfSome, IfNone, IfOk, OnOk, Err};
ghost use Rattle.std.specs.Result.{IsErrOf};
ghost use Rattle.nl_parse_stack.specs.declared.reader.Refusal.TheVariants as Refusal;
ghost use Rattle.nl_parse_grammar.specs.Machine.{start, st};
ghost use Rattle.nl_parse_reading.specs.inner.Reading.{frame_of, mode_of, mode_names, names_with};
ghost use Rattle.nl_parse_stack.specs.inner.State.{stack_of, names_of, state_of, outer_stack_of, outer_names_of, HasRoom};
ghost use Rattle.nl_parse_stack.specs.inner.Steps.{Reaches};

use nl_fixed::{NoMemory, Span};
use nl_parse_reading::frames::{Frame, Mode};
use nl_parse_reading::known_names::KnownNames;
use nl_parse_reading::parts::Grouped;
use nl_tree::{Ending, Form};
use std::alloc::Global;
use std::mem;

/// Why a token is not taken.
#[derive(Drop)]
pub enum Refusal {
    /// Nothing that can still be read goes on with it.
    Unexpected,
    NoMemory,
}

impl From<NoMemory> for Refusal {
    ghost use Rattle.std.specs.Prelude.{◌≡◌};
    ghost use Rattle.nl_parse_stack.specs.declared.reader.Refusal.TheVariants as Refusal;

    ghost from_gives = { λ _ refusal. refusal ≡ Refusal.NoMemory };

    fn from(_refused: NoMemory) -> Refusal {
        Refusal::NoMemory
    }
}

/// Lets go of what is in the way of a token that is not taken, or of the token.
pub fn refuse<T: Drop>(_in_the_way: T) -> Result<(), Refusal>
    ensures { result ≡ Err Refusal.Unexpected }
{
    Err(Refusal::Unexpected)
}

/// Lets go of something.
///
/// One call in the place of a walk over all that a frame or a mode may hold keeps the proofs of its callers short.
pub fn let_go<T: Drop>(_thing: T) {}

/// A reader between two tokens.
///
/// The stack has what is open, the newest last. A name is kept in the frame of the statements that know it, so closing a block forgets its
/// names. The inputs are known all the while, and the mode says what may come next. The fields are public, since nothing ties them: whatever
/// they hold is a state of the machine.
#[derive(Drop)]
pub struct Reader<'a> {
    pub alloc: Global,
    pub inputs: &'a KnownNames,
    pub mode: Mode,
    pub stack: Vec<Frame>,
}

/// The reader before the first token, which stands there.
pub fn begin<'a>(
    alloc: Global,
    form: Form,
    inputs: &'a KnownNames,
    first: Span,
) -> Result<Reader<'a>, NoMemory>
    ensures { IfOk result (λ reader. state_of reader ≡ start form inputs.now first) }
{
    let mut stack = Vec::new(alloc);
    let mode = match form {
        Form::Commands => {
            let names = KnownNames::empty(alloc);
            let statements = Grouped::new(alloc);
            stack.push(Frame::Statements(first, Ending::AtEnd, names, statements))?;
            Mode::Stating
        }
        Form::Reporter => Mode::Begin,
    };
    Ok(Reader {
        alloc,
        inputs,
        mode,
        stack,
    })
}

impl<'a> Reader<'a> {
    /// Puts a frame on the stack.
    #[tactic(auto, using(nl_parse_reading::proofs::Framed::frames_push, nl_parse_reading::proofs::Framed::names_push))]
    pub fn put(&mut self, frame: Frame) -> Result<(), Refusal>
        ensures stack { OnOk result
            (stack_of self.new ≡ frame_of (names_of self.old) frame ∷ stack_of self.old) }
        ensures names { OnOk result (names_of self.new ≡ names_with frame (names_of self.old)) }
        ensures refused { IsErrOf result Refusal.Unexpected → ⊥ }
    {
        match self.stack.push(frame) {
            Ok(()) => Ok(()),
            Err(refused) => {
                let_go(refused);
                Err(Refusal::NoMemory)
            }
        }
    }

    /// Puts a frame on the stack, inside of which this may come next.
    pub fn enter(&mut self, mode: Mode, frame: Frame) -> Result<(), Refusal>
        ensures { Reaches result self.old self.new
            (λ e K.
            st (mode_of (names_with frame e) mode) (mode_names mode (names_with frame e))
            (frame_of e frame ∷ K)) }
    {
        let put = self.put(frame);
        self.turn(mode);
        put
    }

    /// Says what may come next.
    pub fn turn(&mut self, mode: Mode)
        ensures { state_of self.new
            ≡ st (mode_of (names_of self.old) mode) (mode_names mode (names_of self.old))
            (stack_of self.old) }
    {
        let_go(mem::replace(&mut self.mode, mode));
    }

    /// Takes out what may come next.
    pub fn take_mode(&mut self) -> Mode
        ensures state { state_of self.old
            ≡ st (mode_of (names_of self.new) result) (mode_names result (names_of self.new))
            (stack_of self.new) }
        ensures mode { result ≡ self.old.mode }
        ensures names { names_of self.new ≡ names_of self.old }
        ensures stack { stack_of self.new ≡ stack_of self.old }
    {
        mem::replace(&mut self.mode, Mode::Dead(None, None))
    }

    /// Takes the newest frame.
    #[tactic(auto, using(nl_parse_reading::proofs::Framed::frames_push, nl_parse_reading::proofs::Framed::names_push))]
    pub fn take(&mut self) -> Option<Frame>
        ensures stack { IfSome result (λ frame.
            stack_of self.old ≡ frame_of (names_of self.new) frame ∷ stack_of self.new) }
        ensures names { IfSome result (λ frame. names_of self.old ≡ names_with frame (names_of self.new)) }
        ensures none { IfNone result (stack_of self.old ≡ []) }
        ensures still_none { IfNone result (stack_of self.new ≡ []) }
        ensures same_names { IfNone result (names_of self.new ≡ names_of self.old) }
        ensures shorter { IfSome result (λ frame. length self.old.stack.items ≡ length self.new.stack.items + 1) }
        ensures room { IfSome result (λ frame. HasRoom self.new) }
    {
        self.stack.pop()
    }

    /// Puts a frame where one was taken, which takes no memory.
    #[tactic(auto, using(nl_parse_reading::proofs::Framed::frames_push, nl_parse_reading::proofs::Framed::names_push))]
    pub fn put_back(&mut self, frame: Frame)
        requires room { HasRoom self.old }
        ensures stack { stack_of self.new ≡ frame_of (names_of self.old) frame ∷ stack_of self.old }
        ensures names { names_of self.new ≡ names_with frame (names_of self.old) }
    {
        self.stack.push_reserved(frame);
    }

    /// The newest frame, which stays where it is.
    pub fn newest(&self) -> Option<&Frame>
        ensures stack { IfSome result (λ frame.
            stack_of self.now
            ≡ frame_of (outer_names_of self.now) frame.now ∷ outer_stack_of self.now) }
        ensures none { IfNone result (stack_of self.now ≡ []) }
    {
        match self.stack.as_slice() {
            [_below @ .., newest] => Some(newest),
            [] => None,
        }
    }
}
