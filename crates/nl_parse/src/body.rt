//! The reader of one text.
ghost use Rattle.std.specs.Prelude.{◌≡◌, true, List, [], ◌∷◌, ◌++◌, ◌≤◌, OnOk, IfOk, IfErr, IfSome, IfNone, All};
ghost use Rattle.nl_fixed.specs.Nouns.{Names};
ghost use Rattle.nl_scan.specs.Tokens.{IsTokenOf};
ghost use Rattle.nl_parse_grammar.specs.Texts.{plain_token, plain_tokens};
ghost use Rattle.nl_tree.specs.Tree.{Node, depth};
ghost use Rattle.nl_tree.specs.Tokens as T;
ghost use Rattle.nl_parse_grammar.specs.Machine as M;
ghost use Rattle.nl_tree.specs.Names.{IsDeclared};
ghost use Rattle.nl_tree.specs.Vocabulary.{terms};
ghost use Rattle.nl_tree.specs.Views.{plain};
ghost use Rattle.nl_tree.specs.Tokens.{mark, marked};
ghost use Rattle.nl_tree.specs.BodyFault.{IsGood, ends_at, deepest};
ghost use Rattle.nl_parse_grammar.specs.Machine.{start, feed, go, stop, st, Over, run_from};
ghost use Rattle.nl_parse_grammar.specs.Depth.{least_depth};
ghost use Rattle.nl_tree.specs.declared.declared.Form.{Form};
ghost use Rattle.nl_parse_reading.specs.inner.View.{mark_of};
ghost use Rattle.nl_parse.specs.Outcome.{Refuses};
ghost use Rattle.nl_parse.specs.inner.Stops.{StopsAt, StopsIn, first_span};
ghost use Rattle.nl_parse_reading.specs.inner.Reading.{mode_of};
ghost use Rattle.nl_parse_stack.specs.inner.State.{names_of, state_of};
ghost use Rattle.nl_parse_stack.specs.inner.Steps.{sees_first};
ghost use Rattle.std.specs.Result.{IsErrOf};
ghost use Rattle.nl_parse.specs.declared.body.BodyRefusal.TheVariants as BodyRefusal;

use crate::kinds::kind_before;
use crate::steps::feed;
use nl_fixed::{Names, NoMemory, Span};
use nl_parse_reading::classes::class_of_word;
use nl_parse_reading::frames::Mode;
use nl_parse_reading::known_names::KnownNames;
use nl_parse_reading::marks::{Head, Mark};
use nl_parse_reading::parts::{Grown, TOO_DEEP};
use nl_parse_stack::reader::{Reader, Refusal, begin, let_go};
use nl_scan::{Lexeme, Token, text_of, word_of};
use nl_tree::{BodyKind, Declared, Form, Tree, word};
use std::alloc::Global;

/// Why a text isn't read: its first fault with the place of the token with which it can no longer be good, or want of memory.
///
/// The place of what ends the text is the number of its tokens.
#[derive(Clone, Copy, Debug, PartialEq, Eq)]
pub enum BodyRefusal {
    Fault { kind: BodyKind, place: usize },
    NoMemory,
}

impl From<NoMemory> for BodyRefusal {
    ghost use Rattle.std.specs.Prelude.{◌≡◌};
    ghost use Rattle.nl_parse.specs.declared.body.BodyRefusal.TheVariants as BodyRefusal;

    ghost from_gives = { λ _ refusal. refusal ≡ BodyRefusal.NoMemory };

    fn from(_refused: NoMemory) -> BodyRefusal {
        BodyRefusal::NoMemory
    }
}

/// Reads the tokens of a body, or of a lone text, as one tree.
///
/// The tokens are some of those that `scan` gives for the text, and `end` is the place of what ends them. In a body the inputs are known
/// from the start.
pub fn read_body(
    alloc: Global,
    text: &[u8],
    tokens: &[Token],
    end: Span,
    form: Form,
    inputs: &Names,
    declared: &Declared,
) -> Result<Tree, BodyRefusal>
    requires declared { IsDeclared declared.now }
    requires tokens { All (IsTokenOf text.now) tokens.now }
    ensures ok { IfOk result (λ tree.
        IsGood form inputs.now (terms declared.now)
        (plain_tokens text.now tokens.now ++ ends_at end ∷ []) (plain tree)) }
    ensures fault { IfErr result
        (Refuses form inputs.now (terms declared.now)
        (plain_tokens text.now tokens.now ++ ends_at end ∷ [])) }
{
    let inputs = KnownNames::of(alloc, inputs.as_slice())?;
    let mut reader = begin(alloc, form, &inputs, first_place(tokens, end))?;
    let read = read_whole(&mut reader, text, tokens, end, declared);
    let_go(reader);
    read
}

// Where the first token stands, or what ends them.
fn first_place(tokens: &[Token], end: Span) -> Span
    ensures { result ≡ first_span tokens.now end }
{
    match tokens {
        [token, ..] => token.span,
        [] => end,
    }
}

// Goes over these tokens of the text and what ends them, from the start.
fn read_whole(
    reader: &mut Reader,
    text: &[u8],
    tokens: &[Token],
    end: Span,
    declared: &Declared,
) -> Result<Tree, BodyRefusal>
    requires declared { IsDeclared declared.now }
    requires tokens { All (IsTokenOf text.now) tokens.now }
    requires allowed { least_depth (state_of reader.old) ≤ deepest }
    ensures ok { (form : Form) (names : Names) →
        state_of reader.old ≡ start form names (first_span tokens.now end) →
        IfOk result (λ tree.
        IsGood form names (terms declared.now)
        (plain_tokens text.now tokens.now ++ ends_at end ∷ []) (plain tree)) }
    ensures fault { (form : Form) (names : Names) →
        state_of reader.old ≡ start form names (first_span tokens.now end) →
        IfErr result
        (Refuses form names (terms declared.now)
        (plain_tokens text.now tokens.now ++ ends_at end ∷ [])) }
{
    if let Err(refusal) = read_tokens(reader, text, tokens, declared) {
        return Err(refusal);
    }
    finish(reader, end, tokens.len())
}

// Goes over these tokens of the text.
fn read_tokens(
    reader: &mut Reader,
    text: &[u8],
    tokens: &[Token],
    declared: &Declared,
) -> Result<(), BodyRefusal>
    requires declared { IsDeclared declared.now }
    requires tokens { All (IsTokenOf text.now) tokens.now }
    requires allowed { least_depth (state_of reader.old) ≤ deepest }
    ensures ok { OnOk result
        (run_from (go (state_of reader.old))
        (marked (terms declared.now) (plain_tokens text.now tokens.now))
        ≡ go (state_of reader.new)) }
    ensures allowed { OnOk result (least_depth (state_of reader.new) ≤ deepest) }
    ensures fault { IfErr result (StopsIn (terms declared.now) text.now (state_of reader.old) tokens.now) }
{
    for (place, token) in tokens.iter().enumerate() {
        let mark = mark_at(reader.alloc, text, token, declared)?;
        if let Err(refusal) = step(reader, place, mark) {
            return Err(refusal);
        }
    }
    Ok(())
}

// Goes over one token, which stands at this place among all.
fn step(reader: &mut Reader, place: usize, mark: Mark) -> Result<(), BodyRefusal>
    ensures ok { OnOk result (feed (state_of reader.old) (mark_of mark) ≡ go (state_of reader.new)) }
    ensures allowed { OnOk result (least_depth (state_of reader.new) ≤ deepest) }
    ensures fault { IfErr result (StopsAt (state_of reader.old) (mark_of mark) place) }
    ensures told { sees_first (mode_of (names_of reader.old) reader.old.mode) ≡ true →
        feed (state_of reader.old) (mark_of mark) ≡ stop →
        IsErrOf result BodyRefusal.NoMemory → ⊥ }
{
    let kind = kind_before(reader, &mark);
    match feed(reader, mark) {
        Ok(()) => {}
        Err(Refusal::Unexpected) => return Err(BodyRefusal::Fault { kind, place }),
        Err(Refusal::NoMemory) => return Err(BodyRefusal::NoMemory),
    }
    if reader.least_depth() >= TOO_DEEP {
        let kind = BodyKind::TooDeep;
        return Err(BodyRefusal::Fault { kind, place });
    }
    Ok(())
}

// Goes over what ends the text, and gives the tree.
fn finish(reader: &mut Reader, end: Span, place: usize) -> Result<Tree, BodyRefusal>
    ensures ok { IfOk result (λ tree.
        (e : Names) × (K : List M.Frame)
        × ((feed (state_of reader.old) (T.end end) ≡ go (st (Over (plain tree)) e K))
        × (depth (plain tree) ≤ deepest))) }
    ensures fault { IfErr result (StopsAt (state_of reader.old) (T.end end) place) }
    ensures told { sees_first (mode_of (names_of reader.old) reader.old.mode) ≡ true →
        feed (state_of reader.old) (T.end end) ≡ stop →
        IsErrOf result BodyRefusal.NoMemory → ⊥ }
{
    if let Err(refusal) = step(reader, place, Mark::End(end)) {
        return Err(refusal);
    }
    match take_whole(reader) {
        Some(tree) => Ok(tree.into_tree()),
        None => unreachable!(),
    }
}

// The tree of the whole text, if it is there.
fn take_whole(reader: &mut Reader) -> Option<Grown>
    ensures some { IfSome result (λ tree. mode_of (names_of reader.old) reader.old.mode ≡ Over tree) }
    ensures none { IfNone result ((t : Node) → mode_of (names_of reader.old) reader.old.mode ≡ Over t → ⊥) }
{
    match reader.take_mode() {
        Mode::Over(tree) => Some(tree),
        other => {
            let_go(other);
            None
        }
    }
}

// A token of the text with what the row of its word makes of it.
fn mark_at(alloc: Global, text: &[u8], token: &Token, declared: &Declared) -> Result<Mark, NoMemory>
    requires declared { IsDeclared declared.now }
    requires token { IsTokenOf text.now token.now }
    ensures { IfOk result (λ made.
        mark_of made ≡ mark (terms declared.now) (plain_token text.now token.now)) }
{
    let span = token.span;
    match token.lexeme {
        Lexeme::Word => {
            let name = word_of(alloc, text, token)?;
            let class = class_of_word(name.as_bytes(), word(declared, name.as_bytes()));
            Ok(Mark::Word(Head { name, place: span }, class))
        }
        Lexeme::Number(number) => Ok(Mark::Number(number, span)),
        Lexeme::Text => Ok(Mark::Text(text_of(alloc, text, token)?, span)),
        Lexeme::Open => Ok(Mark::OpenBracket(span)),
        Lexeme::Close => Ok(Mark::CloseBracket(span)),
        Lexeme::OpenParen => Ok(Mark::OpenParen(span)),
        Lexeme::CloseParen => Ok(Mark::CloseParen(span)),
    }
}
