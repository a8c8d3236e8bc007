//! Tokens with what the rows of their words make of them.
ghost use Rattle.std.specs.Prelude.{◌≡◌, ◌∷◌, [], ℕ, MatchOption};
ghost use Rattle.nl_parse_reading.specs.inner.View.{needs_of, need_by, behind_maybes, mark_of};
ghost use Rattle.nl_words.specs.declared.entry.Input.TheVariants as input;
ghost use Rattle.nl_parse_grammar.specs.Machine.{without_maybes, begins_statement};

use nl_fixed::{Num, Span, Str};
use nl_tree::{Block, Content, Need};
use nl_words::Input;

/// Inputs of a word, in order: those that are listed, and then so many values.
#[derive(Clone, Copy, Drop)]
pub struct Inputs {
    pub listed: &'static [Input],
    pub values: u32,
    /// Whether a value is a whole expression, as behind a command, or an item.
    pub whole: bool,
    /// How many names the head of an arrow block among them has at most.
    pub names: u64,
}

/// What a word is to the reader.
#[derive(Clone, Copy, Drop)]
pub enum Class {
    /// No row: perhaps a local.
    Unknown,
    /// May stand in a literal list.
    Constant,
    /// A reporter without inputs.
    Plain,
    /// A variable that has a row.
    Named,
    /// A reporter: these inputs, then an item.
    Prefix(Inputs),
    /// A reporter of one item and so many more, or in parentheses of any number.
    Many(u64),
    /// A reporter: these inputs, then a block.
    Closing(Inputs, Block),
    Command(Inputs),
    /// A command: a new name, then a whole expression.
    Let,
    /// Level 1, with a block on the right.
    With,
    /// Level 1, with one right side and so many more.
    Near(u64),
    Of,
    /// An operator of so many levels past 4; whether it is the minus sign.
    Binary(u8, bool),
    /// Ends the head of an arrow block.
    Arrow,
    /// May stand nowhere in a text.
    Nowhere,
}

/// A word and where it stands.
#[derive(Drop)]
pub struct Head {
    pub name: Str,
    pub place: Span,
}

/// A token.
#[derive(Drop)]
pub enum Mark {
    Number(Num, Span),
    Text(Str, Span),
    Word(Head, Class),
    OpenBracket(Span),
    CloseBracket(Span),
    OpenParen(Span),
    CloseParen(Span),
    End(Span),
}

/// What a word reads for one listed input, where the head of an arrow block has so many names at most.
pub fn need_for(whole: bool, names: u64, input: Input) -> Need
    ensures { result ≡ need_by whole names input }
{
    match input {
        Input::Value => value_need(whole),
        Input::Expression => Need::Whole,
        Input::Commands => Need::Within(Block::Commands),
        Input::MaybeCommands => Need::Maybe,
        Input::Reporter => Need::Within(Block::Reporter),
        Input::Variable => Need::Variable,
        Input::Fresh => Need::Whole,
        Input::ArrowCommands => Need::Within(Block::Arrow(Content::Commands, names)),
        Input::ArrowReporter => Need::Within(Block::Arrow(Content::Reporter, names)),
        Input::Cases => Need::Whole,
    }
}

// What a word reads for a value.
fn value_need(whole: bool) -> Need
    ensures { (names : ℕ) → result ≡ need_by whole names input.Value }
{
    if whole { Need::Whole } else { Need::Item }
}

impl Inputs {
    /// The first input, and those behind it.
    #[tactic(auto, using(crate::proofs::Needs::one_less_value))]
    pub fn split(self) -> Option<(Need, Inputs)>
        ensures { MatchOption result (needs_of self ≡ [])
            (λ pair. needs_of self ≡ pair.0 ∷ needs_of pair.1) }
    {
        let Inputs {
            listed,
            values,
            whole,
            names,
        } = self;
        match listed {
            [input, rest @ ..] => Some((
                need_for(whole, names, *input),
                Inputs {
                    listed: rest,
                    values,
                    whole,
                    names,
                },
            )),
            [] => {
                if values == 0 {
                    return None;
                }
                Some((
                    value_need(whole),
                    Inputs {
                        listed,
                        values: values - 1,
                        whole,
                        names,
                    },
                ))
            }
        }
    }

    /// The inputs behind blocks that are missing.
    #[tactic(auto, using(crate::proofs::Needs::without_maybes_view))]
    pub fn without_maybes(self) -> Inputs
        ensures { needs_of result ≡ without_maybes (needs_of self) }
    {
        let Inputs {
            listed,
            values,
            whole,
            names,
        } = self;
        Inputs {
            listed: behind_maybes(listed),
            values,
            whole,
            names,
        }
    }
}

// The inputs behind blocks that may be missing.
fn behind_maybes(listed: &'static [Input]) -> &'static [Input]
    ensures { result.now ≡ behind_maybes listed.entry.now }
{
    let mut rest = listed;
    'maybes: while let [Input::MaybeCommands, behind @ ..] = rest {
        rest = behind;
    }
    rest
}

/// Whether the token begins a statement, or would where one may stand.
pub fn begins_statement(mark: &Mark) -> bool
    ensures { result ≡ begins_statement (mark_of mark.now) }
{
    match mark {
        Mark::Word(_, _) => true,
        Mark::OpenParen(_) => true,
        _ => false,
    }
}
