//! What agents an expression may give, by the rows of its words.
ghost use Rattle.std.specs.Prelude.{◌≡◌, ◌<◌, ℕ, [], Some, if◌then◌else◌};
ghost use Rattle.nl_tree.specs.Names.{IsDeclared};
ghost use Rattle.nl_tree.specs.Views.{plain};
ghost use Rattle.nl_tree.specs.Tree.{size};
ghost use Rattle.nl_tree.specs.Vocabulary.{terms};
ghost use Rattle.nl_tree.specs.Context.{given, told, agents_of, block_kinds, last_value};
ghost use Rattle.nl_words.specs.Kinds.{agents};
ghost use Rattle.nl_tree.specs.Tokens.{inputs_of};
ghost use Rattle.nl_tree.specs.Index.{named};
ghost use Rattle.nl_check.specs.inner.Given.{part_kinds, part_of, TellsKinds, IsBelow, is_value};

use crate::kinds::{agents, links, turtles};
use crate::words::{input_at, is_nearest, runner};
use nl_tree::{Declared, Label, Tree, Word, word};
use nl_words::{Input, Kinds, Runner};

/// The kinds of agents that run a word's block first: new turtles, new links, or what the word's input of agents may give.
pub(crate) fn block_kinds(declared: &Declared, word: &Word, tree: &Tree) -> Kinds
    requires { IsDeclared declared.now }
    ensures { result ≡ block_kinds (named [] word.now) (part_kinds declared.now tree.now) }
{
    match runner(word.what) {
        Runner::Turtles => turtles(),
        Runner::Links => links(),
        Runner::Given | Runner::Same | Runner::NoBlock => agents_of(declared, word, tree),
    }
}

// What the word's input of agents may give, among the parts of its node.
#[cycle(given)]
fn agents_of(declared: &Declared, word: &Word, tree: &Tree) -> Kinds
    requires { IsDeclared declared.now }
    ensures { result ≡ agents_of (named [] word.now) (part_kinds declared.now tree.now) }
{
    match agents_part(word, tree) {
        Some(part) => given(declared, part),
        None => agents(),
    }
}

// What agents the expression may give.
#[cycle(given)]
fn given(declared: &Declared, tree: &Tree) -> Kinds
    requires { IsDeclared declared.now }
    ensures { result ≡ given (terms declared.now) (plain tree.now) }
{
    match tree.label() {
        Label::Named(name) => match word(declared, name.as_bytes()) {
            Some(word) => told(declared, &word, tree),
            None => agents(),
        },
        Label::Paren => match tree.part(0) {
            Some(part) => given(declared, part),
            None => agents(),
        },
        _ => agents(),
    }
}

// What the word's row tells of the agents that it gives.
#[cycle(given)]
fn told(declared: &Declared, word: &Word, tree: &Tree) -> Kinds
    requires { IsDeclared declared.now }
    ensures { result ≡ told (named [] word.now) (part_kinds declared.now tree.now) }
{
    let gives = word.gives;
    if gives.turtle && gives.patch && gives.link {
        return agents_of(declared, word, tree);
    }
    if gives.turtle || gives.patch || gives.link {
        return gives;
    }
    agents()
}

// The part that is the word's input of agents: the left side of an operator of level 1, else the last value.
fn agents_part<'a>(word: &Word, tree: &'a Tree) -> Option<&'a Tree>
    ensures value { TellsKinds result tree.now (agents_of (named [] word.now)) }
    ensures smaller { IsBelow (size (plain tree.now)) result }
{
    if is_nearest(word.role) {
        return tree.part(0);
    }
    last_value(word, tree)
}

// The part that is the word's last value.
fn last_value<'a>(word: &Word, tree: &'a Tree) -> Option<&'a Tree>
    ensures value { TellsKinds result tree.now (last_value agents (inputs_of (named [] word.now))) }
    ensures smaller { IsBelow (size (plain tree.now)) result }
{
    let mut found = None;
    for at in 0..tree.len() {
        let Some(part) = tree.part(at) else {
            unreachable!()
        };
        found = chosen(is_value(input_at(word, at)), part, found);
    }
    found
}

fn is_value(input: Option<Input>) -> bool
    ensures { result ≡ is_value input }
{
    matches!(input, Some(Input::Value))
}

// The part where it is chosen, else what was found before.
fn chosen<'a>(here: bool, part: &'a Tree, found: Option<&'a Tree>) -> Option<&'a Tree>
    ensures is { part_of result ≡ (if here then Some (plain part.now) else part_of found.entry) }
    ensures smaller { (n : ℕ) → size (plain part.now) < n
        → IsBelow n found.entry → IsBelow n result }
{
    if here { Some(part) } else { found }
}
