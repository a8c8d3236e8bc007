//! What a word's row makes of it for the reader.
ghost use Rattle.std.specs.Prelude.{◌≡◌, [], ◌∷◌, ◌++◌, ℕ, MatchOption};
ghost use Rattle.std.specs.List.{list_any};
ghost use Rattle.std.specs.Option.{option_map};
ghost use Rattle.nl_fixed.specs.Nouns.{Name};
ghost use Rattle.nl_words.specs.declared.entry.Role.TheVariants as role;
ghost use Rattle.nl_tree.specs.Index.{named};
ghost use Rattle.nl_tree.specs.Tokens.{repeated, class_of, command_class, is_new, many_class, names_of, reporter_class, reporter_of, reserved_class, near_class, operator_class, class_by};
ghost use Rattle.nl_parse_reading.specs.inner.View as V;
ghost use Rattle.nl_parse_reading.specs.inner.Counts.{are_values, is_let, is_value, is_with, near_by};

use crate::marks::{Class, Inputs};
use nl_tree::{Block, Content, Word};
use nl_words::{Input, Role, Turns};

/// What the row of a word of this name makes of it, or that it has none.
pub fn class_of_word(name: &[u8], row: Option<Word>) -> Class
    ensures { V.class_of result ≡ class_of (option_map (named name.now) row) }
{
    match row {
        Some(word) => class_of_row(name, word),
        None => Class::Unknown,
    }
}

// How many names the head of its arrow block has at most: as many as a turn has values. Without parentheses there is one list.
fn names_of(turns: Turns) -> u64
    ensures { result ≡ names_of turns }
{
    match turns {
        Turns::NoTurn => 0,
        Turns::OneValue => 1,
        Turns::TwoValues => 2,
        Turns::ValueOfEachList => 1,
    }
}

// What a row makes of a word of this name.
fn class_of_row(name: &[u8], word: Word) -> Class
    ensures { V.class_of result
        ≡ class_by name.now word.role word.many (names_of word.turns)
        (word.inputs.now ++ repeated word.values) }
{
    let Word {
        role,
        inputs,
        values,
        many,
        turns,
        ..
    } = word;
    let names = names_of(turns);
    match role {
        Role::Command => command_class(inputs, values, names),
        Role::Reporter => reporter_by(many, inputs, values, names),
        Role::Operator(level) => operator_class(level, name == b"-".as_slice(), inputs, values),
        Role::Constant => Class::Constant,
        Role::Variable => Class::Named,
        Role::Reserved => reserved_class(name == b"->".as_slice()),
    }
}

// A word that is reserved, which may be the arrow.
fn reserved_class(arrow: bool) -> Class
    ensures { V.class_of result ≡ reserved_class arrow }
{
    if arrow { Class::Arrow } else { Class::Nowhere }
}

// A reporter, which may have any number of inputs in parentheses. With turns it has its usual ones without them.
fn reporter_by(many: bool, listed: &'static [Input], values: u32, names: u64) -> Class
    ensures { (name : Name) → V.class_of result
        ≡ class_by name role.Reporter many names (listed.now ++ repeated values) }
{
    if many && names == 0 {
        return many_class(listed, values);
    }
    reporter_class(listed, values, names)
}

// A command. With a new name among its inputs it is `let`, or may stand nowhere.
#[tactic(auto, using(crate::proofs::Rows::let_class, crate::proofs::Rows::new_command, crate::proofs::Rows::other_class))]
fn command_class(listed: &'static [Input], values: u32, names: u64) -> Class
    ensures { V.class_of result ≡ command_class names (listed.now ++ repeated values) }
{
    if is_let(listed, values) {
        return Class::Let;
    }
    if asks_new_name(listed) {
        return Class::Nowhere;
    }
    Class::Command(Inputs {
        listed,
        values,
        whole: true,
        names,
    })
}

// Whether a new name is among the inputs.
fn asks_new_name(listed: &'static [Input]) -> bool
    ensures { result ≡ list_any is_new listed.now }
{
    let mut rest = listed;
    'listed: while let [input, behind @ ..] = rest {
        if let Input::Fresh = input {
            return true;
        }
        rest = behind;
    }
    false
}

// Whether the inputs are a new name and a value.
#[tactic(auto, using(crate::proofs::Rows::no_let))]
fn is_let(listed: &'static [Input], values: u32) -> bool
    ensures { result ≡ is_let (listed.now ++ repeated values) }
{
    match listed {
        [Input::Fresh, behind @ ..] => is_value(behind, values),
        [_, ..] => false,
        [] => false,
    }
}

// Whether they are one value.
#[tactic(auto, using(crate::proofs::Rows::one_count, crate::proofs::Rows::no_count))]
fn is_value(listed: &'static [Input], values: u32) -> bool
    ensures { result ≡ is_value (listed.now ++ repeated values) }
{
    match count(listed, values) {
        Some(inputs) => inputs == 1,
        None => false,
    }
}

// A reporter of any number of values.
#[tactic(auto, using(crate::proofs::Rows::many_of, crate::proofs::Rows::many_none))]
fn many_class(listed: &'static [Input], values: u32) -> Class
    ensures { V.class_of result ≡ many_class (listed.now ++ repeated values) }
{
    match count(listed, values) {
        Some(0) => Class::Nowhere,
        Some(inputs) => Class::Many(inputs - 1),
        None => Class::Nowhere,
    }
}

// How many values these are, if they are nothing else.
#[tactic(auto, using(crate::proofs::Rows::all_repeated, crate::proofs::Rows::not_repeated))]
fn count(listed: &'static [Input], values: u32) -> Option<u64>
    ensures { MatchOption result ((n : ℕ) → listed.now ++ repeated values ≡ repeated n → ⊥)
        (λ n. listed.now ++ repeated values ≡ repeated n) }
{
    if !are_values(listed) {
        return None;
    }
    Some(listed.len() as u64 + u64::from(values))
}

// Whether all inputs are values.
fn are_values(listed: &'static [Input]) -> bool
    ensures { result ≡ are_values listed.now }
{
    let mut rest = listed;
    'listed: while let [input, behind @ ..] = rest {
        let Input::Value = input else {
            return false;
        };
        rest = behind;
    }
    true
}

// A reporter, which asks for no new name.
#[tactic(auto, using(crate::proofs::Rows::new_reporter, crate::proofs::Rows::other_reporter))]
fn reporter_class(listed: &'static [Input], values: u32, names: u64) -> Class
    ensures { V.class_of result ≡ reporter_class names (listed.now ++ repeated values) }
{
    if asks_new_name(listed) {
        return Class::Nowhere;
    }
    reporter_of(listed, values, names)
}

// A reporter, whose last input is told apart from those before it.
#[tactic(auto, using(crate::proofs::Rows::repeated_last, crate::proofs::Rows::item_last))]
fn reporter_of(listed: &'static [Input], values: u32, names: u64) -> Class
    ensures { V.class_of result ≡ reporter_of names (listed.now ++ repeated values) }
{
    if values > 0 {
        return Class::Prefix(Inputs {
            listed,
            values: values - 1,
            whole: false,
            names,
        });
    }
    match listed {
        [] => Class::Plain,
        [before @ .., last] => closed_class(before, names, *last),
    }
}

// A reporter with these inputs and a last one.
#[tactic(auto, using(crate::proofs::Rows::item_closed, crate::proofs::Rows::commands_closed, crate::proofs::Rows::reporter_closed, crate::proofs::Rows::arrow_commands_closed, crate::proofs::Rows::arrow_reporter_closed, crate::proofs::Rows::other_last))]
fn closed_class(listed: &'static [Input], names: u64, last: Input) -> Class
    ensures { V.class_of result ≡ reporter_of names (listed.now ++ last ∷ []) }
{
    let before = Inputs {
        listed,
        values: 0,
        whole: false,
        names,
    };
    match last {
        Input::Value => Class::Prefix(before),
        Input::Commands => Class::Closing(before, Block::Commands),
        Input::Reporter => Class::Closing(before, Block::Reporter),
        Input::ArrowCommands => Class::Closing(before, Block::Arrow(Content::Commands, names)),
        Input::ArrowReporter => Class::Closing(before, Block::Arrow(Content::Reporter, names)),
        _ => Class::Nowhere,
    }
}

// An operator of a level.
fn operator_class(level: u8, minus: bool, listed: &'static [Input], values: u32) -> Class
    ensures { V.class_of result ≡ operator_class level minus (listed.now ++ repeated values) }
{
    if level == 1 {
        return near_class(listed, values);
    }
    if level == 2 {
        return Class::Of;
    }
    if level < 4 {
        return Class::Nowhere;
    }
    if level > 9 {
        return Class::Nowhere;
    }
    Class::Binary(level - 4, minus)
}

// An operator of level 1: a block, or closed values, on its right.
#[tactic(auto, using(crate::proofs::Rows::near_with, crate::proofs::Rows::near_count, crate::proofs::Rows::near_nothing))]
fn near_class(listed: &'static [Input], values: u32) -> Class
    ensures { V.class_of result ≡ near_class (listed.now ++ repeated values) }
{
    if is_with(listed, values) {
        return Class::With;
    }
    match count(listed, values) {
        Some(inputs) => near_of(inputs),
        None => Class::Nowhere,
    }
}

// Such an operator of so many values.
fn near_of(inputs: u64) -> Class
    ensures { V.class_of result ≡ near_by inputs }
{
    match inputs {
        2 => Class::Near(0),
        3 => Class::Near(1),
        _ => Class::Nowhere,
    }
}

// Whether the inputs are a value and a block of one expression.
fn is_with(listed: &'static [Input], values: u32) -> bool
    ensures { result ≡ is_with (listed.now ++ repeated values) }
{
    if values > 0 {
        return false;
    }
    is_pair(listed)
}

fn is_pair(listed: &'static [Input]) -> bool
    ensures { result ≡ is_with listed.now }
{
    match listed {
        [Input::Value, Input::Reporter] => true,
        _ => false,
    }
}
