//! Literals: a number, a text in quotes, `true`, `false`, `nobody`, the name of a color, or a list of literals in brackets.
ghost use Rattle.std.specs.Prelude.{◌≡◌, [], ◌∷◌, List, IfOk, All};
ghost use Rattle.std.specs.Option.{option_map};
ghost use Rattle.std.specs.Str.{bytes_eq};
ghost use Rattle.nl_fixed.specs.Nouns.{Bytes};
ghost use Rattle.nl_scan.specs.Tokens.{IsTokenOf};
ghost use Rattle.nl_scan.specs.declared.token.Token.{Token as Tokens};
ghost use Rattle.nl_value.specs.Views.{plain};
ghost use Rattle.nl_experiment_keys.specs.Literals.{is_fit, literal_from, literal_of, named_value, number_of_text, placed_if, token_value, whole_literal};
ghost use Rattle.nl_experiment_keys.specs.inner.Taking.{AreAlike, behind, whole_before};

use crate::nested::Nested;
use nl_fixed::{NoMemory, Num};
use nl_scan::{Lexeme, ScanRefusal, Token, scan, text_of, word_of};
use nl_value::colors::color_named;
use nl_value::texts::{TextFail, text};
use nl_value::{NoLife, Value};
use std::alloc::Global;

// So many lists may be open. A literal in which more are nests deeper than a value may, so that what is read behind doesn't matter; and nothing
// that walks or lets go of a value nests deeper than this.
const MOST_OPEN: usize = 200;

// What a token comes to.
#[derive(Drop)]
pub(crate) enum Taken {
    /// Further tokens belong to the literal.
    Further,
    /// The literal is whole.
    Whole(Value),
    /// This is no literal.
    Bad,
}

fn is_word(name: &[u8], word: &[u8]) -> bool
    ensures { result ≡ bytes_eq name.now word.now }
{
    name == word
}

// A truth, nobody, or the number of a color.
fn named(name: &[u8]) -> Option<Value>
    ensures { option_map plain result ≡ named_value name.now }
{
    if is_word(name, b"true") {
        return Some(Value::Truth(true));
    }
    if is_word(name, b"false") {
        return Some(Value::Truth(false));
    }
    if is_word(name, b"nobody") {
        return Some(Value::Nobody);
    }
    match color_named(name) {
        Some(number) => Some(Value::Number(number)),
        None => None,
    }
}

// What one token says by itself.
fn value_of(alloc: Global, text: &[u8], token: &Token) -> Result<Option<Value>, NoMemory>
    requires { IsTokenOf text.now token.now }
    ensures { IfOk result (λ found. option_map plain found ≡ token_value text.now token.now token.now.lexeme) }
{
    match token.lexeme {
        Lexeme::Word => {
            let word = word_of(alloc, text, token)?;
            Ok(named(word.as_bytes()))
        }
        Lexeme::Number(number) => Ok(Some(Value::Number(number))),
        Lexeme::Text => {
            let content = text_of(alloc, text, token)?;
            Ok(Some(Value::words(alloc, content)?))
        }
        Lexeme::Open | Lexeme::Close | Lexeme::OpenParen | Lexeme::CloseParen => Ok(None),
    }
}

// A value is taken: into the innermost list, or as the whole literal.
fn put(alloc: Global, nested: &mut Nested, value: Option<Value>) -> Result<Taken, NoMemory>
    ensures { IfOk result (λ taken. (text : Bytes) (tokens : List Tokens) →
        placed_if nested.old (option_map plain value) tokens (λ now. literal_from text tokens now)
        ≡ behind taken text tokens nested.new) }
{
    let Some(value) = value else {
        return Ok(Taken::Bad);
    };
    match nested.put(alloc, value)? {
        None => Ok(Taken::Further),
        Some(value) => Ok(Taken::Whole(value)),
    }
}

// The next token is taken.
fn take(alloc: Global, text: &[u8], token: &Token, nested: &mut Nested) -> Result<Taken, NoMemory>
    requires { IsTokenOf text.now token.now }
    ensures { IfOk result (λ taken. (tokens : List Tokens) →
        AreAlike (literal_from text.now (token.now ∷ tokens) nested.old) (behind taken text.now tokens nested.new)) }
{
    match token.lexeme {
        Lexeme::Open => {
            if nested.len() >= MOST_OPEN {
                return Ok(Taken::Bad);
            }
            nested.begin(alloc)?;
            Ok(Taken::Further)
        }
        Lexeme::Close => {
            let value = match nested.end() {
                Some(items) => Some(Value::items(alloc, items)?),
                None => None,
            };
            put(alloc, nested, value)
        }
        Lexeme::Word | Lexeme::Number(_) | Lexeme::Text | Lexeme::OpenParen | Lexeme::CloseParen =>
            {
                let value = value_of(alloc, text, token)?;
                put(alloc, nested, value)
            }
    }
}

// The literal that tokens of a text are.
fn read(alloc: Global, text: &[u8], tokens: &[Token]) -> Result<Option<Value>, NoMemory>
    requires { All (IsTokenOf text.now) tokens.now }
    ensures { IfOk result (λ found. AreAlike (option_map plain found) (literal_from text.now tokens.now [])) }
{
    let mut nested = Nested::none(alloc);
    let mut left = tokens;
    'tokens: while let Some((token, behind)) = left.split_first() {
        left = behind;
        match take(alloc, text, token, &mut nested)? {
            Taken::Further => {}
            Taken::Whole(value) => return Ok(only_last(value, left)),
            Taken::Bad => return Ok(None),
        }
    }
    Ok(None)
}

// A whole literal, behind which no token may stand.
fn only_last(value: Value, left: &[Token]) -> Option<Value>
    ensures { option_map plain result ≡ whole_before left.now (plain value) }
{
    if left.is_empty() { Some(value) } else { None }
}

// Whether a value and its text lie within the limits on values.
fn is_fitting(alloc: Global, value: &Value) -> Result<bool, NoMemory>
    ensures { IfOk result (λ fits. fits ≡ is_fit (plain value.now)) }
{
    if !value.is_within_limits() {
        return Ok(false);
    }
    match text(alloc, value, false, &NoLife) {
        Ok(_) => Ok(true),
        Err(TextFail::TooLarge) => Ok(false),
        Err(TextFail::NoMemory) => Err(NoMemory),
    }
}

/// The literal that a text holds, with gaps and comments around it: the NetLogo Programming Guide says what a literal is. None where the text
/// holds no literal or more than one, and where the value or its text passes the limits on values.
#[tactic(auto, unfolding(crate::specs::Literals::literal_of))]
pub fn literal(alloc: Global, text: &[u8]) -> Result<Option<Value>, NoMemory>
    ensures { IfOk result (λ found. option_map plain found ≡ literal_of text.now) }
{
    let tokens = match scan(alloc, text) {
        Ok(tokens) => tokens,
        Err(ScanRefusal::Fault { .. }) => return Ok(None),
        Err(ScanRefusal::NoMemory) => return Err(NoMemory),
    };
    let Some(value) = read(alloc, text, tokens.as_slice())? else {
        return Ok(None);
    };
    if is_fitting(alloc, &value)? {
        Ok(Some(value))
    } else {
        Ok(None)
    }
}

/// The number that a text holds as a literal. None where it holds none.
pub fn number(alloc: Global, text: &[u8]) -> Result<Option<Num>, NoMemory>
    ensures { IfOk result (λ found. found ≡ number_of_text text.now) }
{
    let Some(value) = literal(alloc, text)? else {
        return Ok(None);
    };
    match value {
        Value::Number(number) => Ok(Some(number)),
        _ => Ok(None),
    }
}

/// The number that a whole number is. None where it is out of the range of numbers.
pub fn whole(integer: i64) -> Option<Value>
    ensures { option_map plain result ≡ whole_literal integer }
{
    match Num::whole(integer) {
        Some(number) => Some(Value::Number(number)),
        None => None,
    }
}
