//! Names of widgets and of what is varied.
ghost use Rattle.std.specs.Prelude.{◌≡◌, ◌==◌, IfOk, string_bytes};
ghost use Rattle.std.specs.List.{list_any};
ghost use Rattle.std.specs.Char.{is_ascii_uppercase};
ghost use Rattle.std.specs.Str.{bytes_eq};
ghost use Rattle.nl_words.specs.Table.{is_name, is_word, is_word_byte};
ghost use Rattle.nl_experiment_fields.specs.Names as spec;

use crate::numbers::is_number;
use nl_fixed::NoMemory;
use nl_parse_reading::known_names::KnownNames;
use nl_words::base_words;
use std::alloc::Global;

// Whether a byte is one of these signs.
fn is_sign(byte: u8, signs: &[u8]) -> bool
    ensures { result ≡ list_any (λ sign. sign == byte) signs.now }
{
    'signs: for sign in signs {
        if *sign == byte {
            return true;
        }
    }
    false
}

// Whether a byte may stand in a word.
fn stands_in_words(byte: u8) -> bool
    ensures { result ≡ is_word_byte byte }
{
    byte.is_ascii_alphanumeric() || is_sign(byte, b".?=*!<>:#+/%$_^'&-")
}

fn is_word(name: &[u8]) -> bool
    ensures { result ≡ is_word name.now }
{
    if name.is_empty() {
        return false;
    }
    'bytes: for byte in name {
        if !stands_in_words(*byte) {
            return false;
        }
    }
    true
}

fn has_capital(name: &[u8]) -> bool
    ensures { result ≡ list_any is_ascii_uppercase name.now }
{
    'bytes: for byte in name {
        if byte.is_ascii_uppercase() {
            return true;
        }
    }
    false
}

// Whether a text has a name's form.
fn is_name(name: &[u8]) -> bool
    ensures { result ≡ is_name name.now }
{
    is_word(name) && !has_capital(name) && !is_number(name)
}

// Whether a built-in word has the name.
fn is_built_in(name: &[u8]) -> bool
    ensures { result ≡ spec.is_built_in name.now }
{
    base_words().find(name).is_some()
}

/// Whether a widget may have the name, where others are known already.
pub fn can_be_widget(others: &KnownNames, name: &[u8]) -> bool
    ensures { result ≡ spec.can_be_widget others.now name.now }
{
    is_name(name) && !is_built_in(name) && !others.has(name)
}

fn is_same(name: &[u8], other: &[u8]) -> bool
    ensures { result ≡ bytes_eq name.now other.now }
{
    name == other
}

fn is_bound(name: &[u8]) -> bool
    ensures { result ≡ spec.is_bound name.now }
{
    is_same(b"min-pxcor", name)
        || is_same(b"max-pxcor", name)
        || is_same(b"min-pycor", name)
        || is_same(b"max-pycor", name)
}

/// Whether the name is that of the seed of a run.
pub fn is_seed(name: &[u8]) -> bool
    ensures { result ≡ spec.is_seed name.now }
{
    is_same(b"random-seed", name)
}

/// Whether the name is that of a bound of the world or of the seed.
pub fn is_of_run(name: &[u8]) -> bool
    ensures { result ≡ spec.is_of_run name.now }
{
    is_bound(name) || is_seed(name)
}

/// Whether a variable may have the name, where others are varied already.
pub fn can_be_varied(others: &KnownNames, name: &[u8]) -> bool
    ensures { result ≡ spec.can_be_varied others.now name.now }
{
    (is_of_run(name) && !others.has(name)) || can_be_widget(others, name)
}

/// The name in lower case, as it is compared with others.
pub fn lowered(alloc: Global, key: &str) -> Result<String, NoMemory>
    ensures { IfOk result (λ name. string_bytes name ≡ spec.lowered key.now) }
{
    Ok(key.to_ascii_lowercase(alloc)?)
}
