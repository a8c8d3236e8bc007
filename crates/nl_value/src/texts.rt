//! The texts of values.
ghost use Rattle.std.specs.Prelude.{◌≡◌, ◌+◌, ◌<◌, ◌≤◌, length, IsTrue, IfOk, Err, codes, false, if◌then◌else◌};
ghost use Rattle.std.specs.List.{join_with_byte};
ghost use Rattle.nl_value.specs.Plain.{PlainItems, plains};
ghost use Rattle.nl_value.specs.Limits.{most_bytes};
ghost use Rattle.nl_value.specs.Living.{fits, all_fit, has_name};
ghost use Rattle.nl_fixed.specs.Quoted.{written_byte, quoted_text};
ghost use Rattle.nl_value.specs.Text.{text_of, texts_of, space};
ghost use Rattle.nl_value.specs.inner.Appends.{Appends};
ghost use Rattle.nl_value.specs.Views.{plain};

use crate::life::Life;
use crate::measures::MOST_SIZE;
use crate::values::{Items, Value};
use nl_fixed::{NoMemory, Str};
use std::alloc::Global;
use thiserror::Error;

/// Why a value has no text.
#[derive(Clone, Copy, Debug, PartialEq, Eq, Error)]
pub enum TextFail {
    /// The text as a value would be greater than 1,000,000.
    #[error("the text is too large")]
    TooLarge,
    #[error("out of memory")]
    NoMemory,
}

impl From<NoMemory> for TextFail {
    ghost use Rattle.std.specs.Prelude.{◌≡◌};
    ghost use Rattle.nl_value.specs.declared.texts.TextFail.TheVariants.{NoMemory};

    ghost from_gives = { λ _ e. e ≡ NoMemory };

    fn from(_refused: NoMemory) -> TextFail {
        TextFail::NoMemory
    }
}

/// How many bytes a text has at most: a text has the size 1 besides its bytes.
const MOST: usize = MOST_SIZE as usize - 1;

/// Appends bytes, where the text stays within its limit.
fn put(alloc: Global, out: &mut Str, more: &[u8]) -> Result<(), TextFail>
    ensures { Appends result out.old more.now out.new }
{
    if out.as_bytes().len().saturating_add(more.len()) > MOST {
        return Err(TextFail::TooLarge);
    }
    out.append(alloc, more)?;
    Ok(())
}

/// Appends a byte of a text between quotes.
fn put_escaped(alloc: Global, out: &mut Str, byte: u8) -> Result<(), TextFail>
    ensures { Appends result out.old (written_byte byte) out.new }
{
    match byte {
        b'\n' => put(alloc, out, b"\\n"),
        b'\t' => put(alloc, out, b"\\t"),
        b'\\' => put(alloc, out, b"\\\\"),
        b'"' => put(alloc, out, b"\\\""),
        _ => put(alloc, out, &[byte]),
    }
}

/// Appends a text between quotes.
fn put_quoted(alloc: Global, out: &mut Str, bytes: &[u8]) -> Result<(), TextFail>
    ensures { Appends result out.old (quoted_text bytes.now) out.new }
{
    put(alloc, out, b"\"")?;
    for byte in bytes {
        put_escaped(alloc, out, *byte)?;
    }
    put(alloc, out, b"\"")?;
    Ok(())
}

/// Appends a text as it is, or between quotes.
fn put_words(alloc: Global, out: &mut Str, words: &[u8], quoted: bool) -> Result<(), TextFail>
    ensures { Appends result out.old (if quoted then quoted_text words.now else words.now) out.new }
{
    if quoted {
        put_quoted(alloc, out, words)
    } else {
        put(alloc, out, words)
    }
}

/// Appends the word of a truth.
fn put_truth(alloc: Global, out: &mut Str, truth: bool) -> Result<(), TextFail>
    ensures { Appends result out.old (if truth then codes "true" else codes "false") out.new }
{
    if truth {
        put(alloc, out, b"true")
    } else {
        put(alloc, out, b"false")
    }
}

/// Appends the text of an agent or a set.
fn put_named<L: Life>(alloc: Global, out: &mut Str, value: &Value, life: &L) -> Result<(), TextFail>
    requires named { IsTrue (has_name (plain value.now)) }
    requires fit { IsTrue (fits (L.living life.now) (plain value.now)) }
    ensures { let w = L.living life.now in
        Appends result out.old (text_of w false (plain value.now)) out.new }
{
    if value.is_gone(life) {
        return put(alloc, out, b"nobody");
    }
    let name = life.name(alloc, value)?;
    put(alloc, out, name.as_bytes())
}

/// Appends the texts of the items, with a space between each two.
#[cycle(text)]
fn put_spaced<L: Life>(
    alloc: Global,
    out: &mut Str,
    items: &Items,
    life: &L,
) -> Result<(), TextFail>
    requires { IsTrue (all_fit (L.living life.now) (plains items.now)) }
    ensures { let w = L.living life.now in
        Appends result out.old (join_with_byte space (texts_of w (plains items.now))) out.new }
{
    let Some((first, others)) = items.list.split_first() else {
        return Ok(());
    };
    put_value(alloc, out, first, true, life)?;
    for other in others {
        put(alloc, out, b" ")?;
        put_value(alloc, out, other, true, life)?;
    }
    Ok(())
}

/// Appends the text of a list.
#[cycle(text)]
fn put_items<L: Life>(alloc: Global, out: &mut Str, items: &Items, life: &L) -> Result<(), TextFail>
    requires { IsTrue (all_fit (L.living life.now) (plains items.now)) }
    ensures { let w = L.living life.now in
        Appends result out.old (text_of w false (PlainItems (plains items.now))) out.new }
{
    put(alloc, out, b"[")?;
    put_spaced(alloc, out, items, life)?;
    put(alloc, out, b"]")?;
    Ok(())
}

/// Appends the text of a value.
#[cycle(text)]
fn put_value<L: Life>(
    alloc: Global,
    out: &mut Str,
    value: &Value,
    quoted: bool,
    life: &L,
) -> Result<(), TextFail>
    requires { IsTrue (fits (L.living life.now) (plain value.now)) }
    ensures { let w = L.living life.now in
        Appends result out.old (text_of w quoted (plain value.now)) out.new }
{
    match value {
        Value::Number(number) => {
            let digits = number.text(alloc)?;
            put(alloc, out, digits.as_bytes())
        }
        Value::Truth(truth) => put_truth(alloc, out, *truth),
        Value::Words(words) => put_words(alloc, out, words.as_bytes(), quoted),
        Value::Blank => put_words(alloc, out, &[], quoted),
        Value::Items(items) => put_items(alloc, out, items, life),
        Value::Nobody => put(alloc, out, b"nobody"),
        Value::Turtle(_) | Value::Patch(_) | Value::Link(_) | Value::Set(_) => {
            put_named(alloc, out, value, life)
        }
    }
}

/// The text of a value: a number's shortest decimal form, `true` or `false`, a text as it is or between quotes with the
/// escapes `\n`, `\t`, `\\` and `\"`, a list as `[1 "a" [2]]` with its texts between quotes, and what the `Life` names an
/// agent or a set. The text of nobody and of a dead agent is `nobody`. A text of more than 999,999 bytes is TooLarge.
pub fn text<L: Life>(alloc: Global, value: &Value, quoted: bool, life: &L) -> Result<Str, TextFail>
    requires { IsTrue (fits (L.living life.now) (plain value.now)) }
    ensures text { let w = L.living life.now in
        IfOk result (λ text. text ≡ text_of w quoted (plain value.now)) }
    ensures within { IfOk result (λ text. length text ≤ most_bytes) }
    ensures large { let whole = text_of (L.living life.now) quoted (plain value.now) in
        result ≡ Err TextFail.TooLarge → most_bytes < length whole }
{
    let mut out = Str::of_vec(Vec::new(alloc));
    put_value(alloc, &mut out, value, quoted, life)?;
    Ok(out)
}
