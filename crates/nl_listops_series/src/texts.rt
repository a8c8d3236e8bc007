//! Texts by their characters. What a word does to a list's items it does to a text's characters.
ghost use Rattle.std.specs.Prelude.{◌≡◌, ◌≤◌, ◌++◌, [], false, IsTrue, IfOk, length, map, slice_range};
ghost use Rattle.std.specs.List.{concat, list_all};
ghost use Rattle.nl_fixed.specs.Characters.{begins, characters, character_count};
ghost use Rattle.nl_value.specs.Living.{fits};
ghost use Rattle.nl_value.specs.Plain.{PlainWords};
ghost use Rattle.nl_value.specs.Views.{plain};
ghost use Rattle.nl_listops_series.specs.Outcomes.{Gives, outcome_map, kept_within};
ghost use Rattle.nl_value.specs.Limits.{most_bytes};
ghost use Rattle.nl_value.specs.Text.{text_of};
ghost use Rattle.nl_listops_series.specs.inner.Pieces.{before};
ghost use Rattle.nl_listops_series.specs.inner.Puts.{PutsText};
ghost use Rattle.nl_listops_series.specs.Texts.{first_character, last_character, character_at, text_without_first, text_without_last, text_without_at, text_replaced_at, text_inserted_at, text_part_of, text_reversed, word_of};

use crate::fail::ListFail;
use crate::places::{index_of, place_below};
use nl_fixed::{NoMemory, Num, Str};
use nl_value::measures::MOST_SIZE;
use nl_value::texts::{TextFail, text};
use nl_value::{Life, Value};
use std::alloc::Global;

/// The place of the byte at which the character of an index begins, and the length at the index that is their number.
fn place_at(text: &Str, index: usize) -> usize
    requires { index ≤ character_count text.now }
    ensures place { result ≡ before (characters text.now) index }
    ensures within { result ≤ length text.now }
{
    match text.char_place(index) {
        Some(place) => place,
        None => unreachable!(),
    }
}

/// The bytes of the characters from one index up to another.
fn characters_between(text: &Str, from: usize, to: usize) -> &[u8]
    requires ordered { from ≤ to }
    requires within { to ≤ character_count text.now }
    ensures { result.now ≡ concat (slice_range (characters text.now) from to) }
{
    let start = place_at(text, from);
    let end = place_at(text, to);
    &text.as_bytes()[start..end]
}

/// The first character. OutOfList where there is none.
pub fn first_character(alloc: Global, text: &Str) -> Result<Str, ListFail>
    ensures { Gives result (first_character text.now) }
{
    if text.char_count() == 0 {
        return Err(ListFail::OutOfList);
    }
    Ok(Str::of(alloc, characters_between(text, 0, 1))?)
}

/// The last character. OutOfList where there is none.
pub fn last_character(alloc: Global, text: &Str) -> Result<Str, ListFail>
    ensures { Gives result (last_character text.now) }
{
    let count = text.char_count();
    if count == 0 {
        return Err(ListFail::OutOfList);
    }
    Ok(Str::of(alloc, characters_between(text, count - 1, count))?)
}

/// The text without its first character. OutOfList where there is none.
pub fn text_without_first(alloc: Global, text: &Str) -> Result<Str, ListFail>
    ensures { Gives result (text_without_first text.now) }
{
    let count = text.char_count();
    if count == 0 {
        return Err(ListFail::OutOfList);
    }
    Ok(Str::of(alloc, characters_between(text, 1, count))?)
}

/// The text without its last character. OutOfList where there is none.
pub fn text_without_last(alloc: Global, text: &Str) -> Result<Str, ListFail>
    ensures { Gives result (text_without_last text.now) }
{
    let count = text.char_count();
    if count == 0 {
        return Err(ListFail::OutOfList);
    }
    Ok(Str::of(alloc, characters_between(text, 0, count - 1))?)
}

/// The character at a place. OutOfList where there is none.
pub fn character_at(alloc: Global, number: Num, text: &Str) -> Result<Str, ListFail>
    ensures { Gives result (character_at number text.now) }
{
    let place = place_below(number, text.char_count())?;
    Ok(Str::of(alloc, characters_between(text, place, place + 1))?)
}

/// The bytes in front, those between and those behind, as one text.
fn joined(alloc: Global, front: &[u8], between: &[u8], back: &[u8]) -> Result<Str, NoMemory>
    ensures { IfOk result (λ all. all ≡ front.now ++ (between.now ++ back.now)) }
{
    let mut all = Str::of(alloc, front)?;
    all.append(alloc, between)?;
    all.append(alloc, back)?;
    Ok(all)
}

/// The text without the character at a place. OutOfList where there is none.
pub fn text_without_at(alloc: Global, number: Num, text: &Str) -> Result<Str, ListFail>
    ensures { Gives result (text_without_at number text.now) }
{
    let count = text.char_count();
    let place = place_below(number, count)?;
    let front = characters_between(text, 0, place);
    let back = characters_between(text, place + 1, count);
    Ok(joined(alloc, front, &[], back)?)
}

/// The text with another one in place of the character at a place. OutOfList where there is none.
pub fn text_replaced_at(
    alloc: Global,
    number: Num,
    text: &Str,
    other: &Str,
) -> Result<Str, ListFail>
    ensures { Gives result (text_replaced_at number text.now other.now) }
{
    let count = text.char_count();
    let place = place_below(number, count)?;
    let front = characters_between(text, 0, place);
    let back = characters_between(text, place + 1, count);
    Ok(joined(alloc, front, other.as_bytes(), back)?)
}

/// The text with another one put in at a place, which may be the end. OutOfList beyond.
pub fn text_inserted_at(
    alloc: Global,
    number: Num,
    text: &Str,
    other: &Str,
) -> Result<Str, ListFail>
    ensures { Gives result (text_inserted_at number text.now other.now) }
{
    let count = text.char_count();
    match index_of(number) {
        Some(place) if place <= count => {
            let front = characters_between(text, 0, place);
            let back = characters_between(text, place, count);
            Ok(joined(alloc, front, other.as_bytes(), back)?)
        }
        _ => Err(ListFail::OutOfList),
    }
}

/// The characters from the first place up to, but not with, the second. OutOfList unless both lie within the text or at its end,
/// and the second not before the first.
pub fn text_part_of(alloc: Global, first: Num, second: Num, text: &Str) -> Result<Str, ListFail>
    ensures { Gives result (text_part_of first second text.now) }
{
    match (index_of(first), index_of(second)) {
        (Some(from), Some(to)) if from <= to && to <= text.char_count() => {
            Ok(Str::of(alloc, characters_between(text, from, to))?)
        }
        _ => Err(ListFail::OutOfList),
    }
}

/// Whether a byte begins a character, wherever it stands.
fn begins(byte: u8) -> bool
    ensures { result ≡ begins byte }
{
    !(128 <= byte && byte <= 191)
}

/// The characters, the last one first.
pub fn text_reversed(alloc: Global, text: &Str) -> Result<Str, NoMemory>
    ensures { IfOk result (λ turned. turned ≡ text_reversed text.now) }
{
    let bytes = text.as_bytes();
    let mut turned = Str::of_vec(Vec::new(alloc));
    let mut end = bytes.len();
    for place in (0..bytes.len()).rev() {
        if place == 0 || begins(bytes[place]) {
            turned.append(alloc, &bytes[place..end])?;
            end = place;
        }
    }
    Ok(turned)
}

/// How many bytes a text has at most as a value.
const MOST_BYTES: usize = MOST_SIZE as usize - 1;

/// Appends the text of a value, without quotes. TooLarge where the whole would pass the limit on values.
fn put_text<L: Life>(
    alloc: Global,
    whole: &mut Str,
    value: &Value,
    life: &L,
) -> Result<(), ListFail>
    requires fit { IsTrue (fits (L.living life.now) (plain value.now)) }
    requires within { length whole.old ≤ most_bytes }
    ensures { let more = text_of (L.living life.now) false (plain value.now) in
        PutsText result whole.old more whole.new }
{
    match text(alloc, value, false, life) {
        Ok(more) => {
            if MOST_BYTES - whole.as_bytes().len() < more.as_bytes().len() {
                return Err(ListFail::TooLarge);
            }
            whole.append(alloc, more.as_bytes())?;
            Ok(())
        }
        Err(TextFail::TooLarge) => Err(ListFail::TooLarge),
        Err(TextFail::NoMemory) => Err(ListFail::NoMemory),
    }
}

/// The texts of the values, without quotes, in one. TooLarge where that passes the limit on values.
pub fn word<L: Life>(alloc: Global, values: &[Value], life: &L) -> Result<Str, ListFail>
    requires { IsTrue (list_all (fits (L.living life.now)) (map plain values.now)) }
    ensures { let whole = word_of (L.living life.now) (map plain values.now) in
        Gives (outcome_map PlainWords result) (kept_within (PlainWords whole)) }
{
    let mut whole = Str::of_vec(Vec::new(alloc));
    for value in values {
        put_text(alloc, &mut whole, value, life)?;
    }
    Ok(whole)
}
