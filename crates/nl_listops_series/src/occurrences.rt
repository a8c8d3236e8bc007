//! Searches for texts in texts, by characters.
ghost use Rattle.std.specs.Prelude.{◌≡◌, ◌+◌, ◌<◌, ◌≤◌, length, drop, IfOk};
ghost use Rattle.nl_fixed.specs.Characters.{characters, begins};
ghost use Rattle.nl_listops_series.specs.Searches.{begin_with, place_of_text, text_without};
ghost use Rattle.nl_listops_series.specs.inner.Pieces.{skipped};

use nl_fixed::{NoMemory, Str};
use std::alloc::Global;

/// Whether a byte begins a character, wherever it stands.
fn begins(byte: u8) -> bool
    ensures { result ≡ begins byte }
{
    !(128 <= byte && byte <= 191)
}

/// Whether these bytes begin with the characters of the others.
fn begin_with(bytes: &[u8], part: &[u8]) -> bool
    ensures { result ≡ begin_with (characters part.now) (characters bytes.now) }
{
    if bytes.len() < part.len() {
        return false;
    }
    let (front, back) = bytes.split_at(part.len());
    match back {
        _ if part.is_empty() => true,
        _ if front != part => false,
        [] => true,
        [next, ..] => begins(*next),
    }
}

/// The place behind the character at a place.
fn end_of_character(bytes: &[u8], place: usize) -> usize
    requires { place < length bytes.now }
    ensures end { drop result bytes.now ≡ skipped (drop (place + 1) bytes.now) }
    ensures behind { place < result }
    ensures within { result ≤ length bytes.now }
{
    for end in place + 1..bytes.len() {
        if begins(bytes[end]) {
            return end;
        }
    }
    bytes.len()
}

/// The first place, in characters, from which on the text has the characters of the part.
pub fn place_of_text(part: &Str, text: &Str) -> Option<usize>
    ensures { result ≡ place_of_text part.now text.now }
{
    let part = part.as_bytes();
    let bytes = text.as_bytes();
    let mut place = 0;
    let mut index = 0;
    while place < bytes.len() {
        if begin_with(&bytes[place..], part) {
            return Some(index);
        }
        place = end_of_character(bytes, place);
        index += 1;
    }
    if part.is_empty() { Some(index) } else { None }
}

/// The text without the occurrences of the part, sought from the left. The empty text takes nothing away.
pub fn text_without(alloc: Global, part: &Str, text: &Str) -> Result<Str, NoMemory>
    ensures { IfOk result (λ rest. rest ≡ text_without part.now text.now) }
{
    let part = part.as_bytes();
    let bytes = text.as_bytes();
    if part.is_empty() {
        return text.copy(alloc);
    }
    let mut rest = Str::of_vec(Vec::new(alloc));
    let mut place = 0;
    while place < bytes.len() {
        if begin_with(&bytes[place..], part) {
            place += part.len();
        } else {
            let end = end_of_character(bytes, place);
            rest.append(alloc, &bytes[place..end])?;
            place = end;
        }
    }
    Ok(rest)
}
