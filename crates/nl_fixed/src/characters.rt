//! The characters of texts.
//!
//! A text is a list of bytes, and its characters are those of UTF-8 where it is UTF-8. What counts as one elsewhere is
//! this project's own: a byte from 128 to 191 goes on with the character before it, and each other byte begins one.
ghost use Rattle.std.specs.Prelude.{◌≡◌, ◌≤◌, length, count_by, IfSome};
ghost use Rattle.nl_fixed.specs.Characters.{begins, character_count, character_place, CharactersJoin, CharactersAreUnique, PlacesCut, CharactersAreScalars};
ghost use Rattle.nl_fixed.specs.inner.Beginnings.{beginning_place};

use crate::text::Str;

/// Whether a byte begins a character, wherever it stands.
fn begins(byte: u8) -> bool
    ensures { result ≡ begins byte }
{
    !(128 <= byte && byte <= 191)
}

/// How many of these bytes begin a character.
fn beginning_count(bytes: &[u8]) -> usize
    ensures { result ≡ count_by begins bytes.now }
{
    bytes.iter().filter(|byte| begins(**byte)).count()
}

/// The place of the byte that begins a character and before which `index` others do; the length where just so many
/// do in all, and None where fewer do.
fn beginning_place(bytes: &[u8], index: usize) -> Option<usize>
    ensures value { result ≡ beginning_place bytes.now index }
    ensures within { IfSome result (λ place. place ≤ length bytes.now) }
{
    let mut left = index;
    for (place, byte) in bytes.iter().enumerate() {
        if begins(*byte) {
            if left == 0 {
                return Some(place);
            }
            left -= 1;
        }
    }
    if left == 0 { Some(bytes.len()) } else { None }
}

impl Str {
    /// How many characters the text has.
    pub fn char_count(&self) -> usize
        ensures { result ≡ character_count self.now }
    {
        let bytes = self.as_bytes();
        if bytes.is_empty() {
            return 0;
        }
        1 + beginning_count(&bytes[1..])
    }

    /// The place of the byte at which the character of this index begins, both counted from 0. The place at the index
    /// that is the number of characters is the text's length. None exactly where the index is greater.
    pub fn char_place(&self, index: usize) -> Option<usize>
        ensures { result ≡ character_place self.now index }
    {
        if index == 0 {
            return Some(0);
        }
        let bytes = self.as_bytes();
        if bytes.is_empty() {
            return None;
        }
        match beginning_place(&bytes[1..], index - 1) {
            Some(place) => Some(1 + place),
            None => None,
        }
    }
}

/// The characters of a text, joined, are the text; none is empty; and no other list of characters is so. This function
/// and those below do nothing: the contract of each is a law.
pub fn characters_join()
    ensures join { CharactersJoin }
    ensures unique { CharactersAreUnique }
{}

/// At the place of an index a text is cut into the characters before the index and those from it on.
pub fn places_cut()
    ensures { PlacesCut }
{}

/// The characters of a text in UTF-8 are its scalar values.
pub fn characters_are_scalars()
    ensures { CharactersAreScalars }
{}
