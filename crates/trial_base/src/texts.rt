//! Texts, their characters and lists of them, by rows and far past the usual sizes.

use nl_fixed::NoMemory;
use nl_fixed::lists::{Cells, Names};
use nl_fixed::text::Str;
use std::alloc::Global;

// A text, how many characters it has, an index, and the place at which its character begins.
const TEXTS: &[(&str, usize, usize, Option<usize>)] = &[
    ("", 0, 0, Some(0)),
    ("", 0, 1, None),
    ("ab", 2, 1, Some(1)),
    ("ab", 2, 2, Some(2)),
    ("ab", 2, 3, None),
    ("a\u{e9}\u{20ac}\u{1f600}", 4, 1, Some(1)),
    ("a\u{e9}\u{20ac}\u{1f600}", 4, 2, Some(3)),
    ("a\u{e9}\u{20ac}\u{1f600}", 4, 3, Some(6)),
    ("a\u{e9}\u{20ac}\u{1f600}", 4, 4, Some(10)),
    ("a\u{e9}\u{20ac}\u{1f600}", 4, 5, None),
    ("\u{20ac}a", 2, 1, Some(3)),
];

// The same of bytes that are no text.
const BROKEN: &[(&[u8], usize, usize, Option<usize>)] = &[
    (b"\x80\xbfa\x80", 2, 0, Some(0)),
    (b"\x80\xbfa\x80", 2, 1, Some(2)),
    (b"\x80\xbfa\x80", 2, 2, Some(4)),
    (b"\x80", 1, 1, Some(1)),
    (b"\xc3a", 2, 1, Some(1)),
    (b"\xff\xc0\x7f", 3, 2, Some(2)),
    (b"a\x80\x80\x80\x80\x80b", 2, 1, Some(6)),
    (b"\xf0\x9f\x98", 1, 1, Some(3)),
];

/// Whether the bytes are so many characters, of which the one at the index begins at this place.
fn has_characters(
    alloc: Global,
    bytes: &[u8],
    count: usize,
    index: usize,
    place: Option<usize>,
) -> bool {
    match Str::of(alloc, bytes) {
        Ok(text) => text.char_count() == count && text.char_place(index) == place,
        Err(_) => false,
    }
}

#[test]
fn characters_of_one_to_four_bytes_and_of_broken_texts(rt: HostRuntime) {
    for &(text, count, index, place) in TEXTS {
        assert!(rt;
            has_characters(rt.alloc(), text.as_bytes(), count, index, place),
            "at {index}"
        );
    }
    for &(bytes, count, index, place) in BROKEN {
        assert!(rt;
            has_characters(rt.alloc(), bytes, count, index, place),
            "at {index}"
        );
    }
}

/// A text of so many accented letters, of two bytes each.
fn accents(alloc: Global, count: u32) -> Result<Str, NoMemory> {
    let mut text = Str::of(alloc, b"")?;
    for _ in 0..count {
        text.append(alloc, "\u{e9}".as_bytes())?;
    }
    text.append(alloc, b"")?;
    Ok(text)
}

/// Whether the characters of a hundred thousand accented letters stand at their places.
fn are_placed(text: &Str) -> bool {
    text.as_bytes().len() == 200_000
        && text.char_count() == 100_000
        && text.char_place(99_999) == Some(199_998)
        && text.char_place(100_000) == Some(200_000)
        && text.char_place(100_001).is_none()
}

/// Whether a copy of the text is the same text, and has twice the characters when the text stands behind it too.
fn is_doubled(alloc: Global, text: &Str) -> Result<bool, NoMemory> {
    let mut again = text.copy(alloc)?;
    let same = again.as_bytes() == text.as_bytes();
    again.append(alloc, text.as_bytes())?;
    Ok(same && again.char_count() == 200_000)
}

/// Whether a hundred thousand accented letters are placed and doubled.
fn accents_are_kept(alloc: Global) -> Result<bool, NoMemory> {
    let text = accents(alloc, 100_000)?;
    Ok(are_placed(&text) && is_doubled(alloc, &text)?)
}

#[test]
fn a_text_of_a_hundred_thousand_characters(rt: HostRuntime) {
    assert!(rt; matches!(accents_are_kept(rt.alloc()), Ok(true)));
}

/// So many names.
fn wolves(alloc: Global, count: u32) -> Result<Names, NoMemory> {
    let mut names = Names::empty(alloc);
    for _ in 0..count {
        names.push(alloc, Str::of(alloc, b"wolf")?)?;
    }
    Ok(names)
}

/// So many empty cells.
fn blanks(alloc: Global, count: u32) -> Result<Cells, NoMemory> {
    let mut cells = Cells::empty(alloc);
    for _ in 0..count {
        cells.push(alloc, Str::of(alloc, b"")?)?;
    }
    Ok(cells)
}

/// Whether a hundred thousand names are kept, up to the last one.
fn names_are_kept(alloc: Global) -> Result<bool, NoMemory> {
    let names = wolves(alloc, 100_000)?;
    let last = match names.as_slice().last() {
        Some(name) => name.as_bytes() == b"wolf".as_slice(),
        None => false,
    };
    Ok(last && names.as_slice().len() == 100_000)
}

/// Whether a hundred thousand cells are kept.
fn cells_are_kept(alloc: Global) -> Result<bool, NoMemory> {
    let cells = blanks(alloc, 100_000)?;
    Ok(cells.as_slice().len() == 100_000)
}

#[test]
fn a_hundred_thousand_names_and_cells(rt: HostRuntime) {
    assert!(rt; matches!(names_are_kept(rt.alloc()), Ok(true)));
    assert!(rt; matches!(cells_are_kept(rt.alloc()), Ok(true)));
}
