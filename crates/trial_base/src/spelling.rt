//! Words and texts of numbers, by rows that were worked out apart from the program.

use nl_fixed::NoMemory;
use nl_fixed::number::{Num, NumFault};
use std::alloc::Global;

/// The count or the fault that a word reads as.
fn count_of(word: &[u8]) -> Option<Result<i64, NumFault>> {
    match Num::read(word)? {
        Ok(number) => Some(Ok(number.millionths())),
        Err(fault) => Some(Err(fault)),
    }
}

const NUMBERS: &[(&str, i64)] = &[
    ("1e3", 1_000_000_000),
    (".5", 500_000),
    ("-.5", -500_000),
    ("5.", 5_000_000),
    (".5E-01", 50_000),
    ("0", 0),
    ("-0", 0),
    ("007", 7_000_000),
    ("1.5e-1", 150_000),
    ("1E+2", 100_000_000),
    ("0.0000005", 1),
    ("-0.0000005", 0),
    ("-0.0000015", -1),
    ("-0.00000051", -1),
    ("000000000000000000000000000007", 7_000_000),
    ("123456789012345678901234567890e-20", 1_234_567_890_123_457),
    ("1e-99", 0),
    ("0e99", 0),
    ("9000000000000", 9_000_000_000_000_000_000),
    ("-9e12", -9_000_000_000_000_000_000),
    ("9000000000000.0000004", 9_000_000_000_000_000_000),
    ("-9000000000000.0000005", -9_000_000_000_000_000_000),
];

/// Whether the word reads as a number of so many millionths.
fn reads_as(word: &[u8], wanted: i64) -> bool {
    match count_of(word) {
        Some(Ok(count)) => count == wanted,
        _ => false,
    }
}

/// Whether the word reads as a number out of range.
fn overflows(word: &[u8]) -> bool {
    matches!(count_of(word), Some(Err(NumFault::Overflow)))
}

#[test]
fn words_read_as_these_counts(rt: HostRuntime) {
    for &(word, wanted) in NUMBERS {
        assert!(rt; reads_as(word.as_bytes(), wanted), "{word}");
    }
}

const TOO_LONG_OR_FAR: &[&str] = &[
    "0000000000000000000000000000007",
    "0.000000000000000000000000000001",
    "123456789012345678901234567890",
    "1e99",
    "1e13",
    "9000000000000.000001",
    "-9000000000000.000001",
    "9000000000000.0000005",
];

#[test]
fn words_overflow_past_thirty_digits_or_the_range(rt: HostRuntime) {
    for word in TOO_LONG_OR_FAR {
        assert!(rt; overflows(word.as_bytes()), "{word}");
    }
}

const NO_NUMBERS: &[&str] = &[
    "",
    "-",
    ".",
    "-.",
    "1e",
    "1e+",
    "e5",
    ".e5",
    "1e100",
    "1e5x",
    "1e1.5",
    "1.2.3",
    "--1",
    "+1",
    "x-1",
    "1-",
    "0000000000000000000000000000007x",
];

#[test]
fn words_without_the_form_are_no_numbers(rt: HostRuntime) {
    for word in NO_NUMBERS {
        assert!(rt; Num::read(word.as_bytes()).is_none(), "{word}");
    }
}

/// Whether a word of so many digits overflows, and with a letter behind it is no number.
fn is_refused_at(alloc: Global, digits: usize) -> Result<bool, NoMemory> {
    let mut word = vec![in alloc; b'9'; digits]?;
    let overflow = overflows(word.as_slice());
    word.push(b'x')?;
    Ok(overflow && Num::read(word.as_slice()).is_none())
}

#[test]
fn a_word_of_four_million_digits_is_refused(rt: HostRuntime) {
    assert!(rt; matches!(is_refused_at(rt.alloc(), 4_194_304), Ok(true)));
}

const TEXTS: &[(i64, &str)] = &[
    (0, "0"),
    (5_000_000, "5"),
    (-5_000_000, "-5"),
    (500_000, "0.5"),
    (-500_000, "-0.5"),
    (1, "0.000001"),
    (-1, "-0.000001"),
    (10_010_000, "10.01"),
    (2_680_000, "2.68"),
    (9_000_000_000_000_000_000, "9000000000000"),
    (-9_000_000_000_000_000_000, "-9000000000000"),
    (-8_999_999_999_999_999_999, "-8999999999999.999999"),
];

/// Whether the number of so many millionths has this text.
fn has_text(alloc: Global, count: i64, wanted: &str) -> bool {
    let Some(number) = Num::new(count) else {
        return false;
    };
    match number.text(alloc) {
        Ok(text) => text.as_bytes() == wanted.as_bytes(),
        Err(_) => false,
    }
}

#[test]
fn counts_have_these_texts(rt: HostRuntime) {
    for &(count, wanted) in TEXTS {
        assert!(rt; has_text(rt.alloc(), count, wanted), "{wanted}");
    }
}
