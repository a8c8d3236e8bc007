//! Texts with their tokens and faults, by rows that were worked out apart from the program.

ghost use Rattle.std.specs.Prelude.{IsTrue};
ghost use Rattle.nl_scan.specs.Texts.{LiesIn};

use nl_fixed::{NoMemory, Str};
use nl_scan::{
    Lexeme, ScanKind, ScanRefusal, Source, Token, Tokens, bytes_of, code_part, line_column, scan,
    text_of, word_of,
};
use std::alloc::Global;
use std::test::Fail;

// A token with its value left out: `w` for a word, `n` for a number, `t` for a text, and brackets for themselves.
fn sign(lexeme: Lexeme) -> u8 {
    match lexeme {
        Lexeme::Word => b'w',
        Lexeme::Number(_) => b'n',
        Lexeme::Text => b't',
        Lexeme::Open => b'[',
        Lexeme::Close => b']',
        Lexeme::OpenParen => b'(',
        Lexeme::CloseParen => b')',
    }
}

// Lets go of a thing by one call: what ends inside of a function is walked there, once on each way out.
fn let_go<T: Drop>(_thing: T) {}

// A token with its value left out, its first byte and its length.
type Row = (u8, u32, u32);

fn is_row(token: &Token, row: &Row) -> bool {
    sign(token.lexeme) == row.0 && token.span.start == row.1 && token.span.len == row.2
}

fn are_rows(tokens: &[Token], rows: &[Row]) -> bool {
    if tokens.len() != rows.len() {
        return false;
    }
    for (token, row) in tokens.iter().zip(rows) {
        if !is_row(token, row) {
            return false;
        }
    }
    true
}

// Whether a text was cut into these tokens.
fn is_cut(scanned: &Result<Tokens, ScanRefusal>, wanted: &[Row]) -> bool {
    match scanned {
        Ok(tokens) => are_rows(tokens.as_slice(), wanted),
        Err(_) => false,
    }
}

// Whether a text was refused for this.
fn is_refused(scanned: &Result<Tokens, ScanRefusal>, wanted: ScanRefusal) -> bool {
    match scanned {
        Ok(_) => false,
        Err(refusal) => *refusal == wanted,
    }
}

// Whether the text has these tokens.
fn has_tokens(alloc: Global, text: &[u8], wanted: &[Row]) -> bool {
    let scanned = scan(alloc, text);
    let answer = is_cut(&scanned, wanted);
    let_go(scanned);
    answer
}

// Whether the text has this fault.
fn has_fault(alloc: Global, text: &[u8], kind: ScanKind, place: u32) -> bool {
    let scanned = scan(alloc, text);
    let answer = is_refused(&scanned, ScanRefusal::Fault { kind, place });
    let_go(scanned);
    answer
}

#[test]
fn texts_are_cut_into_these_tokens(rt: HostRuntime) {
    let rows: [(&str, &[(u8, u32, u32)]); 12] = [
        ("", &[]),
        (" \t\r\n", &[]),
        ("; é€", &[]),
        (
            "x-1 -1 1e 1e3",
            &[(b'w', 0, 3), (b'n', 4, 2), (b'w', 7, 2), (b'n', 10, 3)],
        ),
        (
            ".5 -.5 5. -",
            &[(b'n', 0, 2), (b'n', 3, 3), (b'n', 7, 2), (b'w', 10, 1)],
        ),
        ("1.5x 007", &[(b'w', 0, 4), (b'n', 5, 3)]),
        (".?=*!<>:#+/%$_^'&-", &[(b'w', 0, 18)]),
        (
            "[(])",
            &[(b'[', 0, 1), (b'(', 1, 1), (b']', 2, 1), (b')', 3, 1)],
        ),
        ("a;b\"c\nd", &[(b'w', 0, 1), (b'w', 6, 1)]),
        ("\"a b;[\"x", &[(b't', 0, 7), (b'w', 7, 1)]),
        ("a\"\"b", &[(b'w', 0, 1), (b't', 1, 2), (b'w', 3, 1)]),
        ("\"é\\n\\t\\\\\\\"\"", &[(b't', 0, 12)]),
    ];
    for (text, wanted) in rows {
        assert!(rt; has_tokens(rt.alloc(), text.as_bytes(), wanted), "{text}");
    }
}

// Whether the only token is a number of so many millionths.
fn is_number(tokens: &[Token], millionths: i64) -> bool {
    match tokens {
        [token] => match token.lexeme {
            Lexeme::Number(number) => number.millionths() == millionths,
            _ => false,
        },
        _ => false,
    }
}

// Whether the text is a number of so many millionths.
fn writes(alloc: Global, text: &[u8], millionths: i64) -> bool {
    match scan(alloc, text) {
        Ok(tokens) => is_number(tokens.as_slice(), millionths),
        Err(_) => false,
    }
}

#[test]
fn numbers_have_these_counts(rt: HostRuntime) {
    for (text, wanted) in [
        ("1e3", 1_000_000_000),
        ("-.5", -500_000),
        ("5.", 5_000_000),
        ("0.0000005", 1),
    ] {
        assert!(rt; writes(rt.alloc(), text.as_bytes(), wanted), "{text}");
    }
}

#[test]
fn the_first_fault_is_told(rt: HostRuntime) {
    let rows: [(&[u8], ScanKind, u32); 17] = [
        (b"\"a\\qb\"", ScanKind::BadEscape, 2),
        (b"x \"a\\q\" ,", ScanKind::BadEscape, 4),
        (b"\"a\\\xc3\xa9\"", ScanKind::BadEscape, 2),
        (b"\"ab", ScanKind::OpenText, 0),
        (b"\"a\nb\"", ScanKind::OpenText, 0),
        (b"\"a\\\nb\"", ScanKind::OpenText, 0),
        (b"\"a\\qb", ScanKind::OpenText, 0),
        (b"x \"\\\"", ScanKind::OpenText, 2),
        (b"a ,b", ScanKind::BadChar, 2),
        (b"a\\b", ScanKind::BadChar, 1),
        (b"ab\xc3\xa9", ScanKind::BadChar, 2),
        (b", \"", ScanKind::BadChar, 0),
        (b"a 1e99 ,", ScanKind::BadNumber, 2),
        (b"9000000000000.000001", ScanKind::BadNumber, 0),
        (b", 1e99 \"\xff", ScanKind::NotText, 8),
        (b"\xff", ScanKind::NotText, 0),
        (b"; \x80", ScanKind::NotText, 2),
    ];
    for (text, kind, place) in rows {
        assert!(rt; has_fault(rt.alloc(), text, kind, place), "{place}");
    }
}

// Whether the bytes are told behind these, and where a text ends behind both.
fn are_told_behind(alloc: Global, before: &str, bytes: &[u8]) -> Result<bool, NoMemory> {
    let mut text = before.as_bytes().to_vec(alloc)?;
    text.extend_from_slice(bytes)?;
    let Ok(place) = u32::try_from(before.len()) else {
        return Ok(false);
    };
    let at_the_end = has_fault(alloc, text.as_slice(), ScanKind::NotText, place);
    text.extend_from_slice(b"\"\n")?;
    Ok(at_the_end && has_fault(alloc, text.as_slice(), ScanKind::NotText, place))
}

// Whether the bytes are told behind a word, in a text, in a comment and behind a letter of two bytes.
fn are_told_anywhere(alloc: Global, bytes: &[u8]) -> Result<bool, NoMemory> {
    for before in ["a ", "\"", "; ", "é"] {
        if !are_told_behind(alloc, before, bytes)? {
            return Ok(false);
        }
    }
    Ok(true)
}

#[test]
fn bytes_that_are_no_text_are_told_anywhere(rt: HostRuntime) -> Result<(), Fail> {
    // A byte that begins nothing, two that are too long a form, a surrogate, one cut short, and one past the last.
    let faulty: [&[u8]; 6] = [
        b"\x80",
        b"\xc0\xaf",
        b"\xe0\x80\xaf",
        b"\xed\xa0\x80",
        b"\xe2\x82",
        b"\xf4\x90\x80\x80",
    ];
    for bytes in faulty {
        assert!(rt; are_told_anywhere(rt.alloc(), bytes)?);
    }
    Ok(())
}

#[test]
fn a_text_may_have_as_many_bytes_as_the_limit(rt: HostRuntime) -> Result<(), Fail> {
    let mut text = vec![in rt.alloc(); b' '; 4_194_304]?;
    assert!(rt; has_tokens(rt.alloc(), text.as_slice(), &[]));
    text.push(b'\xff')?;
    assert!(rt; has_fault(rt.alloc(), text.as_slice(), ScanKind::TooLong, 4_194_304));
    Ok(())
}

// What the first token says, if it is a text.
fn first_content(alloc: Global, text: &[u8]) -> Result<Option<Str>, NoMemory> {
    let Ok(tokens) = scan(alloc, text) else {
        return Ok(None);
    };
    match tokens.as_slice().get(0) {
        Some(token) => match token.lexeme {
            Lexeme::Text => Ok(Some(text_of(alloc, text, token)?)),
            _ => Ok(None),
        },
        None => Ok(None),
    }
}

// Whether this is what a text says.
fn is_said(content: &Result<Option<Str>, NoMemory>, wanted: &[u8]) -> bool {
    match content {
        Ok(Some(said)) => said.as_bytes() == wanted,
        _ => false,
    }
}

// Whether the first token is a text that says this.
fn says(alloc: Global, text: &[u8], wanted: &[u8]) -> bool {
    let content = first_content(alloc, text);
    let answer = is_said(&content, wanted);
    let_go(content);
    answer
}

#[test]
fn texts_say_what_stands_between_their_quotes(rt: HostRuntime) {
    for (text, wanted) in [
        ("\"\"", ""),
        ("\"a b\" x", "a b"),
        ("\"é\\n\\t\\\\\\\"\"", "é\n\t\\\""),
        ("\"\\\\n\"", "\\n"),
        ("\"a\tb;\"", "a\tb;"),
    ] {
        assert!(rt;
            says(rt.alloc(), text.as_bytes(), wanted.as_bytes()),
            "{wanted}"
        );
    }
}

#[test]
fn the_code_ends_before_the_first_section_line(rt: HostRuntime) {
    for (file, code) in [
        ("", ""),
        ("a", "a"),
        ("a\n@#$#@#$#@\nb", "a\n"),
        ("a\n@#$#@#$#@", "a\n"),
        ("@#$#@#$#@\na", ""),
        ("a\r\n@#$#@#$#@\nb\n@#$#@#$#@\n", "a\r\n"),
        ("\n\n@#$#@#$#@\n", "\n\n"),
        // No line that is only this.
        ("a\n@#$#@#$#@\r\nb", "a\n@#$#@#$#@\r\nb"),
        ("a @#$#@#$#@\nb", "a @#$#@#$#@\nb"),
        ("a\n@#$#@#$#@ \n", "a\n@#$#@#$#@ \n"),
        ("a\n@#$#@#$#\n", "a\n@#$#@#$#\n"),
    ] {
        assert!(rt; code_part(file.as_bytes()) == code.as_bytes(), "{file}");
    }
}

#[test]
fn places_have_these_lines_and_columns(rt: HostRuntime) {
    for (text, place, wanted) in [
        ("", 0, (1, 1)),
        ("ab\ncd", 0, (1, 1)),
        ("ab\ncd", 2, (1, 3)),
        ("ab\ncd", 3, (2, 1)),
        ("ab\ncd", 5, (2, 3)),
        ("ab\ncd", 9, (2, 3)),
        ("é\r\n", 3, (1, 4)),
        ("é\r\n", 4, (2, 1)),
    ] {
        assert!(rt; line_column(text.as_bytes(), place) == wanted, "{place}");
    }
}

// Whether this is the word of the kind.
fn is_shown(alloc: Global, kind: ScanKind, word: &str) -> Result<bool, Fail> {
    let shown = format!(in alloc; "{kind}")?;
    Ok(shown.as_str() == word)
}

#[test]
fn kinds_have_these_words(rt: HostRuntime) -> Result<(), Fail> {
    for (kind, word) in [
        (ScanKind::TooLong, "TooLong"),
        (ScanKind::NotText, "NotText"),
        (ScanKind::BadChar, "BadChar"),
        (ScanKind::OpenText, "OpenText"),
        (ScanKind::BadEscape, "BadEscape"),
        (ScanKind::BadNumber, "BadNumber"),
    ] {
        assert!(rt; is_shown(rt.alloc(), kind, word)?, "{word}");
    }
    Ok(())
}

// Whether the token lies in the text.
fn lies_in(text: &[u8], token: &Token) -> bool
    ensures { IsTrue result → LiesIn text.now token.now.span }
{
    let start = token.span.start as usize;
    start <= text.len() && token.span.len as usize <= text.len() - start
}

// Whether the token has these bytes and this word.
fn is_word(
    alloc: Global,
    text: &[u8],
    token: &Token,
    bytes: &[u8],
    word: &[u8],
) -> Result<bool, NoMemory> {
    if !lies_in(text, token) || bytes_of(text, token) != bytes {
        return Ok(false);
    }
    let found = word_of(alloc, text, token)?;
    Ok(found.as_bytes() == word)
}

// Whether the second of three tokens has these bytes and this word.
fn is_second_word(alloc: Global, text: &[u8], bytes: &[u8], word: &[u8]) -> Result<bool, NoMemory> {
    let Ok(tokens) = scan(alloc, text) else {
        return Ok(false);
    };
    match tokens.as_slice() {
        [_, token, _] => is_word(alloc, text, token, bytes, word),
        _ => Ok(false),
    }
}

#[test]
fn a_word_is_its_bytes_in_lower_case(rt: HostRuntime) -> Result<(), Fail> {
    let text = b" x Set-SHAPE! y";
    assert!(rt; is_second_word(rt.alloc(), text, b"Set-SHAPE!", b"set-shape!")?);
    Ok(())
}

// Whether there are four tokens of the text, which begin at these places.
fn begins_at(source: &Source, text: &[u8], places: &[(usize, u32)]) -> bool {
    let starts = places
        .iter()
        .all(|(index, place)| source.start_of(*index) == *place);
    starts && source.tokens().len() == 4 && source.text() == text
}

#[test]
fn tokens_begin_at_these_places_and_the_text_ends_behind_them(rt: HostRuntime) {
    let text = b" ab [ \"c\" ] ".as_slice();
    let places = [(0, 1), (1, 4), (2, 6), (3, 10), (4, 12), (99, 12)];
    match scan(rt.alloc(), text) {
        Ok(tokens) => {
            let source = Source::new(text, tokens.as_slice());
            assert!(rt; begins_at(&source, text, places.as_slice()));
        }
        Err(_) => assert!(rt; false, "tokens"),
    }
}

// Words of one letter, with a space behind each.
fn words(alloc: Global, count: usize) -> Result<Vec<u8>, NoMemory> {
    let mut text = Vec::new(alloc);
    'words: for _ in 0..count {
        text.extend_from_slice(b"a ")?;
    }
    Ok(text)
}

// Whether there are so many tokens, of which the last is this.
fn ends_with(scanned: &Result<Tokens, ScanRefusal>, count: usize, row: &Row) -> bool {
    match scanned {
        Ok(tokens) => match tokens.as_slice() {
            [.., token] => tokens.as_slice().len() == count && is_row(token, row),
            [] => false,
        },
        Err(_) => false,
    }
}

#[test]
fn a_text_may_have_very_many_tokens(rt: HostRuntime) -> Result<(), Fail> {
    let text = words(rt.alloc(), 100_000)?;
    let scanned = scan(rt.alloc(), text.as_slice());
    let answer = ends_with(&scanned, 100_000, &(b'w', 199_998, 1));
    let_go(scanned);
    assert!(rt; answer);
    Ok(())
}

// Whether the fault of these bytes is told behind very many tokens.
fn is_told_late(alloc: Global, bytes: &[u8], kind: ScanKind, place: u32) -> Result<bool, NoMemory> {
    let mut text = words(alloc, 100_000)?;
    text.extend_from_slice(bytes)?;
    Ok(has_fault(alloc, text.as_slice(), kind, place))
}

#[test]
fn a_fault_behind_very_many_tokens_is_told_as_itself(rt: HostRuntime) -> Result<(), Fail> {
    let faulty: [(&[u8], ScanKind, u32); 5] = [
        (b",", ScanKind::BadChar, 200_000),
        (b"\"", ScanKind::OpenText, 200_000),
        (b"\"\\q\"", ScanKind::BadEscape, 200_001),
        (b"1e99", ScanKind::BadNumber, 200_000),
        (b"\xff", ScanKind::NotText, 200_000),
    ];
    for (bytes, kind, place) in faulty {
        assert!(rt; is_told_late(rt.alloc(), bytes, kind, place)?);
    }
    Ok(())
}

// The bytes so many times, within quotes where this is asked for.
fn repeated(alloc: Global, piece: &str, quoted: bool) -> Result<Vec<u8>, NoMemory> {
    let quote = if quoted { "\"" } else { "" };
    let mut text = quote.as_bytes().to_vec(alloc)?;
    'pieces: for _ in 0..20_000 {
        text.extend_from_slice(piece.as_bytes())?;
    }
    text.extend_from_slice(quote.as_bytes())?;
    Ok(text)
}

#[test]
fn a_text_may_say_very_much(rt: HostRuntime) -> Result<(), Fail> {
    let text = repeated(rt.alloc(), "aé\\n\\\"\\\\", true)?;
    let wanted = repeated(rt.alloc(), "aé\n\"\\", false)?;
    assert!(rt; says(rt.alloc(), text.as_slice(), wanted.as_slice()));
    Ok(())
}
