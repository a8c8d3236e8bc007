//! What begins a text: a gap, a token, or a fault.
ghost use Rattle.std.specs.Prelude.{◌≡◌, ◌≤◌, ◌<◌, ◌+◌, suc, ℕ, length, drop, take, false, IfSome, is_some};
ghost use Rattle.std.specs.List.{prefix_len};
ghost use Rattle.nl_fixed.specs.Spelling.{read_of};
ghost use Rattle.nl_scan.specs.Forms.{bracket_of, first_bad_escape, is_escape, is_in_line, is_mark, is_word_byte};
ghost use Rattle.nl_scan.specs.inner.Pieces.{IsPieceWithin, closed_length, form_at, piece_at, piece_by, leading_word, quoted_piece};

use crate::token::{Lexeme, ScanKind};
use nl_fixed::Num;

/// What begins with a byte.
#[derive(Clone, Copy)]
pub(crate) enum Form {
    Space,
    Comment,
    Word,
    Quoted,
    Bracket,
}

/// What stands at the beginning of a text, and how many bytes it has; of a fault, how many bytes stand before it.
#[derive(Clone, Copy)]
pub(crate) enum Piece {
    Gap(usize),
    Found(Lexeme, usize),
    Bad(ScanKind, usize),
}

// Whether a byte is one of the marks that stand in words.
fn is_mark(byte: u8) -> bool
    ensures { result ≡ is_mark byte }
{
    matches!(
        byte,
        b'.' | b'?'
            | b'='
            | b'*'
            | b'!'
            | b'<'
            | b'>'
            | b':'
            | b'#'
            | b'+'
            | b'/'
            | b'%'
            | b'$'
            | b'_'
            | b'^'
            | b'\''
            | b'&'
            | b'-'
    )
}

// Whether a word goes on with this byte.
fn continues_word(byte: u8) -> bool
    ensures { result ≡ is_word_byte byte }
{
    byte.is_ascii_alphanumeric() || is_mark(byte)
}

// The bracket or parenthesis that a byte is.
fn bracket(byte: u8) -> Option<Lexeme>
    ensures { result ≡ bracket_of byte }
{
    match byte {
        b'[' => Some(Lexeme::Open),
        b']' => Some(Lexeme::Close),
        b'(' => Some(Lexeme::OpenParen),
        b')' => Some(Lexeme::CloseParen),
        _ => None,
    }
}

// What begins with this byte, if anything does.
fn form_of(byte: u8) -> Option<Form>
    ensures { result ≡ form_at byte }
{
    match byte {
        b' ' | b'\t' | b'\r' | b'\n' => Some(Form::Space),
        b';' => Some(Form::Comment),
        b'"' => Some(Form::Quoted),
        _ if bracket(byte).is_some() => Some(Form::Bracket),
        _ if continues_word(byte) => Some(Form::Word),
        _ => None,
    }
}

// How many bytes of a word stand at the beginning.
fn word_len(text: &[u8]) -> usize
    ensures is { result ≡ prefix_len is_word_byte text.now }
    ensures within { result ≤ length text.now }
{
    'bytes: for (at, byte) in text.iter().enumerate() {
        if !continues_word(*byte) {
            return at;
        }
    }
    text.len()
}

// How many bytes stand before the first line end.
pub(crate) fn line_len(text: &[u8]) -> usize
    ensures is { result ≡ prefix_len is_in_line text.now }
    ensures within { result ≤ length text.now }
{
    'bytes: for (at, byte) in text.iter().enumerate() {
        if *byte == b'\n' {
            return at;
        }
    }
    text.len()
}

// How many of the bytes behind a quote a text has, its closing quote among them, if it is closed on its line.
fn closed_len(behind_quote: &[u8]) -> Option<usize>
    ensures is { result ≡ closed_length false behind_quote.now }
    ensures within { IfSome result (λ len. len ≤ length behind_quote.now) }
{
    let mut escaped = false;
    'bytes: for (at, byte) in behind_quote.iter().enumerate() {
        if *byte == b'\n' {
            return None;
        }
        if !escaped && *byte == b'"' {
            return Some(at + 1);
        }
        escaped = !escaped && *byte == b'\\';
    }
    None
}

// Whether a backslash and this byte are an escape.
fn is_escape(byte: u8) -> bool
    ensures { result ≡ is_escape byte }
{
    matches!(byte, b'n' | b't' | b'\\' | b'"')
}

// Where the first backslash without an escape stands, counted from the quote before these bytes.
fn bad_escape(behind_quote: &[u8]) -> Option<usize>
    ensures { result ≡ first_bad_escape false behind_quote.now }
{
    let mut escaped = false;
    'bytes: for (at, byte) in behind_quote.iter().enumerate() {
        if escaped && !is_escape(*byte) {
            return Some(at);
        }
        escaped = !escaped && *byte == b'\\';
    }
    None
}

// The word that stands at the beginning.
fn word(text: &[u8]) -> Piece
    ensures { result ≡ leading_word text.now }
{
    let len = word_len(text);
    match Num::read(&text[..len]) {
        None => Piece::Found(Lexeme::Word, len),
        Some(Ok(number)) => Piece::Found(Lexeme::Number(number), len),
        Some(Err(_)) => Piece::Bad(ScanKind::BadNumber, 0),
    }
}

// The text behind a quote.
fn quoted(behind_quote: &[u8]) -> Piece
    ensures { result ≡ quoted_piece (closed_length false behind_quote.now) behind_quote.now }
{
    let Some(len) = closed_len(behind_quote) else {
        return Piece::Bad(ScanKind::OpenText, 0);
    };
    match bad_escape(&behind_quote[..len]) {
        None => Piece::Found(Lexeme::Text, len + 1),
        Some(before) => Piece::Bad(ScanKind::BadEscape, before),
    }
}

/// What stands at the beginning.
pub(crate) fn first_piece(text: &[u8]) -> Piece
    requires { 0 < length text.now }
    ensures is { result ≡ piece_at text.now }
    ensures within { IsPieceWithin (length text.now) result }
{
    let behind = &text[1..];
    match form_of(text[0]) {
        Some(Form::Space) => Piece::Gap(1),
        Some(Form::Comment) => Piece::Gap(line_len(behind) + 1),
        Some(Form::Word) => word(text),
        Some(Form::Quoted) => quoted(behind),
        Some(Form::Bracket) => match bracket(text[0]) {
            Some(lexeme) => Piece::Found(lexeme, 1),
            None => Piece::Bad(ScanKind::BadChar, 0),
        },
        None => Piece::Bad(ScanKind::BadChar, 0),
    }
}
